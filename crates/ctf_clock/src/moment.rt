//! Points in time.

/// A value of a clock, and the time that it gives.
#[derive(Clone, Copy)]
pub struct Moment {
    /// In cycles of the clock.
    pub cycles: u64,
    /// In nanoseconds since the epoch.
    pub time: i64,
}

/// What is added to each time.
#[derive(Clone, Copy)]
pub struct Shift {
    pub seconds: i64,
    pub nanos: i64,
}
