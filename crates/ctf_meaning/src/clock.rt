//! Clocks where metadata says nothing of them.

/// Cycles a second of a clock without a `freq`, and of a trace without a clock (own; CTF 1.8.3, section 8).
pub const DEFAULT_FREQUENCY: u64 = 1_000_000_000;
