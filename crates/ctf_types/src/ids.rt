//! The ids of the events before.

ghost use Rattle.std.specs.Prelude.{◌≡◌, ◌⊎◌, ◌<◌, ◌^◌, ◌&&◌, ◌||◌, ℕ, true, false, nat_eq, MatchResult, OnOk};
ghost use Rattle.ctf_meaning.specs.declared.fault.ResolveFault.TheVariants as fault;
ghost use Rattle.ctf_types.specs.Ids.{has};

use ctf_meaning::ResolveFault;
use std::alloc::Global;
use std::collections::BTreeSet;

/// The ids of events by their streams' ids.
#[derive(Drop)]
pub struct Ids {
    /// The stream's id in the upper half, the event's in the lower.
    keys: BTreeSet<u128>,
}

impl Ids {
    /// The ids of no events.
    pub fn new(alloc: Global) -> Ids
        ensures { (stream id : ℕ) → has result stream id ≡ false }
    {
        Ids {
            keys: BTreeSet::new(alloc),
        }
    }

    /// Keeps the id of an event of a stream. It fails with `Twice` where there was one.
    pub fn add(&mut self, stream: u64, id: u64) -> Result<(), ResolveFault>
        ensures told { MatchResult result
            (λ _. has self.old stream id ≡ false)
            (λ f. (f ≡ fault.NoMemory) ⊎ ((f ≡ fault.Twice) × (has self.old stream id ≡ true))) }
        ensures fits { id < 2 ^ 64 }
        ensures kept { OnOk result ((s i : ℕ) → i < 2 ^ 64 →
            has self.new s i ≡ ((nat_eq stream s && nat_eq i id) || has self.old s i)) }
    {
        let key = (u128::from(stream) << 64) + u128::from(id);
        if !self.keys.insert(key)? {
            return Err(ResolveFault::Twice);
        }
        Ok(())
    }
}
