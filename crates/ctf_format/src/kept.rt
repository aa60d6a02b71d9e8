//! Numbers that are kept while a record goes by its plan.

ghost use Rattle.std.specs.Prelude.{◌≡◌, ◌∷◌, ◌++◌, [], get_or, length, take, Option, IfSome, OnOk};
ghost use Rattle.ctf_class.specs.declared.route.Scope.{Scope as ClassScope};
ghost use Rattle.ctf_decode.specs.Values.{Val};
ghost use Rattle.ctf_format.specs.Found.{SharesPacket};
ghost use Rattle.ctf_format.specs.Kept.{BeginsWith, IsCounted};
ghost use Rattle.ctf_format.specs.declared.standing.Last.TheVariants as lasts;

use crate::given::given_number;
use crate::standing::Last;
use ctf_class::{Count, RecordPlan, Route};
use ctf_decode::Scopes;
use ctf_list::{List, NoMemory};
use std::alloc::Global;

/// The memory for numbers of a record that lengths and tags after them ask for. It is used again for each record.
#[derive(Drop)]
pub struct KeptNumbers {
    pub(crate) numbers: List<Last>,
}

impl KeptNumbers {
    /// None. No memory is taken.
    pub fn new(alloc: Global) -> KeptNumbers {
        KeptNumbers {
            numbers: List::new(alloc),
        }
    }

    /// Keeps the numbers that a plan is given before a record; the values of the packet's header and context are in
    /// `scopes`. It fails where an allocation fails.
    #[inline(always)]
    pub fn begin(&mut self, plan: &RecordPlan, scopes: &Scopes) -> Result<(), NoMemory>
        ensures { OnOk result ((earlier : ClassScope → Option Val) →
            SharesPacket scopes.now earlier →
            BeginsWith plan.now.given self.new.numbers earlier) }
    {
        if plan.given.is_empty() {
            return Ok(());
        }
        self.keep_given(plan.given.as_slice(), scopes)
    }

    /// Keeps the numbers of these routes. It is out of the way of plans that are given none.
    #[inline(never)]
    fn keep_given(&mut self, given: &[Route], scopes: &Scopes) -> Result<(), NoMemory>
        ensures { OnOk result ((earlier : ClassScope → Option Val) →
            SharesPacket scopes.now earlier → BeginsWith given.now self.new.numbers earlier) }
    {
        self.numbers.clear();
        for route in given {
            self.numbers.push(given_number(route, scopes))?;
        }
        Ok(())
    }

    /// How many are kept.
    #[inline(always)]
    pub(crate) fn len(&self) -> usize
        ensures { result ≡ length self.now.numbers }
    {
        self.numbers.len()
    }

    /// Keeps one more. It fails where an allocation fails.
    #[inline(always)]
    pub(crate) fn push(&mut self, number: Last) -> Result<(), NoMemory>
        ensures { OnOk result (self.new.numbers ≡ self.old.numbers ++ number ∷ []) }
    {
        self.numbers.push(number)?;
        Ok(())
    }

    /// Forgets all but the first ones, of which there are so many.
    #[inline(always)]
    pub(crate) fn forget(&mut self, count: usize)
        ensures { self.new.numbers ≡ take count self.old.numbers }
    {
        self.numbers.truncate(count);
    }

    /// The one of a place, if it is known.
    #[inline(always)]
    pub(crate) fn number(&self, place: usize) -> Last
        ensures { result ≡ get_or self.now.numbers place lasts.Unknown }
    {
        let numbers = self.numbers.as_slice();
        if place < numbers.len() {
            numbers[place]
        } else {
            Last::Unknown
        }
    }

    /// How many elements a field of a branch has, if that is known.
    #[inline(always)]
    pub(crate) fn count(&self, count: Count) -> Option<u64>
        ensures { IfSome result (IsCounted count self.now.numbers) }
    {
        match count {
            Count::Fixed(count) => Some(count),
            Count::Kept(place) => match self.number(place) {
                Last::Unsigned(number) => Some(number),
                Last::Label(_) | Last::Unknown => None,
            },
        }
    }
}
