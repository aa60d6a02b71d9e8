//! Structures whose members are integers at fixed distances.

ghost use Rattle.std.specs.Prelude.{◌≡◌, ◌+◌, ◌%◌, ◌^◌, ◌++◌, ◌<◌, ◌≤◌, List, [], length, IsTrue, IfOk, IfSome};
ghost use Rattle.ctf_class.specs.PlanBuilding.{IsMade};
ghost use Rattle.ctf_class.specs.Records.{Slot, IsStructure, member_slots};
ghost use Rattle.ctf_class.specs.declared.class.Kind as kinds;

use crate::align::Align;
use crate::class::{Class, Kind, Member};
use crate::many::Many;
use crate::plan_builder::{Lead, PlanBuilder};
use crate::planned_number::{PlannedNumber, have_special};
use ctf_list::{List, NoMemory};
use std::alloc::Global;

/// An array of structures of integers that are at fixed distances from a structure's begin, which is the first bit of a
/// byte (CTF 1.8.3, section 4.2.1).
#[derive(Drop)]
pub struct Structures {
    /// The alignment at which the numbers begin.
    pub align: Align,
    pub numbers: List<PlannedNumber>,
    /// Whether some of them are special.
    pub has_special: bool,
    /// How many bits the numbers take.
    pub span: u64,
    /// How many bytes of a line the numbers of one structure take at the most, and `PREPARED_HEAD` more.
    pub room: usize,
    /// How many values one structure has, itself among them.
    pub count: u64,
    pub many: Many,
}

impl Structures {
    /// So many structures of this class, if it is one of those.
    pub(crate) fn new(
        alloc: Global,
        class: &Class,
        many: Many,
    ) -> Result<Option<Structures>, NoMemory>
        ensures is { IfOk result (λ made. IfSome made (IsStructure class.now)) }
        ensures many { IfOk result (λ made. IfSome made (λ are. are.many ≡ many)) }
    {
        let Kind::Structure { members } = &class.kind else {
            return Ok(None);
        };
        let members = members.as_slice();
        if members.is_empty() || class.align.bits() < 8 {
            return Ok(None);
        }
        let mut builder = PlanBuilder::new(alloc, None, List::new(alloc));
        if !builder.add_integers(alloc, class.align, members)? {
            return Ok(None);
        }
        // An array without elements ends where the structure would begin, and not its first number.
        if builder.align.bits() != class.align.bits() {
            return Ok(None);
        }
        let count = members.len() as u64 + 1;
        Ok(Some(builder.into_structures(count, many)))
    }
}

impl PlanBuilder {
    /// Adds the members of a structure as numbers of the open run, the first at an alignment. Whether all can be.
    fn add_integers(
        &mut self,
        alloc: Global,
        begin: Align,
        members: &[Member],
    ) -> Result<bool, NoMemory>
        requires few { self.old.room ≤ 2 ^ 18 }
        requires near { self.old.span ≤ 2 ^ 33 }
        ensures branches { IfOk result
            (λ took. IsTrue took → self.new.branches ≡ self.old.branches) }
        ensures runs { IfOk result (λ took. IsTrue took → self.new.runs ≡ self.old.runs) }
        ensures made { IfOk result (λ took. IsTrue took → (done : List Slot) →
            IsMade done self.old → IsMade (done ++ member_slots begin members.now) self.new) }
    {
        let mut text = b"{ ".as_slice();
        let mut align = begin;
        for (i, member) in members.iter().enumerate() {
            let lead = Lead {
                text,
                align,
                index: i,
                place: i,
            };
            if !self.add_integer(alloc, &lead, member)? {
                return Ok(false);
            }
            text = b", ";
            align = Align::one_bit();
        }
        Ok(true)
    }

    /// The structure whose members are the open run, so many times, where one is so many values.
    fn into_structures(self, count: u64, many: Many) -> Structures
        requires bare { self.branches ≡ [] }
        requires alone { self.runs ≡ [] }
        ensures is { (k : Class) (ms : List Member) → k.kind ≡ kinds.Structure ms →
            0 < length ms → count ≡ 1 + length ms → self.align ≡ k.align →
            self.align % 8 ≡ 0 → IsMade (member_slots k.align ms) self →
            IsStructure k result }
        ensures many { result.many ≡ many }
    {
        let PlanBuilder {
            begins_whole: _,
            wanted: _,
            trail: _,
            known: _,
            branches: _,
            runs: _,
            align,
            numbers,
            span,
            room,
            count: _,
            ended: _,
        } = self;
        Structures {
            align,
            has_special: have_special(numbers.as_slice()),
            numbers,
            span,
            room,
            count,
            many,
        }
    }
}
