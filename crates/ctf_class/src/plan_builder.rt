//! Plans of event records while they are built.

ghost use Rattle.std.specs.Prelude.{ℕ, ◌≡◌, ◌+◌, ◌%◌, ◌∷◌, ◌++◌, [], ◌^◌, ◌<◌, ◌≤◌, false, length, map, max, IsTrue, IsFalse, IfOk, IfSome, OnOk, option_copied};
ghost use Rattle.ctf_class.specs.declared.route.Route.{Route as RouteOf};
ghost use Rattle.std.specs.Int.{next_multiple_of};
ghost use Rattle.ctf_class.specs.Alignment.{IsLarger};
ghost use Rattle.ctf_class.specs.PlanBuilding.{AddsPiece, AddsPieces, IsMade, IsMadeOf, at_of, before_scope, empty_scope, moved_by, slot_of, with_branch, with_field, with_number, with_scope, with_structure};
ghost use Rattle.ctf_class.specs.Records.{Slot, ScopeClass, IsPlanned, IsShown, and_scope, ends, first_at, opened_lead};
ghost use Rattle.ctf_class.specs.Names.{field_text};
ghost use Rattle.ctf_class.specs.declared.class.Kind as kinds;

use crate::align::Align;
use crate::class::{Class, Kind, Member};
use crate::field_name::FieldName;
use crate::fitted::fitted;
use crate::integer::Integer;
use crate::known::{Move, moved};
use crate::planned_number::{PlannedNumber, have_special, is_special};
use crate::prepared_text::{PREPARED_HEAD, PreparedText};
use crate::record_plan::{Branch, Branches, PlannedField, PlannedRun, RecordPlan};
use crate::route::{Route, Scope};
use crate::shown::{Shown, shown_of};
use crate::wanted::{Wanted, index_of, scope_number};
use ctf_bits::Window;
use ctf_list::{List, NoMemory, Shared};
use std::alloc::Global;
use std::mem;

/// How many bytes the number of an integer takes in a line at the most: `0b` and 64 digits.
pub const LONGEST_NUMBER: usize = 66;

/// How many bytes of a line a run may take where it gets one more number, so that buffers stay short.
const MOST_ROOM: usize = 8192;

/// The farthest distance of a number, in bits.
const FARTHEST: u64 = 1 << 32;

/// The longest text before a value, in bytes. A name of the stream event context is in the plan of each event, so a
/// longer one could take much memory.
const LONGEST_TEXT: usize = 1 << 10;

/// What is before a member of a structure.
#[derive(Clone, Copy)]
pub(crate) struct Lead<'a> {
    /// What is printed before its name.
    pub(crate) text: &'a [u8],
    /// The alignment of the structures that it begins, or 1.
    pub(crate) align: Align,
    /// How many members of its structure are before it, or 0 where the one before it is a structure that is gone into.
    pub(crate) index: usize,
    /// How many members of its structure are before it; those before its variant, if it is an option.
    pub(crate) place: usize,
}

/// A plan on its way.
#[derive(Drop)]
pub(crate) struct PlanBuilder {
    /// Whether the first run begins at a byte, wherever it is.
    pub(crate) begins_whole: bool,
    /// Which members' numbers are kept; none without it.
    pub(crate) wanted: Option<Shared<Wanted>>,
    /// The way to the structure whose members are added: the number of its scope, and the indices of members.
    pub(crate) trail: List<u32>,
    /// The routes to the numbers that are kept so far, from where the plan goes on.
    pub(crate) known: List<Route>,
    /// The branches so far.
    pub(crate) branches: List<Branch>,
    /// The runs since that are whole.
    pub(crate) runs: List<PlannedRun>,
    /// The alignment of the open run, and its numbers.
    pub(crate) align: Align,
    pub(crate) numbers: List<PlannedNumber>,
    /// How many bits the numbers of the open run take.
    pub(crate) span: u64,
    /// How many bytes of a line they take at the most, and `PREPARED_HEAD` more.
    pub(crate) room: usize,
    /// How many values the scopes so far have, and the structures that were gone into since.
    pub(crate) count: u32,
    /// How many structures end, one in the other, where the last field does, the scope among them once it is whole.
    pub(crate) ended: u32,
}

impl PlanBuilder {
    /// A plan of no scopes, with which members' numbers are kept, and the routes to those that are kept before.
    pub(crate) fn new(
        alloc: Global,
        wanted: Option<Shared<Wanted>>,
        known: List<Route>,
    ) -> PlanBuilder
        ensures made { IsMadeOf known [] result }
        ensures known { result.known ≡ known }
        ensures branches { result.branches ≡ [] }
        ensures runs { result.runs ≡ [] }
        ensures count { result.count ≡ 0 }
        ensures few { result.room ≤ 2 ^ 18 }
        ensures near { result.span ≤ 2 ^ 33 }
    {
        PlanBuilder {
            begins_whole: true,
            wanted,
            trail: List::new(alloc),
            known,
            branches: List::new(alloc),
            runs: List::new(alloc),
            align: Align::one_bit(),
            numbers: List::new(alloc),
            span: 0,
            room: PREPARED_HEAD,
            count: 0,
            ended: 0,
        }
    }

    /// A plan of nothing, for an option or an element.
    pub(crate) fn within(&self, alloc: Global) -> Result<PlanBuilder, NoMemory>
        ensures made { IfOk result (IsMade []) }
        ensures known { IfOk result (λ inner. inner.known ≡ self.now.known) }
        ensures count { IfOk result (λ inner. inner.count ≡ 0) }
        ensures few { IfOk result (λ inner. inner.room ≤ 2 ^ 18) }
        ensures near { IfOk result (λ inner. inner.span ≤ 2 ^ 33) }
    {
        let wanted = match &self.wanted {
            Some(wanted) => Some(wanted.clone()?),
            None => None,
        };
        let known = moved(alloc, self.known.as_slice(), Move::Within)?;
        let mut inner = PlanBuilder::new(alloc, wanted, known);
        inner.begins_whole = false;
        inner.trail.extend_from_slice(self.trail.as_slice())?;
        Ok(inner)
    }

    /// The plan of what was added, before which the numbers of these routes are kept.
    pub(crate) fn finish(self, given: List<Route>) -> Result<RecordPlan, NoMemory>
        ensures fields { IfOk result (λ plan. (done : List Slot) → IsMade done self →
            (depth : ℕ) × IsPlanned depth done plan) }
        ensures given { IfOk result (λ plan. plan.given ≡ given) }
        ensures count { IfOk result (λ plan. plan.count ≡ self.count) }
        ensures ended { IfOk result (λ plan. plan.ended ≡ self.ended) }
    {
        let PlanBuilder {
            begins_whole: _,
            wanted: _,
            trail: _,
            known: _,
            branches,
            mut runs,
            align,
            numbers,
            span,
            room,
            count,
            ended,
        } = self;
        let branches = Branches::Listed(fitted(branches));
        if numbers.is_empty() && !runs.is_empty() {
            return Ok(RecordPlan {
                given,
                branches,
                runs: fitted(runs),
                count,
                ended,
            });
        }
        runs.push(PlannedRun {
            align,
            has_special: have_special(numbers.as_slice()),
            numbers: fitted(numbers),
            span,
            room,
            field: None,
        })?;
        Ok(RecordPlan {
            given,
            branches,
            runs: fitted(runs),
            count,
            ended,
        })
    }

    /// Adds a scope if there is one. Whether that could be done.
    pub(crate) fn add_optional(
        &mut self,
        alloc: Global,
        scope: Scope,
        class: Option<&Class>,
    ) -> Result<bool, NoMemory>
        requires few { self.old.room ≤ 2 ^ 18 }
        requires near { self.old.span ≤ 2 ^ 33 }
        ensures few { IfOk result (λ took. IsTrue took → self.new.room ≤ 2 ^ 18) }
        ensures near { IfOk result (λ took. IsTrue took → self.new.span ≤ 2 ^ 33) }
        ensures made { IfOk result (λ took. IsTrue took →
            (given : List RouteOf) (ks : List ScopeClass) → IsMadeOf given ks self.old →
            IsMadeOf given (ks ++ and_scope scope (option_copied class.entry) []) self.new) }
    {
        match class {
            Some(class) => self.add_scope(alloc, scope, class),
            None => Ok(true),
        }
    }

    /// Adds a scope. Whether that could be done.
    pub(crate) fn add_scope(
        &mut self,
        alloc: Global,
        scope: Scope,
        class: &Class,
    ) -> Result<bool, NoMemory>
        requires few { self.old.room ≤ 2 ^ 18 }
        requires near { self.old.span ≤ 2 ^ 33 }
        ensures few { IfOk result (λ took. IsTrue took → self.new.room ≤ 2 ^ 18) }
        ensures near { IfOk result (λ took. IsTrue took → self.new.span ≤ 2 ^ 33) }
        ensures made { IfOk result (λ took. IsTrue took →
            (given : List RouteOf) (ks : List ScopeClass) → IsMadeOf given ks self.old →
            IsMadeOf given (ks ++ (scope, class.now) ∷ []) self.new) }
    {
        let Kind::Structure { members } = &class.kind else {
            return Ok(false);
        };
        let members = members.as_slice();
        let mut text = self.before_scope(alloc)?;
        self.trail.clear();
        self.trail.push(scope_number(scope))?;
        self.go(alloc, Move::Inside)?;
        let took = if members.is_empty() {
            self.add_empty(alloc, text.as_slice(), class.align)?
        } else {
            text.extend_from_slice(b"{ ")?;
            self.add_members(alloc, text, class.align, members)?
                && self.end_structure(members.len() + 1)
        };
        self.go(alloc, Move::Later(scope))?;
        Ok(took)
    }

    /// Goes on from elsewhere.
    pub(crate) fn go(&mut self, alloc: Global, by: Move) -> Result<(), NoMemory>
        ensures { OnOk result
            (self.new ≡ record self.old { known = map (moved_by by) self.old.known }) }
    {
        self.known = moved(alloc, self.known.as_slice(), by)?;
        Ok(())
    }

    /// What is printed before the next scope.
    fn before_scope(&self, alloc: Global) -> Result<List<u8>, NoMemory>
        ensures { IfOk result (λ text. text ≡ before_scope self.now.count self.now.ended) }
    {
        if self.count == 0 {
            return Ok(List::new(alloc));
        }
        after_ends(alloc, self.ended, b", ")
    }

    /// Adds a scope without members after a text: as a field. Whether that could be done.
    fn add_empty(&mut self, alloc: Global, text: &[u8], align: Align) -> Result<bool, NoMemory>
        requires few { self.old.room ≤ 2 ^ 18 }
        ensures { IfOk result
            (λ took. IsTrue took → self.new ≡ with_scope self.old (empty_scope text.now align)) }
    {
        if text.len() > LONGEST_TEXT {
            return Ok(false);
        }
        let Some(count) = with_members(self.count, 1) else {
            return Ok(false);
        };
        let ready = PreparedText::new(alloc, text)?;
        self.add_field(
            alloc,
            PlannedField {
                ready,
                align: Align::one_bit(),
                shown: Shown::Empty(align),
            },
        )?;
        self.count = count;
        Ok(true)
    }

    /// Ends a structure of so many values. Whether these can be counted.
    pub(crate) fn end_structure(&mut self, values: usize) -> bool
        ensures { IsTrue result → self.new ≡ with_structure self.old values }
    {
        let Some(count) = with_members(self.count, values) else {
            return false;
        };
        let Some(ended) = self.ended.checked_add(1) else {
            return false;
        };
        self.count = count;
        self.ended = ended;
        true
    }

    /// Adds the members of a structure, the first after a text and at an alignment. Whether that could be done.
    #[cycle(plan)]
    pub(crate) fn add_members(
        &mut self,
        alloc: Global,
        first: List<u8>,
        begin: Align,
        members: &[Member],
    ) -> Result<bool, NoMemory>
        requires few { self.old.room ≤ 2 ^ 18 }
        requires near { self.old.span ≤ 2 ^ 33 }
        ensures few { IfOk result (λ took. IsTrue took → self.new.room ≤ 2 ^ 18) }
        ensures near { IfOk result (λ took. IsTrue took → self.new.span ≤ 2 ^ 33) }
        ensures made { IfOk result (λ took. IsTrue took → (done : List Slot) →
            IsMade done self.old →
            AddsPieces (first_at first begin self.old.known) members.now done self.old self.new) }
    {
        let mut text = first;
        let mut align = begin;
        let mut index = 0;
        for (i, member) in members.iter().enumerate() {
            let lead = Lead {
                text: text.as_slice(),
                align,
                index,
                place: i,
            };
            let is_kept = self.keeps(alloc, &lead, member, members.get(i + 1))?;
            if !self.add_one(alloc, &lead, member, is_kept)? {
                return Ok(false);
            }
            text = after_ends(alloc, self.ended, b", ")?;
            align = Align::one_bit();
            index = if self.ended == 0 { i + 1 } else { 0 };
        }
        Ok(true)
    }

    /// Adds a member of a structure, whose number is kept or is not. Whether that could be done.
    #[cycle(plan)]
    fn add_one(
        &mut self,
        alloc: Global,
        lead: &Lead<'_>,
        member: &Member,
        is_kept: bool,
    ) -> Result<bool, NoMemory>
        requires few { self.old.room ≤ 2 ^ 18 }
        requires near { self.old.span ≤ 2 ^ 33 }
        ensures few { IfOk result (λ took. IsTrue took → self.new.room ≤ 2 ^ 18) }
        ensures near { IfOk result (λ took. IsTrue took → self.new.span ≤ 2 ^ 33) }
        ensures made { IfOk result (λ took. IsTrue took → (done : List Slot) →
            IsMade done self.old →
            AddsPiece lead.now.place (at_of lead.now self.old.known) member.now done
            self.old self.new) }
    {
        if is_kept {
            self.add_kept(alloc, lead, member)
        } else {
            self.add_member(alloc, lead, member)
        }
    }

    /// Adds a member of a structure, whose number is not kept. Whether that could be done.
    #[cycle(plan)]
    pub(crate) fn add_member(
        &mut self,
        alloc: Global,
        lead: &Lead<'_>,
        member: &Member,
    ) -> Result<bool, NoMemory>
        requires few { self.old.room ≤ 2 ^ 18 }
        requires near { self.old.span ≤ 2 ^ 33 }
        ensures few { IfOk result (λ took. IsTrue took → self.new.room ≤ 2 ^ 18) }
        ensures near { IfOk result (λ took. IsTrue took → self.new.span ≤ 2 ^ 33) }
        ensures made { IfOk result (λ took. IsTrue took → (done : List Slot) →
            IsMade done self.old →
            AddsPiece lead.now.place (at_of lead.now self.old.known) member.now done
            self.old self.new) }
    {
        if self.add_integer(alloc, lead, member)? {
            return Ok(true);
        }
        if let Kind::Structure { members } = &member.class.kind {
            if !members.is_empty() {
                return self.add_inner(alloc, lead, member, members.as_slice());
            }
        }
        self.add_shown(alloc, lead, member)
    }

    /// Adds the members of a member that is a structure. Whether that could be done.
    #[cycle(plan)]
    fn add_inner(
        &mut self,
        alloc: Global,
        lead: &Lead<'_>,
        member: &Member,
        members: &[Member],
    ) -> Result<bool, NoMemory>
        requires few { self.old.room ≤ 2 ^ 18 }
        requires near { self.old.span ≤ 2 ^ 33 }
        requires is { member.now.class.kind ≡ kinds.Structure members.now }
        requires some { 0 < length members.now }
        ensures few { IfOk result (λ took. IsTrue took → self.new.room ≤ 2 ^ 18) }
        ensures near { IfOk result (λ took. IsTrue took → self.new.span ≤ 2 ^ 33) }
        ensures made { IfOk result (λ took. IsTrue took → (done : List Slot) →
            IsMade done self.old →
            AddsPiece lead.now.place (at_of lead.now self.old.known) member.now done
            self.old self.new) }
    {
        // Structures that begin with one another have all their names in one text.
        if is_long(lead.text, &member.name) {
            return Ok(false);
        }
        let depth = self.trail.len();
        self.trail.push(index_of(lead.place)?)?;
        self.go(alloc, Move::Inside)?;
        let text = opened(alloc, lead.text, &member.name)?;
        let begin = lead.align.larger(member.class.align);
        if !self.add_members(alloc, text, begin, members)? {
            return Ok(false);
        }
        self.trail.truncate(depth);
        self.go(alloc, Move::After(lead.place))?;
        Ok(self.end_structure(members.len()))
    }

    /// Adds a member as a field after the open run, or as one of a branch. Whether it can be one.
    #[cycle(plan)]
    fn add_shown(
        &mut self,
        alloc: Global,
        lead: &Lead<'_>,
        member: &Member,
    ) -> Result<bool, NoMemory>
        requires few { self.old.room ≤ 2 ^ 18 }
        ensures few { IfOk result (λ took. IsTrue took → self.new.room ≤ 2 ^ 18) }
        ensures near { IfOk result (λ took. IsTrue took → self.new.span ≤ 2 ^ 33) }
        ensures made { IfOk result (λ took. IsTrue took → (done : List Slot) →
            IsMade done self.old →
            AddsPiece lead.now.place (at_of lead.now self.old.known) member.now done
            self.old self.new) }
    {
        let Some(ready) = ready_after(alloc, lead.text, &member.name)? else {
            return Ok(false);
        };
        let Some(shown) = self.field_of(alloc, lead.index, &member.class)? else {
            return self.add_nested(alloc, ready, lead, &member.class);
        };
        self.add_field(
            alloc,
            PlannedField {
                ready,
                align: lead.align,
                shown,
            },
        )?;
        Ok(true)
    }

    /// How a class is shown as the field after the open run, after so many members of its structure, if it can be one.
    fn field_of(
        &self,
        alloc: Global,
        index: usize,
        class: &Class,
    ) -> Result<Option<Shown>, NoMemory>
        ensures { IfOk result (λ shown. IfSome shown (IsShown index class.now)) }
    {
        let Some(shown) = shown_of(alloc, class, index)? else {
            return Ok(None);
        };
        // Only the number of a length in the open run is known to the field after it.
        if shown.is_counted() && self.numbers.is_empty() {
            return Ok(None);
        }
        Ok(Some(shown))
    }

    /// Adds a member as the next number of the open run, if it can be one. Whether it can.
    pub(crate) fn add_integer(
        &mut self,
        alloc: Global,
        lead: &Lead<'_>,
        member: &Member,
    ) -> Result<bool, NoMemory>
        requires few { self.old.room ≤ 2 ^ 18 }
        requires near { self.old.span ≤ 2 ^ 33 }
        ensures few { IfOk result (λ took. IsTrue took → self.new.room ≤ 2 ^ 18) }
        ensures near { IfOk result (λ took. IsTrue took → self.new.span ≤ 2 ^ 33) }
        ensures count { IfOk result (λ took. IsTrue took → self.new.count ≡ self.old.count) }
        ensures ended { IfOk result (λ took. IsTrue took → self.new.ended ≡ 0) }
        ensures branches { IfOk result
            (λ took. IsTrue took → self.new.branches ≡ self.old.branches) }
        ensures runs { IfOk result (λ took. IsTrue took → self.new.runs ≡ self.old.runs) }
        ensures known { IfOk result (λ took. IsTrue took → self.new.known ≡ self.old.known) }
        ensures made { IfOk result (λ took. IsTrue took → (done : List Slot) →
            IsMade done self.old → (known : List RouteOf) →
            IsMade (done ++ slot_of lead.now known false member.now ∷ []) self.new) }
        ensures left { IfOk result (λ took. IsFalse took → self.new ≡ self.old) }
    {
        let align = lead.align;
        let run_align = self.align_with(align, member.class.align);
        let Some((integer, window)) = self.as_number(&member.class, align, run_align) else {
            return Ok(false);
        };
        let Some(ready) = ready_after(alloc, lead.text, &member.name)? else {
            return Ok(false);
        };
        let number = PlannedNumber {
            is_special: is_special(&integer),
            integer,
            window,
            ready,
        };
        self.add_number(number, run_align)?;
        Ok(true)
    }

    /// The alignment of the open run with one number more, of the alignment `own`, that begins structures of the
    /// alignment `begin`, or 1.
    pub(crate) fn align_with(&self, begin: Align, own: Align) -> Align
        ensures first { self.now.numbers ≡ [] → IsLarger result begin own }
        ensures later { 0 < length self.now.numbers → result ≡ self.now.align }
    {
        if self.numbers.is_empty() {
            begin.larger(own)
        } else {
            self.align
        }
    }

    /// A field of a class as the next number of the open run, which is of the alignment `run` then, if it can be one.
    /// It begins structures of the alignment `begin`, or 1.
    pub(crate) fn as_number(
        &self,
        class: &Class,
        begin: Align,
        run: Align,
    ) -> Option<(Integer, Window)>
        requires { self.now.span ≤ 2 ^ 33 }
        ensures is { IfSome result (λ found. class.now.kind ≡ kinds.Integer found.0) }
        ensures begins { IfSome result (λ _. max 8 run % begin ≡ 0) }
        ensures divides { IfSome result (λ _. max 8 run % class.now.align ≡ 0) }
        ensures window { IfSome result
            (λ found. found.1 ≡
            record {
              place = next_multiple_of (next_multiple_of self.now.span begin)
                  class.now.align;
              size = max 1 found.0.size;
              is_signed = found.0.is_signed;
            }) }
        ensures near { IfSome result (λ found. found.1.place + found.1.size ≤ 2 ^ 33) }
        ensures few { IfSome result (λ _. self.now.room ≤ MOST_ROOM) }
    {
        let Kind::Integer(integer) = &class.kind else {
            return None;
        };
        if self.room > MOST_ROOM {
            return None;
        }
        if run.bits() < 8 && !self.begins_at_byte() {
            return None;
        }
        let unit = run.bits().max(8);
        if unit % begin.bits() != 0 || unit % class.align.bits() != 0 {
            return None;
        }
        let from = begin.up(self.span);
        let place = class.align.up(from);
        if place > FARTHEST {
            return None;
        }
        let window = Window::new(place, integer.size.bits(), integer.is_signed)?;
        Some((*integer, window))
    }

    /// Adds a branch without runs after the open run, which is whole then.
    pub(crate) fn add_branch(&mut self, alloc: Global, branch: Branch) -> Result<(), NoMemory>
        requires { branch.runs ≡ [] }
        ensures { OnOk result (self.new ≡ with_branch self.old branch) }
    {
        let numbers = fitted(mem::replace(&mut self.numbers, List::new(alloc)));
        let mut runs = mem::replace(&mut self.runs, List::new(alloc));
        if !numbers.is_empty() {
            runs.push(PlannedRun {
                align: self.align,
                has_special: have_special(numbers.as_slice()),
                numbers,
                span: self.span,
                room: self.room,
                field: None,
            })?;
        }
        let mut branch = branch;
        branch.runs = fitted(runs);
        self.branches.push(branch)?;
        self.align = Align::one_bit();
        self.span = 0;
        self.room = PREPARED_HEAD;
        self.ended = 0;
        Ok(())
    }

    /// Whether the open run begins at a byte, wherever it is, as far as the field before it tells.
    fn begins_at_byte(&self) -> bool {
        let runs = self.runs.as_slice();
        match runs.last() {
            Some(
                PlannedRun {
                    field: Some(field),
                    ..
                },
            ) => field.shown.ends_at_byte(),
            _ => self.begins_whole && self.branches.is_empty(),
        }
    }

    /// One more number of the open run, which is of this alignment then.
    fn add_number(&mut self, number: PlannedNumber, align: Align) -> Result<(), NoMemory>
        requires near { number.window.place + number.window.size ≤ 2 ^ 33 }
        requires short { length number.ready ≤ LONGEST_TEXT }
        requires few { self.old.room ≤ 2 ^ 18 }
        ensures { OnOk result (self.new ≡ with_number self.old align number) }
    {
        let span = number.window.end();
        let room = number.ready.len() + LONGEST_NUMBER;
        self.numbers.push(number)?;
        self.align = align;
        self.span = span;
        self.room += room;
        self.ended = 0;
        Ok(())
    }

    /// A field after the open run, which is whole then.
    fn add_field(&mut self, alloc: Global, field: PlannedField) -> Result<(), NoMemory>
        requires short { length field.ready ≤ LONGEST_TEXT }
        requires few { self.old.room ≤ 2 ^ 18 }
        ensures { OnOk result (self.new ≡ with_field self.old field) }
    {
        let room = self.room + (field.ready.len() + LONGEST_NUMBER);
        let numbers = fitted(mem::replace(&mut self.numbers, List::new(alloc)));
        self.runs.push(PlannedRun {
            align: self.align,
            has_special: have_special(numbers.as_slice()),
            numbers,
            span: self.span,
            room,
            field: Some(field),
        })?;
        self.align = Align::one_bit();
        self.span = 0;
        self.room = PREPARED_HEAD;
        self.ended = 0;
        Ok(())
    }
}

/// What is printed where so many structures end, one in the other, and a text after that.
fn after_ends(alloc: Global, ended: u32, text: &[u8]) -> Result<List<u8>, NoMemory>
    ensures { IfOk result (λ lead. lead ≡ ends ended ++ text.now) }
{
    let mut lead = List::new(alloc);
    for _ in 0..ended {
        lead.extend_from_slice(b" }")?;
    }
    lead.extend_from_slice(text)?;
    Ok(lead)
}

/// What is printed before the value of a member of this name, after a text, unless it is too long.
pub(crate) fn ready_after(
    alloc: Global,
    lead: &[u8],
    name: &FieldName,
) -> Result<Option<PreparedText>, NoMemory>
    ensures is { IfOk result
        (λ ready. IfSome ready (λ text. text ≡ lead.now ++ field_text name.now)) }
    ensures short { IfOk result (λ ready. IfSome ready (λ text. length text ≤ LONGEST_TEXT)) }
{
    if is_long(lead, name) {
        return Ok(None);
    }
    let ready = name.after(alloc, lead)?;
    if ready.len() > LONGEST_TEXT {
        return Ok(None);
    }
    Ok(Some(ready))
}

/// Whether a name after a text is too long to be copied.
fn is_long(lead: &[u8], name: &FieldName) -> bool {
    lead.len() > LONGEST_TEXT || name.as_slice().len() > LONGEST_TEXT
}

/// What is printed before the name of the first member of a structure of this name, which is a member after a text.
fn opened(alloc: Global, lead: &[u8], name: &FieldName) -> Result<List<u8>, NoMemory>
    ensures { IfOk result (λ text. text ≡ opened_lead lead.now name.now) }
{
    let mut text = List::from_slice(alloc, lead)?;
    text.extend_from_slice(name.visible())?;
    text.extend_from_slice(b" = { ")?;
    Ok(text)
}

/// A count of values, and so many members more, where that can be counted.
fn with_members(count: u32, members: usize) -> Option<u32>
    ensures { IfSome result (λ sum. sum ≡ count + members) }
{
    count.checked_add(u32::try_from(members).ok()?)
}
