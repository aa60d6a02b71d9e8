//! The header and the context of a packet, decoded while their bytes come.

ghost use Rattle.std.specs.Prelude.{◌≡◌, ◌+◌, ◌*◌, ◌≤◌, ◌++◌, min, max, length, IfOk, IfSome, IfNone, Some, ℕ, List};
ghost use Rattle.ctf_packet.specs.Scopes.{longest};
ghost use Rattle.ctf_packet.specs.Views.{values_of};
ghost use Rattle.ctf_packet_demand.specs.Gives.{PutsAsked};
ghost use Rattle.ctf_fetch.specs.Asking.{scope_asked, scope_found};
ghost use Rattle.ctf_fetch.specs.Failing.{FailsAs, IfFault};
ghost use Rattle.ctf_fetch.specs.Fetching.{longest_bytes};
ghost use Rattle.ctf_fetch.specs.Keeping.{Keeps};

use crate::buffer::Buffer;
use crate::demand::{ValuePlace, value_on_demand};
use crate::fill::fill_ahead;
use crate::intake::Intake;
use crate::least::structure_end;
use ctf_bits::Source;
use ctf_class::{Class, Scope};
use ctf_decode::{Frame, Scopes, Value};
use ctf_packet::{ScopePlace, StreamFault, front_content, scope_into};
use std::alloc::Global;

/// The scope of a packet that comes next: its class, if it has one, and the bit at which the scope before ends.
#[derive(Clone, Copy)]
pub(crate) struct NextScope<'a> {
    pub(crate) class: Option<&'a Class>,
    pub(crate) scope: Scope,
    pub(crate) end: u64,
    pub(crate) alloc: Global,
}

/// Decodes the value of a header or a context into its scope, for which bytes are taken as they are needed. The bit at
/// which it ends, from the packet's first one. The memory of `spare` may be used for it, and an unspecified value is in
/// it then.
///
/// An error is its fault: F1, F5, F8, F11 or F13; or `NoMemory`.
#[inline(always)]
pub(crate) fn scope_on_demand<S: Source>(
    next: &NextScope<'_>,
    intake: &mut Intake<'_, S>,
    spare: &mut Value,
    scopes: &mut Scopes,
) -> Result<u64, StreamFault>
    requires start { next.now.end ≤ min (8 * length intake.old.buffer.now) longest }
    requires few { length intake.old.buffer.now ≤ longest_bytes }
    ensures keeps { Keeps S.Source intake.old intake.new }
    ensures few { length intake.new.buffer.now ≤ longest_bytes }
    ensures puts { (more : List ℕ) →
        let asked = scope_asked next.now (intake.new.buffer.now ++ more) scopes.old in
        IfOk result (λ end. PutsAsked next.now.scope (values_of scopes.old) asked end scopes.new) }
    ensures within { IfOk result (λ end. end ≤ min (8 * length intake.new.buffer.now) longest) }
    ensures forward { IfOk result (λ end. next.now.end ≤ end) }
    ensures near { IfOk result (λ end.
        8 * length intake.new.buffer.now ≤ max (8 * length intake.old.buffer.now) (end + 7)) }
    ensures faulty { IfFault S.Source intake.old intake.new result
        (λ ending all. FailsAs (scope_found ending next.now all scopes.old)) }
{
    match next.class {
        None => {
            scopes.leave(next.scope, spare);
            Ok(next.end)
        }
        Some(class) => match scope_at_hand(class, next, intake.buffer, spare, scopes) {
            Some(end) => Ok(end),
            None => class_on_demand(class, next, intake, spare, scopes),
        },
    }
}

/// Decodes the value of this class into its scope from the bytes that are in the buffer, and asks for none. The bit at
/// which it ends, from the packet's first one.
///
/// `None`, with the scopes as they were, where bytes are missing, the value has a fault or an allocation fails:
/// decoding it part by part then gives which. Tried first, since mostly all bytes are there, and a whole value is
/// decoded faster than its parts. The memory of `spare` may be used for it, and an unspecified value is in it then.
#[inline(always)]
fn scope_at_hand(
    class: &Class,
    next: &NextScope<'_>,
    buffer: &Buffer,
    spare: &mut Value,
    scopes: &mut Scopes,
) -> Option<u64>
    requires class { next.now.class ≡ Some class }
    requires start { next.now.end ≤ min (8 * length buffer.now) longest }
    ensures puts { (more : List ℕ) →
        let asked = scope_asked next.now (buffer.now ++ more) scopes.old in
        let before = values_of scopes.old in
        IfSome result (λ end. PutsAsked next.now.scope before asked end scopes.new) }
    ensures within { IfSome result (λ end. end ≤ min (8 * length buffer.now) longest) }
    ensures forward { IfSome result (λ end. next.now.end ≤ end) }
    ensures none { IfNone result (scopes.new ≡ scopes.old) }
{
    let content = front_content(buffer.as_slice());
    if content == next.end {
        return None;
    }
    let at = ScopePlace {
        scope: next.scope,
        bytes: buffer.padded(),
        content,
        place: next.end,
    };
    match scope_into(next.alloc, class, &at, spare, scopes) {
        Ok(end) => Some(end),
        Err(_) => None,
    }
}

/// Decodes the value of this class into its scope, and gives the bit at which it ends. Where it is known how many bits
/// the value takes at least, these are asked for at once; where it takes no more, as a structure of integers, it is
/// decoded into the memory of `spare`.
#[cold]
#[inline(never)]
fn class_on_demand<S: Source>(
    class: &Class,
    next: &NextScope<'_>,
    intake: &mut Intake<'_, S>,
    spare: &mut Value,
    scopes: &mut Scopes,
) -> Result<u64, StreamFault>
    requires class { next.now.class ≡ Some class }
    requires start { next.now.end ≤ min (8 * length intake.old.buffer.now) longest }
    requires few { length intake.old.buffer.now ≤ longest_bytes }
    ensures keeps { Keeps S.Source intake.old intake.new }
    ensures few { length intake.new.buffer.now ≤ longest_bytes }
    ensures puts { (more : List ℕ) →
        let asked = scope_asked next.now (intake.new.buffer.now ++ more) scopes.old in
        IfOk result (λ end. PutsAsked next.now.scope (values_of scopes.old) asked end scopes.new) }
    ensures within { IfOk result (λ end. end ≤ min (8 * length intake.new.buffer.now) longest) }
    ensures forward { IfOk result (λ end. next.now.end ≤ end) }
    ensures near { IfOk result (λ end.
        8 * length intake.new.buffer.now ≤ max (8 * length intake.old.buffer.now) (end + 7)) }
    ensures faulty { IfFault S.Source intake.old intake.new result
        (λ ending all. FailsAs (scope_found ending next.now all scopes.old)) }
{
    let place = ValuePlace {
        alloc: next.alloc,
        scopes: &*scopes,
        frame: &Frame::Top,
        end: next.end,
        spent: scopes.spent(),
    };
    let Some(least) = structure_end(class, &place) else {
        return parts_on_demand(class, next, intake, spare, scopes);
    };
    fill_ahead(intake, least)?;
    match scope_at_hand(class, next, intake.buffer, spare, scopes) {
        Some(end) => Ok(end),
        None => parts_on_demand(class, next, intake, spare, scopes),
    }
}

/// Decodes the value of this class into its scope part by part, and gives the bit at which it ends. The memory of
/// `spare` is given back, since the parts take their own.
fn parts_on_demand<S: Source>(
    class: &Class,
    next: &NextScope<'_>,
    intake: &mut Intake<'_, S>,
    spare: &mut Value,
    scopes: &mut Scopes,
) -> Result<u64, StreamFault>
    requires class { next.now.class ≡ Some class }
    requires start { next.now.end ≤ min (8 * length intake.old.buffer.now) longest }
    requires few { length intake.old.buffer.now ≤ longest_bytes }
    ensures keeps { Keeps S.Source intake.old intake.new }
    ensures few { length intake.new.buffer.now ≤ longest_bytes }
    ensures puts { (more : List ℕ) →
        let asked = scope_asked next.now (intake.new.buffer.now ++ more) scopes.old in
        IfOk result (λ end. PutsAsked next.now.scope (values_of scopes.old) asked end scopes.new) }
    ensures within { IfOk result (λ end. end ≤ min (8 * length intake.new.buffer.now) longest) }
    ensures forward { IfOk result (λ end. next.now.end ≤ end) }
    ensures near { IfOk result (λ end.
        8 * length intake.new.buffer.now ≤ max (8 * length intake.old.buffer.now) (end + 7)) }
    ensures faulty { IfFault S.Source intake.old intake.new result
        (λ ending all. FailsAs (scope_found ending next.now all scopes.old)) }
{
    *spare = Value::Unsigned(0);
    let place = ValuePlace {
        alloc: next.alloc,
        scopes: &*scopes,
        frame: &Frame::Top,
        end: next.end,
        spent: scopes.spent(),
    };
    let decoded = value_on_demand(class, &place, intake)?;
    scopes.put(next.scope, decoded.value);
    scopes.set_spent(decoded.spent);
    Ok(decoded.end)
}
