//! The trace class of a metadata text.

ghost use Rattle.std.specs.Prelude.{◌≡◌, ◌⊎◌, List, Some, map, MatchResult, IfOk, option_map, option_and_then};
ghost use Rattle.ctf_meaning.specs.There.{first};
ghost use Rattle.ctf_types.specs.declared.trace.TraceAt.{TraceAt};
ghost use Rattle.std.specs.List.{list_any};
ghost use Rattle.ctf_declarations.specs.DeclaredSoFar.{placed_seen};
ghost use Rattle.ctf_meaning.specs.declared.fault.ResolveFault.TheVariants as fault;
ghost use Rattle.ctf_meaning.specs.Denotes.{Denotes, Faulty, host_of};
ghost use Rattle.ctf_meaning.specs.Reading.{declaration_of};
ghost use Rattle.ctf_meaning.specs.Written.{Declaration as WrittenDeclaration};
ghost use Rattle.ctf_types.specs.Gathered.{joined_all};
ghost use Rattle.ctf_types.specs.Resolved.{IsWalked, Resolves, IsFinished, or_plain_head};

use crate::clocks::clocks;
use crate::gather::TraceParts;
use crate::linked::{StreamHead, front_class_of};
use crate::streams::streams;
use crate::text::KnownText;
use crate::trace::{TraceAt, trace};
use ctf_attributes::host;
use ctf_bits::Order;
use ctf_class::{Class, EventClass, Host, Indexed, PlanRoom, StreamClass, TraceClass};
use ctf_declarations::{ScopeShape, scope_classes};
use ctf_list::{List, NoMemory};
use ctf_meaning::ResolveFault;
use ctf_paths::Clocks;
use std::alloc::Global;
use tsdl_tree::{Declaration, Tree};

/// The trace class of a syntax tree (CTF 1.8.3, sections 2 to 8). It fails with a fault of the tree (R1 to
/// R9): of those that a declaration has by itself and by what is before it, else of those by what is elsewhere,
/// else of those of the whole; or where an allocation fails.
pub fn resolve(alloc: Global, tree: &Tree) -> Result<TraceClass, ResolveFault>
    ensures { MatchResult result (Denotes tree.now) (λ f. (f ≡ fault.NoMemory) ⊎
        Faulty tree.now f) }
{
    let rows = scope_classes(alloc, tree)?;
    resolve_walked(alloc, tree.declarations.as_slice(), rows.as_slice())
}

/// The trace class of declarations without faults of their own.
fn resolve_walked(
    alloc: Global,
    declarations: &[Declaration],
    rows: &[List<ScopeShape>],
) -> Result<TraceClass, ResolveFault>
    ghost text: { List WrittenDeclaration }
    requires written { text ≡ map declaration_of declarations.now }
    requires walked { IsWalked text (map (map placed_seen) rows.now) }
    ensures { Resolves text result }
{
    let trace = trace(alloc, declarations)?;
    let streams = Indexed::new(alloc, streams(alloc, declarations)?)?;
    let clocks = clocks(alloc, declarations)?;
    let clocks = Clocks::new(alloc, clocks.as_slice())?;
    let owned = host_of(alloc, declarations)?;
    let host = owned.as_ref();
    let text = KnownText {
        rows,
        clocks: &clocks,
        order: order_of(trace),
        streams: &streams,
        trace: number_of(trace),
        host,
    };
    let parts = text.link(alloc, declarations)?;
    trace_class_of(alloc, trace, owned, parts)
}

/// The host of the trace.
fn host_of(alloc: Global, declarations: &[Declaration]) -> Result<Option<Host>, NoMemory>
    ensures { IfOk result (λ some. some ≡ host_of (map declaration_of declarations.now)) }
{
    match host(declarations) {
        Some(name) => Ok(Some(Host::new(alloc, name)?)),
        None => Ok(None),
    }
}

/// The native byte order. Without a trace block any serves.
fn order_of(trace: Option<TraceAt>) -> Order
    ensures { (t : TraceAt) → trace ≡ Some t → t.settings.order ≡ result }
{
    match trace {
        Some(trace) => trace.settings.order,
        None => Order::Le,
    }
}

/// The number of the trace block.
fn number_of(trace: Option<TraceAt>) -> Option<usize>
    ensures { result ≡ option_map (λ t. t.number) trace }
{
    Some(trace?.number)
}

/// The trace class from its parts.
fn trace_class_of(
    alloc: Global,
    trace: Option<TraceAt>,
    host: Option<Host>,
    parts: TraceParts,
) -> Result<TraceClass, ResolveFault>
    ghost text: { List WrittenDeclaration }
    requires { IsFinished text trace host parts }
    ensures { Resolves text result }
{
    let Some(trace) = trace else {
        return Err(ResolveFault::Attribute);
    };
    let heads = or_plain(parts.heads)?;
    if has_several(heads.as_slice()) {
        return Err(ResolveFault::Clock);
    }
    let streams = join_events(alloc, heads, parts.events)?;
    Ok(TraceClass {
        uuid: trace.settings.uuid,
        host,
        streams: Indexed::new(alloc, streams)?,
        packet_header: front_class_of(alloc, header_of(parts.headers))?,
    })
}

/// The streams, or the one without a block where there is none.
fn or_plain(heads: List<StreamHead>) -> Result<List<StreamHead>, NoMemory>
    ensures { IfOk result (λ some. some ≡ or_plain_head heads) }
{
    let mut heads = heads;
    if heads.is_empty() {
        heads.push(StreamHead {
            id: 0,
            packet_context: None,
            event_header: None,
            event_context: None,
            clock: None,
            has_several: false,
        })?;
    }
    Ok(heads)
}

/// Whether the integers of a stream set several clocks.
fn has_several(heads: &[StreamHead]) -> bool
    ensures { result ≡ list_any (λ h. h.has_several) heads.now }
{
    heads.iter().any(|head| head.has_several)
}

/// The streams with their events.
fn join_events(
    alloc: Global,
    heads: List<StreamHead>,
    events: List<List<EventClass>>,
) -> Result<List<StreamClass>, NoMemory>
    ensures { IfOk result (λ streams. streams ≡ joined_all heads events) }
{
    let mut streams = List::new(alloc);
    let mut room = PlanRoom::new();
    for (head, events) in heads.into_vec().into_iter().zip(events.into_vec()) {
        let events = Indexed::new(alloc, events)?;
        streams.push(head.with_events(alloc, events, &mut room)?)?;
    }
    Ok(streams)
}

/// The class of the packet header by the first trace block.
fn header_of(headers: List<Option<Class>>) -> Option<Class>
    ensures { result ≡ option_and_then (λ h. h) (first headers) }
{
    headers.into_vec().into_iter().next()?
}
