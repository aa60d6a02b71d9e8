//! What each declaration gives to the trace class.

ghost use Rattle.std.specs.Prelude.{◌≡◌, ◌⊎◌, ◌++◌, List, Some, None, option_map, option_copied, map, Contains, MatchResult, IfOk, IfSome, slice_get, ℕ};
ghost use Rattle.tsdl_tree.specs.declared.tree.BlockKind.TheVariants as kind;
ghost use Rattle.ctf_meaning.specs.declared.fault.ResolveFault.TheVariants as fault;
ghost use Rattle.ctf_meaning.specs.Streams.{home_of_stream, stream_said};
ghost use Rattle.ctf_meaning.specs.Written.{Declaration as WrittenDeclaration};
ghost use Rattle.ctf_meaning.specs.Faults.{scope_links};
ghost use Rattle.ctf_class.specs.declared.trace.Clock.{Clock};
ghost use Rattle.ctf_paths.specs.MovedClocks.{Tells};
ghost use Rattle.ctf_types.specs.Texts.{IsText, home_by, scope_moves};
ghost use Rattle.ctf_types.specs.Whole.{stream_at};
ghost use Rattle.ctf_types.specs.Links.{IsHeader, HasHead, IsMoved};

use crate::home::Home;
use crate::linked::StreamHead;
use crate::streams::StreamAt;
use crate::text::KnownText;
use ctf_class::{Class, Clock, Scope};
use ctf_list::NoMemory;
use ctf_meaning::ResolveFault;
use ctf_paths::{Moved, scope_moved};
use std::alloc::{AllocError, Global};

/// The clock of a stream class.
#[derive(Drop)]
struct MovedClock {
    /// The first that its integers set.
    clock: Option<Clock>,
    /// Whether they set one of another name too.
    has_several: bool,
}

impl<'a> KnownText<'a> {
    /// The class of the packet header, by a trace block.
    pub fn header(&self, alloc: Global, number: usize) -> Result<Option<Class>, ResolveFault>
        ghost text: { List WrittenDeclaration }
        requires { IsText text self.now }
        ensures { MatchResult result
            (IsHeader text self.now.order number)
            (λ f. (f ≡ fault.NoMemory) ⊎
            Contains (scope_links text
            (record { trace = Some number; stream = None; event = None }) kind.Trace) f) }
    {
        let home = Home {
            trace: Some(number),
            stream: None,
            event: None,
        };
        self.class(alloc, &home, Scope::PacketHeader)
    }

    /// A stream class without its events, by a stream block.
    pub fn head(&self, alloc: Global, number: usize, id: u64) -> Result<StreamHead, ResolveFault>
        ghost text: { List WrittenDeclaration }
        requires { IsText text self.now }
        ensures { MatchResult result
            (HasHead text self.now.order number id)
            (λ f. (f ≡ fault.NoMemory) ⊎
            Contains (scope_links text (home_of_stream text (Some number)) kind.Stream) f) }
    {
        let home = Home {
            trace: self.trace,
            stream: Some(number),
            event: None,
        };
        let moved = self.moved_clock(alloc, number)?;
        let packet_context = self.class(alloc, &home, Scope::PacketContext)?;
        let event_header = self.class(alloc, &home, Scope::EventHeader)?;
        let event_context = self.class(alloc, &home, Scope::StreamEventContext)?;
        Ok(StreamHead {
            id,
            packet_context,
            event_header,
            event_context,
            clock: moved.clock,
            has_several: moved.has_several,
        })
    }

    /// The clock of a stream block.
    fn moved_clock(&self, alloc: Global, number: usize) -> Result<MovedClock, ResolveFault>
        ghost text: { List WrittenDeclaration }
        requires { IsText text self.now }
        ensures { MatchResult result (IsMoved text number) (λ f. f ≡ fault.NoMemory) }
    {
        let home = Home {
            trace: self.trace,
            stream: Some(number),
            event: None,
        };
        let moved = self.clocks_of_scope(alloc, &home, Scope::PacketContext, Moved::none())?;
        let moved = self.clocks_of_scope(alloc, &home, Scope::EventHeader, moved)?;
        let moved = self.clocks_of_scope(alloc, &home, Scope::StreamEventContext, moved)?;
        let clock = copy_clock(moved.first)?;
        Ok(MovedClock {
            clock,
            has_several: moved.has_other,
        })
    }

    /// The clocks that the integers of a scope set, after those set so far.
    fn clocks_of_scope(
        &self,
        alloc: Global,
        home: &Home,
        scope: Scope,
        moved: Moved<'a>,
    ) -> Result<Moved<'a>, NoMemory>
        ghost text: { List WrittenDeclaration }
        requires { IsText text self.now }
        ensures { IfOk result (λ more. (old : List Clock) → Tells moved.entry old →
            Tells more (old ++ scope_moves text (home_by home.now) scope)) }
    {
        let Some(known) = self.shape(home, scope) else {
            return Ok(moved);
        };
        let before = self.before(alloc, home, scope)?;
        Ok(scope_moved(self.clocks, scope, before.as_slice(), known.shape(), moved))
    }

    /// The stream of an event with this `stream_id`.
    pub fn stream_of(&self, stream_id: Option<u64>) -> Option<&'a StreamAt>
        ensures stands { IfSome result (λ s. (j : ℕ) ×
            (slice_get self.now.streams.now j ≡ Some s.now)) }
        ensures said { option_map stream_at (option_copied result) ≡
            stream_said (map stream_at self.now.streams.now) stream_id }
    {
        match stream_id {
            Some(id) => self.streams.get(id),
            None => self.streams.only(),
        }
    }
}

/// A copy of a clock.
fn copy_clock(clock: Option<&Clock>) -> Result<Option<Clock>, AllocError>
    ensures { IfOk result (λ copy. copy ≡ option_copied clock.entry) }
{
    let Some(clock) = clock else {
        return Ok(None);
    };
    Ok(Some(Clock {
        name: clock.name.clone()?,
        frequency: clock.frequency,
        offset_seconds: clock.offset_seconds,
        offset: clock.offset,
    }))
}
