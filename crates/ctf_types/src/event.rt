//! Events.

ghost use Rattle.std.specs.Prelude.{◌≡◌, ◌⊎◌, ◌+◌, List, Some, option_copied, slice_get, map, Contains, MatchResult, IfOk, OnOk};
ghost use Rattle.tsdl_tree.specs.declared.tree.BlockKind.TheVariants as kind;
ghost use Rattle.ctf_meaning.specs.declared.fault.ResolveFault.TheVariants as fault;
ghost use Rattle.ctf_meaning.specs.Faults.{scope_links, link_faults};
ghost use Rattle.ctf_meaning.specs.Reading.{entry_of};
ghost use Rattle.ctf_meaning.specs.Written.{Declaration as WrittenDeclaration, Block};
ghost use Rattle.ctf_types.specs.Events.{IsEventOf, HasFields, IsRow};
ghost use Rattle.ctf_types.specs.Ids.{AreIds};
ghost use Rattle.ctf_types.specs.Texts.{IsText, home_by};

use crate::home::Home;
use crate::ids::Ids;
use crate::linked::Linked;
use crate::text::KnownText;
use ctf_attributes::EventSettings;
use ctf_class::{EventClass, Heading, Host, Scope};
use ctf_meaning::ResolveFault;
use std::alloc::{AllocError, Global};
use tsdl_tree::BlockEntry;

impl<'a> KnownText<'a> {
    /// What an event block gives. It fails with `Attribute` where its stream is unknown, with `Twice` where
    /// an event of its id is before it in the stream, and where a length, a tag or a clock of its classes
    /// is not found.
    pub fn event_row(
        &self,
        alloc: Global,
        number: usize,
        entries: &[BlockEntry],
        ids: &mut Ids,
    ) -> Result<Linked, ResolveFault>
        ghost text: { List WrittenDeclaration }
        requires whole { IsText text self.now }
        requires stands { slice_get text number ≡
            Some (Block kind.Event (map entry_of entries.now)) }
        requires ids { AreIds text number ids.old }
        ensures row { MatchResult result
            (IsRow text self.now.order (number, Block kind.Event (map entry_of entries.now)))
            (λ f. (f ≡ fault.NoMemory) ⊎
            Contains (link_faults text (number, Block kind.Event (map entry_of entries.now)))
            f) }
        ensures ids { OnOk result (AreIds text (number + 1) ids.new) }
    {
        let event = EventSettings::read(alloc, entries)?;
        let Some(stream) = self.stream_of(event.stream_id) else {
            return Err(ResolveFault::Attribute);
        };
        ids.add(stream.id, event.id)?;
        let home = Home {
            trace: self.trace,
            stream: stream.block,
            event: Some(number),
        };
        let class = self.event(alloc, &home, event)?;
        Ok(Linked::Event(stream.place, class))
    }

    /// The class of an event where its scopes are declared.
    fn event(
        &self,
        alloc: Global,
        home: &Home,
        event: EventSettings,
    ) -> Result<EventClass, ResolveFault>
        ghost text: { List WrittenDeclaration }
        requires whole { IsText text self.now }
        requires fields { HasFields text (home_by home.now) }
        ensures { MatchResult result
            (IsEventOf text self.now.order (home_by home.now) event.id event.name)
            (λ f. (f ≡ fault.NoMemory) ⊎
            Contains (scope_links text (home_by home.now) kind.Event) f) }
    {
        let heading = Heading::new(alloc, copy_host(self.host)?, event.name)?;
        let context = self.class(alloc, home, Scope::EventContext)?;
        let fields = self.class(alloc, home, Scope::EventFields)?;
        match fields {
            Some(fields) => Ok(EventClass {
                id: event.id,
                heading,
                context,
                fields,
            }),
            // The fields of an event have a class, written or not.
            None => Err(ResolveFault::Attribute),
        }
    }
}

/// A second owner of a host.
fn copy_host(host: Option<&Host>) -> Result<Option<Host>, AllocError>
    ensures { IfOk result (λ copy. copy ≡ option_copied host.entry) }
{
    match host {
        Some(host) => Ok(Some(host.clone()?)),
        None => Ok(None),
    }
}
