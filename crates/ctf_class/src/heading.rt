//! What is printed between an event's time and its fields.

ghost use Rattle.std.specs.Prelude.{◌≡◌, option_copied, IfOk, IfSome};
ghost use Rattle.ctf_class.specs.HostAndName.{heading_text, host_then};

use crate::escape::put_escaped;
use crate::host::{Host, put_host};
use crate::prepared_text::PreparedText;
use ctf_list::{List, NoMemory};
use std::alloc::Global;
use std::marker::Model;

/// The longest text of a host that is copied for each event class, in bytes.
const LONGEST_HOST: usize = 256;

/// The host of the trace, if it has one, and the name of an event class. Contracts see both.
#[derive(Drop)]
pub struct Heading {
    host: Option<Host>,
    name: List<u8>,
    /// Whether the host is long, so that what is printed for it is not in `ready`.
    is_apart: bool,
    /// What is printed for the name, and before it for the host where that is not apart.
    ready: PreparedText,
}

/// What is printed for a host and the name of an event class, one text after the other.
#[derive(Clone, Copy)]
pub struct HeadingTexts<'a> {
    /// The text of a long host, which the event classes share.
    pub host: Option<&'a PreparedText>,
    /// The text of the name, and before it of a host that is not long.
    pub rest: &'a PreparedText,
}

impl Model for Heading {
    ghost use Rattle.std.specs.Prelude.{◌≡◌, ◌++◌};
    ghost use Rattle.ctf_class.specs.HostAndName.{HostAndName, heading_text, text_apart};

    ghost Value = { HostAndName };

    ghost view = { λ heading. record { host = heading.host; name = heading.name } };

    ghost invariant = { λ heading.
        text_apart heading.is_apart heading.host ++ heading.ready
        ≡ heading_text (record { host = heading.host; name = heading.name }) };
}

impl Heading {
    /// A host and a name, with what is printed for them.
    pub fn new(alloc: Global, host: Option<Host>, name: List<u8>) -> Result<Heading, NoMemory>
        ensures { IfOk result (λ heading. heading ≡ record { host = host; name = name }) }
    {
        let is_apart = is_long(&host);
        let mut text = Vec::new(alloc);
        match &host {
            Some(host) if !is_apart => put_host(&mut text, host.as_slice())?,
            _ => (),
        }
        put_escaped(&mut text, name.as_slice())?;
        text.extend_from_slice(b": ")?;
        let ready = PreparedText::new(alloc, text.as_slice())?;
        Ok(Heading {
            host,
            name,
            is_apart,
            ready,
        })
    }

    /// The host of the trace.
    pub fn host(&self) -> Option<&[u8]>
        ensures { option_copied result ≡ self.now.host }
    {
        Some(self.host.as_ref()?.as_slice())
    }

    /// The name of the event class.
    pub fn name(&self) -> &[u8]
        ensures { result.now ≡ self.now.name }
    {
        self.name.as_slice()
    }

    /// What is printed for the host and the name, if it is one text.
    #[inline(always)]
    pub fn ready(&self) -> Option<&PreparedText>
        ensures { IfSome (option_copied result) (λ text. text ≡ heading_text self.now) }
    {
        if self.is_apart {
            return None;
        }
        Some(&self.ready)
    }

    /// What is printed for the host and the name, one text after the other.
    pub fn texts(&self) -> HeadingTexts<'_>
        ensures { host_then (option_copied result.host) result.rest.now ≡ heading_text self.now }
    {
        let host = match &self.host {
            Some(host) if self.is_apart => Some(host.ready()),
            _ => None,
        };
        HeadingTexts {
            host,
            rest: &self.ready,
        }
    }
}

/// Whether the text of a host is too long to be copied. Either answer is right.
fn is_long(host: &Option<Host>) -> bool {
    match host {
        Some(host) => host.ready().len() > LONGEST_HOST,
        None => false,
    }
}
