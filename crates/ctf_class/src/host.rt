//! The host of a trace, with the text that is printed for it.

ghost use Rattle.std.specs.Prelude.{◌≡◌, ◌++◌, Some, IfOk, OnOk};
ghost use Rattle.ctf_class.specs.HostAndName.{host_text};

use crate::escape::put_escaped;
use crate::prepared_text::PreparedText;
use ctf_list::{List, NoMemory, Shared};
use std::alloc::{AllocError, Global};
use std::marker::Model;

/// A host with the text that is printed for it.
#[derive(Drop)]
struct PrintedHost {
    ready: PreparedText,
    name: List<u8>,
}

/// The host of a trace (CTF 1.8.3, section 7.4). Contracts see its bytes, as they are written. Its copies, one in each
/// event class, share them and what is printed for it.
#[derive(Drop)]
pub struct Host {
    printed: Shared<PrintedHost>,
}

impl Model for Host {
    ghost use Rattle.std.specs.Prelude.{◌≡◌, List, ℕ, Some};
    ghost use Rattle.std.specs.Coded.{coded_list, coded_ℕ};
    ghost use Rattle.ctf_class.specs.HostAndName.{host_text};

    ghost Value = { List ℕ };

    ghost coded = { coded_list coded_ℕ };

    ghost view = { λ host. host.printed.name };

    ghost invariant = { λ host. host.printed.ready ≡ host_text (Some host.printed.name) };
}

impl Host {
    /// A host of these bytes, with what is printed for it.
    pub fn new(alloc: Global, name: &[u8]) -> Result<Host, NoMemory>
        ensures { IfOk result (λ host. host ≡ name.now) }
    {
        let mut text = Vec::new(alloc);
        put_host(&mut text, name)?;
        let ready = PreparedText::new(alloc, text.as_slice())?;
        let name = List::from_slice(alloc, name)?;
        let printed = Shared::new(alloc, PrintedHost { ready, name })?;
        Ok(Host { printed })
    }

    /// The host as it is written.
    pub fn as_slice(&self) -> &[u8]
        ensures { result.now ≡ self.now }
    {
        self.printed.get().name.as_slice()
    }

    /// What is printed for the host: its bytes as they are shown, and a space.
    pub fn ready(&self) -> &PreparedText
        ensures { result.now ≡ host_text (Some self.now) }
    {
        &self.printed.get().ready
    }
}

/// A second owner of the host. Nothing is copied; it fails where no more owners can be counted.
impl Clone for Host {
    ghost is_clone = { λ host other. other ≡ host };

    fn clone(&self) -> Result<Host, AllocError> {
        let printed = self.printed.clone()?;
        Ok(Host { printed })
    }
}

/// Appends what is printed for a host.
pub(crate) fn put_host(text: &mut Vec<u8>, host: &[u8]) -> Result<(), NoMemory>
    ensures { OnOk result (text.new.items ≡ text.old.items ++ host_text (Some host.now)) }
{
    put_escaped(text, host)?;
    text.push(b' ')?;
    Ok(())
}
