//! Names of members and options, with the texts that are printed for them.

ghost use Rattle.std.specs.Prelude.{◌≡◌, ◌++◌, nat_eq, IfOk};
ghost use Rattle.std.specs.Cmp.{partial_equiv_from_equiv};
ghost use Rattle.std.specs.Cmp.Lexicographic.{pointwise, nat_list_eq_equiv};
ghost use Rattle.ctf_class.specs.Names.{shown_name, field_text};

use crate::prepared_text::PreparedText;
use ctf_list::{List, NoMemory, Shared};
use std::alloc::{AllocError, Global};
use std::marker::Model;

/// A name with the text that is printed for it.
#[derive(Drop)]
struct PrintedName {
    /// What is printed before the value.
    ready: PreparedText,
    name: List<u8>,
}

/// The name of a member or an option. Contracts see its bytes, as they are written. Its copies share
/// them, and what is printed for it: a structure may have very many members, each with its name in its
/// declaration and in each class that is made of that.
#[derive(Drop)]
pub struct FieldName {
    printed: Shared<PrintedName>,
}

impl Model for FieldName {
    ghost use Rattle.std.specs.Prelude.{◌≡◌, List, ℕ};
    ghost use Rattle.std.specs.Coded.{coded_list, coded_ℕ};
    ghost use Rattle.ctf_class.specs.Names.{field_text};

    ghost Value = { List ℕ };

    ghost coded = { coded_list coded_ℕ };

    ghost view = { λ field. field.printed.name };

    ghost invariant = { λ field. field.printed.ready ≡ field_text field.printed.name };
}

impl FieldName {
    /// A name, with what is printed for it.
    pub fn new(alloc: Global, name: List<u8>) -> Result<FieldName, NoMemory>
        ensures { IfOk result (λ field. field ≡ name) }
    {
        let ready = ready_after(alloc, b"", name.as_slice())?;
        let printed = Shared::new(alloc, PrintedName { ready, name })?;
        Ok(FieldName { printed })
    }

    /// What is printed before the value, after a text.
    pub fn after(&self, alloc: Global, lead: &[u8]) -> Result<PreparedText, NoMemory>
        ensures { IfOk result (λ ready. ready ≡ lead.now ++ field_text self.now) }
    {
        ready_after(alloc, lead, self.as_slice())
    }

    /// The name as it is written.
    pub fn as_slice(&self) -> &[u8]
        ensures { result.now ≡ self.now }
    {
        self.printed.get().name.as_slice()
    }

    /// The name as it is printed.
    pub(crate) fn visible(&self) -> &[u8]
        ensures { result.now ≡ shown_name self.now }
    {
        visible_part(self.as_slice())
    }

    /// What is printed before the value: the name without its leading `_`, and ` = `.
    pub fn ready(&self) -> &PreparedText
        ensures { result.now ≡ field_text self.now }
    {
        &self.printed.get().ready
    }
}

/// A second owner of the name. Nothing is copied; it fails where no more owners can be counted.
impl Clone for FieldName {
    ghost is_clone = { λ name other. other ≡ name };

    fn clone(&self) -> Result<FieldName, AllocError> {
        let printed = self.printed.clone()?;
        Ok(FieldName { printed })
    }
}

impl PartialEq for FieldName {
    ghost eq = { λ x y. pointwise nat_eq x y };

    ghost laws = { partial_equiv_from_equiv nat_list_eq_equiv };

    fn eq(&self, other: &Self) -> bool {
        self.as_slice() == other.as_slice()
    }
}

impl Eq for FieldName {
    ghost laws = { nat_list_eq_equiv };
}

/// What is printed before a value, after a text.
fn ready_after(alloc: Global, lead: &[u8], name: &[u8]) -> Result<PreparedText, NoMemory>
    ensures { IfOk result (λ ready. ready ≡ lead.now ++ field_text name.now) }
{
    let mut text = Vec::new(alloc);
    text.extend_from_slice(lead)?;
    text.extend_from_slice(visible_part(name))?;
    text.extend_from_slice(b" = ")?;
    PreparedText::new(alloc, text.as_slice())
}

/// The part of a name that is shown.
fn visible_part(name: &[u8]) -> &[u8]
    ensures { result.now ≡ shown_name name.now }
{
    if name.len() > 1 && name[0] == b'_' {
        &name[1..]
    } else {
        name
    }
}
