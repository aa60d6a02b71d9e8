//! Labels, with the texts that are printed for them.

ghost use Rattle.std.specs.Prelude.{◌≡◌, nat_eq, IfOk};
ghost use Rattle.std.specs.Cmp.{partial_equiv_from_equiv};
ghost use Rattle.std.specs.Cmp.Lexicographic.{pointwise, nat_list_eq_equiv};
ghost use Rattle.ctf_class.specs.Names.{label_text};

use crate::escape::put_escaped;
use crate::prepared_text::PreparedText;
use ctf_list::{List, NoMemory};
use std::alloc::Global;
use std::marker::Model;

/// The name of a label. Contracts see its bytes.
#[derive(Drop)]
pub struct LabelName {
    name: List<u8>,
    /// What is printed for the label.
    ready: PreparedText,
}

impl Model for LabelName {
    ghost use Rattle.std.specs.Prelude.{◌≡◌, List, ℕ};
    ghost use Rattle.std.specs.Coded.{coded_list, coded_ℕ};
    ghost use Rattle.ctf_class.specs.Names.{label_text};

    ghost Value = { List ℕ };

    ghost coded = { coded_list coded_ℕ };

    ghost view = { λ label. label.name };

    ghost invariant = { λ label. label.ready ≡ label_text label.name };
}

impl LabelName {
    /// A label, with what is printed for it.
    pub fn new(alloc: Global, name: List<u8>) -> Result<LabelName, NoMemory>
        ensures { IfOk result (λ label. label ≡ name) }
    {
        let mut text = Vec::new(alloc);
        text.push(b'"')?;
        put_escaped(&mut text, name.as_slice())?;
        text.push(b'"')?;
        let ready = PreparedText::new(alloc, text.as_slice())?;
        Ok(LabelName { name, ready })
    }

    /// The label.
    pub fn as_slice(&self) -> &[u8]
        ensures { result.now ≡ self.now }
    {
        self.name.as_slice()
    }

    /// What is printed for the label: itself, escaped, in quotes.
    pub fn ready(&self) -> &PreparedText
        ensures { result.now ≡ label_text self.now }
    {
        &self.ready
    }
}

impl PartialEq for LabelName {
    ghost eq = { λ x y. pointwise nat_eq x y };

    ghost laws = { partial_equiv_from_equiv nat_list_eq_equiv };

    fn eq(&self, other: &Self) -> bool {
        self.name == other.name
    }
}

impl Eq for LabelName {
    ghost laws = { nat_list_eq_equiv };
}
