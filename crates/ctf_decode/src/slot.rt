//! A place for a value.

ghost use Rattle.std.specs.Prelude.{◌≡◌, Some, None};
ghost use Rattle.std.specs.Option.{option_copied};

use crate::value::Value;
use std::marker::Model;
use std::mem;

/// A place for a value, which keeps the memory of one that is no longer there. Contracts see the value,
/// if there is one.
#[derive(Drop)]
pub(crate) struct Slot {
    value: Value,
    is_there: bool,
}

impl Model for Slot {
    ghost use Rattle.std.specs.Prelude.{Option, Some, None, if◌then◌else◌};
    ghost use Rattle.ctf_decode.specs.declared.value.Value as declared;

    ghost Value = { Option declared.Value };

    ghost use Rattle.ctf_decode.specs.contracts.value.Value as values;
    ghost use Rattle.std.specs.Coded.{codes};

    ghost coded = { Prim.hlevel (codes, values.the_row.coded) };

    ghost view = { λ slot. if slot.is_there then Some slot.value else None };
}

impl Slot {
    /// A slot without a value.
    pub(crate) fn empty() -> Slot
        ensures { result ≡ None }
    {
        Slot {
            value: Value::Unsigned(0),
            is_there: false,
        }
    }

    /// The value.
    pub(crate) fn get(&self) -> Option<&Value>
        ensures { option_copied result ≡ self.now }
    {
        if self.is_there {
            Some(&self.value)
        } else {
            None
        }
    }

    /// Makes this the value. Afterwards `value` is unspecified.
    pub(crate) fn exchange(&mut self, value: &mut Value)
        ensures { self.new ≡ Some value.old }
    {
        mem::swap(&mut self.value, value);
        self.is_there = true;
    }

    /// The value, which is then not there.
    pub(crate) fn take(&mut self) -> Option<Value>
        ensures value { result ≡ self.old }
        ensures rest { self.new ≡ None }
    {
        if self.is_there {
            self.is_there = false;
            Some(mem::replace(&mut self.value, Value::Unsigned(0)))
        } else {
            None
        }
    }

    /// Leaves no value. Afterwards `spare` is unspecified.
    pub(crate) fn leave(&mut self, spare: &mut Value)
        ensures { self.new ≡ None }
    {
        if self.is_there {
            mem::swap(&mut self.value, spare);
            self.is_there = false;
        }
    }

    /// Leaves no value. Its memory is kept.
    pub(crate) fn hide(&mut self)
        ensures { self.new ≡ None }
    {
        self.is_there = false;
    }
}
