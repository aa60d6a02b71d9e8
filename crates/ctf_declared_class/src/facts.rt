//! What is kept with a class.

ghost use Rattle.std.specs.Prelude.{◌≡◌, ◌+◌, ◌||◌, max, false};
ghost use Rattle.ctf_declared_class.specs.Stopped.{stopped};

use ctf_class::Align;

/// What is kept with a class, or with classes that are beside one another.
#[derive(Clone, Copy)]
pub struct Facts {
    /// The alignment, in bits.
    pub align: Align,
    /// How deep classes lie in one another; at the most the largest number.
    pub depth: u32,
    /// How many classes there are; at the most the largest number.
    pub nodes: u32,
    /// Whether a floating-point class is somewhere in it.
    pub has_float: bool,
}

impl Facts {
    /// The facts of a class without parts.
    pub fn leaf(align: Align) -> Facts
        ensures align { result.align ≡ align }
        ensures depth { result.depth ≡ 1 }
        ensures nodes { result.nodes ≡ 1 }
        ensures float { result.has_float ≡ false }
    {
        Facts {
            align,
            depth: 1,
            nodes: 1,
            has_float: false,
        }
    }

    /// The facts of a class around parts that have these facts.
    pub fn around(self) -> Facts
        ensures align { result.align ≡ self.align }
        ensures depth { result.depth ≡ stopped (1 + self.depth) }
        ensures nodes { result.nodes ≡ stopped (1 + self.nodes) }
        ensures float { result.has_float ≡ self.has_float }
    {
        Facts {
            align: self.align,
            depth: self.depth.saturating_add(1),
            nodes: self.nodes.saturating_add(1),
            has_float: self.has_float,
        }
    }

    /// The facts of classes that have these facts and of one more class beside them.
    pub fn beside(self, part: Facts) -> Facts
        ensures align { result.align ≡ max part.align self.align }
        ensures depth { result.depth ≡ max self.depth part.depth }
        ensures nodes { result.nodes ≡ stopped (self.nodes + part.nodes) }
        ensures float { result.has_float ≡ (self.has_float || part.has_float) }
    {
        Facts {
            align: larger(self.align, part.align),
            depth: self.depth.max(part.depth),
            nodes: self.nodes.saturating_add(part.nodes),
            has_float: self.has_float || part.has_float,
        }
    }
}

/// The larger of two alignments.
fn larger(first: Align, second: Align) -> Align
    ensures { result ≡ max second first }
{
    if first.bits() < second.bits() {
        second
    } else {
        first
    }
}
