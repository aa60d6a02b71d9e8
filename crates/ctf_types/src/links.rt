//! The declarations of a text, linked one after another.

ghost use Rattle.std.specs.Prelude.{◌≡◌, ◌⊎◌, List, map, Contains, MatchResult};
ghost use Rattle.ctf_meaning.specs.declared.fault.ResolveFault.TheVariants as fault;
ghost use Rattle.ctf_meaning.specs.Faults.{first_faults, link_faults};
ghost use Rattle.ctf_meaning.specs.Reading.{declaration_of};
ghost use Rattle.ctf_meaning.specs.Streams.{numbered};
ghost use Rattle.ctf_meaning.specs.Written.{Declaration as WrittenDeclaration};
ghost use Rattle.ctf_types.specs.Texts.{IsText};
ghost use Rattle.ctf_types.specs.Gone.{AllGiven};

use crate::gather::TraceParts;
use crate::ids::Ids;
use crate::text::KnownText;
use ctf_meaning::ResolveFault;
use std::alloc::Global;
use tsdl_tree::Declaration;

impl<'a> KnownText<'a> {
    /// What the declarations give. It fails with a fault of the first whose links fail.
    pub fn link(
        &self,
        alloc: Global,
        declarations: &[Declaration],
    ) -> Result<TraceParts, ResolveFault>
        ghost text: { List WrittenDeclaration }
        requires written { text ≡ map declaration_of declarations.now }
        requires whole { IsText text self.now }
        ensures { MatchResult result
            (AllGiven text self.now.order)
            (λ f. (f ≡ fault.NoMemory) ⊎
            Contains (first_faults (map (link_faults text) (numbered text))) f) }
    {
        let mut parts = TraceParts::new(alloc, self.streams.as_slice().len())?;
        let mut ids = Ids::new(alloc);
        for (number, declaration) in declarations.iter().enumerate() {
            let row = self.row(alloc, number, declaration, &mut ids)?;
            parts.put(row)?;
        }
        Ok(parts)
    }
}
