//! A whole text.

ghost use Rattle.ctf_meaning.specs.Reading.{written};
ghost use Rattle.ctf_meaning_steps.specs.Blocks.{text_told};
ghost use Rattle.ctf_declarations.specs.DeclaredSoFar.{FindsRows};

use crate::declared_once::DeclaredOnce;
use crate::placing::ScopeShape;
use crate::so_far::{DeclaredSoFar, declaration};
use ctf_list::List;
use ctf_meaning::ResolveFault;
use std::alloc::Global;
use tsdl_tree::Tree;

/// The scopes of each declaration, in the order of the text: none of one that gives no class to a scope.
pub type Rows = List<List<ScopeShape>>;

/// The classes that the declarations of a text give to scopes, in the order of the text (CTF 1.8.3, sections 4,
/// 7 and 8). It fails with the first fault of a declaration by itself and by what is before it: R1 to R5,
/// R8 or R9; or where an allocation fails. Of `n` names, takes time like `n` times its logarithm.
pub fn scope_classes(alloc: Global, tree: &Tree) -> Result<Rows, ResolveFault>
    ensures { FindsRows (text_told (written tree.now)) result }
{
    let mut so_far = DeclaredSoFar::new(alloc);
    let mut earlier = DeclaredOnce::new(alloc);
    for item in tree.declarations.as_slice() {
        declaration(alloc, &mut so_far, &mut earlier, item)?;
    }
    Ok(so_far.into_rows())
}
