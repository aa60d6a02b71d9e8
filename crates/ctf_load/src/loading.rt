//! From the bytes of metadata to a trace class.

ghost use Rattle.std.specs.Prelude.{MatchResult};
ghost use Rattle.ctf_load.specs.Loading.{Describes, IsBroken, Spelled};

use ctf_class::TraceClass;
use ctf_faults::LoadFault;
use ctf_types::resolve;
use std::alloc::Global;
use tsdl_parse::parse;
use tsdl_text::{metadata_text, tokens};
use tsdl_tree::Tree;

/// The trace class that metadata denotes: its text, plain or joined from packets, its tokens, their syntax
/// tree, and what that means (CTF 1.8.3, section 7). An error is its first fault, M1 to M6, S1, S2 or R1 to R9, or that
/// an allocation failed.
pub fn load(alloc: Global, metadata: &[u8]) -> Result<TraceClass, LoadFault>
    ensures { MatchResult result (Describes metadata.now) (IsBroken metadata.now) }
{
    let tree = tree_of(alloc, metadata)?;
    match resolve(alloc, &tree) {
        Ok(trace) => Ok(trace),
        Err(fault) => Err(LoadFault::Meaning(fault)),
    }
}

/// The syntax tree of metadata. It owns its words, so that their text and tokens, which take much memory, end
/// before classes are made.
fn tree_of(alloc: Global, metadata: &[u8]) -> Result<Tree, LoadFault>
    ensures { MatchResult result (Spelled metadata.now) (IsBroken metadata.now) }
{
    let text = match metadata_text(alloc, metadata) {
        Ok(text) => text,
        Err(fault) => return Err(LoadFault::Metadata(fault)),
    };
    let tokens = match tokens(alloc, &text) {
        Ok(tokens) => tokens,
        Err(fault) => return Err(LoadFault::Text(fault)),
    };
    match parse(alloc, &tokens) {
        Ok(tree) => Ok(tree),
        Err(fault) => Err(LoadFault::Syntax(fault)),
    }
}
