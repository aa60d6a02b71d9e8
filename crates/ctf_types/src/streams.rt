//! The streams of a text.

ghost use Rattle.std.specs.Prelude.{◌≡◌, map, filter_map, MatchResult};
ghost use Rattle.ctf_meaning.specs.declared.fault.ResolveFault.TheVariants as fault;
ghost use Rattle.ctf_meaning.specs.Blocks.{stream_id_of};
ghost use Rattle.ctf_meaning.specs.Reading.{declaration_of};
ghost use Rattle.ctf_meaning.specs.Streams as meaning;
ghost use Rattle.ctf_types.specs.Whole.{AreSettled, IsSettled, ArePlaced, stream_at};

use ctf_attributes::stream_id;
use ctf_class::{HasId, Indexed};
use ctf_list::List;
use ctf_meaning::ResolveFault;
use std::alloc::Global;
use tsdl_tree::{BlockKind, Declaration};

/// A stream.
#[derive(Clone, Copy)]
pub struct StreamAt {
    /// Its place among the streams.
    pub place: usize,
    /// The number of the declaration that is its block, where there is one.
    pub block: Option<usize>,
    pub id: u64,
}

impl HasId for StreamAt {
    ghost id_of = { λ stream. stream.id };

    fn id(&self) -> u64 {
        self.id
    }
}

/// The streams in the order of the text. A text without a `stream` block has one, of id 0.
pub fn streams(alloc: Global, declarations: &[Declaration]) -> Result<List<StreamAt>, ResolveFault>
    requires { AreSettled (map declaration_of declarations.now) }
    ensures { MatchResult result
        (λ streams. (map stream_at streams ≡
        meaning.streams (map declaration_of declarations.now)) × ArePlaced streams)
        (λ f. f ≡ fault.NoMemory) }
{
    let mut found = written_streams(alloc, declarations)?;
    if found.is_empty() {
        found.push(StreamAt {
            place: 0,
            block: None,
            id: 0,
        })?;
    }
    Ok(found)
}

/// The streams that have a block.
fn written_streams(
    alloc: Global,
    declarations: &[Declaration],
) -> Result<List<StreamAt>, ResolveFault>
    requires { AreSettled (map declaration_of declarations.now) }
    ensures { MatchResult result
        (λ streams. (map stream_at streams ≡
        filter_map meaning.stream_by (meaning.numbered (map declaration_of declarations.now))) ×
        ArePlaced streams) (λ f. f ≡ fault.NoMemory) }
{
    let mut found = List::new(alloc);
    for (number, declaration) in declarations.iter().enumerate() {
        if let Some(id) = id_of(declaration)? {
            found.push(StreamAt {
                place: found.len(),
                block: Some(number),
                id,
            })?;
        }
    }
    Ok(found)
}

/// The id of a `stream` block.
fn id_of(declaration: &Declaration) -> Result<Option<u64>, ResolveFault>
    requires { IsSettled (declaration_of declaration.now) }
    ensures { MatchResult result (λ id. id ≡ stream_id_of (declaration_of declaration.now))
        (λ f. f ≡ fault.NoMemory) }
{
    match declaration {
        Declaration::Block {
            kind: BlockKind::Stream,
            entries,
        } => Ok(Some(stream_id(entries.as_slice())?)),
        _ => Ok(None),
    }
}
