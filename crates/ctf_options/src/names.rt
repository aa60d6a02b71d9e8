//! The files of a trace that are streams.

ghost use Rattle.std.specs.Prelude.{◌≡◌, IfOk, string_bytes};
ghost use Rattle.std.specs.List.{filter};
ghost use Rattle.std.specs.List.Sorted.{IsPermutation, IsSorted};
ghost use Rattle.std.specs.String.{string_cmp};
ghost use Rattle.ctf_options.specs.Names.{is_stream};

use ctf_list::NoMemory;
use std::alloc::Global;

/// Whether a file of this name in a trace's folder holds a stream.
fn is_stream_name(name: &str) -> bool
    ensures { result ≡ is_stream name.now }
{
    name != "metadata" && !name.starts_with('.')
}

/// The names of a trace's streams in the order of their bytes, out of those of all files in its folder: without
/// `metadata` and the names that begin with a dot.
pub fn stream_names(_alloc: Global, listed: Vec<String>) -> Result<Vec<String>, NoMemory>
    ensures kept { IfOk result (λ names. IsPermutation
        (filter (λ name. is_stream (string_bytes name)) listed.items) names.items) }
    ensures order { IfOk result (λ names. IsSorted string_cmp names.items) }
{
    let mut names = listed;
    names.retain(|name| is_stream_name(name.as_str()));
    names.sort()?;
    Ok(names)
}
