//! Words that copies share.

ghost use Rattle.std.specs.Prelude.{◌≡◌, IfOk};
ghost use Rattle.ctf_class.specs.Words.{words_in};

use ctf_list::{List, NoMemory, Shared};
use std::alloc::{AllocError, Global};
use std::marker::Model;

/// Words that copies share, which take no memory where there are none, as in most texts. Contracts see the list
/// of the words.
#[derive(Drop)]
pub struct SharedWords {
    words: Option<Shared<List<u64>>>,
}

impl Model for SharedWords {
    ghost use Rattle.std.specs.Prelude.{List, ℕ};
    ghost use Rattle.std.specs.Coded.{coded_list, coded_ℕ};
    ghost use Rattle.ctf_class.specs.Words.{words_in};

    ghost Value = { List ℕ };

    ghost coded = { coded_list coded_ℕ };

    ghost view = { λ shared. words_in shared.words };
}

impl SharedWords {
    /// A copy of words.
    pub fn from_slice(alloc: Global, words: &[u64]) -> Result<SharedWords, NoMemory>
        ensures { IfOk result (λ shared. shared ≡ words.now) }
    {
        if words.is_empty() {
            return Ok(SharedWords { words: None });
        }
        let words = List::from_slice(alloc, words)?;
        let words = Some(Shared::new(alloc, words)?);
        Ok(SharedWords { words })
    }

    /// The words.
    pub fn as_slice(&self) -> &[u64]
        ensures { result.now ≡ self.now }
    {
        match &self.words {
            Some(words) => words.get().as_slice(),
            None => &[],
        }
    }
}

/// A second owner of the words. Nothing is copied; it fails where no more owners can be counted.
impl Clone for SharedWords {
    ghost is_clone = { λ shared other. other ≡ shared };

    fn clone(&self) -> Result<SharedWords, AllocError> {
        let words = match &self.words {
            Some(words) => Some(words.clone()?),
            None => None,
        };
        Ok(SharedWords { words })
    }
}
