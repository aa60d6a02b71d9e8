//! Why no options come of the words.

ghost use Rattle.std.specs.Prelude.{◌≡◌};
ghost use Rattle.ctf_options.specs.Texts.{usage_text};

use ctf_list::NoMemory;
use std::alloc::AllocError;
use thiserror::Error;

/// Why no options come of the words of a command line.
#[derive(Clone, Copy, Debug, PartialEq, Eq, Error)]
pub enum Usage {
    /// The words ask how the program is used.
    #[error("help was asked for")]
    Help,
    /// The words are not of the form that the program takes.
    #[error("bad arguments")]
    Bad,
    /// An allocation failed.
    #[error("no memory")]
    NoMemory,
}

impl From<AllocError> for Usage {
    ghost use Rattle.ctf_options.specs.declared.usage.Usage.TheVariants.{NoMemory};

    ghost from_gives = { λ _ usage. usage ≡ NoMemory };

    fn from(_refused: AllocError) -> Usage {
        Usage::NoMemory
    }
}

impl From<NoMemory> for Usage {
    ghost use Rattle.ctf_options.specs.declared.usage.Usage.TheVariants as usage;

    ghost from_gives = { λ _ answer. answer ≡ usage.NoMemory };

    fn from(_refused: NoMemory) -> Usage {
        Usage::NoMemory
    }
}

impl Usage {
    /// The line to print, with its newline. It takes no memory.
    pub fn text(&self) -> &'static [u8]
        ensures { result.now ≡ usage_text self.now }
    {
        match self {
            Usage::Help => b"usage: bt-ctf [OPTIONS] DIR...\n",
            Usage::Bad => b"ERROR: U1: bad arguments\n",
            Usage::NoMemory => b"ERROR: O2: no memory\n",
        }
    }
}
