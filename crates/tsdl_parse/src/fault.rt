//! Why tokens have no tree.

ghost use Rattle.std.specs.Prelude.{◌≡◌};
ghost use Rattle.tsdl_parse.specs.Fault.{line_of};

use thiserror::Error;
use tsdl_text::LineNumber;

/// Why tokens have no tree.
#[derive(Clone, Copy, Debug, PartialEq, Eq, Error)]
pub enum SyntaxFault {
    /// S2: the tokens spell no tree. The line is at least 1 and at most that of the last token.
    #[error("syntax error at line {}", line.number())]
    Syntax { line: LineNumber },
    /// R9: braces nest more than 64 deep.
    #[error("nested too deep")]
    TooDeep,
    /// An allocation failed.
    #[error("no memory")]
    NoMemory,
}

impl SyntaxFault {
    /// The line of a syntax error, and `None` for another fault.
    pub fn line(&self) -> Option<LineNumber>
        ensures { result ≡ line_of self.now }
    {
        match self {
            SyntaxFault::Syntax { line } => Some(*line),
            SyntaxFault::TooDeep | SyntaxFault::NoMemory => None,
        }
    }
}
