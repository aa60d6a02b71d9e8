//! Where the scopes around a class are declared.

ghost use Rattle.std.specs.Prelude.{◌≡◌, reverse, take};
ghost use Rattle.ctf_meaning.specs.Blocks.{block_of};
ghost use Rattle.ctf_meaning.specs.Paths.{rank, scopes};
ghost use Rattle.ctf_meaning.specs.Scopes.{in_home};
ghost use Rattle.ctf_types.specs.Texts.{home_by};

use ctf_class::Scope;

/// The numbers of the trace, stream and event block that declare the scopes around a class, where there
/// are such (CTF 1.8.3, section 7.3.2).
#[derive(Clone, Copy)]
pub struct Home {
    pub trace: Option<usize>,
    pub stream: Option<usize>,
    pub event: Option<usize>,
}

impl Home {
    /// The number of the block that declares a scope.
    pub fn block(&self, scope: Scope) -> Option<usize>
        ensures { result ≡ in_home (home_by self.now) (block_of scope) }
    {
        match scope {
            Scope::PacketHeader => self.trace,
            Scope::PacketContext => self.stream,
            Scope::EventHeader => self.stream,
            Scope::StreamEventContext => self.stream,
            Scope::EventContext => self.event,
            Scope::EventFields => self.event,
        }
    }
}

/// The scopes before a scope, the nearest first.
pub fn scopes_before(scope: Scope) -> &'static [Scope]
    ensures { result.now ≡ reverse (take (rank scope) scopes) }
{
    match scope {
        Scope::PacketHeader => &[],
        Scope::PacketContext => &[Scope::PacketHeader],
        Scope::EventHeader => &[Scope::PacketContext, Scope::PacketHeader],
        Scope::StreamEventContext => &[
            Scope::EventHeader,
            Scope::PacketContext,
            Scope::PacketHeader,
        ],
        Scope::EventContext => &[
            Scope::StreamEventContext,
            Scope::EventHeader,
            Scope::PacketContext,
            Scope::PacketHeader,
        ],
        Scope::EventFields => &[
            Scope::EventContext,
            Scope::StreamEventContext,
            Scope::EventHeader,
            Scope::PacketContext,
            Scope::PacketHeader,
        ],
    }
}
