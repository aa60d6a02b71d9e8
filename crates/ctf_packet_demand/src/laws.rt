//! Laws of what the first bytes of a packet ask for.

ghost use Rattle.ctf_packet.specs.Classes.{Classes};
ghost use Rattle.ctf_packet_demand.specs.Laws.{WantsTell};

/// What the first bytes of a packet ask for settles what a packet with these first bytes is, whatever
/// follows them: the fault that is there; the fault of a header or a context where fewer bits are left than
/// are asked for; the packet of the sizes that are given, where so many bits are left; or what is left.
/// More is asked for only beyond what is there.
pub fn wants_tell()
    ensures { WantsTell Classes }
{}
