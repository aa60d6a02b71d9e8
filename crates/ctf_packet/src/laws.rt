//! Laws of what streams mean.

ghost use Rattle.std.specs.Prelude.{◌≡◌};
ghost use Rattle.ctf_packet.specs.Laws.{WalkFindsWhatStands, ClockGoesByMoving, RecordsGoOn, PacketsGoOn};
ghost use Rattle.ctf_packet.specs.Scopes.{longest};
ghost use Rattle.ctf_packet.specs.declared.sizes.TheConstants.{LONGEST_PACKET};

/// The value or fault that packets and event records are made of is the one that is at the place in the bits.
pub fn walk_finds_what_stands()
    ensures { WalkFindsWhatStands }
{}

/// The clock goes by the steps that `moving` gives, on each number that an integer's width holds and on each
/// value that is in a packet.
pub fn clock_goes_by_moving()
    ensures { ClockGoesByMoving }
{}

/// What comes from a place of a packet on is the event record there and what comes from its end on, or
/// its fault; after the content it is what follows the packet.
pub fn records_go_on()
    ensures { RecordsGoOn }
{}

/// What comes from a packet boundary of a stream on is the packet there and what comes from its end on, or its
/// fault; where no byte is left it is the end.
pub fn packets_go_on()
    ensures { PacketsGoOn }
{}

/// The longest packet, in bits, as contracts mean it by its name: that of the definition.
pub fn longest_packet()
    ensures { LONGEST_PACKET ≡ longest }
{}
