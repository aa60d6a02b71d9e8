//! Laws of sessions.

ghost use Rattle.ctf_session.specs.Laws.{BytesGiven, FirstParts, OneSinkEach, WholeInOne};

/// What each stream has given of its bytes after any items that were gone past, and what of them is held: the packet of
/// its next item is the last one that was taken.
pub fn bytes_given()
    ensures { BytesGiven }
{}

/// What was written where a run stopped is a first part of the whole output, and a first part of all messages.
pub fn first_parts()
    ensures { FirstParts }
{}

/// Each piece of an answer goes to one sink, so that where a run stopped one of the sinks has whole pieces.
pub fn whole_in_one()
    ensures each { OneSinkEach }
    ensures stopped { WholeInOne }
{}
