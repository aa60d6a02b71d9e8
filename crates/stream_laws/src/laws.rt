//! Laws of what the bytes of a stream mean.

ghost use Rattle.stream_laws.specs.Laws.{TimesRise, AllTimedOrNone, ItemsAreHeld, LaterBytesChangeNothing};

/// The times of a stream's items never fall.
pub fn times_rise()
    ensures { TimesRise }
{}

/// Of a stream's items either each has a time or none has.
pub fn all_timed_or_none()
    ensures { AllTimedOrNone }
{}

/// The packet of each item of a stream has its bytes there; one that is the rest of its stream ends it, cleanly.
pub fn items_are_held()
    ensures { ItemsAreHeld }
{}

/// What follows the packet of an item changes neither this item nor those before it, and the stream may end
/// there in any way. Only a packet that is the rest of its stream has to end with it, and cleanly.
pub fn later_bytes_change_nothing()
    ensures { LaterBytesChangeNothing }
{}
