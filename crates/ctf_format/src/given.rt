//! Numbers of the packet's header and context that lengths and tags of its event records ask for.

ghost use Rattle.std.specs.Prelude.{◌≡◌, ◌⊎◌, [], Option, IsTrue};
ghost use Rattle.ctf_class.specs.declared.route.Origin.TheVariants.{Earlier};
ghost use Rattle.ctf_class.specs.declared.route.Scope.{Scope as ClassScope};
ghost use Rattle.ctf_class.specs.declared.route.Scope.TheVariants.{PacketHeader, PacketContext};
ghost use Rattle.ctf_decode.specs.Routes.{found_from};
ghost use Rattle.ctf_decode.specs.Values.{Val};
ghost use Rattle.ctf_decode.specs.Views.{val};
ghost use Rattle.ctf_format.specs.Found.{Finds, SharesPacket};
ghost use Rattle.ctf_format.specs.Standing.{ValueIs};

use crate::leaf::label_of;
use crate::standing::Last;
use ctf_class::{Origin, Route, Scope};
use ctf_decode::{Frame, Scopes, Value, value_at};

/// The number that a route finds in the packet's header or context, whose values are in `scopes`, as far as a length or
/// a tag may have it (CTF 1.8.3, section 7.3.2).
pub(crate) fn given_number(route: &Route, scopes: &Scopes) -> Last
    ensures { (earlier : ClassScope → Option Val) → SharesPacket scopes.now earlier →
        Finds result (found_from route.now.origin route.now.steps earlier []) }
{
    if !is_in_packet(route.origin) {
        return Last::Unknown;
    }
    match value_at(route, scopes, &Frame::Top) {
        Some(value) => last_of(value),
        None => Last::Unknown,
    }
}

/// Whether a route begins in the packet's header or context.
fn is_in_packet(origin: Origin) -> bool
    ensures { IsTrue result → (origin ≡ Earlier PacketHeader) ⊎ (origin ≡ Earlier PacketContext) }
{
    origin == Origin::Earlier(Scope::PacketHeader)
        || origin == Origin::Earlier(Scope::PacketContext)
}

/// What a length or a tag may have of a value.
fn last_of(value: &Value) -> Last
    ensures { ValueIs result (val value.now) }
{
    match value {
        Value::Unsigned(number) => Last::Unsigned(*number),
        Value::Label(number) => label_of(*number),
        _ => Last::Unknown,
    }
}
