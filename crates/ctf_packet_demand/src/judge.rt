//! What a packet asks for, judged by its context.

ghost use Rattle.std.specs.Prelude.{option_map, option_copied, IfOk, codes};
ghost use Rattle.ctf_clock.specs.declared.moment.Shift.{Shift};
ghost use Rattle.ctf_decode.specs.Views.{form, val};
ghost use Rattle.ctf_packet.specs.Scopes.{Values};
ghost use Rattle.ctf_packet.specs.Roles as roles;
ghost use Rattle.ctf_packet_demand.specs.Wants as wants;
ghost use Rattle.ctf_packet_demand.specs.Gives.{begun_of, Judged, EndsAt};

use crate::want::{Begun, Want};
use ctf_class::Role;
use ctf_decode::Value;
use ctf_packet::{StreamFault, fields_of_roles, number_in, told_sizes};

/// What a packet asks for whose context has this value (CTF 1.8.3, section 5.2).
///
/// F5 exactly where the sizes that it gives can't be.
pub fn judge_sizes<'a>(begun: Begun<'a>, context: Option<&Value>) -> Result<Want<'a>, StreamFault>
    ensures judged { (shift : Shift) (values : Values) →
        Judged shift values result (wants.sized (begun_of shift values begun.entry)
        (roles.number_in (roles.role (codes "packet_size")
        (option_map form begun.entry.stream.now.packet_context)
        (option_map val (option_copied context.entry))))
        (roles.number_in (roles.role (codes "content_size")
        (option_map form begun.entry.stream.now.packet_context)
        (option_map val (option_copied context.entry))))) }
    ensures first { IfOk result (EndsAt begun.entry.first) }
{
    let front = begun.stream.context_front();
    let sizes = fields_of_roles(front, context, Role::PacketSize, Role::ContentSize);
    let packet = number_in(sizes.0);
    let content = number_in(sizes.1);
    Ok(match told_sizes(packet, content, begun.first)? {
        None => Want::Rest(begun),
        Some(sizes) => Want::Whole(begun, sizes),
    })
}
