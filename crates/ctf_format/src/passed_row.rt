//! Elements of arrays that need no plan of their own and are passed over.

ghost use Rattle.std.specs.Prelude.{◌≤◌, IfSome};
ghost use Rattle.ctf_class.specs.Records.{IsShown};
ghost use Rattle.ctf_class.specs.declared.class.Class.{Class};
ghost use Rattle.ctf_decode.specs.Views.{form};
ghost use Rattle.ctf_format.specs.Branches.{Anywhere, PassesRow};
ghost use Rattle.ctf_format.specs.Passing.{Passes, next_at};
ghost use Rattle.ctf_format.specs.Standing.{Before, PutsNext};
ghost use Rattle.ctf_format.specs.Texts.{value_text};

use crate::array::begin_at;
use crate::content::Content;
use crate::passed_record::{
    element_of, end_of_string, end_of_text, pass_counted, structure_as_element,
};
use crate::planned_record::Reach;
use crate::shown_row::fixed_count;
use crate::standing::bits_at;
use ctf_class::Shown;
use ctf_decode::MOST_VALUES;

/// How far so many elements go that are shown so, and how many values were begun in all of them.
pub(crate) fn pass_shown_row(
    shown: &Shown,
    count: u64,
    packet: &Content<'_>,
    place: u64,
) -> Option<Reach>
    requires start { place ≤ packet.now.end }
    ensures passes { (k : Class) → IsShown 0 k shown.now →
        PassesRow result Anywhere k count packet.now place }
    ensures within { IfSome result (λ to. to.place ≤ packet.now.end) }
    ensures few { IfSome result (λ to. to.more ≤ MOST_VALUES) }
{
    let mut at = place;
    let mut more = 0;
    for i in 0..count {
        let next = pass_alone(shown, packet, at)?;
        at = next.place;
        more += next.more;
        if more > MOST_VALUES {
            return None;
        }
    }
    Some(Reach { place: at, more })
}

/// How far a value goes that is shown so and has no member before it, and how many values were begun in it.
#[inline(always)]
fn pass_alone(shown: &Shown, packet: &Content<'_>, place: u64) -> Option<Reach>
    requires start { place ≤ packet.now.end }
    ensures passes { let content = packet.now in (k : Class) → IsShown 0 k shown.now →
        IfSome result (λ to. (before : Before) → Passes (λ line after.
        PutsNext before (form k) (value_text k) content.bytes.now content.end place line
        (next_at to) after)) }
    ensures within { IfSome result (λ to. to.place ≤ packet.now.end) }
    ensures few { IfSome result (λ to. to.more ≤ MOST_VALUES) }
{
    let end = match shown {
        Shown::String => end_of_string(packet, place)?,
        Shown::Text(many) => end_of_text(fixed_count(*many)?, packet, place)?,
        Shown::Empty(align) => begin_at(*align, packet, place)?,
        Shown::Integer(lone) => bits_at(&lone.integer, lone.align, packet, place)?.end,
        Shown::Labelled(labelled) => {
            bits_at(&labelled.container, labelled.align, packet, place)?.end
        }
        Shown::Integers(are) => {
            let count = fixed_count(are.many)?;
            return pass_counted(&element_of(are), count, packet, place);
        }
        Shown::Structures(are) => {
            let count = fixed_count(are.many)?;
            return pass_counted(&structure_as_element(are)?, count, packet, place);
        }
    };
    Some(Reach {
        place: end,
        more: 0,
    })
}
