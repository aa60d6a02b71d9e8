//! Event headers, as far as they are known before they are read.

ghost use Rattle.std.specs.Prelude.{◌≡◌, ◌≤◌, ◌+◌, ◌%◌, ◌^◌, [], ◌∷◌, codes, pos, true, false, None, IfSome, IsTrue, option_copied};
ghost use Rattle.std.specs.Int.{next_multiple_of};
ghost use Rattle.std.specs.Str.{bytes_eq};
ghost use Rattle.ctf_class.specs.HeaderPlans.{IsHeaderPlan, IsHeaderPlanOf, AreIntegers, AreNear, Chooses, Follows, IsOption, IsRead, IsReading};
ghost use Rattle.ctf_class.specs.Integers.{bits_of};
ghost use Rattle.ctf_class.specs.declared.class.Class.{Class};
ghost use Rattle.ctf_class.specs.declared.class.Kind as kinds;
ghost use Rattle.ctf_class.specs.declared.route.Origin.TheVariants as origins;

use crate::align::Align;
use crate::choices::Choices;
use crate::class::{Class, Kind, Member};
use crate::integer::Integer;
use crate::route::{Origin, Route};
use ctf_bits::{Order, ShortInteger};

/// The farthest end of integers, in bits, after which there may be one more.
const FARTHEST: u64 = 1 << 32;

/// The most values of a header with which there may be one more.
const MOST_BEFORE: u64 = 1 << 16;

/// An integer of an event header.
#[derive(Clone, Copy)]
pub struct HeaderNumber {
    /// Where it begins, in bits from the begin of its structure, wherever that is.
    pub distance: u64,
    pub integer: Integer,
    pub reading: HeaderReading,
}

/// How an integer of an event header is read: one of at most 57 bits at once, in its byte order.
#[derive(Clone, Copy)]
pub enum HeaderReading {
    Little(ShortInteger),
    Big(ShortInteger),
    /// One of more than 57 bits, in either byte order.
    Long,
}

/// What an event header is read for in the structure of integers that it is, or ends with (CTF 1.8.3, section 6.1).
/// These are one after the other at fixed distances from its begin, since their alignments divide its own.
#[derive(Clone, Copy)]
pub struct HeaderIntegers {
    /// The alignment of the structure.
    pub align: Align,
    /// How many bits of the header are before it, with which no padding is counted.
    pub skipped: u64,
    /// The last integer named `id`, which is unsigned.
    pub id: Option<HeaderNumber>,
    /// The integer that sets the clock, which is unsigned.
    pub stamp: Option<HeaderNumber>,
    /// Where they end, in bits from the structure's begin.
    pub span: u64,
    /// How many values the header has.
    pub values: u64,
}

/// An unsigned enumeration named `id`, with which a header begins. A variant on it ends the header, as LTTng has it.
#[derive(Drop)]
pub struct HeaderTag {
    pub number: HeaderNumber,
    /// The first and the last number of the variant's first choice.
    pub first: u64,
    pub last: u64,
}

/// How event headers are read without a look at their class (CTF 1.8.3, section 6.1).
#[derive(Drop)]
pub struct HeaderPlan {
    /// The alignment of the header.
    pub align: Align,
    /// The tag that chooses among the integers, if there is one.
    pub tag: Option<HeaderTag>,
    /// The integers of a header without a tag, or those of the first choice.
    pub usual: HeaderIntegers,
    /// Those that the number after the first choice chooses.
    pub other: Option<HeaderIntegers>,
}

/// A tag, and the variant on it.
#[derive(Clone, Copy)]
struct TaggedOptions<'a> {
    tag: &'a Integer,
    choices: &'a Choices,
    options: &'a [Member],
}

/// The plan for event headers of a class; `None` where there is no class, or it is of another form than those that
/// `HeaderPlan` has, or where no list of its choices is kept.
pub(crate) fn header_plan(class: Option<&Class>) -> Option<HeaderPlan>
    ensures { IsHeaderPlanOf (option_copied class.entry) result }
{
    match class {
        None => None,
        Some(class) => plan_of(class),
    }
}

/// The plan for headers of this class; `None` where it is of another form than those that `HeaderPlan` has, or where no
/// list of its choices is kept.
fn plan_of(class: &Class) -> Option<HeaderPlan>
    ensures { IfSome result (λ plan. IsHeaderPlan plan class.now) }
{
    let Kind::Structure { members } = &class.kind else {
        return None;
    };
    if let [tag, variant] = members.as_slice() {
        if let Some(plan) = tagged_plan(class.align, tag, variant) {
            return Some(plan);
        }
    }
    Some(HeaderPlan {
        align: class.align,
        tag: None,
        usual: HeaderIntegers::of(class, 0, 1)?,
        other: None,
    })
}

/// The plan for headers of this alignment that are an enumeration and a variant on it. `None` where no list of its
/// choices is kept: they are not gone through for each stream class.
fn tagged_plan(align: Align, tag: &Member, variant: &Member) -> Option<HeaderPlan>
    ensures { IfSome result (λ plan. (k : Class) → k.align ≡ align →
        k.kind ≡ kinds.Structure (tag.now ∷ variant.now ∷ []) → IsHeaderPlan plan k) }
{
    let Kind::Enumeration { container, labels } = &tag.class.kind else {
        return None;
    };
    let Kind::Variant {
        tag: route,
        choices,
        options,
    } = &variant.class.kind
    else {
        return None;
    };
    if container.is_signed || !is_id(tag.name.as_slice()) {
        return None;
    }
    if !divides(tag.class.align, align) || !leads_to_first(route) {
        return None;
    }
    let choice = choices.first_listed()?;
    let last = unsigned(choice.span.last)?;
    let variant = TaggedOptions {
        tag: container,
        choices,
        options: options.as_slice(),
    };
    Some(HeaderPlan {
        align,
        tag: Some(HeaderTag {
            number: numbered(0, container),
            first: unsigned(choice.span.first)?,
            last,
        }),
        usual: variant.integers(choice.option)?,
        other: variant.integers_after(last),
    })
}

/// Whether a route leads to the first member of the innermost structure.
fn leads_to_first(route: &Route) -> bool
    ensures origin { IsTrue result → route.now.origin ≡ origins.Enclosing 0 }
    ensures steps { IsTrue result → route.now.steps ≡ 0 ∷ [] }
{
    let Origin::Enclosing(out) = route.origin else {
        return false;
    };
    let [step] = route.steps.as_slice() else {
        return false;
    };
    out == 0 && *step == 0
}

impl TaggedOptions<'_> {
    /// The integers of the option that the number after another one chooses, if it is a structure of integers.
    fn integers_after(&self, last: u64) -> Option<HeaderIntegers>
        ensures chooses { IfSome result (Chooses (bits_of self.now.tag.now) self.now.choices.now
            self.now.options.now (pos (last + 1))) }
        ensures near { IfSome result AreNear }
        ensures after { IfSome result (λ are. bits_of self.now.tag.now ≤ are.skipped) }
    {
        let number = i128::from(last) + 1;
        self.integers(self.choices.option(number)?)
    }

    /// The integers of an option, if it is a structure of integers.
    fn integers(&self, option: usize) -> Option<HeaderIntegers>
        ensures is { IfSome result (IsOption (bits_of self.now.tag.now) self.now.options.now
            option) }
        ensures near { IfSome result AreNear }
        ensures after { IfSome result (λ are. bits_of self.now.tag.now ≤ are.skipped) }
    {
        if option >= self.options.len() {
            return None;
        }
        let option = &self.options[option];
        HeaderIntegers::of(&option.class, size_of(self.tag), 4)
    }
}

impl HeaderIntegers {
    /// The integers of a class after so many bits of a header, if it is a structure of integers, which is the last of
    /// so many values.
    fn of(class: &Class, skipped: u64, values: u64) -> Option<HeaderIntegers>
        requires near { skipped ≤ 64 }
        requires few { values ≤ 4 }
        ensures are { IfSome result (AreIntegers class.now skipped values) }
        ensures near { IfSome result AreNear }
        ensures skipped { IfSome result (λ are. are.skipped ≡ skipped) }
    {
        let Kind::Structure { members } = &class.kind else {
            return None;
        };
        let mut integers = HeaderIntegers {
            align: class.align,
            skipped,
            id: None,
            stamp: None,
            span: 0,
            values,
        };
        for member in members.as_slice() {
            integers = integers.and_member(member)?;
        }
        Some(integers)
    }

    /// These integers and a member after them. `None` where that is no integer, is too far away, or has a sign and is
    /// named `id` or sets the clock; and where it is a second one that sets the clock.
    fn and_member(&self, member: &Member) -> Option<HeaderIntegers>
        requires near { AreNear self.now }
        ensures follows { IfSome result (Follows member.now self.now) }
        ensures near { IfSome result AreNear }
        ensures skipped { IfSome result (λ are. are.skipped ≡ self.now.skipped) }
    {
        let Kind::Integer(integer) = &member.class.kind else {
            return None;
        };
        let align = member.class.align;
        if !divides(align, self.align) || !self.takes(integer, member.name.as_slice()) {
            return None;
        }
        let distance = next_place(align, self.span)?;
        let number = numbered(distance, integer);
        let is_id = is_id(member.name.as_slice());
        Some(HeaderIntegers {
            align: self.align,
            skipped: self.skipped,
            id: if is_id { Some(number) } else { self.id },
            stamp: if integer.is_moving {
                Some(number)
            } else {
                self.stamp
            },
            span: distance + size_of(integer),
            values: self.values + 1,
        })
    }

    /// Whether an integer of this name may follow.
    fn takes(&self, integer: &Integer, name: &[u8]) -> bool
        ensures id { IsTrue result → bytes_eq name.now (codes "id") ≡ true →
            integer.now.is_signed ≡ false }
        ensures stamp { IsTrue result → integer.now.is_moving ≡ true →
            integer.now.is_signed ≡ false }
        ensures alone { IsTrue result → integer.now.is_moving ≡ true → self.now.stamp ≡ None }
        ensures few { IsTrue result → self.now.values ≤ MOST_BEFORE }
    {
        if self.values > MOST_BEFORE {
            return false;
        }
        if integer.is_moving {
            return !integer.is_signed && self.stamp.is_none();
        }
        !integer.is_signed || !is_id(name)
    }
}

/// Where an integer of this alignment begins that could begin at a place, if that is near.
fn next_place(align: Align, place: u64) -> Option<u64>
    ensures is { IfSome result (λ next. next ≡ next_multiple_of place align) }
    ensures near { IfSome result (λ next. next ≤ 2 ^ 33) }
    ensures after { IfSome result (λ next. place ≤ next) }
{
    if place > FARTHEST {
        return None;
    }
    Some(align.up(place))
}

/// An integer at a distance.
fn numbered(distance: u64, integer: &Integer) -> HeaderNumber
    ensures distance { result.distance ≡ distance }
    ensures integer { result.integer ≡ integer.now }
    ensures read { IsRead result }
{
    HeaderNumber {
        distance,
        integer: *integer,
        reading: reading_of(integer),
    }
}

/// How an integer is read.
fn reading_of(integer: &Integer) -> HeaderReading
    ensures { IsReading integer.now result }
{
    let Some(short) = ShortInteger::new(integer.size.bits()) else {
        return HeaderReading::Long;
    };
    match integer.order {
        Order::Le => HeaderReading::Little(short),
        Order::Be => HeaderReading::Big(short),
    }
}

/// Whether an alignment divides another one.
fn divides(inner: Align, outer: Align) -> bool
    ensures { IsTrue result → outer % inner ≡ 0 }
{
    outer.bits() % inner.bits() == 0
}

/// The size of an integer, in bits.
fn size_of(integer: &Integer) -> u64
    ensures is { result ≡ bits_of integer.now }
    ensures few { result ≤ 64 }
{
    u64::from(integer.size.bits())
}

/// A number as one of 64 bits without a sign, if it is one.
fn unsigned(number: i128) -> Option<u64>
    ensures { IfSome result (λ n. number ≡ pos n) }
{
    u64::try_from(number).ok()
}

/// Whether a name is `id`.
fn is_id(name: &[u8]) -> bool
    ensures { result ≡ bytes_eq name.now (codes "id") }
{
    name == b"id".as_slice()
}
