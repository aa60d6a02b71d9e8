//! Numbers of enumerations.

ghost use Rattle.std.specs.Prelude.{◌≡◌, ℕ, ◌+◌, ◌++◌, [], ◌∷◌, ◌^◌, ◌<◌, ◌≤◌, length, take, drop, map, vec_len, codes, IfOk};
ghost use Rattle.ctf_class.specs.Labels.{label_at, IsNextShown};
ghost use Rattle.ctf_class.specs.Names.{label_text};
ghost use Rattle.ctf_format.specs.Numbers.{number_text};
ghost use Rattle.ctf_format.specs.Labels.{names_after, names_of, names_text, labelled_text};
ghost use Rattle.ctf_format.specs.Put.{IsPut};
ghost use Rattle.ctf_format.specs.Rows.{row};

use crate::mark::{put_after_space, put_bytes, put_end, put_lead, put_ready, put_short_bytes};
use crate::number::{put_number, put_unsigned_number};
use crate::room::with_room;
use ctf_class::{Integer, LONGEST_NUMBER, Labels};
use ctf_list::NoMemory;

/// How many bytes follow the names of labels at the most: the number of the container, and what is around it.
const AFTER_NAMES: usize = LONGEST_NUMBER + 17;

/// Writes an enumeration's number, with the names of the labels that cover it, at an index of a buffer, and
/// gives the index after it. What is before the index is kept. At an error the buffer is unspecified.
#[inline(always)]
pub fn put_labelled(
    container: &Integer,
    labels: &Labels,
    number: i128,
    buffer: &mut Vec<u8>,
    at: usize,
) -> Result<usize, NoMemory>
    requires { at ≤ vec_len buffer.old }
    ensures { let piece = labelled_text container.now labels.now number in
        IfOk result (IsPut buffer.old at piece buffer.new) }
{
    let end = put_names(labels, number, buffer, at)?;
    Ok(put_container(container, number, buffer.as_mut_slice(), end))
}

/// Writes what follows the names.
#[inline(always)]
fn put_container(container: &Integer, number: i128, line: &mut [u8], at: usize) -> usize
    requires { at + AFTER_NAMES ≤ length line.old }
    ensures text { take result line.new ≡
        take at line.old ++
        (codes " : container = " ++ (number_text container.now number ++ codes " )")) }
    ensures near { result ≤ at + AFTER_NAMES }
{
    let begin = put_short_bytes(b" : container = ", line, at);
    let end = put_contained(container, number, line, begin);
    put_after_space(b')', line, end)
}

/// Writes the number of a container. Mostly it is not below zero.
#[inline(always)]
fn put_contained(container: &Integer, number: i128, line: &mut [u8], at: usize) -> usize
    requires room { at + LONGEST_NUMBER ≤ length line.old }
    ensures text { take result line.new ≡ take at line.old ++ number_text container.now number }
    ensures near { result ≤ at + LONGEST_NUMBER }
{
    match u64::try_from(number) {
        Ok(number) => put_unsigned_number(container, number, line, at),
        Err(_) => put_number(container, number, line, at),
    }
}

/// Writes `( ` and the names of the labels that cover a number. Then there is room for what follows them.
#[inline(always)]
fn put_names(
    labels: &Labels,
    number: i128,
    buffer: &mut Vec<u8>,
    at: usize,
) -> Result<usize, NoMemory>
    requires { at ≤ vec_len buffer.old }
    ensures put { let piece = codes "( " ++ names_text (names_of labels.now number) in
        IfOk result (IsPut buffer.old at piece buffer.new) }
    ensures room { IfOk result (λ end. end + AFTER_NAMES ≤ vec_len buffer.new) }
{
    let Some(first) = labels.first_shown(number) else {
        return put_unknown(buffer, at);
    };
    if labels.are_apart() {
        return put_name(b'(', labels, first, buffer, at);
    }
    put_several(labels, number, first, buffer, at)
}

/// Writes `( ` and the names of the labels that cover a number, of which the one at the place `first` is the first.
/// Then there is room for what follows them.
#[inline(never)]
fn put_several(
    labels: &Labels,
    number: i128,
    first: usize,
    buffer: &mut Vec<u8>,
    at: usize,
) -> Result<usize, NoMemory>
    requires first { IsNextShown labels.now number 0 first }
    requires bounded { first < 2 ^ 63 }
    requires index { at ≤ vec_len buffer.old }
    ensures put { let piece = codes "( " ++ names_text (names_of labels.now number) in
        IfOk result (IsPut buffer.old at piece buffer.new) }
    ensures room { IfOk result (λ end. end + AFTER_NAMES ≤ vec_len buffer.new) }
{
    let Some(second) = labels.next_shown(first + 1, number) else {
        return put_name(b'(', labels, first, buffer, at);
    };
    let two = put_two(labels, first, second, buffer, at)?;
    let others = put_others(labels, number, second + 1, buffer, two)?;
    let end = put_end(b'}', buffer, others)?;
    with_room(AFTER_NAMES, buffer, end)?;
    Ok(end)
}

/// Writes what is shown where no label covers the number. Then there is room for what follows it.
#[inline(never)]
fn put_unknown(buffer: &mut Vec<u8>, at: usize) -> Result<usize, NoMemory>
    requires { at ≤ vec_len buffer.old }
    ensures put { IfOk result (IsPut buffer.old at (codes "( <unknown>") buffer.new) }
    ensures room { IfOk result (λ end. end + AFTER_NAMES ≤ vec_len buffer.new) }
{
    with_room(11 + AFTER_NAMES, buffer, at)?;
    Ok(put_bytes(b"( <unknown>", buffer.as_mut_slice(), at))
}

/// Writes `( { ` and the names of the labels at two places.
fn put_two(
    labels: &Labels,
    first: usize,
    second: usize,
    buffer: &mut Vec<u8>,
    at: usize,
) -> Result<usize, NoMemory>
    requires first { first < length labels.now }
    requires second { second < length labels.now }
    requires index { at ≤ vec_len buffer.old }
    ensures { let name = λ (place : ℕ). label_text (label_at labels.now place).name in
        let piece = codes "( " ++ row 123 (name first ∷ name second ∷ []) in
        IfOk result (IsPut buffer.old at piece buffer.new) }
{
    with_room(2, buffer, at)?;
    let begin = put_lead(b'(', buffer.as_mut_slice(), at);
    let one = put_name(b'{', labels, first, buffer, begin)?;
    put_name(b',', labels, second, buffer, one)
}

/// Writes the names of the labels from a place on that are shown for a number, each after a comma.
fn put_others(
    labels: &Labels,
    number: i128,
    from: usize,
    buffer: &mut Vec<u8>,
    at: usize,
) -> Result<usize, NoMemory>
    requires { at ≤ vec_len buffer.old }
    ensures { let names = names_after (take from labels.now) (drop from labels.now) number in
        IfOk result (IsPut buffer.old at (row 44 (map label_text names)) buffer.new) }
{
    let mut end = at;
    let mut begin = from;
    while let Some(place) = labels.next_shown(begin, number) {
        end = put_name(b',', labels, place, buffer, end)?;
        begin = place + 1;
    }
    Ok(end)
}

/// Writes the name of the label at a place after a mark. Then there is room for what follows names.
#[inline(always)]
fn put_name(
    mark: u8,
    labels: &Labels,
    place: usize,
    buffer: &mut Vec<u8>,
    at: usize,
) -> Result<usize, NoMemory>
    requires within { place < length labels.now }
    requires index { at ≤ vec_len buffer.old }
    ensures put { let piece = mark ∷ 32 ∷ label_text (label_at labels.now place).name in
        IfOk result (IsPut buffer.old at piece buffer.new) }
    ensures room { IfOk result (λ end. end + AFTER_NAMES ≤ vec_len buffer.new) }
{
    let label = &labels.as_slice()[place];
    put_ready(mark, label.name.ready(), AFTER_NAMES, buffer, at)
}
