//! Texts of arrays of integers that are one after the other in whole bytes, straight from the packet's bits.

ghost use Rattle.std.specs.Prelude.{◌≡◌, ◌+◌, ◌*◌, ◌%◌, ◌++◌, ◌∷◌, ◌≤◌, length, take, vec_len, IfOk, IfSome};
ghost use Rattle.ctf_class.specs.Integers.{bits_of};
ghost use Rattle.ctf_decode.specs.Forms as forms;
ghost use Rattle.ctf_format.specs.Numbers.{number_text};
ghost use Rattle.ctf_format.specs.Rows.{row};
ghost use Rattle.ctf_format.specs.RunNumbers.{number_at};
ghost use Rattle.ctf_format.specs.Standing.{PutsOne, PutsElements};
ghost use Rattle.ctf_format.specs.Texts as texts;

use crate::content::Content;
use crate::element::{ElementLead, put_index};
use crate::number::put_unsigned_number;
use crate::standing::{AlignedInteger, put_negative};
use ctf_bits::{Order, Window};
use ctf_class::{Align, Integer, LONGEST_NUMBER};
use ctf_decode::MOST_VALUES;
use ctf_list::NoMemory;

/// Integers of a packet, each of whole bytes, one after the other. Eight bytes are there from each one's begin on, so
/// that it is a word and a mask.
#[derive(Drop)]
pub(crate) struct ByteIntegers<'a> {
    pub(crate) integer: &'a Integer,
    pub(crate) align: Align,
    pub(crate) packet: &'a Content<'a>,
    /// Where each is, after its own begin.
    window: Window,
    /// How many bytes of the packet are before the first one.
    pub(crate) first: usize,
    /// How many bytes each takes.
    pub(crate) step: usize,
    /// How many there are.
    pub(crate) count: u64,
    ghost reads: { window ≡
        record { place = 0; size = bits_of integer.now; is_signed = integer.now.is_signed } },
    ghost size: { 8 * step ≡ bits_of integer.now },
    ghost apart: { (8 * step) % align ≡ 0 },
    ghost begins: { (8 * first) % align ≡ 0 },
    ghost within: { 8 * (first + step * count) ≤ packet.now.end },
    ghost held: { first + step * count + 8 ≤ length packet.now.bytes.now + step },
}

impl<'a> ByteIntegers<'a> {
    /// So many integers from a place on, in bits. `None` where they are not such ones, where padding is before or
    /// between them, where the content ends before they do, and where fewer than eight bytes are there from the last
    /// one on.
    #[inline(always)]
    pub(crate) fn new(
        class: &AlignedInteger<'a>,
        count: u64,
        packet: &'a Content<'a>,
        place: u64,
    ) -> Option<ByteIntegers<'a>>
        requires few { count ≤ MOST_VALUES }
        requires start { place ≤ packet.now.end }
        ensures integer { IfSome result (λ are. are.integer.now ≡ class.now.integer.now) }
        ensures align { IfSome result (λ are. are.align ≡ class.now.align) }
        ensures packet { IfSome result (λ are. are.packet.now ≡ packet.now) }
        ensures count { IfSome result (λ are. are.count ≡ count) }
        ensures begins { IfSome result (λ are. 8 * are.first ≡ place) }
    {
        let integer = class.integer;
        let size = u64::from(integer.size.bits());
        if size % 8 != 0 || place % 8 != 0 {
            return None;
        }
        if class.align.up(size) != size || class.align.up(place) != place {
            return None;
        }
        let window = Window::new(0, integer.size.bits(), integer.is_signed)?;
        let step = (size / 8) as usize;
        let first = (place / 8) as usize;
        let end = first + step * count as usize;
        if end as u64 > packet.end / 8 || end + 8 > packet.bytes.len() + step {
            return None;
        }
        Some(ByteIntegers {
            integer,
            align: class.align,
            packet,
            window,
            first,
            step,
            count,
        })
    }

    /// Where the last one ends, in bits from the packet's first one.
    #[inline(always)]
    pub(crate) fn end(&self) -> u64
        ensures { result ≡ 8 * (self.now.first + self.now.step * self.now.count) }
    {
        8 * (self.first as u64 + self.step as u64 * self.count)
    }

    /// Writes them, the first after `[`, at an index of a buffer, and gives the index after them. What is before the
    /// index is kept. At an error the buffer is unspecified.
    #[inline(always)]
    pub(crate) fn put_row(&self, buffer: &mut Vec<u8>, at: usize) -> Result<usize, NoMemory>
        requires { at ≤ vec_len buffer.old }
        ensures puts { let are = self.now in let packet = are.packet.now in
            let integer = are.integer.now in let k = forms.integer are.align integer in
            IfOk result (λ text. PutsElements (row 91) k (texts.integer_text integer) 1 are.count
            packet.bytes.now packet.end (8 * are.first) (8 * (are.first + are.step * are.count))
            (take at buffer.old.items) (take text buffer.new.items)) }
        ensures held { IfOk result (λ text. text ≤ vec_len buffer.new) }
    {
        match self.integer.order {
            Order::Le => self.put_elements(Order::Le, buffer, at),
            Order::Be => self.put_elements(Order::Be, buffer, at),
        }
    }

    /// Writes them in their byte order.
    #[inline(always)]
    fn put_elements(&self, order: Order, buffer: &mut Vec<u8>, at: usize) -> Result<usize, NoMemory>
        requires order { self.now.integer.now.order ≡ order }
        requires index { at ≤ vec_len buffer.old }
        ensures puts { let are = self.now in let packet = are.packet.now in
            let integer = are.integer.now in let k = forms.integer are.align integer in
            IfOk result (λ text. PutsElements (row 91) k (texts.integer_text integer) 1 are.count
            packet.bytes.now packet.end (8 * are.first) (8 * (are.first + are.step * are.count))
            (take at buffer.old.items) (take text buffer.new.items)) }
        ensures held { IfOk result (λ text. text ≤ vec_len buffer.new) }
    {
        let mut text = at;
        let mut first = self.first;
        let mut mark = b'[';
        for i in 0..self.count {
            let index = i as usize;
            let lead = ElementLead { mark, index };
            text = self.put_element(order, lead, first, buffer, text)?;
            first += self.step;
            mark = b',';
        }
        Ok(text)
    }

    /// Writes the mark, the index and the number of the one that begins after so many bytes.
    #[inline(always)]
    fn put_element(
        &self,
        order: Order,
        lead: ElementLead,
        first: usize,
        buffer: &mut Vec<u8>,
        at: usize,
    ) -> Result<usize, NoMemory>
        requires order { self.now.integer.now.order ≡ order }
        requires begins { (8 * first) % self.now.align ≡ 0 }
        requires within { 8 * (first + self.now.step) ≤ self.now.packet.now.end }
        requires held { first + 8 ≤ length self.now.packet.now.bytes.now }
        requires index { at ≤ vec_len buffer.old }
        ensures puts { let are = self.now in let packet = are.packet.now in
            let integer = are.integer.now in
            IfOk result (λ text. PutsOne (forms.integer are.align integer)
            (λ v. lead.mark ∷ 32 ∷ texts.element_text (texts.integer_text integer) lead.index v)
            packet.bytes.now packet.end (8 * first) (8 * (first + are.step))
            (take at buffer.old.items) (take text buffer.new.items)) }
        ensures held { IfOk result (λ text. text ≤ vec_len buffer.new) }
    {
        let begin = put_index(lead, buffer, at)?;
        Ok(self.put_number(order, first, buffer.as_mut_slice(), begin))
    }

    /// Writes the number of the one that begins after so many bytes. Mostly it is not below zero.
    #[inline(always)]
    fn put_number(&self, order: Order, first: usize, line: &mut [u8], at: usize) -> usize
        requires order { self.now.integer.now.order ≡ order }
        requires held { first + 8 ≤ length self.now.packet.now.bytes.now }
        requires room { at + LONGEST_NUMBER ≤ length line.old }
        ensures text { let integer = self.now.integer.now in
            let number = number_at integer self.now.packet.now.bytes.now (8 * first) in
            take result line.new ≡ take at line.old ++ number_text integer number }
        ensures near { result ≤ at + LONGEST_NUMBER }
    {
        let bytes = self.packet.bytes;
        match self.window.number(bytes, first, order) {
            Some(number) => put_unsigned_number(self.integer, number, line, at),
            None => put_negative(
                self.integer,
                self.window.signed(bytes, first, order),
                line,
                at,
            ),
        }
    }
}
