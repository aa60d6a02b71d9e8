//! Integers that are read at once, since it is known beforehand where they are.

ghost use Rattle.std.specs.Prelude.{◌≡◌, ℕ, ◌+◌, ◌*◌, ◌/◌, ◌%◌, ◌^◌, ◌≤◌, true, pos, length, None, SomeIff, IfSome};
ghost use Rattle.ctf_bits.specs.Number.{number, signed_number};
ghost use Rattle.ctf_bits.specs.Placed.{number_after};

use crate::number::{Order, masked_bits};
use crate::signed::twos_complement;
use std::marker::Model;

/// Where an integer is after the first bit of a byte, if it lies in the eight bytes from its own first one
/// on (CTF 1.8.3, section 4.1.5). Contracts see its place and its size, in bits, and whether it is in two's complement.
#[derive(Drop)]
pub struct Window {
    /// How many bytes are before its first one.
    bytes: usize,
    /// A one for each of its bits.
    mask: u64,
    /// The greatest number that it has.
    last: u64,
    /// How many bits of its first byte are before it.
    shift: u32,
    size: u32,
    is_signed: bool,
}

impl Model for Window {
    ghost use Rattle.std.specs.Prelude.{◌≡◌, ◌+◌, ◌-◌, ◌*◌, ◌^◌, ◌≤◌, ◌<◌, if◌then◌else◌};
    ghost use Rattle.ctf_bits.specs.Placed.{Placed};

    ghost Value = { Placed };

    ghost view = { λ window. record {
      place = 8 * window.bytes + window.shift;
      size = window.size;
      is_signed = window.is_signed;
    } };

    ghost invariant = { λ window. (1 ≤ window.size) × (window.shift < 8)
        × (window.shift + window.size ≤ 64) × (8 * window.bytes + window.shift < 2 ^ 64)
        × (window.mask ≡ 2 ^ window.size - 1)
        × (window.last
        ≡ (if window.is_signed then 2 ^ (window.size - 1) - 1 else 2 ^ window.size - 1)) };
}

impl Window {
    /// An integer of so many bits, 1 to 64, at a place; `None` exactly where it reaches a ninth byte.
    pub fn new(place: u64, size: u32, is_signed: bool) -> Option<Window>
        requires some_bits { 1 ≤ size }
        requires in_a_word { size ≤ 64 }
        ensures { SomeIff result (place % 8 + size ≤ 64)
            (record { place = place; size = size; is_signed = is_signed }) }
    {
        let shift = (place % 8) as u32;
        if shift + size > 64 {
            return None;
        }
        let mask = u64::MAX >> (64 - size);
        let last = if is_signed { mask >> 1 } else { mask };
        Some(Window {
            bytes: (place / 8) as usize,
            mask,
            last,
            shift,
            size,
            is_signed,
        })
    }

    /// The place of the integer, in bits.
    pub fn place(&self) -> u64
        ensures { result ≡ self.now.place }
    {
        8 * self.bytes as u64 + u64::from(self.shift)
    }

    /// Where the integer ends, in bits.
    pub fn end(&self) -> u64
        requires { self.now.place ≤ 2 ^ 63 }
        ensures { result ≡ self.now.place + self.now.size }
    {
        self.place() + u64::from(self.size)
    }

    /// The number of the integer after the first `first` of some bytes, which hold the eight bytes that it lies in.
    /// `None` where it is below zero, which no unsigned one is.
    #[inline(always)]
    pub fn number(&self, bytes: &[u8], first: usize, order: Order) -> Option<u64>
        requires held { first + self.now.place / 8 + 8 ≤ length bytes.now }
        ensures value { IfSome result (λ n. number_after order self.now bytes.now first ≡ pos n) }
        ensures below { result ≡ None → (n : ℕ) →
            number_after order self.now bytes.now first ≡ pos n → ⊥ }
        ensures signed { result ≡ None → self.now.is_signed ≡ true }
    {
        let number = self.bits(bytes, first, order);
        if number > self.last {
            return None;
        }
        Some(number)
    }

    /// The number that a window's bits are in two's complement.
    pub fn signed(&self, bytes: &[u8], first: usize, order: Order) -> i64
        requires held { first + self.now.place / 8 + 8 ≤ length bytes.now }
        ensures { let place = 8 * first + self.now.place in
            result ≡ signed_number order bytes.now place self.now.size }
    {
        twos_complement(self.bits(bytes, first, order), self.size)
    }

    /// The number that the integer's bits are without a sign.
    #[inline(always)]
    fn bits(&self, bytes: &[u8], first: usize, order: Order) -> u64
        requires held { first + self.now.place / 8 + 8 ≤ length bytes.now }
        ensures { result ≡ number order bytes.now (8 * first + self.now.place) self.now.size }
    {
        let (_, from) = bytes.split_at(first + self.bytes);
        masked_bits(from, self.shift, self.size, self.mask, order)
    }
}
