//! The turn of a stream.

ghost use Rattle.std.specs.Prelude.{◌≡◌, ◌+◌, ◌<◌, ◌^◌};
ghost use Rattle.ctf_merge.specs.Keys.{turn_of_key, IsKey};

use std::marker::Model;

/// How many bits a stream's number has in a turn.
const NUMBER_BITS: u32 = 63;

/// The turn of a stream with a current item: the lesser turn comes first, by time, none first, and
/// then by number. Contracts see the time and the number.
///
/// Both are kept in one number, so that one comparison says which of two turns comes first. The time fills the upper
/// one of its words, and below it a bit says whether there is one.
#[derive(Drop)]
pub(crate) struct Turn {
    key: u128,
}

impl Model for Turn {
    ghost use Rattle.ctf_merge.specs.Turns as turns;
    ghost use Rattle.ctf_merge.specs.Keys.{turn_of_key, IsKey};

    ghost Value = { turns.Turn };

    ghost view = { λ turn. turn_of_key turn.key };

    ghost invariant = { λ turn. IsKey turn.key };
}

impl Turn {
    /// A turn, by the time of the item in nanoseconds since the epoch, where its stream has a clock, and the stream's
    /// number, from 0.
    #[inline(always)]
    pub(crate) fn new(time: Option<i64>, number: usize) -> Turn
        requires { number + 1 < 2 ^ 63 }
        ensures { result ≡ record { time = time; number = number } }
    {
        let above = match time {
            None => 0,
            Some(time) => 2 * (i128::from(time) - i128::from(i64::MIN)) as u128 + 1,
        };
        Turn {
            key: (above << NUMBER_BITS) + number as u128,
        }
    }

    /// The number that both are kept in.
    #[inline(always)]
    pub(crate) fn key(&self) -> u128
        ensures value { turn_of_key result ≡ self.now }
        ensures kept { IsKey result }
    {
        self.key
    }
}
