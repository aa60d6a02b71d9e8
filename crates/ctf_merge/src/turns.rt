//! Which stream's item comes next.

ghost use Rattle.std.specs.Prelude.{◌≡◌, ◌+◌, ◌%◌, ◌^◌, ◌<◌, ◌≤◌, ℕ, length, drop, set, replicate, IfOk, IfSome, IfNone, None};
ghost use Rattle.std.specs.List.{AllByRecursion};
ghost use Rattle.ctf_merge.specs.Trees.{turn_in, IsTree, IsRisen, IsNode, IsFirst};

use crate::turn::Turn;
use ctf_list::NoMemory;
use std::alloc::Global;
use std::marker::Model;

/// Comes after all turns.
const NOTHING: u128 = u128::MAX;

/// The number that is there in place of a stream's.
const NOBODY: usize = (1 << 63) - 1;

/// The turn of each stream, by its number, where it has one. Contracts see these.
///
/// They are the leaves of a tournament tree, and each node above is the lesser of the two below it, so that the first
/// one is the least turn. Which of two that is, is chosen without a jump: streams alternate as they please, and a
/// processor can't foresee it.
#[derive(Drop)]
pub(crate) struct TournamentTree {
    /// The two nodes below one are at twice its place and at one more; the first node is at 1, and nothing at 0.
    nodes: Vec<u128>,
    /// How many leaves there are, and where the first one is.
    leaves: usize,
}

impl Model for TournamentTree {
    ghost use Rattle.std.specs.Prelude.{List, Option, drop, map};
    ghost use Rattle.ctf_merge.specs.Trees.{turn_in, IsTree, AreNodes};
    ghost use Rattle.ctf_merge.specs.Turns as turns;

    ghost Value = { List (Option turns.Turn) };

    ghost view = { λ t. map turn_in (drop t.leaves t.nodes.items) };

    ghost invariant = { λ t. IsTree t.leaves t.nodes.items
        × AreNodes 0 (drop t.leaves t.nodes.items) };
}

impl TournamentTree {
    /// The tree of so many streams, of which none has a turn.
    pub(crate) fn new(alloc: Global, count: usize) -> Result<TournamentTree, NoMemory>
        ensures { IfOk result (λ turns. turns ≡ replicate count None) }
    {
        let mut nodes = Vec::new(alloc);
        let Some(places) = count.checked_mul(2) else {
            return Err(NoMemory);
        };
        match nodes.resize(places, NOTHING) {
            Ok(()) => Ok(TournamentTree {
                nodes,
                leaves: count,
            }),
            Err(_refused) => Err(NoMemory),
        }
    }

    /// The number of the stream with the least turn, if one has a turn.
    #[inline(always)]
    pub(crate) fn first(&self) -> Option<usize>
        ensures first { IfSome result (IsFirst self.now) }
        ensures bounded { IfSome result (λ number. number + 1 < 2 ^ 63) }
        ensures none { IfNone result (AllByRecursion (λ t. t ≡ None) self.now) }
    {
        match self.nodes.get(1) {
            Some(least) => number_in(*least),
            None => None,
        }
    }

    /// Gives a stream this turn, or none.
    #[inline(always)]
    pub(crate) fn put(&mut self, number: usize, turn: Option<Turn>)
        requires within { number < length self.old }
        requires own { IfSome turn (λ t. t.number ≡ number) }
        ensures { self.new ≡ set self.old number turn }
    {
        let key = key_of(turn);
        renew(self.nodes.as_mut_slice(), self.leaves, number, key);
    }
}

/// A turn as a node of the tree.
#[inline(always)]
fn key_of(turn: Option<Turn>) -> u128
    ensures turn { turn_in result ≡ turn }
    ensures node { (number : ℕ) → IfSome turn (λ t. t.number ≡ number) → IsNode number result }
{
    match turn {
        Some(turn) => turn.key(),
        None => NOTHING,
    }
}

/// The number of the stream of a node, if a turn is there. The half that says it is looked at alone, since a node is
/// written by halves.
#[inline(always)]
fn number_in(key: u128) -> Option<usize>
    ensures number { IfSome result (λ number. number ≡ key % 2 ^ 63) }
    ensures bounded { IfSome result (λ number. number + 1 < 2 ^ 63) }
    ensures none { IfNone result (key % 2 ^ 63 + 1 ≡ 2 ^ 63) }
{
    let number = (key % (1 << 63)) as usize;
    if number == NOBODY {
        return None;
    }
    Some(number)
}

/// Replaces a leaf, and then each node above it.
#[inline(always)]
fn renew(nodes: &mut [u128], leaves: usize, number: usize, key: u128)
    requires tree { IsTree leaves nodes.old }
    requires within { number < leaves }
    ensures tree { IsTree leaves nodes.new }
    ensures leaves { drop leaves nodes.new ≡ set (drop leaves nodes.old) number key }
{
    let mut place = leaves + number;
    nodes[place] = key;
    while place > 15 {
        place /= 2;
        let left = nodes[2 * place];
        let right = nodes[2 * place + 1];
        nodes[place] = if right < left { right } else { left };
    }
    let low = Risen {
        place,
        key: nodes[place],
    };
    let middle = climb(nodes, leaves, low, 7);
    let high = climb(nodes, leaves, middle, 3);
    let _first = climb(nodes, leaves, high, 1);
}

/// A node that is right, as all below it are, and what it is.
#[derive(Clone, Copy)]
struct Risen {
    place: usize,
    key: u128,
}

/// Renews the node above, unless this one is at the last place or before. What was written isn't read again. It is no
/// loop, since compilers make jumps where a loop keeps the lesser key.
#[inline(always)]
fn climb(nodes: &mut [u128], leaves: usize, from: Risen, last: usize) -> Risen
    requires first { 1 ≤ last }
    requires risen { IsRisen leaves from.place from.key nodes.old }
    ensures risen { IsRisen leaves result.place result.key nodes.new }
    ensures leaves { drop leaves nodes.new ≡ drop leaves nodes.old }
    ensures place { from.place ≤ last + last + 1 → result.place ≤ last }
{
    let place = from.place;
    if place <= last {
        return from;
    }
    let beside = nodes[2 * (place / 2) + 1 - place % 2];
    let key = if beside < from.key { beside } else { from.key };
    nodes[place / 2] = key;
    Risen {
        place: place / 2,
        key,
    }
}
