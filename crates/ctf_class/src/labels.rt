//! The labels of an enumeration.

ghost use Rattle.std.specs.Prelude.{◌≡◌, ◌<◌, ◌^◌, IsTrue, IfOk, IfSome};
ghost use Rattle.ctf_class.specs.Labels.{AreAlone, FindsNext};

use crate::apart::{are_apart, first_apart, next_apart, sorted_places};
use crate::chain::{chain_of, next_chained};
use crate::layers::{layers_of, next_layered};
use crate::span::Label;
use ctf_list::{List, NoMemory};
use std::alloc::Global;
use std::marker::Model;

/// How the labels that cover a number are found.
#[derive(Drop)]
enum Search {
    /// No two labels cover one number. The labels' places in the order of their numbers; none where that is
    /// the order in which they are.
    Apart(List<usize>),
    /// The labels' places in layers, in each of which no two cover one number. A number has few labels.
    Layered(List<List<usize>>),
    /// One past the place of the last label before each of its name; 0 where there is none.
    Chained(List<usize>),
}

/// Labels in the order of their declaration. One name may occur more than once (CTF 1.8.3, section 4.1.8).
/// Contracts see the list of the labels.
#[derive(Drop)]
pub struct Labels {
    labels: List<Label>,
    search: Search,
}

impl Model for Labels {
    ghost use Rattle.std.specs.Prelude.{List};
    ghost use Rattle.ctf_class.specs.declared.span.Label.{Label};

    ghost Value = { List Label };

    ghost use Rattle.ctf_class.specs.LabelSearch.{Finds};

    ghost view = { λ it. it.labels };

    ghost invariant = { λ it. Finds it.labels it.search };
}

impl Labels {
    /// Labels that are found by the numbers that they cover. Of `n` labels, takes time like `n` times its
    /// logarithm, and up to 16 bytes for each where they are not one after the other in the order of their numbers.
    pub fn new(alloc: Global, labels: List<Label>) -> Result<Labels, NoMemory>
        ensures { IfOk result (λ made. made ≡ labels) }
    {
        let search = Search::of(alloc, labels.as_slice())?;
        Ok(Labels { labels, search })
    }

    /// The labels in their order.
    pub fn as_slice(&self) -> &[Label]
        ensures { result.now ≡ self.now }
    {
        self.labels.as_slice()
    }

    /// Whether it is known that no number has two labels that are shown for it.
    #[inline(always)]
    pub fn are_apart(&self) -> bool
        ensures { IsTrue result → AreAlone self.now }
    {
        match &self.search {
            Search::Apart(_) => true,
            Search::Layered(_) => false,
            Search::Chained(_) => false,
        }
    }

    /// The place of the first label that is shown for a number, as `next_shown` finds it. Mostly no number has two
    /// labels, and the label is where it probably is: then no call is needed.
    #[inline(always)]
    pub fn first_shown(&self, number: i128) -> Option<usize>
        ensures next { FindsNext self.now number 0 result }
        ensures bounded { IfSome result (λ place. place < 2 ^ 63) }
    {
        match &self.search {
            Search::Apart(order) => first_apart(self.labels.as_slice(), order.as_slice(), number),
            Search::Layered(_) | Search::Chained(_) => self.next_shown(0, number),
        }
    }

    /// The place of the first label, from a place on, that is shown for a number: it covers the number, and no
    /// label that is before it and covers the number has its name. Where no number has two labels it is
    /// looked for where it probably is, then by halving, and so it is among many of which each number has
    /// few; else by a walk.
    #[inline(never)]
    pub fn next_shown(&self, begin: usize, number: i128) -> Option<usize>
        ensures next { FindsNext self.now number begin result }
        ensures bounded { IfSome result (λ place. place < 2 ^ 63) }
    {
        let labels = self.labels.as_slice();
        match &self.search {
            Search::Apart(order) => next_apart(labels, order.as_slice(), begin, number),
            Search::Layered(layers) => next_layered(labels, layers.as_slice(), begin, number),
            Search::Chained(earlier) => next_chained(labels, earlier.as_slice(), begin, number),
        }
    }
}

impl Search {
    ghost use Rattle.ctf_class.specs.LabelSearch.{Finds};

    /// How some labels are found.
    fn of(alloc: Global, labels: &[Label]) -> Result<Search, NoMemory>
        ensures { IfOk result (Finds labels.now) }
    {
        if are_apart(labels, &[]) {
            return Ok(Search::Apart(List::new(alloc)));
        }
        let order = sorted_places(alloc, labels)?;
        if are_apart(labels, order.as_slice()) {
            return Ok(Search::Apart(order));
        }
        match layers_of(alloc, labels, order)? {
            Some(layers) => Ok(Search::Layered(layers)),
            None => Ok(Search::Chained(chain_of(alloc, labels)?)),
        }
    }
}
