//! Few choices, in a list.

ghost use Rattle.std.specs.Prelude.{◌≡◌, true, Some, IsTrue, IfSome};
ghost use Rattle.ctf_class.specs.Choices.{chosen};
ghost use Rattle.ctf_class.specs.ListedChoices.{ChoicesApart};

use crate::likely::rank_after;
use crate::span::Choice;
use ctf_list::List;

/// Choices in a list. It is gone through for a number that the likely choice does not cover.
#[derive(Drop)]
pub struct ListedChoices {
    pub list: List<Choice>,
    /// Whether it is known that their numbers are one after the other.
    are_apart: bool,
    ghost apart: { are_apart ≡ true → ChoicesApart list },
}

impl ListedChoices {
    /// These choices.
    pub fn new(list: List<Choice>) -> ListedChoices
        ensures { result.list ≡ list }
    {
        let are_apart = are_apart(list.as_slice());
        ListedChoices { list, are_apart }
    }

    /// The option of the first choice that covers a number.
    #[inline(always)]
    pub fn option(&self, number: i128) -> Option<usize>
        ensures { result ≡ chosen self.now.list number }
    {
        match self.likely_option(number) {
            Some(option) => Some(option),
            None => first_option(self.list.as_slice(), number),
        }
    }

    /// The option of the choice that probably covers a number, if it does.
    #[inline(always)]
    fn likely_option(&self, number: i128) -> Option<usize>
        ensures { IfSome result (λ option. chosen self.now.list number ≡ Some option) }
    {
        let choices = self.list.as_slice();
        if !self.are_apart || choices.is_empty() {
            return None;
        }
        let place = rank_after(choices[0].span.first, number, choices.len())?;
        let choice = &choices[place];
        if choice.span.covers(number) {
            Some(choice.option)
        } else {
            None
        }
    }
}

/// Whether the numbers of choices are one after the other.
fn are_apart(choices: &[Choice]) -> bool
    ensures { IsTrue result → ChoicesApart choices.now }
{
    let mut before = i128::MIN;
    for choice in choices {
        if !choice.span.is_above(before) {
            return false;
        }
        before = choice.span.last;
    }
    true
}

/// The option of the first of some choices that covers a number.
#[inline(always)]
fn first_option(choices: &[Choice], number: i128) -> Option<usize>
    ensures { result ≡ chosen choices.now number }
{
    for choice in choices {
        if choice.span.covers(number) {
            return Some(choice.option);
        }
    }
    None
}
