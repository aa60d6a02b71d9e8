//! The choices of a variant.

ghost use Rattle.std.specs.Prelude.{◌≡◌, take, slice_get, Some, IfOk, IfSome};
ghost use Rattle.ctf_class.specs.Choices as choosing;

use crate::labels::Labels;
use crate::listed_choices::ListedChoices;
use crate::names::Names;
use crate::span::{Choice, Label};
use ctf_list::{List, NoMemory, Shared};
use std::alloc::Global;
use std::marker::Model;

/// The most labels whose choices are kept as a list, which may be gone through for each number.
const MOST_LISTED: usize = 32;

/// What makes choices: the labels of a tag, and names, of which the first `count` are those of the options.
#[derive(Drop)]
struct Named {
    labels: Shared<Labels>,
    names: Shared<Names>,
    count: usize,
}

/// How choices are kept.
#[derive(Drop)]
enum KeptChoices {
    Listed(ListedChoices),
    /// By what makes them, which classes of one declaration share.
    Named(Named),
}

/// The choices of a variant in their order (CTF 1.8.3, section 4.2.2). Contracts see the list of the choices.
///
/// A tag may have far more labels than the variant has options, and may be that of many variants. So a list is kept
/// only of few: among many the option of a number is found by its label, and classes take no more memory than the text
/// that declares them asks for. What is kept is on the heap, since each class of a field has room for the largest.
#[derive(Drop)]
pub struct Choices {
    kept: Shared<KeptChoices>,
}

impl Model for Choices {
    ghost use Rattle.std.specs.Prelude.{List};
    ghost use Rattle.ctf_class.specs.declared.span.Choice.{Choice};
    ghost use Rattle.ctf_class.specs.ChoiceSearch.{choices_kept};

    ghost Value = { List Choice };

    ghost view = { λ it. choices_kept it.kept };
}

impl Choices {
    /// The choices that labels make among options, which have the first so many of these names.
    pub fn new(
        alloc: Global,
        labels: Shared<Labels>,
        names: Shared<Names>,
        count: usize,
    ) -> Result<Choices, NoMemory>
        ensures { IfOk result (λ made. made ≡ choosing.choices_by (take count names) labels) }
    {
        let named = Named {
            labels,
            names,
            count,
        };
        let kept = Shared::new(alloc, KeptChoices::of(alloc, named)?)?;
        Ok(Choices { kept })
    }

    /// One more owner of the same choices. It fails where no more owners can be counted.
    pub(crate) fn share(&self) -> Result<Choices, NoMemory>
        ensures { IfOk result (λ other. other ≡ self.now) }
    {
        let kept = self.kept.clone()?;
        Ok(Choices { kept })
    }

    /// The option of the first choice that covers a number. Where no list is kept, its label is found as `Labels`
    /// finds it.
    #[inline(always)]
    pub fn option(&self, number: i128) -> Option<usize>
        ensures { result ≡ choosing.chosen self.now number }
    {
        match self.kept.get() {
            KeptChoices::Listed(choices) => choices.option(number),
            KeptChoices::Named(named) => named.look_up(number),
        }
    }

    /// The first choice, if a list is kept.
    pub fn first_listed(&self) -> Option<Choice>
        ensures { IfSome result (λ first. slice_get self.now 0 ≡ Some first) }
    {
        match self.kept.get() {
            KeptChoices::Listed(choices) => choices.list.as_slice().first().copied(),
            KeptChoices::Named(_) => None,
        }
    }

    /// A list of the choices.
    pub fn to_list(&self, alloc: Global) -> Result<List<Choice>, NoMemory>
        ensures { IfOk result (λ choices. choices ≡ self.now) }
    {
        match self.kept.get() {
            KeptChoices::Listed(choices) => {
                Ok(List::from_slice(alloc, choices.list.as_slice())?)
            }
            KeptChoices::Named(named) => named.to_list(alloc),
        }
    }
}

impl KeptChoices {
    ghost use Rattle.ctf_class.specs.ChoiceSearch.{choices_named, choices_kept};

    /// How choices are kept: as a list where there are at most 32 labels, and at most `2 * count + 1`.
    fn of(alloc: Global, named: Named) -> Result<KeptChoices, NoMemory>
        ensures { IfOk result (λ kept. choices_kept kept ≡ choices_named named) }
    {
        let label_count = named.labels.get().as_slice().len();
        if label_count > MOST_LISTED || label_count / 2 > named.count {
            return Ok(KeptChoices::Named(named));
        }
        let choices = named.to_list(alloc)?;
        Ok(KeptChoices::Listed(ListedChoices::new(choices)))
    }
}

impl Named {
    ghost use Rattle.ctf_class.specs.ChoiceSearch.{choices_named};

    /// The option that a label names.
    fn option_by(&self, label: &Label) -> Option<usize>
        ensures { result ≡ choosing.option_named (take self.now.count self.now.names)
            label.now.name }
    {
        option_named(self.names.get(), self.count, label.name.as_slice())
    }

    /// The choice that a label makes.
    fn choice_by(&self, label: &Label) -> Option<Choice>
        ensures { result ≡ choosing.choice_by (take self.now.count self.now.names) label.now }
    {
        let option = self.option_by(label)?;
        Some(Choice {
            span: label.span,
            option,
        })
    }

    /// The choices, one for each label that makes one.
    fn to_list(&self, alloc: Global) -> Result<List<Choice>, NoMemory>
        ensures { IfOk result (λ choices. choices ≡ choices_named self.now) }
    {
        let mut choices = List::new(alloc);
        for label in self.labels.get().as_slice() {
            if let Some(choice) = self.choice_by(label) {
                choices.push(choice)?;
            }
        }
        Ok(choices)
    }

    /// The option of the first choice that covers a number. Of labels of one name that cover it the first stands
    /// for all.
    #[inline(never)]
    fn look_up(&self, number: i128) -> Option<usize>
        ensures { result ≡ choosing.chosen (choices_named self.now) number }
    {
        let labels = self.labels.get();
        let mut begin = 0;
        while let Some(place) = labels.next_shown(begin, number) {
            if let Some(option) = self.option_by(&labels.as_slice()[place]) {
                return Some(option);
            }
            begin = place + 1;
        }
        None
    }
}

/// The place of the first of so many names that has these bytes.
fn option_named(names: &Names, count: usize, name: &[u8]) -> Option<usize>
    ensures { result ≡ choosing.option_named (take count names.now) name.now }
{
    let option = names.place(name)?;
    if option < count { Some(option) } else { None }
}
