//! What holds of the grammar, whatever the text.

ghost use Rattle.tsdl_grammar.specs.Nesting.{TreeOrNot};
ghost use Rattle.tsdl_grammar.specs.Spelling.{OneTree, WholeRun};

/// No list of tokens is spelled by two trees.
pub fn one_tree()
    ensures { OneTree }
{}

/// A typename is a whole run of typewords; before a declarator it lacks the run's last word, which
/// is the declarator's name.
pub fn whole_run()
    ensures { WholeRun }
{}

/// Under any limit of nesting, tokens spell a tree, or none, or nest deeper.
pub fn tree_or_not()
    ensures { TreeOrNot }
{}
