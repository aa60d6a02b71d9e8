//! The scopes that declarations give classes to.

ghost use Rattle.std.specs.Prelude.{◌≡◌, map, option_map, option_copied};
ghost use Rattle.ctf_declared_class.specs.Knowns.{known};
ghost use Rattle.ctf_meaning_steps.specs.Laws.{class_among, class_in_row};
ghost use Rattle.ctf_declarations.specs.DeclaredSoFar.{placed_seen};

use ctf_class::Scope;
use ctf_declarations::ScopeShape;
use ctf_declared_class::Known;
use ctf_list::List;
use ctf_paths::rank;

/// The class that a declaration gives to a scope.
pub fn class_in<'a>(rows: &'a [List<ScopeShape>], number: usize, scope: Scope) -> Option<&'a Known>
    ensures { option_map known (option_copied result) ≡
        class_in_row (map (map placed_seen) rows.now) number scope }
{
    class_of(rows.get(number)?.as_slice(), scope)
}

/// The class of a scope among those of a declaration.
fn class_of(row: &[ScopeShape], scope: Scope) -> Option<&Known>
    ensures { option_map known (option_copied result) ≡
        class_among scope (map placed_seen row.now) }
{
    for placed in row {
        if rank(placed.scope) == rank(scope) {
            return Some(&placed.shape);
        }
    }
    None
}
