//! Classes of scopes at their places.

ghost use Rattle.std.specs.Prelude.{◌≡◌, ◌⊎◌, List, map, option_map, option_and_then, option_copied, Contains, IfOk, MatchResult};
ghost use Rattle.ctf_meaning.specs.declared.fault.ResolveFault.TheVariants as fault;
ghost use Rattle.ctf_paths.specs.Spots.{earlier_by};
ghost use Rattle.ctf_meaning.specs.Scopes.{scope_of, frame_by, frames_before};
ghost use Rattle.ctf_meaning.specs.Written.{Declaration as WrittenDeclaration};
ghost use Rattle.ctf_declared_class.specs.Knowns.{known};
ghost use Rattle.ctf_types.specs.Texts.{IsText, IsScopeLinked, scope_fails, home_by};

use crate::home::{Home, scopes_before};
use crate::rows::class_in;
use crate::streams::StreamAt;
use ctf_bits::Order;
use ctf_class::{Class, Host, Indexed, Scope};
use ctf_declarations::ScopeShape;
use ctf_declared_class::{Known, Shape};
use ctf_list::{List, NoMemory};
use ctf_meaning::ResolveFault;
use ctf_paths::{Clocks, EarlierStructure, Linker, scope_class};
use std::alloc::Global;

/// What is known of a text of which no declaration has a fault of its own.
#[derive(Drop)]
pub struct KnownText<'a> {
    /// The scopes that each declaration gives classes to.
    pub rows: &'a [List<ScopeShape>],
    pub clocks: &'a Clocks<'a>,
    /// The native byte order.
    pub order: Order,
    pub streams: &'a Indexed<StreamAt>,
    /// The number of the trace block.
    pub trace: Option<usize>,
    pub host: Option<&'a Host>,
}

impl<'a> KnownText<'a> {
    /// The class that is declared for a scope.
    pub fn shape(&self, home: &Home, scope: Scope) -> Option<&'a Known>
        ghost text: { List WrittenDeclaration }
        requires { IsText text self.now }
        ensures { option_map known (option_copied result) ≡ scope_of text (home_by home.now) scope }
    {
        class_in(self.rows, home.block(scope)?, scope)
    }

    /// The structure of a scope.
    fn structure(&self, home: &Home, scope: Scope) -> Option<EarlierStructure<'a>>
        ghost text: { List WrittenDeclaration }
        requires { IsText text self.now }
        ensures { option_map earlier_by result ≡
            option_and_then (frame_by scope) (scope_of text (home_by home.now) scope) }
    {
        match self.shape(home, scope)?.shape() {
            Shape::Structure { members, .. } => Some(EarlierStructure { scope, members }),
            _ => None,
        }
    }

    /// The structures of the scopes before a scope, the nearest first.
    pub fn before(
        &self,
        alloc: Global,
        home: &Home,
        scope: Scope,
    ) -> Result<Vec<EarlierStructure<'a>>, NoMemory>
        ghost text: { List WrittenDeclaration }
        requires { IsText text self.now }
        ensures { IfOk result (λ found. map earlier_by found.items ≡
            frames_before text (home_by home.now) scope) }
    {
        let mut found = Vec::new(alloc);
        let scopes = scopes_before(scope);
        for earlier in scopes {
            if let Some(structure) = self.structure(home, *earlier) {
                found.push(structure)?;
            }
        }
        Ok(found)
    }

    /// The class of a scope at its place, where one is declared.
    pub fn class(
        &self,
        alloc: Global,
        home: &Home,
        scope: Scope,
    ) -> Result<Option<Class>, ResolveFault>
        ghost text: { List WrittenDeclaration }
        requires { IsText text self.now }
        ensures { MatchResult result
            (IsScopeLinked text self.now.order (home_by home.now) scope)
            (λ f. (f ≡ fault.NoMemory) ⊎ Contains (scope_fails text (home_by home.now) scope) f) }
    {
        let Some(known) = self.shape(home, scope) else {
            return Ok(None);
        };
        let before = self.before(alloc, home, scope)?;
        let linker = Linker {
            alloc,
            order: self.order,
            clocks: self.clocks,
        };
        let class = scope_class(&linker, scope, before.as_slice(), known.shape())?;
        Ok(Some(class))
    }
}
