//! Where a class is.

ghost use Rattle.std.specs.Prelude.{◌≡◌, List, [], ◌∷◌, map, take};
ghost use Rattle.ctf_meaning.specs.Shapes.{Field, fields_in};
ghost use Rattle.ctf_meaning.specs.Paths.{is_outermost, at_member, below};
ghost use Rattle.ctf_declared_class.specs.Views as views;
ghost use Rattle.ctf_paths.specs.Spots.{frame_by, frame_in, earlier_by, frames_around, spot_by, scope_spot};

use crate::trail::Trail;
use ctf_class::Scope;
use ctf_declared_class::Members;

/// The structure of a scope that is decoded before.
#[derive(Clone, Copy)]
pub struct EarlierStructure<'a> {
    pub scope: Scope,
    pub members: &'a Members,
}

/// A structure in which a path may begin.
#[derive(Clone, Copy)]
pub struct PathStructure<'a> {
    pub scope: Scope,
    /// Its name from the scope down.
    pub name: Trail<'a>,
    pub members: &'a Members,
    /// How many of its members are before the path.
    pub count: usize,
}

/// The structures around a class, inner to outer.
#[derive(Drop)]
pub enum OuterStructures<'a> {
    Outside,
    Inside(PathStructure<'a>, &'a OuterStructures<'a>),
}

/// Where a class is.
#[derive(Drop)]
pub struct Spot<'a> {
    pub scope: Scope,
    pub around: &'a OuterStructures<'a>,
    /// The structures of the scopes before, the nearest first.
    pub before: &'a [EarlierStructure<'a>],
    /// The name of the member that the class is.
    pub member: Option<&'a [u8]>,
    /// Whether it is a member of the scope's own structure.
    pub is_top: bool,
    /// Its name from the scope down.
    pub name: Trail<'a>,
}

impl<'a> EarlierStructure<'a> {
    /// The whole structure, in which a path may begin.
    pub fn frame(&self) -> PathStructure<'a>
        ensures { frame_by result ≡ earlier_by self.now }
    {
        PathStructure {
            scope: self.scope,
            name: Trail::Scope,
            members: self.members,
            count: self.members.len(),
        }
    }
}

impl<'a> OuterStructures<'a> {
    /// Whether there is no structure around a class.
    fn is_outside(&self) -> bool
        ensures { result ≡ is_outermost (frames_around self.now) }
    {
        match self {
            OuterStructures::Outside => true,
            OuterStructures::Inside(_, _) => false,
        }
    }
}

impl<'a> Spot<'a> {
    /// The spot of a scope's own class.
    pub fn scope(
        scope: Scope,
        around: &'a OuterStructures<'a>,
        before: &'a [EarlierStructure<'a>],
    ) -> Spot<'a>
        requires { frames_around around.now ≡ [] }
        ensures { spot_by result ≡ scope_spot scope (map earlier_by before.now) }
    {
        Spot {
            scope,
            around,
            before,
            member: None,
            is_top: false,
            name: Trail::Scope,
        }
    }

    /// The spot of an option or an element of the class here.
    pub fn below(&self) -> Spot<'a>
        ensures { spot_by result ≡ below (spot_by self.now) }
    {
        Spot {
            scope: self.scope,
            around: self.around,
            before: self.before,
            member: None,
            is_top: false,
            name: Trail::Broken,
        }
    }

    /// What is around a member of the structure here, after so many others.
    pub fn around(&self, members: &'a Members, count: usize) -> OuterStructures<'a>
        ensures { let s = spot_by self.now in
            frames_around result ≡
            frame_in s (take count (fields_in (views.members members.now))) ∷ s.around }
    {
        let frame = PathStructure {
            scope: self.scope,
            name: self.name,
            members,
            count,
        };
        OuterStructures::Inside(frame, self.around)
    }

    /// The spot of a member of the structure here, by what is around it.
    pub fn member<'b>(&'b self, around: &'b OuterStructures<'b>, word: &'b [u8]) -> Spot<'b>
        ensures { let s = spot_by self.now in
            (earlier : List Field) → frames_around around.now ≡ frame_in s earlier ∷ s.around →
            spot_by result ≡ at_member s earlier word.now }
    {
        Spot {
            scope: self.scope,
            around,
            before: self.before,
            member: Some(word),
            is_top: self.around.is_outside(),
            name: Trail::Member(word, &self.name),
        }
    }
}
