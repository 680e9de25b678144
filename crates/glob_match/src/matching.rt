// Matching the components of a pattern against the names of a path.
ghost use Rattle.std.specs.Prelude.{◌≡◌, ◌∷◌, ◌<◌, ◌↔◌, ⊤, IsTrue, length};
ghost use Rattle.glob_match.specs.declared.pattern.Component.TheVariants.{Folders};
ghost use Rattle.glob_match.specs.GlobMatch.{FitsNames, MatchesPath, ListsFolder, root};
ghost use Rattle.glob_match.specs.Inner.Walked.{names_left};
ghost use Rattle.glob_match.specs.Inner.Front.{IsFront, IsFoundFront, MayHold};

use crate::glob::Glob;
use crate::name::fits_name;
use crate::path::{is_absolute, is_path, relative, split};
use crate::pattern::Component;

impl Glob {
    /// Whether the pattern matches the path. A text that isn't a path, with a name that is empty, `.` or `..`, is matched
    /// by none. Takes no memory.
    pub fn matches(&self, path: &str) -> bool
        ensures { IsTrue result ↔ MatchesPath self.now path.now }
    {
        is_absolute(path) == self.is_absolute
            && is_path(path)
            && fits(&self.components, Some(relative(path)))
    }

    /// Whether the folder may hold a match, in it or below it: whether the first components of the pattern, fewer than
    /// all, match it. The empty text is the working folder, which may hold the matches of each relative pattern, and
    /// `/` may hold those of each absolute one. Takes no memory.
    pub fn lists(&self, folder: &str) -> bool
        ensures { IsTrue result ↔ ListsFolder self.now folder.now }
    {
        folder == self.root()
            || is_absolute(folder) == self.is_absolute
                && is_path(folder)
                && may_hold(&self.components, Some(relative(folder)))
    }
}

impl Glob {
    /// The folder that holds all matches.
    pub(crate) fn root(&self) -> &'static str
        ensures { result.now ≡ root self.now }
    {
        if self.is_absolute { "/" } else { "" }
    }
}

/// What is found when the components in front of the first `**` are laid on names, one on each.
#[derive(Clone, Copy)]
pub enum Front<'g, 'p> {
    /// There is no `**`, and each component fits its name.
    Whole,
    /// They fit, and these components and names are left behind the `**`.
    Folders(&'g [Component], Option<&'p str>),
    /// They don't fit.
    Other,
}

fn fits(components: &[Component], names: Option<&str>) -> bool
    ensures { IsTrue result ↔ FitsNames components.now (names_left names.entry) }
{
    match match_front(components, names) {
        Front::Whole => true,
        Front::Folders(others, left) => fits_below(others, left),
        Front::Other => false,
    }
}

fn match_front<'g, 'p>(components: &'g [Component], names: Option<&'p str>) -> Front<'g, 'p>
    ensures { IsFront components.now (names_left names.entry) result }
{
    let mut at = components;
    let mut left = names;
    while let Some((first, others)) = at.split_first() {
        let Component::Name(pieces) = first else {
            return Front::Folders(others, left);
        };
        let Some(path) = left else {
            return Front::Other;
        };
        let (name, rest) = split(path);
        if !fits_name(&pieces.pieces, name) {
            return Front::Other;
        }
        at = others;
        left = rest;
    }
    match left {
        Some(_) => Front::Other,
        None => Front::Whole,
    }
}

/// Whether `**` and these components fit the names. Of the places where the components up to the next `**` fit, the
/// first serves: what fits behind a later one fits behind it too.
fn fits_below(components: &[Component], names: Option<&str>) -> bool
    ensures { IsTrue result ↔ FitsNames (Folders ∷ components.now) (names_left names.entry) }
{
    let mut at = components;
    let mut left = names;
    loop {
        match find_front(at, left) {
            Front::Whole => return true,
            Front::Folders(others, rest) => {
                at = others;
                left = rest;
            }
            Front::Other => return false,
        }
    }
}

fn find_front<'g, 'p>(components: &'g [Component], names: Option<&'p str>) -> Front<'g, 'p>
    ensures { IsFoundFront components.now (names_left names.entry) result }
{
    let mut left = names;
    loop {
        match match_front(components, left) {
            Front::Whole => return Front::Whole,
            Front::Folders(others, rest) => return Front::Folders(others, rest),
            Front::Other => {}
        }
        let Some(path) = left else {
            return Front::Other;
        };
        let (_, rest) = split(path);
        left = rest;
    }
}

/// Whether the first components, fewer than all, fit the names.
fn may_hold(components: &[Component], names: Option<&str>) -> bool
    ensures { IsTrue result ↔ MayHold components.now (names_left names.entry) }
{
    let mut at = components;
    let mut left = names;
    while let Some(path) = left {
        let Some((first, others)) = at.split_first() else {
            return false;
        };
        let Component::Name(pieces) = first else {
            return !others.is_empty();
        };
        let (name, rest) = split(path);
        if !fits_name(&pieces.pieces, name) {
            return false;
        }
        at = others;
        left = rest;
    }
    !at.is_empty()
}
