// Paths from texts.
ghost use Rattle.std.specs.Prelude.{◌≡◌, ◌+◌, ◌<◌, ◌≤◌, true, [], ◌++◌, length, if◌then◌else◌, Some, None, MatchResult};
ghost use Rattle.paths.specs.Paths.{is_root, are_names, slashed, rendered, split, checked, extended, path_of, is_path_text, names_in, without_slash, joined};
ghost use Rattle.paths.specs.Values.{path_text, names_of, path_in};

use super::NodePath;
use crate::fault::PathFault;
use crate::inline::Inline;
use crate::node_name::NodeName;

const MAX_NAMES: usize = 32;

impl NodePath {
    // The path `/`.
    pub fn root() -> NodePath
        ensures { names_of result ≡ [] }
    {
        build(b"/", b"", b"", 0).unwrap()
    }

    // The path that a text spells.
    pub fn new(text: &[u8]) -> Result<NodePath, PathFault>
        ensures { path_in result ≡ path_of text.now }
    {
        let names = text.strip_prefix(b"/").ok_or(PathFault::Invalid)?;
        NodePath::root().extend(names)
    }

    // The path with the names of a text behind its own; one leading `/` of the text is dropped.
    pub fn join(&self, relative: &[u8]) -> Result<NodePath, PathFault>
        ensures { path_in result ≡ joined (names_of self.now) relative.now }
    {
        self.extend(without_slash(relative))
    }

    // The same, with no `/` dropped.
    fn extend(&self, names: &[u8]) -> Result<NodePath, PathFault>
        ensures { path_in result ≡ extended (names_of self.now) names.now }
    {
        if names.is_empty() {
            return Ok(*self);
        }
        self.with_names(names)
    }

    // The path with the names of a text, at least one, behind its own.
    fn with_names(&self, names: &[u8]) -> Result<NodePath, PathFault>
        ensures { path_in result ≡ checked (split names.now) (names_of self.now ++ split names.now) }
    {
        let count = count_names(names).ok_or(PathFault::Invalid)?;
        if count > MAX_NAMES - self.names {
            return Err(PathFault::OverLimits);
        }
        build(self.stem(), b"/", names, self.names + count)
    }

    // The text, as each of its names after a `/`: nothing for `/`.
    fn stem(&self) -> &[u8]
        ensures { result.now ≡ slashed (names_of self.now) }
    {
        if self.is_root() { &[] } else { self.as_bytes() }
    }

    pub fn is_root(&self) -> bool
        ensures { result ≡ is_root (names_of self.now) }
    {
        self.names == 0
    }

    // The text of the path.
    pub fn as_bytes(&self) -> &[u8]
        ensures { result.now ≡ rendered (names_of self.now) }
    {
        self.text.as_bytes()
    }
}

// The path of three parts of its text one after the other.
pub(crate) fn build(
    front: &[u8],
    middle: &[u8],
    back: &[u8],
    names: usize,
) -> Result<NodePath, PathFault>
    requires { (length front.now + length middle.now + length back.now ≤ 255 → is_path_text (front.now ++ (middle.now ++ back.now)) ≡ true) × (names ≡ length (names_in (front.now ++ (middle.now ++ back.now)))) }
    ensures { MatchResult result (λ p. path_text p ≡ front.now ++ (middle.now ++ back.now)) (λ e. (e ≡ PathFault.OverLimits) × (255 < length front.now + length middle.now + length back.now)) }
{
    let text = Inline::of(front, middle, back).ok_or(PathFault::OverLimits)?;
    Ok(NodePath { text, names })
}

// How many names stand in a text with `/` between them, or none if one of them is unlawful.
// Kept: a `for` that returns at an unlawful name; with `try_fold` the proof did not close that the count and one fit at each call of the closure.
fn count_names(text: &[u8]) -> Option<usize>
    ensures { result ≡ (if are_names (split text.now) then Some (length (split text.now)) else None) }
{
    let mut count = 0;
    for name in text.split(|b| *b == b'/') {
        if !NodeName::validate(name) {
            return None;
        }
        count += 1;
    }
    Some(count)
}

// A text without one leading `/`.
fn without_slash(text: &[u8]) -> &[u8]
    ensures { result.now ≡ without_slash text.now }
{
    text.strip_prefix(b"/").unwrap_or(text)
}
