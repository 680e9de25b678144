// Texts parted at a byte.
ghost use Rattle.std.specs.Prelude.{◌≡◌, ◌++◌, ◌∷◌, ◌<◌, ◌⊎◌, List, ℕ, IfSome, IfNone};
ghost use Rattle.std.specs.List.{before_first, after_first};
ghost use Rattle.container_parser.specs.Pods.{IsFront, IsComponent};
ghost use Rattle.container_parser.specs.Words.{is_space, Lacks};

use memchr::memchr;

/// What stands before the first space, and what stands behind it: all of the text and nothing where there is none.
pub fn at_space(text: &str) -> (&str, &str)
    ensures word { result.0.now ≡ before_first is_space text.now }
    ensures behind { result.1.now ≡ after_first is_space text.now }
{
    match memchr(b' ', text.as_bytes()) {
        Some(at) => (&text[..at], &text[at + 1..]),
        None => (text, ""),
    }
}

/// What stands before and behind the first of these characters, where there is one.
pub fn at_first(text: &str, delimiter: char) -> Option<(&str, &str)>
    requires { delimiter < 128 }
    ensures none { IfNone result (Lacks delimiter text.now) }
    ensures parts { IfSome result (λ parts. text.now ≡ parts.0.now ++ delimiter ∷ parts.1.now) }
    ensures first { IfSome result (λ parts. Lacks delimiter parts.0.now) }
{
    text.split_once(delimiter)
}

/// The path without its last component, and that, where there are two or more.
pub fn at_last(path: &str) -> Option<(&str, &str)>
    ensures none { IfNone result (IsComponent path.now) }
    ensures parts { IfSome result (λ parts. path.now ≡ parts.0.now ++ 47 ∷ parts.1.now) }
    ensures last { IfSome result (λ parts. IsComponent parts.1.now) }
{
    path.rsplit_once('/')
}

/// The last component of a path.
pub fn last_component(path: &str) -> &str
    ensures part { IsComponent result.now }
    ensures is { (front : List ℕ) × (path.now ≡ front ++ result.now) × IsFront front }
{
    match at_last(path) {
        Some((_, component)) => component,
        None => path,
    }
}
