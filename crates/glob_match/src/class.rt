// The classes `[..]`.
ghost use Rattle.std.specs.Prelude.{◌≡◌, IfOk};
ghost use Rattle.std.specs.List.{list_any};
ghost use Rattle.glob_match.specs.CharacterSet.{spans_of, admits, is_in_span, is_dash as is_a_dash, span as span_between};

use crate::pattern::{Class, Sign, Span};
use std::alloc::{AllocError, Global};

/// What was read of a span.
#[derive(Clone, Copy)]
pub enum Begun {
    Nothing,
    First(Sign),
    /// A sign and a dash.
    Dashed(Sign, Sign),
}

/// The spans that signs are, taken from the left: a sign, a dash and a sign are one, and else each sign is one.
pub(crate) fn spans_of(alloc: Global, signs: &[Sign]) -> Result<Vec<Span>, AllocError>
    ensures { IfOk result (λ spans. spans.items ≡ spans_of signs.now) }
{
    let mut spans = Vec::new(alloc);
    let mut begun = Begun::Nothing;
    for sign in signs {
        begun = match begun {
            Begun::Nothing => Begun::First(*sign),
            Begun::First(first) if is_dash(sign) => Begun::Dashed(first, *sign),
            Begun::First(first) => {
                spans.push(span(&first, &first))?;
                Begun::First(*sign)
            }
            Begun::Dashed(first, _) => {
                spans.push(span(&first, sign))?;
                Begun::Nothing
            }
        };
    }
    match begun {
        Begun::Nothing => {}
        Begun::First(first) => spans.push(span(&first, &first))?,
        Begun::Dashed(first, dash) => {
            spans.push(span(&first, &first))?;
            spans.push(span(&dash, &dash))?;
        }
    }
    Ok(spans)
}

fn span(first: &Sign, last: &Sign) -> Span
    ensures { result ≡ span_between first.now last.now }
{
    Span {
        first: first.character,
        last: last.character,
    }
}

fn is_dash(sign: &Sign) -> bool
    ensures { result ≡ is_a_dash sign.now }
{
    !sign.is_escaped && sign.character == '-'
}

impl Span {
    fn holds(&self, character: char) -> bool
        ensures { result ≡ is_in_span character self.now }
    {
        self.first <= character && character <= self.last
    }
}

impl Class {
    pub(crate) fn admits(&self, character: char) -> bool
        ensures { result ≡ admits self.now character }
    {
        if self.is_negated {
            !is_listed(&self.spans, character)
        } else {
            is_listed(&self.spans, character)
        }
    }
}

fn is_listed(spans: &[Span], character: char) -> bool
    ensures { result ≡ list_any (is_in_span character) spans.now }
{
    spans.iter().any(|span| span.holds(character))
}
