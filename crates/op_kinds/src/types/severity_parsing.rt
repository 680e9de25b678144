// The type `severity_parser`, and the blocks of other parsers that are like it.
ghost use Rattle.std.specs.Prelude.{◌≡◌, [], ◌∷◌, map, IfOk};
ghost use Rattle.op_kinds.specs.Parsers as parsers;
ghost use Rattle.op_kinds.specs.Parsers.{IsGradingOf};
ghost use Rattle.op_kinds.specs.Readings as readings;
ghost use Rattle.op_kinds.specs.Readings.{Answers};
ghost use Rattle.time_severity.specs.Rules as rules;

use crate::OpCause;
use crate::reading::path;
use settings_text::{MapRule, MapWant, SeveritySpec};
use std::alloc::{AllocError, Global};
use time_severity::{SeverityOp, SeverityRule, Want};

pub(crate) fn compile(alloc: Global, spec: &SeveritySpec) -> Result<SeverityOp, OpCause>
    ensures ok { IfOk result (IsGradingOf spec.now) }
    ensures answers { Answers (readings.path spec.now.parse_from ∷ []) result }
{
    let from = match path(alloc, &spec.parse_from) {
        Ok(from) => from,
        Err(cause) => return Err(cause),
    };
    match rules(alloc, spec.mapping.as_slice()) {
        Ok(rules) => Ok(SeverityOp::new(from, spec.preset, spec.overwrite_text, rules)),
        Err(AllocError) => Err(OpCause::Memory),
    }
}

fn rules(alloc: Global, mapping: &[MapRule]) -> Result<Vec<SeverityRule>, AllocError>
    ensures { IfOk result (λ made. map rules.rule_of made.items ≡ map parsers.rule_of mapping.now) }
{
    let mut rules = Vec::new(alloc);
    for rule in mapping {
        let want = want_of(&rule.want)?;
        rules.push(SeverityRule {
            severity: rule.severity,
            want,
        })?;
    }
    Ok(rules)
}

fn want_of(want: &MapWant) -> Result<Want, AllocError>
    ensures { IfOk result (λ made. made ≡ parsers.want_of want.now) }
{
    match want {
        MapWant::Text(text) => Ok(Want::Text(text.share()?)),
        MapWant::Range { min, max } => Ok(Want::Range {
            min: *min,
            max: *max,
        }),
    }
}
