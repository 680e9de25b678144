// The operator that stamps entries with a severity.
ghost use Rattle.std.specs.Prelude.{◌≡◌, ◌≢◌, ◌≤◌, IfOk, IfErr, OnOk, OnErr, Ok, Err, Some, None, map, option_map};
ghost use Rattle.entry_model.specs.Datum.{datum};
ghost use Rattle.entry_model.specs.LogRecord.{log_record};
ghost use Rattle.time_severity.specs.Gradings.{Grading, grade_of, graded, severity_of, named_so};
ghost use Rattle.time_severity.specs.Rules.{rule_of};
ghost use Rattle.time_severity.specs.declared.fault.StampFault.TheVariants.{Memory, NotSeverity};

use crate::StampFault;
use crate::presets::{preset_number, short_name};
use crate::rule::{SeverityRule, least_match};
use crate::spelled::number_spelled;
use entry_model::{Entry, Severity, Text, Value};
use field_paths::FieldPath;
use std::alloc::{AllocError, Global};
use std::marker::Model;

/// Stamps an entry with the severity that one of its values names.
#[derive(Drop)]
pub struct SeverityOp {
    from: FieldPath,
    preset: bool,
    overwrite_text: bool,
    rules: Vec<SeverityRule>,
}

impl Model for SeverityOp {
    ghost use Rattle.std.specs.Prelude.{map};
    ghost use Rattle.time_severity.specs.Gradings.{Grading};
    ghost use Rattle.time_severity.specs.Rules.{rule_of};

    ghost Value = { Grading };

    ghost view = { λ op. record { from = op.from; preset = op.preset; overwrite_text = op.overwrite_text; rules = map rule_of op.rules.items } };
}

/// A severity, and the text that stands for it.
#[derive(Drop)]
struct Grade {
    severity: Severity,
    text: Text,
}

impl SeverityOp {
    /// The rules are those of a mapping, in any order. `preset` says whether the short names and the aliases of severities
    /// count where no rule matches.
    pub fn new(
        from: FieldPath,
        preset: bool,
        overwrite_text: bool,
        rules: Vec<SeverityRule>,
    ) -> SeverityOp
        ensures { result ≡ record { from = from; preset = preset; overwrite_text = overwrite_text; rules = map rule_of rules.items } }
    {
        SeverityOp {
            from,
            preset,
            overwrite_text,
            rules,
        }
    }

    /// Sets the entry's severity and its text, and nothing else of it. The least severity of which a rule matches counts;
    /// then that which the value names by a short name or an alias; else it is 0, none known. The text is the value's, or
    /// the short name where that is asked and a severity is known.
    ///
    /// `Missing` exactly where there is no value, and `NotSeverity` exactly where it is neither a text nor a number.
    pub fn apply(&self, alloc: Global, entry: &mut Entry) -> Result<(), StampFault>
        ensures ok { OnOk result (graded self.now (log_record entry.old) ≡ Ok (log_record entry.new)) }
        ensures fault { IfErr result (λ fault. fault ≢ Memory → graded self.now (log_record entry.old) ≡ Err fault) }
        ensures err { OnErr result (log_record entry.new ≡ log_record entry.old) }
    {
        let Some(value) = self.from.get(entry) else {
            return Err(StampFault::Missing);
        };
        let grade = match self.grade(alloc, value) {
            Ok(grade) => grade,
            Err(fault) => return Err(fault),
        };
        entry.severity = grade.severity;
        entry.severity_text = grade.text;
        Ok(())
    }

    fn grade(&self, alloc: Global, value: &Value) -> Result<Grade, StampFault>
        ensures ok { IfOk result (λ grade. grade_of self.now (datum value.now) ≡ Some (record { number = grade.severity.number; name = grade.text })) }
        ensures fault { IfErr result (λ fault. fault ≢ Memory → (fault ≡ NotSeverity) × (grade_of self.now (datum value.now) ≡ None)) }
    {
        match value {
            Value::Text(text) => {
                let severity = self.severity(Some(text.as_str()), number_spelled(text.as_str()));
                self.named(alloc, severity, text.share()?)
            }
            Value::Int(number) => {
                let severity = self.severity(None, Some(*number));
                let spelled = Text::new(number.to_string(alloc)?)?;
                self.named(alloc, severity, spelled)
            }
            Value::Null | Value::Bool(_) | Value::List(_) | Value::Map(_) => {
                Err(StampFault::NotSeverity)
            }
        }
    }

    fn severity(&self, word: Option<&str>, number: Option<i64>) -> Severity
        ensures { result.number ≡ severity_of self.now (record { word = option_map (λ text. text.now) word.entry; number = number }) }
    {
        if let Some(number) = least_match(&self.rules, word, number) {
            return Severity { number };
        }
        match word {
            Some(word) if self.preset => Severity {
                number: preset_number(word).unwrap_or(0),
            },
            _ => Severity { number: 0 },
        }
    }

    /// The severity with its short name where that is asked and the severity is known, and else with what spelled it.
    fn named(&self, alloc: Global, severity: Severity, spelled: Text) -> Result<Grade, StampFault>
        ensures ok { IfOk result (λ grade. record { number = grade.severity.number; name = grade.text } ≡ named_so self.now.overwrite_text severity.number spelled) }
        ensures fault { IfErr result (λ fault. fault ≡ Memory) }
    {
        let mut text = spelled;
        if self.overwrite_text && severity.number > 0 {
            text = Text::from_str(alloc, short_name(severity.number))?;
        }
        Ok(Grade { severity, text })
    }
}
