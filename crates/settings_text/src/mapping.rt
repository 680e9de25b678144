// The rules by which values have severities.
use entry_model::{Severity, Text};
use std::marker::Model;

/// What is wanted of a value.
#[derive(Drop)]
pub enum MapWant {
    /// This text, with the case of ASCII letters ignored.
    Text(Text),
    /// A number from `min` to `max`, which is no less.
    Range { min: i64, max: i64 },
}

/// A severity, and what is wanted of values that have it.
#[derive(Drop)]
pub struct MapRule {
    /// 1 to 24.
    pub severity: Severity,
    pub want: MapWant,
}

impl Model for MapRule {
    ghost use Rattle.settings_text.specs.Rules.{Rule};

    ghost Value = { Rule };

    ghost view = { λ rule. record { severity = rule.severity.number; want = rule.want } };
}

/// Rules in order. Contracts see the list of them.
#[derive(Drop)]
pub struct MapRules {
    listed: Vec<MapRule>,
}

impl Model for MapRules {
    ghost use Rattle.std.specs.Prelude.{List};
    ghost use Rattle.settings_text.specs.Rules.{Rule};

    ghost Value = { List Rule };

    ghost view = { λ rules. rules.listed.items };
}

impl MapRules {
    ghost use Rattle.std.specs.Prelude.{◌≡◌};

    pub fn new(listed: Vec<MapRule>) -> MapRules
        ensures { result ≡ listed.items }
    {
        MapRules { listed }
    }

    pub fn as_slice(&self) -> &[MapRule]
        ensures { result.now ≡ self.now }
    {
        self.listed.as_slice()
    }
}
