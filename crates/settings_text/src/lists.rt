// The lists of operators and of routes, which contracts see as their content.
use crate::settings::{OpSpec, RouteSpec};
use std::marker::Model;

/// Operators in order. Contracts see the list of them.
#[derive(Drop)]
pub struct Operators {
    listed: Vec<OpSpec>,
}

impl Model for Operators {
    ghost use Rattle.std.specs.Prelude.{List};
    ghost use Rattle.settings_text.specs.declared.settings.OpSpec.{OpSpec};
    ghost use Rattle.settings_text.specs.contracts.literal.Literal as literal;
    ghost use Rattle.std.specs.Coded.{codes};

    ghost Value = { List OpSpec };

    ghost coded = { Prim.hlevel (codes, literal.the_row.coded) };

    ghost view = { λ operators. operators.listed.items };
}

impl Operators {
    ghost use Rattle.std.specs.Prelude.{◌≡◌};

    pub fn new(listed: Vec<OpSpec>) -> Operators
        ensures { result ≡ listed.items }
    {
        Operators { listed }
    }

    pub fn as_slice(&self) -> &[OpSpec]
        ensures { result.now ≡ self.now }
    {
        self.listed.as_slice()
    }
}

/// Routes in order. Contracts see the list of them.
#[derive(Drop)]
pub struct Routes {
    listed: Vec<RouteSpec>,
}

impl Model for Routes {
    ghost use Rattle.std.specs.Prelude.{List};
    ghost use Rattle.settings_text.specs.declared.settings.RouteSpec.{RouteSpec};

    ghost Value = { List RouteSpec };

    ghost view = { λ routes. routes.listed.items };
}

impl Routes {
    ghost use Rattle.std.specs.Prelude.{◌≡◌};

    pub fn new(listed: Vec<RouteSpec>) -> Routes
        ensures { result ≡ listed.items }
    {
        Routes { listed }
    }

    pub fn as_slice(&self) -> &[RouteSpec]
        ensures { result.now ≡ self.now }
    {
        self.listed.as_slice()
    }
}
