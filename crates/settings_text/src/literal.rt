// Values that are written in settings.
use entry_model::Value;
use std::marker::Model;

/// A value as it is written in settings. Contracts see what the value is.
#[derive(Drop)]
pub struct Literal {
    written: Value,
}

impl Model for Literal {
    ghost use Rattle.entry_model.specs.Code.{datum_code};
    ghost use Rattle.entry_model.specs.Datum.{Datum, datum};

    ghost Value = { Datum };

    ghost coded = { datum_code };

    ghost view = { λ literal. datum literal.written };
}

impl Literal {
    ghost use Rattle.std.specs.Prelude.{◌≡◌};
    ghost use Rattle.entry_model.specs.Datum.{datum};

    pub fn new(written: Value) -> Literal
        ensures { result ≡ datum written }
    {
        Literal { written }
    }

    pub fn value(&self) -> &Value
        ensures { datum result.now ≡ self.now }
    {
        &self.written
    }
}
