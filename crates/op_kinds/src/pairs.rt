// How texts of keys and values are read.
ghost use Rattle.std.specs.Prelude.{◌<◌};
ghost use Rattle.text_parsers.specs.Cuts.{delimiter_len};

use entry_model::Text;
use std::alloc::{AllocError, Global};
use text_parsers::KeyValueOp;

/// The parser of texts of keys and values, which cuts them at something.
#[derive(Drop)]
pub(crate) struct Pairs {
    pub(crate) op: KeyValueOp,
    pub ghost some: { 0 < delimiter_len op.between },
}

impl Pairs {
    ghost use Rattle.std.specs.Prelude.{◌≡◌, IfOk};
    ghost use Rattle.op_kinds.specs.Parsers.{delimiters_of};
    ghost use Rattle.settings_text.specs.Types.KeyValueParsing.{KeepsLimits};

    #[tactic(auto, using(crate::proofs::Pairing::cuts_at_some))]
    pub(crate) fn new(
        alloc: Global,
        delimiter: &Text,
        pair_delimiter: &Option<Text>,
    ) -> Result<Pairs, AllocError>
        requires { KeepsLimits delimiter.now pair_delimiter.now }
        ensures { IfOk result (λ pairs. pairs.op ≡ delimiters_of delimiter.now pair_delimiter.now) }
    {
        let op = match pair_delimiter {
            Some(between) => KeyValueOp::new(alloc, delimiter.as_str(), Some(between.as_str()))?,
            None => KeyValueOp::new(alloc, delimiter.as_str(), None)?,
        };
        Ok(Pairs { op })
    }
}
