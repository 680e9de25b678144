// Lines of one file.
ghost use Rattle.std.specs.Prelude.{◌≡◌, ◌++◌, IfOk, OnOk, OnErr};
ghost use Rattle.entry_model.specs.LogRecord.{log_record};
ghost use Rattle.otlp_json.specs.HasFront.{HasFront};
ghost use Rattle.otlp_json.specs.OutputLine.{output_line};

use crate::{append_end, append_entry, append_scope};
use entry_model::Entry;
use std::alloc::{AllocError, Global};
use std::marker::Model;

/// What the lines of a file share from the end of the record up to the line's number. Contracts see it as the file's id.
#[derive(Drop)]
pub struct Scope {
    id: u32,
    shared: Vec<u8>,
}

impl Model for Scope {
    ghost use Rattle.std.specs.Prelude.{◌≡◌, ℕ};
    ghost use Rattle.otlp_json.specs.Scope.{scope_text};

    ghost Value = { ℕ };

    ghost view = { λ scope. scope.id };

    ghost invariant = { λ scope. scope.shared.items ≡ scope_text scope.id };
}

impl Scope {
    /// `id` is the file's.
    pub fn new(alloc: Global, id: u32) -> Result<Scope, AllocError>
        ensures { IfOk result (λ scope. scope ≡ id) }
    {
        let mut shared = Vec::new(alloc);
        append_scope(id, &mut shared)?;
        Ok(Scope { id, shared })
    }

    /// Appends the line of an entry, as [`crate::line`] does. `number` is the line's among the lines of its file, from 1.
    ///
    /// Fails where memory runs out, and `out` is then as it was.
    pub fn line(
        &self,
        number: u64,
        observed: Option<u64>,
        entry: &Entry,
        out: &mut Vec<u8>,
    ) -> Result<(), AllocError>
        ensures ok { OnOk result (out.new.items
            ≡ out.old.items ++ output_line self.now number observed (log_record entry.now)) }
        ensures err { OnErr result (out.new.items ≡ out.old.items) }
    {
        let len = out.len();
        let written = self.append_line(number, observed, entry, out);
        if written.is_err() {
            out.truncate(len);
        }
        written
    }

    fn append_line(
        &self,
        number: u64,
        observed: Option<u64>,
        entry: &Entry,
        out: &mut Vec<u8>,
    ) -> Result<(), AllocError>
        ensures ok { OnOk result (out.new.items
            ≡ out.old.items ++ output_line self.now number observed (log_record entry.now)) }
        ensures front { HasFront out.old.items out.new.items }
    {
        append_entry(observed, entry, out)?;
        out.extend_from_slice(&self.shared)?;
        append_end(number, out)
    }
}
