// What answers the cases.
use crate::spellings::{bytes_of, fronts, told};
use crate::texts::expanded;
use crate::{
    checkpoints, commands, entries, expressions, globs, lines, paths, spellings, tables, trackers,
    values,
};
use case_files::{Answers, Case};
use entry_model::{Entry, Text};
use expr_lang::Expr;
use file_tracker::Tracker;
use std::alloc::{AllocError, Global};

/// What earlier cases left for later ones.
#[derive(Drop)]
pub struct Readers {
    /// The entry on which paths and expressions work.
    entry: Entry,
    condition: Option<Expr>,
    /// The bytes that are read where a case has none.
    bytes: Vec<u8>,
    tracker: Tracker,
}

impl Readers {
    pub fn new(alloc: Global) -> Result<Readers, AllocError> {
        Ok(Readers {
            entry: Entry::new(alloc, Text::empty())?,
            condition: None,
            bytes: Vec::new(alloc),
            tracker: Tracker::new(alloc),
        })
    }

    // The calls that leave something for later cases, and those that take what was left.
    fn kept(
        &mut self,
        alloc: Global,
        call: &str,
        words: &str,
        input: &[u8],
    ) -> Result<String, AllocError> {
        let text = String::from_utf8_lossy(alloc, input)?;
        match call {
            "entry" => {
                self.entry = entries::entry_of(alloc, text.as_str())?;
                entries::entry_text(alloc, &self.entry)
            }
            "set" => paths::set(alloc, text.as_str(), &self.entry),
            "take" => paths::take(alloc, text.as_str(), &self.entry),
            "empty" => paths::empty(alloc, text.as_str(), &self.entry),
            "expr" => expressions::answer(alloc, text.as_str(), &self.entry),
            "condition" => {
                self.condition = Expr::read(alloc, text.as_str()).ok();
                format!(in alloc; "read: {}", self.condition.is_some())
            }
            "body" => expressions::of_body(alloc, &self.condition, text.as_str()),
            "bytes" => {
                self.bytes = bytes_of(alloc, "", input, &[])?;
                format!(in alloc; "{} bytes", self.bytes.len())
            }
            "fronts" => {
                let bytes = bytes_of(alloc, "", input, &self.bytes)?;
                fronts(alloc, words, &bytes)
            }
            "tracker" => {
                self.tracker = trackers::tracker_of(alloc, words, input)?;
                format!(in alloc; "{} rows", self.tracker.len())
            }
            "front" => format!(in alloc; "{:?}", self.tracker.find(input)),
            "admit" => trackers::admit(alloc, &mut self.tracker, input),
            "grow" => trackers::grow(alloc, &mut self.tracker, words, input),
            "advance" => trackers::advance(alloc, &mut self.tracker, words, input),
            "note" => trackers::note(alloc, &mut self.tracker, words),
            _ => {
                let bytes = bytes_of(alloc, words, input, &self.bytes)?;
                told(alloc, call, words, &bytes)
            }
        }
    }
}

impl Answers for Readers {
    fn answer(&mut self, alloc: Global, case: &Case<'_>) -> Result<String, AllocError> {
        let input = expanded(alloc, &case.input)?;
        let text = String::from_utf8_lossy(alloc, &input)?;
        match case.call {
            "copy" => entries::copy(alloc, text.as_str()),
            "equal" => entries::equal(alloc, text.as_str()),
            "share" => entries::share(alloc, text.as_str()),
            "levels" => entries::levels(alloc, text.as_str()),
            "path" => paths::path(alloc, text.as_str()),
            "stands" => paths::stands(alloc, text.as_str()),
            "glob" | "folders" => globs::glob(alloc, case.call, text.as_str()),
            "name" => globs::name(alloc, text.as_str()),
            "start" => globs::start(alloc, text.as_str()),
            "json" => values::json(alloc, text.as_str()),
            "json_fronts" => fronts(alloc, "json", &input),
            "find" | "find_bytes" | "fold" | "fold_bytes" => {
                tables::find_row(alloc, case.call, case.words, &input)
            }
            "sorted" => tables::sorted(alloc, case.words, text.as_str()),
            "lines" => lines::tokens(alloc, case.words, &input),
            "trim" => lines::trimmed(alloc, case.words, &input),
            "begun" | "ended" => lines::entries(alloc, case.call, case.words, &input),
            "command" => commands::command(alloc, text.as_str()),
            "spell_entry" => spellings::spell_entry(alloc, text.as_str()),
            "offsets" => checkpoints::offsets(alloc, case.words, text.as_str()),
            "spell_change" => checkpoints::spell_change(alloc, case.words, text.as_str()),
            _ => self.kept(alloc, case.call, case.words, &input),
        }
    }
}
