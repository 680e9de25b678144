// What adopting is to make of a session's checkpoint.
ghost use Rattle.std.specs.Prelude.{◌≡◌, ◌≢◌, ◌≤◌, ◌<◌, ◌+◌, ◌^◌, ◌++◌, ◌∷◌, ℕ, List, [], false, length, IfOk, IfErr, OnOk};
ghost use Rattle.checkpoint_store.specs.Limits.{newest, era_limit, output_limit};
ghost use Rattle.checkpoint_store.specs.Rules.{IsCheckpoint};
ghost use Rattle.outside.specs.Image.{Image};
ghost use Rattle.outside.specs.declared.disk.DiskFile.{DiskFile};
ghost use Rattle.pipeline.specs.AsRules.{rules_of};
ghost use Rattle.poll_core.specs.AdoptCause.{HasAdoptCause, IsOfNext, IsOfKept};
ghost use Rattle.poll_core.specs.AdoptFaults.{IsUnadopted};
ghost use Rattle.poll_core.specs.Adoption.{HasClosedAll, HasNoRoom, HasRoom, IsAdoptionOf, IsBarred, MayFollowOn};
ghost use Rattle.poll_core.specs.IsSession.{IsSession};
ghost use Rattle.pipeline.specs.MadeOf.{IsMadeOf};
ghost use Rattle.poll_core.specs.Remembers.{GoesOnFrom};
ghost use Rattle.poll_core.specs.SessionParts.{is_first, limit_of, settings_of_session};

use crate::polling::stamp_of;
use crate::saving::copy_eras;
use crate::{AdoptFault, Adopted, Session};
use checkpoint_store::{Checkpoint, ERA_LIMIT, Eras, Rows};
use file_pass::past_limit;
use file_tracker::Bytes;
use otlp_json::laws::line_is_one_line;
use part_closing::{Closer, Closing, close_all};
use pipeline::Pipeline;
use pipeline::laws::a_row_tells_its_state;
use std::alloc::{AllocError, Global};

/// The checkpoint that is to be put, and the lines that come out, which are counted.
#[derive(Drop)]
pub(crate) struct Adoption {
    pub checkpoint: Checkpoint,
    pub lines: Vec<u8>,
    pub count: u64,
}

impl Adoption {
    pub fn told(&self) -> Adopted
        requires { IsCheckpoint newest self.now.checkpoint }
        ensures rows { result.rows ≡ length self.now.checkpoint.rows }
        ensures lines { result.lines ≡ self.now.count }
        ensures eras { result.eras ≡ length self.now.checkpoint.eras }
        ensures output { result.output ≡ self.now.checkpoint.output_length }
    {
        Adopted {
            rows: self.checkpoint.rows.as_slice().len() as u32,
            lines: self.count,
            eras: self.checkpoint.eras.as_slice().len() as u32,
            output: self.checkpoint.output_length,
        }
    }
}

impl Session {
    /// What is told where the settings are in force already.
    pub(crate) fn as_it_is(&self) -> Adopted
        requires { IsSession self.now }
        ensures rows { result.rows ≡ length self.now.tracker }
        ensures lines { result.lines ≡ 0 }
        ensures eras { result.eras ≡ length self.now.eras }
        ensures output { result.output ≡ self.now.kept }
    {
        Adopted {
            rows: self.tracker.len() as u32,
            lines: 0,
            eras: self.eras.as_slice().len() as u32,
            output: self.kept,
        }
    }

    /// What is to be made of the checkpoint where the settings of a text follow, or why they can't.
    pub(crate) fn adoption(
        &self,
        alloc: Global,
        next: &Pipeline,
        settings: &[u8],
    ) -> Result<Adoption, AdoptFault>
        requires session { IsSession self.now }
        requires stood { is_first self.now ≡ false }
        requires made { IsMadeOf settings.now next.now }
        requires other { settings_of_session self.now ≢ settings.now }
        ensures ok { IfOk result (IsAdoptionOf self.now settings.now next.now) }
        ensures late { IfErr result (λ fault. IsOfNext fault → ⊥) }
        ensures of_kept { IfErr result (λ fault. IsOfKept fault → (image : Image DiskFile) → GoesOnFrom self.now image
            → IsUnadopted settings.now (limit_of self.now) image fault) }
        ensures cause { (count : ℕ) → HasAdoptCause result count count }
    {
        self.check_settings(next)?;
        line_is_one_line();
        let closing = self.close_files(alloc, next)?;
        self.check_room(&closing.lines)?;
        let eras = self.eras_with(alloc, settings)?;
        Ok(self.adoption_of(eras, closing))
    }

    // The next settings know files by as many bytes, and may follow.
    fn check_settings(&self, next: &Pipeline) -> Result<(), AdoptFault>
        ensures ok { OnOk result (MayFollowOn self.now next.now) }
        ensures barred { IfErr result (IsBarred self.now next.now) }
    {
        let kept = self.pipeline.settings().fingerprint_size;
        let found = next.settings().fingerprint_size;
        if kept != found {
            return Err(AdoptFault::Fingerprint { kept, found });
        }
        if self.eras.as_slice().len() >= ERA_LIMIT {
            return Err(AdoptFault::Eras);
        }
        Ok(())
    }

    // Closes each file, so that the next operators can go on with it.
    fn close_files(&self, alloc: Global, next: &Pipeline) -> Result<Closing, AllocError>
        requires { IsSession self.now }
        ensures { IfOk result (HasClosedAll self.now next.now) }
    {
        let fresh = first_text(alloc, next)?;
        let closer = Closer {
            pipeline: &self.pipeline,
            observed: stamp_of(&self.pipeline, self.observed),
            fresh: fresh.as_slice(),
        };
        close_all(alloc, &closer, &self.tracker)
    }

    // There is room for these lines, and a sequence number is left.
    fn check_room(&self, lines: &[u8]) -> Result<(), AdoptFault>
        requires limit { limit_of self.now ≤ output_limit }
        requires kept { self.now.kept ≤ output_limit }
        ensures ok { OnOk result (HasRoom self.now lines.now) }
        ensures none { IfErr result (HasNoRoom self.now lines.now) }
    {
        line_is_one_line();
        let limit = self.limit.max(self.kept);
        if let Some(length) = past_limit(lines, self.kept, limit) {
            return Err(AdoptFault::OutputFull { length });
        }
        match self.journal {
            Some(journal) if journal.sequence == u64::MAX => Err(AdoptFault::Worn {
                sequence: journal.sequence,
            }),
            _ => Ok(()),
        }
    }

    // The settings, with one more.
    fn eras_with(&self, alloc: Global, settings: &[u8]) -> Result<Eras, AllocError>
        ensures { IfOk result (λ eras. eras ≡ self.now.eras ++ settings.now ∷ []) }
    {
        let mut texts = copy_eras(alloc, &self.eras)?.into_vec();
        texts.push(Bytes::from_slice(alloc, settings)?)?;
        Ok(Eras::new(texts))
    }

    // The checkpoint of files that were closed.
    fn adoption_of(&self, eras: Eras, closing: Closing) -> Adoption
        requires length { self.now.kept + length closing.lines.items < 2 ^ 64 }
        requires rows { length self.now.tracker < 2 ^ 32 }
        ensures eras { result.checkpoint.eras ≡ eras }
        ensures output { result.checkpoint.output_length ≡ self.now.kept + length closing.lines.items }
        ensures observed { result.checkpoint.observed ≡ self.now.observed }
        ensures next_id { result.checkpoint.next_id ≡ length self.now.tracker + 1 }
        ensures rows { result.checkpoint.rows ≡ closing.rows.items }
        ensures lines { result.lines.items ≡ closing.lines.items }
        ensures count { result.count ≡ closing.count }
    {
        let Closing { rows, lines, count } = closing;
        Adoption {
            checkpoint: Checkpoint {
                eras,
                output_length: self.kept + lines.len() as u64,
                observed: self.observed,
                next_id: self.tracker.len() as u32 + 1,
                rows: Rows::new(rows),
            },
            lines,
            count,
        }
    }
}

// The state in which the operators begin, as a row keeps it.
fn first_text(alloc: Global, pipeline: &Pipeline) -> Result<Bytes, AllocError>
    ensures text { IfOk result (λ bytes. (text : List ℕ) → bytes ≡ (rules_of text pipeline.now).fresh) }
    ensures short { IfOk result (λ bytes. length bytes < 2 ^ 32) }
{
    a_row_tells_its_state(pipeline);
    let state = pipeline.fresh(alloc)?;
    let mut bytes = Vec::new(alloc);
    pipeline.save(alloc, &state, &mut bytes)?;
    if bytes.len() > u32::MAX as usize {
        return Err(AllocError);
    }
    Ok(Bytes::new(bytes))
}
