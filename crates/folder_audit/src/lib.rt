//! The audit of an agent's folder: whether the lines that its output keeps of each file are those that the file's bytes give.
//!
//! The contract for the layer above: [`audit`] reads the journal, the output and the files, and writes nothing. With `Ok` each
//! row is one that was found absent, or holds by the bytes of a file that was opened in the call (`IsAudited` of
//! `specs/Audited`); else it is the one refusal of what stands on the disk (`IsUnaudited` of `specs/Refusals`), or the row with
//! the least id that differs (`IsDiffering`). Over files that can be told apart no row of what stands differs ([`laws`]), and of the
//! rows whose file keeps its name no more are absent than calls on the tree failed (`FewAbsent`).
//!
//! Each row is judged by `auditor`, in another way than the one that made its lines.
#![tactic(auto)]

mod audited;
mod eras;
mod fault;
mod findings;
mod folder;
mod judging;
mod kept;
pub mod laws;
mod looking;
mod reading;

pub use audited::Audited;
pub use fault::AuditFault;
pub use folder::audit;
