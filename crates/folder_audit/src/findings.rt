// What was found of the rows, and what it comes to.
ghost use Rattle.std.specs.Prelude.{◌≡◌, ◌≤◌, ◌<◌, ◌^◌, ℕ, Some, length, slice_get, IfOk, IfErr, IfSome, IfNone};
ghost use Rattle.file_tracker.specs.Limits.{row_limit};
ghost use Rattle.folder_audit.specs.Findings.{AreFindings, absent_in, all_lines_in};
ghost use Rattle.folder_audit.specs.Judged.{HasVerdict};
ghost use Rattle.folder_audit.specs.KeptFiles.{AreFitRows};
ghost use Rattle.folder_audit.specs.Tally.{IsOtherFault, IsTallied, NoneDiffer};
ghost use Rattle.folder_audit.specs.declared.findings.Finding.{Finding};

use crate::audited::Audited;
use crate::fault::AuditFault;
use auditor::Verdict;
use file_tracker::Row;

/// What was found of a row.
#[derive(Clone, Copy)]
pub(crate) enum Finding {
    /// Its file wasn't found, or couldn't be read as far as it was before.
    Absent,
    /// It holds; so many lines of it are kept.
    Same { lines: u64 },
    /// It doesn't, and this line is the first that differs.
    Differs { line: u64 },
}

impl Finding {
    ghost use Rattle.folder_audit.specs.Findings.{is_absent, lines_in};

    fn is_absent(&self) -> bool
        ensures { result ≡ is_absent self.now }
    {
        match self {
            Finding::Absent => true,
            Finding::Same { .. } => false,
            Finding::Differs { .. } => false,
        }
    }

    /// How many lines were read.
    fn lines(&self) -> u64
        ensures { result ≡ lines_in self.now }
    {
        match self {
            Finding::Absent => 0,
            Finding::Same { lines } => *lines,
            Finding::Differs { .. } => 0,
        }
    }

    /// What a verdict says of a row with so many lines.
    pub(crate) fn of(verdict: Verdict, lines: u64) -> Finding
        ensures { HasVerdict verdict lines result }
    {
        match verdict {
            Verdict::Same => Finding::Same { lines },
            Verdict::Differs { line } => Finding::Differs { line },
        }
    }
}

/// The numbers of what was found, or the first row that differs.
pub(crate) fn tally(rows: &[Row], found: &[Finding]) -> Result<Audited, AuditFault>
    requires fit { (eras : ℕ) × AreFitRows eras rows.now }
    requires few { length rows.now ≤ row_limit }
    requires are { AreFindings rows.now found.now }
    ensures ok { IfOk result (IsTallied rows.now found.now) }
    ensures err { IfErr result (IsOtherFault rows.now found.now) }
{
    if let Some((place, line)) = first_other(found) {
        return Err(AuditFault::Differs {
            file: u64::from(rows[place].id),
            line,
        });
    }
    let (absent, lines) = counted(found);
    Ok(Audited {
        rows: rows.len() as u32,
        absent,
        lines,
    })
}

// The first of them that differs, and at which line.
fn first_other(found: &[Finding]) -> Option<(usize, u64)>
    ensures none { IfNone result (NoneDiffer found.now (length found.now)) }
    ensures some { IfSome result (λ one. (slice_get found.now one.0 ≡ Some (Finding.Differs one.1)) × NoneDiffer found.now one.0) }
{
    for (place, finding) in found.iter().enumerate() {
        if let Finding::Differs { line } = finding {
            return Some((place, *line));
        }
    }
    None
}

// How many are absent, and how many lines the others have.
fn counted(found: &[Finding]) -> (u32, u64)
    requires few { length found.now < 2 ^ 32 }
    requires lines { all_lines_in found.now < 2 ^ 64 }
    ensures absent { result.0 ≡ absent_in found.now }
    ensures lines { result.1 ≡ all_lines_in found.now }
{
    let mut absent = 0;
    let mut lines = 0;
    for finding in found {
        absent += u32::from(finding.is_absent());
        lines += finding.lines();
    }
    (absent, lines)
}
