// What a command reports.
ghost use Rattle.std.specs.Prelude.{◌≡◌, ◌++◌, codes, decimal, OnOk, IfOk, string_bytes};
ghost use Rattle.outside.specs.Count.{HasCause};
ghost use Rattle.outside.specs.World.{Told};
ghost use Rattle.agent_commands.specs.AdoptedLine.{adopted_line};
ghost use Rattle.agent_commands.specs.AuditedLine.{audited_line};
ghost use Rattle.agent_commands.specs.Committed.{length_line};
ghost use Rattle.agent_commands.specs.DemoLine.{demo_line};
ghost use Rattle.agent_commands.specs.Refusal.{settings_words, build_words, cause_words, graph_words};
ghost use Rattle.agent_commands.specs.Report.{Appends, GrowsByPart};
ghost use Rattle.agent_commands.specs.Status.{fault_line, status_of};
ghost use Rattle.agent_commands.specs.SummaryLine.{summary_line};

use crate::fault::Fault;
use demo_run::Demo;
use folder_audit::Audited;
use graph_core::GraphFault;
use op_kinds::OpCause;
use outside::{CallFault, Sink};
use pipeline::BuildFault;
use poll_core::{Adopted, Summary};
use settings_text::SettingsFault;
use std::alloc::{AllocError, Global};

/// Reports a line, which has its LF.
pub fn report_line<K: Sink>(alloc: Global, line: &str, report: &mut K) -> Result<(), CallFault>
    ensures ok { OnOk result (Told (Appends line.now) (K.meaning.written report.old) (K.meaning.written report.new)) }
    ensures part { Told (GrowsByPart line.now) (K.meaning.written report.old) (K.meaning.written report.new) }
    ensures cause { HasCause result (K.meaning.faults report.old) (K.meaning.faults report.new) }
{
    report.write(alloc, line.as_bytes())
}

/// Reports a fault by its line.
pub fn report_fault<K: Sink>(alloc: Global, fault: &Fault, report: &mut K) -> Result<(), CallFault>
    ensures ok { OnOk result (Told (Appends (fault_line fault.now)) (K.meaning.written report.old) (K.meaning.written report.new)) }
    ensures part { Told (GrowsByPart (fault_line fault.now)) (K.meaning.written report.old) (K.meaning.written report.new) }
    ensures cause { HasCause result (K.meaning.faults report.old) (K.meaning.faults report.new) }
{
    // Where memory ran out, there may be none for a line.
    if let Fault::Memory = fault {
        return report_line(alloc, "fault 10 memory\n", report);
    }
    let line = line_of(alloc, fault)?;
    report_line(alloc, line.as_str(), report)
}

fn line_of(alloc: Global, fault: &Fault) -> Result<String, AllocError>
    ensures { IfOk result (λ line. string_bytes line ≡ fault_line fault.now) }
{
    match fault {
        Fault::Usage => String::from_str(alloc, "fault 2 usage\n"),
        Fault::Settings(refused) => settings_line(alloc, refused),
        Fault::Build(refused) => build_line(alloc, refused),
        Fault::CheckpointBad { at } => format!(in alloc; "fault 4 checkpoint {at}\n"),
        Fault::SettingsChanged { at } => format!(in alloc; "fault 5 changed {at}\n"),
        Fault::OutputShort { kept, found } => format!(in alloc; "fault 6 short {kept} {found}\n"),
        Fault::Disk => String::from_str(alloc, "fault 7 disk\n"),
        Fault::Control => String::from_str(alloc, "fault 8 control\n"),
        Fault::Memory => String::from_str(alloc, "fault 10 memory\n"),
        Fault::OutputFull { length } => format!(in alloc; "fault 11 full {length}\n"),
        Fault::ControlLine { number } => format!(in alloc; "fault 12 control-line {number}\n"),
        Fault::Worn => String::from_str(alloc, "fault 13 worn\n"),
        Fault::ControlLong => String::from_str(alloc, "fault 15 control-long\n"),
        Fault::NothingKept => String::from_str(alloc, "fault 16 nothing-kept\n"),
        Fault::Eras => String::from_str(alloc, "fault 17 eras\n"),
        Fault::Fingerprint { kept, found } => {
            format!(in alloc; "fault 18 fingerprint {kept} {found}\n")
        }
        Fault::KeptSettings(refused) => kept_settings_line(alloc, refused),
        Fault::KeptBuild(refused) => kept_build_line(alloc, refused),
        Fault::Differs { file, line } => format!(in alloc; "fault 20 differs {file} {line}\n"),
        Fault::FlushOn => String::from_str(alloc, "fault 21 flush-on\n"),
        Fault::Large { length } => format!(in alloc; "fault 22 large {length}\n"),
    }
}

fn settings_line(alloc: Global, refused: &SettingsFault) -> Result<String, AllocError>
    ensures { IfOk result (λ line. string_bytes line ≡ codes "fault 3 " ++ settings_words refused.now ++ codes "\n") }
{
    let told = settings_told(alloc, refused)?;
    let words = told.as_str();
    format!(in alloc; "fault 3 {words}\n")
}

fn build_line(alloc: Global, refused: &BuildFault) -> Result<String, AllocError>
    ensures { IfOk result (λ line. string_bytes line ≡ codes "fault 3 " ++ build_words refused.now ++ codes "\n") }
{
    let told = build_told(alloc, refused)?;
    let words = told.as_str();
    format!(in alloc; "fault 3 {words}\n")
}

fn kept_settings_line(alloc: Global, refused: &SettingsFault) -> Result<String, AllocError>
    ensures { IfOk result (λ line. string_bytes line ≡ codes "fault 19 kept " ++ settings_words refused.now ++ codes "\n") }
{
    let told = settings_told(alloc, refused)?;
    let words = told.as_str();
    format!(in alloc; "fault 19 kept {words}\n")
}

fn kept_build_line(alloc: Global, refused: &BuildFault) -> Result<String, AllocError>
    ensures { IfOk result (λ line. string_bytes line ≡ codes "fault 19 kept " ++ build_words refused.now ++ codes "\n") }
{
    let told = build_told(alloc, refused)?;
    let words = told.as_str();
    format!(in alloc; "fault 19 kept {words}\n")
}

// Why settings can't be read, in words.
fn settings_told(alloc: Global, refused: &SettingsFault) -> Result<String, AllocError>
    ensures { IfOk result (λ words. string_bytes words ≡ settings_words refused.now) }
{
    match refused {
        SettingsFault::NotJson => String::from_str(alloc, "settings not-json"),
        SettingsFault::Missing { key } => format!(in alloc; "settings missing {key}"),
        SettingsFault::Unknown { key } => format!(in alloc; "settings unknown {key}"),
        SettingsFault::WrongKind { key } => format!(in alloc; "settings wrong-kind {key}"),
        SettingsFault::OutOfRange { key } => format!(in alloc; "settings out-of-range {key}"),
        SettingsFault::Fraction { key } => format!(in alloc; "settings fraction {key}"),
        SettingsFault::TooLong { length } => format!(in alloc; "settings too-long {length}"),
        SettingsFault::Memory => String::from_str(alloc, "settings memory"),
    }
}

// Why what they ask for can't be built, in words.
fn build_told(alloc: Global, refused: &BuildFault) -> Result<String, AllocError>
    ensures { IfOk result (λ words. string_bytes words ≡ build_words refused.now) }
{
    match refused {
        BuildFault::Glob {
            exclude: false,
            place,
            ..
        } => include_told(alloc, *place),
        BuildFault::Glob {
            exclude: true,
            place,
            ..
        } => exclude_told(alloc, *place),
        BuildFault::Multiline => String::from_str(alloc, "multiline pattern"),
        BuildFault::SameId { place } => format!(in alloc; "same-id {place}"),
        BuildFault::Operator { place, cause } => operator_told(alloc, *place, *cause),
        BuildFault::Graph(fault) => graph_told(alloc, *fault),
        BuildFault::Memory => String::from_str(alloc, "memory"),
    }
}

fn include_told(alloc: Global, place: u64) -> Result<String, AllocError>
    ensures { IfOk result (λ words. string_bytes words ≡ codes "include " ++ decimal place ++ codes " glob") }
{
    format!(in alloc; "include {place} glob")
}

fn exclude_told(alloc: Global, place: u64) -> Result<String, AllocError>
    ensures { IfOk result (λ words. string_bytes words ≡ codes "exclude " ++ decimal place ++ codes " glob") }
{
    format!(in alloc; "exclude {place} glob")
}

fn operator_told(alloc: Global, place: u64, cause: OpCause) -> Result<String, AllocError>
    ensures { IfOk result (λ words. string_bytes words ≡ codes "operator " ++ decimal place ++ codes " " ++ cause_words cause) }
{
    match cause {
        OpCause::Path { .. } => format!(in alloc; "operator {place} path"),
        OpCause::Expr { .. } => format!(in alloc; "operator {place} expr"),
        OpCause::Pattern => format!(in alloc; "operator {place} pattern"),
        OpCause::Layout { .. } => format!(in alloc; "operator {place} layout"),
        OpCause::NoNames => format!(in alloc; "operator {place} no-names"),
        OpCause::Memory => format!(in alloc; "operator {place} memory"),
    }
}

fn graph_told(alloc: Global, fault: GraphFault) -> Result<String, AllocError>
    ensures { IfOk result (λ words. string_bytes words ≡ graph_words fault) }
{
    match fault {
        GraphFault::NoSuchNode { node } => format!(in alloc; "graph no-such-node {node}"),
        GraphFault::Cycle { node } => format!(in alloc; "graph cycle {node}"),
        GraphFault::TooManyPaths => String::from_str(alloc, "graph too-many-paths"),
        GraphFault::Memory => String::from_str(alloc, "graph memory"),
    }
}

/// Reports the numbers of a poll by its line.
pub fn report_summary<K: Sink>(
    alloc: Global,
    summary: &Summary,
    report: &mut K,
) -> Result<(), CallFault>
    ensures ok { OnOk result (Told (Appends (summary_line summary.now)) (K.meaning.written report.old) (K.meaning.written report.new)) }
    ensures part { Told (GrowsByPart (summary_line summary.now)) (K.meaning.written report.old) (K.meaning.written report.new) }
    ensures cause { HasCause result (K.meaning.faults report.old) (K.meaning.faults report.new) }
{
    let line = line_of_summary(alloc, summary)?;
    report_line(alloc, line.as_str(), report)
}

// The line has its LF.
#[tactic(auto, unfolding(crate::specs::SummaryLine::summary_line))]
fn line_of_summary(alloc: Global, summary: &Summary) -> Result<String, AllocError>
    ensures { IfOk result (λ line. string_bytes line ≡ summary_line summary.now) }
{
    let mut line = String::new(alloc);
    push_field(&mut line, "files=", u64::from(summary.files))?;
    push_field(&mut line, " lines=", summary.lines)?;
    push_field(&mut line, " left=", u64::from(summary.left))?;
    push_field(&mut line, " gone=", u64::from(summary.gone))?;
    push_field(&mut line, " failed=", u64::from(summary.failed))?;
    push_field(&mut line, " compressed=", u64::from(summary.compressed))?;
    push_field(&mut line, " shrunk=", u64::from(summary.shrunk))?;
    push_field(&mut line, " full=", u64::from(summary.full))?;
    push_field(&mut line, " deep=", u64::from(summary.deep))?;
    push_field(&mut line, " output=", summary.output)?;
    line.push_str("\n")?;
    Ok(line)
}

/// Reports what a demonstration shows by its line.
pub fn report_demo<K: Sink>(alloc: Global, demo: &Demo, report: &mut K) -> Result<(), CallFault>
    ensures ok { OnOk result (Told (Appends (demo_line demo.now)) (K.meaning.written report.old) (K.meaning.written report.new)) }
    ensures part { Told (GrowsByPart (demo_line demo.now)) (K.meaning.written report.old) (K.meaning.written report.new) }
    ensures cause { HasCause result (K.meaning.faults report.old) (K.meaning.faults report.new) }
{
    let line = line_of_demo(alloc, demo)?;
    report_line(alloc, line.as_str(), report)
}

// The line has its LF.
#[tactic(auto, unfolding(crate::specs::DemoLine::demo_line))]
fn line_of_demo(alloc: Global, demo: &Demo) -> Result<String, AllocError>
    ensures { IfOk result (λ line. string_bytes line ≡ demo_line demo.now) }
{
    let mut line = String::new(alloc);
    push_field(&mut line, "rounds=", u64::from(demo.rounds))?;
    push_field(&mut line, " polls=", demo.polls)?;
    push_field(&mut line, " stops=", demo.stops)?;
    push_field(&mut line, " files=", demo.files)?;
    push_field(&mut line, " lines=", demo.lines)?;
    push_field(&mut line, " output=", demo.output)?;
    line.push_str("\n")?;
    Ok(line)
}

/// Reports that settings were adopted by its line.
pub fn report_adopted<K: Sink>(
    alloc: Global,
    adopted: &Adopted,
    report: &mut K,
) -> Result<(), CallFault>
    ensures ok { OnOk result (Told (Appends (adopted_line adopted.now)) (K.meaning.written report.old) (K.meaning.written report.new)) }
    ensures part { Told (GrowsByPart (adopted_line adopted.now)) (K.meaning.written report.old) (K.meaning.written report.new) }
    ensures cause { HasCause result (K.meaning.faults report.old) (K.meaning.faults report.new) }
{
    let line = line_of_adopted(alloc, adopted)?;
    report_line(alloc, line.as_str(), report)
}

// The line has its LF.
#[tactic(auto, unfolding(crate::specs::AdoptedLine::adopted_line))]
fn line_of_adopted(alloc: Global, adopted: &Adopted) -> Result<String, AllocError>
    ensures { IfOk result (λ line. string_bytes line ≡ adopted_line adopted.now) }
{
    let mut line = String::new(alloc);
    push_field(&mut line, "adopted rows=", u64::from(adopted.rows))?;
    push_field(&mut line, " lines=", adopted.lines)?;
    push_field(&mut line, " eras=", u64::from(adopted.eras))?;
    push_field(&mut line, " output=", adopted.output)?;
    line.push_str("\n")?;
    Ok(line)
}

/// Reports what an audit tells by its line.
pub fn report_audited<K: Sink>(
    alloc: Global,
    audited: &Audited,
    report: &mut K,
) -> Result<(), CallFault>
    ensures ok { OnOk result (Told (Appends (audited_line audited.now)) (K.meaning.written report.old) (K.meaning.written report.new)) }
    ensures part { Told (GrowsByPart (audited_line audited.now)) (K.meaning.written report.old) (K.meaning.written report.new) }
    ensures cause { HasCause result (K.meaning.faults report.old) (K.meaning.faults report.new) }
{
    let line = line_of_audited(alloc, audited)?;
    report_line(alloc, line.as_str(), report)
}

// The line has its LF.
#[tactic(auto, unfolding(crate::specs::AuditedLine::audited_line))]
fn line_of_audited(alloc: Global, audited: &Audited) -> Result<String, AllocError>
    ensures { IfOk result (λ line. string_bytes line ≡ audited_line audited.now) }
{
    let mut line = String::new(alloc);
    push_field(&mut line, "audit rows=", u64::from(audited.rows))?;
    push_field(&mut line, " absent=", u64::from(audited.absent))?;
    push_field(&mut line, " lines=", audited.lines)?;
    line.push_str("\n")?;
    Ok(line)
}

fn push_field(line: &mut String, name: &str, value: u64) -> Result<(), AllocError>
    ensures { OnOk result (string_bytes line.new ≡ string_bytes line.old ++ name.now ++ decimal value) }
{
    write!(line, "{name}{value}")
}

/// Reports how much of the output is kept.
pub fn report_length<K: Sink>(alloc: Global, size: u64, report: &mut K) -> Result<(), CallFault>
    ensures ok { OnOk result (Told (Appends (length_line size)) (K.meaning.written report.old) (K.meaning.written report.new)) }
    ensures part { Told (GrowsByPart (length_line size)) (K.meaning.written report.old) (K.meaning.written report.new) }
    ensures cause { HasCause result (K.meaning.faults report.old) (K.meaning.faults report.new) }
{
    let line = format!(in alloc; "{size}\n")?;
    report_line(alloc, line.as_str(), report)
}

/// Reports a fault, and answers its status.
pub fn refuse<K: Sink>(alloc: Global, fault: Fault, report: &mut K) -> u8
    ensures status { result ≡ status_of fault }
    ensures told { Told (GrowsByPart (fault_line fault)) (K.meaning.written report.old) (K.meaning.written report.new) }
{
    let _ = report_fault(alloc, &fault, report);
    fault.status()
}
