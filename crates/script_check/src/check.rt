//! A script checked, from bytes to bytes and from a source to a sink.

ghost use Rattle.std.specs.Prelude.{◌≡◌, ◌⊎◌, ◌^◌, ℕ, List, IfOk, IfErr};
ghost use Rattle.genedit_script.specs.Script.{script_of};
ghost use Rattle.genedit_io.specs.RunFault.{IsWant};
ghost use Rattle.genedit_io.specs.Runs.{IsReadWhole, IsRun};
ghost use Rattle.genedit_lib.specs.Run.{IsStopped};
ghost use Rattle.square_store.specs.Limits.{usual_room};
ghost use Rattle.script_faults.specs.Faults.{faulty_lines, fault_lines};
ghost use Rattle.script_faults.specs.Laws.{Begin};
ghost use Rattle.script_check.specs.Check.{AreRefused, ComesTo, ReportsAs};
ghost use Rattle.script_check.specs.Report.{IsReportText};

use crate::refusals::{Refusal, refusals_in};
use crate::report::{has_fault, report_text};
use devices::{Sink, Source};
use genedit_io::{RunFault, pull_all, push_output};
use script_faults::{Notes, notes_in};
use std::alloc::Global;

/// How many pulls a script has, at most.
const TURNS: u64 = 1 << 32;

/// What a check comes to.
#[derive(Clone, Copy, Debug, PartialEq, Eq)]
pub enum CheckOutcome {
    /// No fault, and nothing would be refused; there may be warnings.
    Clean,
    /// Some line is at fault, or some command would be refused.
    Told,
}

/// What is told of a script.
#[derive(Debug, Drop)]
pub struct Report {
    /// Its faults and warnings.
    pub notes: Notes,
    /// Where it has no fault, what would be refused.
    pub refusals: Vec<Refusal>,
    /// All that, as it is printed.
    pub text: Vec<u8>,
}

impl Report {
    ghost use Rattle.std.specs.Prelude.{◌≡◌};
    ghost use Rattle.script_faults.specs.Faults.{fault_lines};
    ghost use Rattle.script_check.specs.Check.{outcome_of};

    pub fn outcome(&self) -> CheckOutcome
        ensures { result ≡ outcome_of (fault_lines self.now.notes.notes.items) self.now.refusals.items }
    {
        if has_fault(&self.notes.notes) {
            return CheckOutcome::Told;
        }
        if self.refusals.as_slice().is_empty() {
            CheckOutcome::Clean
        } else {
            CheckOutcome::Told
        }
    }
}

/// Checks a script of this name: all its faults, and where it has none, what would be refused.
///
/// `RunFault::StoreFull` comes where its run would end with it.
pub fn checked(alloc: Global, name: &[u8], script: &[u8]) -> Result<Report, RunFault>
    ensures faults { IfOk result (λ report. fault_lines report.notes.notes.items ≡ faulty_lines script.now) }
    ensures first { IfOk result (λ report. Begin (fault_lines report.notes.notes.items) (script_of script.now)) }
    ensures refusals { IfOk result (λ report. AreRefused script.now (faulty_lines script.now) report.refusals.items) }
    ensures text { IfOk result (λ report. IsReportText name.now script.now report.notes.notes.items report.refusals.items report.text.items) }
    ensures stopped { IfErr result (λ fault. IsStopped usual_room script.now fault ⊎ IsWant fault) }
{
    let notes = notes_in(alloc, script)?;
    let refusals = if has_fault(&notes.notes) {
        Vec::new(alloc)
    } else {
        refusals_in(alloc, script)?
    };
    let text = report_text(alloc, name, script, &notes, &refusals)?;
    Ok(Report {
        notes,
        refusals,
        text,
    })
}

/// Pulls a script to its source's end, checks it, and pushes what is told at once.
pub fn check_script<S: Source, K: Sink>(
    alloc: Global,
    name: &[u8],
    source: &mut S,
    sink: &mut K,
) -> Result<CheckOutcome, RunFault>
    ensures outcome { IfOk result (λ outcome. (text : List ℕ) × IsReadWhole (2 ^ 32) text (S.known source.old) (S.known source.new) × ComesTo text outcome) }
    ensures run { IsRun (ReportsAs name.now) (IsStopped usual_room) (2 ^ 32) result (S.known source.old) (S.known source.new) K.known sink.old sink.new }
{
    let script = pull_all(alloc, source, TURNS)?;
    let report = checked(alloc, name, &script)?;
    let outcome = report.outcome();
    push_output(sink, &report.text)?;
    Ok(outcome)
}
