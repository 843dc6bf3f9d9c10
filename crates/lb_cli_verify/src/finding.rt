ghost use Rattle.std.specs.Prelude.{◌≡◌, IfOk};
ghost use Rattle.std.specs.String.{string_bytes};
ghost use Rattle.lb_cli_verify.specs.Verify.{score_line, score_words, labelled, versions_line};

use cert_check::{CheckFault, check};
use dual_cert_plan::{Plan, Sheet};
use dual_cert_text::{ReadError, TextFault, read_plan};
use pin_set::Score;
use std::alloc::{AllocError, Global};

/// What is found of a text that must be a best plan.
#[derive(Clone, Copy, Debug, PartialEq, Eq)]
pub enum Finding {
    /// The text is a plan, and no plan for its sheet is better. It has this score.
    Best(Score),
    /// The text is no plan.
    NoPlan(TextFault),
    /// The text is a plan that is not lawful or not shown best, or that is made for another sheet.
    Refused(CheckFault),
    /// The text is a plan that is best for the sheet except for its version, `plan`; that of the sheet is `sheet`.
    OtherVersion { plan: u64, sheet: u64 },
}

impl Finding {
    ghost use Rattle.std.specs.Prelude.{◌≡◌, IfOk};
    ghost use Rattle.std.specs.String.{string_bytes};
    ghost use Rattle.cert_check.specs.Verdict.{verdict};
    ghost use Rattle.lb_cli_verify.specs.Verify.{finding_of, finding_for, finding_at_versions, MeansBest, MeansBestFor, MeansIsBestFor, is_best, line_of};

    /// What is found of the text. Takes the time of reading it, and memory of a few times its size.
    pub fn of(alloc: Global, text: &[u8]) -> Result<Finding, AllocError>
        ensures exact { IfOk result (λ finding. finding ≡ finding_of text.now) }
        ensures best { IfOk result (MeansBest text.now) }
    {
        let plan = match read_plan(alloc, text) {
            Ok(plan) => plan,
            Err(ReadError::Fault(fault)) => return Ok(Finding::NoPlan(fault)),
            Err(ReadError::Memory) => return Err(AllocError),
        };
        let sheet = plan.sheet(alloc)?;
        Ok(match check(&sheet, &plan) {
            Ok(score) => Finding::Best(score),
            Err(fault) => Finding::Refused(fault),
        })
    }

    /// What is found of the text where its plan must be for the sheet. Takes the time and the memory of reading it.
    pub fn for_sheet(alloc: Global, sheet: &Sheet, text: &[u8]) -> Result<Finding, AllocError>
        ensures exact { IfOk result (λ finding. finding ≡ finding_for sheet.now text.now) }
        ensures best { IfOk result (MeansBestFor sheet.now text.now) }
    {
        match read_plan(alloc, text) {
            Ok(plan) => Ok(Finding::of_plan_for(sheet, &plan)),
            Err(ReadError::Fault(fault)) => Ok(Finding::NoPlan(fault)),
            Err(ReadError::Memory) => Err(AllocError),
        }
    }

    /// What is found of a plan that must be for the sheet.
    fn of_plan_for(sheet: &Sheet, plan: &Plan) -> Finding
        ensures exact { result ≡ finding_at_versions plan.now.version sheet.now.version (verdict sheet.now plan.now) }
        ensures best { MeansIsBestFor sheet.now plan.now result }
    {
        let score = match check(sheet, plan) {
            Ok(score) => score,
            Err(fault) => return Finding::Refused(fault),
        };
        if plan.version() != sheet.version() {
            return Finding::OtherVersion {
                plan: plan.version(),
                sheet: sheet.version(),
            };
        }
        Finding::Best(score)
    }

    /// Whether the text is a best plan.
    pub fn is_best(self) -> bool
        ensures { result ≡ is_best self }
    {
        matches!(self, Finding::Best(_))
    }

    /// The finding as the program prints it, with its line end.
    pub fn line(self, alloc: Global) -> Result<String, AllocError>
        ensures { IfOk result (λ line. string_bytes line ≡ line_of self) }
    {
        let mut line = match self {
            Finding::Best(score) => score_line(alloc, score)?,
            Finding::NoPlan(fault) => fault.text(alloc)?,
            Finding::Refused(fault) => String::from_str(alloc, fault.text())?,
            Finding::OtherVersion { plan, sheet } => versions_line(alloc, plan, sheet)?,
        };
        line.push('\n')?;
        Ok(line)
    }
}

fn versions_line(alloc: Global, plan: u64, sheet: u64) -> Result<String, AllocError>
    ensures { IfOk result (λ line. string_bytes line ≡ versions_line plan sheet) }
{
    let mut line = labelled(alloc, "version ", plan)?;
    line.push_str(&labelled(alloc, " differs from the sheet's ", sheet)?)?;
    Ok(line)
}

fn score_line(alloc: Global, score: Score) -> Result<String, AllocError>
    ensures { IfOk result (λ line. string_bytes line ≡ score_line score) }
{
    let mut line = score_words(alloc, score)?;
    if score.cost != score.moved {
        line.push_str(&labelled(alloc, " cost ", score.cost)?)?;
    }
    Ok(line)
}

fn score_words(alloc: Global, score: Score) -> Result<String, AllocError>
    ensures { IfOk result (λ words. string_bytes words ≡ score_words score) }
{
    let mut words = labelled(alloc, "best pins ", score.pins)?;
    words.push_str(&labelled(alloc, " unplaced ", score.unplaced)?)?;
    words.push_str(&labelled(alloc, " moved ", score.moved)?)?;
    Ok(words)
}

fn labelled(alloc: Global, label: &str, number: u64) -> Result<String, AllocError>
    ensures { IfOk result (λ words. string_bytes words ≡ labelled label.now number) }
{
    format!(in alloc; "{label}{number}")
}
