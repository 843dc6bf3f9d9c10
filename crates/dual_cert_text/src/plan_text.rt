ghost use Rattle.std.specs.Prelude.{◌≡◌, ◌≢◌, ℕ, ◌+◌, ◌^◌, ◌<◌, List, [], ◌++◌, length, IfOk};
ghost use Rattle.lb_types_text.specs.Parts.{parts};
ghost use Rattle.dual_cert_plan.specs.Plans.{PlanParts, IsPlan};
ghost use Rattle.dual_cert_text.specs.declared.fault.TextFault.{TextFault};
ghost use Rattle.dual_cert_text.specs.declared.fault.TextFault.TheVariants.{Truncated};
ghost use Rattle.dual_cert_text.specs.Faults.{Gives};
ghost use Rattle.dual_cert_text.specs.Spellings.{spelling};
ghost use Rattle.dual_cert_text.specs.PlanTexts.{plan_format, plan_of_text};
ghost use Rattle.dual_cert_text.specs.Texts.{body_at, end_at, is_nothing, reading};

use crate::heading::read_heading;
use crate::plan_draft::PlanDraft;
use crate::words::is;
use crate::{ReadError, TextFault};
use dual_cert_plan::Plan;
use lb_types_text::cut;
use std::alloc::Global;

/// The plan that the text spells, each byte of it.
///
/// A plan has one spelling: `stickyplan 1`, `version V`, a line for each server (`server NAME off` or
/// `server NAME cap C price P`), a line for each row (`row COUNT PLACE NEW SET`, in the plan's order, with `-` for no
/// server), and `end`. Where some row's cost isn't 1, it begins with `stickyplan 2` and each row's last word is its
/// cost. Any other text has a first fault.
///
/// One walk over the text. Each name of a set is looked for from the one before it on. So a canonical set costs one walk
/// over the servers, at most 128, and each place another. The memory is that of the rows, some 50 bytes each, and up to
/// three times as much while their list grows.
pub fn read_plan(alloc: Global, text: &[u8]) -> Result<Plan, ReadError>
    // What is read is spelled so.
    ensures found { IfOk result (λ plan. text.now ≡ spelling plan) }
    // What is spelled so is read, unless memory runs out.
    ensures only { (plan : PlanParts) → IsPlan plan → text.now ≡ spelling plan
        → Gives (λ p. p) result (Ok plan) }
    // Which fault it is.
    ensures exact { Gives (λ p. p) result (plan_of_text text.now) }
{
    read_whole(alloc, text)
}

/// No text of a plan begins another, so a text that has other lines after it ends where it ends.
pub fn one_text()
    ensures { (a b : PlanParts) (rest : List ℕ) → IsPlan a → IsPlan b
        → spelling b ≡ spelling a ++ rest → (a ≡ b) × (rest ≡ []) }
{}

/// A fault stays, whatever follows the text: only a truncated text can be gone on with.
pub fn a_fault_stays()
    ensures { (front rest : List ℕ) (fault : TextFault) → fault ≢ Truncated
        → plan_of_text front ≡ Err fault → plan_of_text (front ++ rest) ≡ Err fault }
{}

/// Each beginning of a plan's text is truncated, so no other fault is found in the beginning of a text that is a plan's.
pub fn a_beginning_is_truncated()
    ensures { (plan : PlanParts) (front rest : List ℕ) → IsPlan plan → rest ≢ []
        → spelling plan ≡ front ++ rest → plan_of_text front ≡ Err Truncated }
{}

#[tactic(auto, unfolding(crate::specs::PlanTexts::plan_of_text))]
fn read_whole(alloc: Global, text: &[u8]) -> Result<Plan, ReadError>
    ensures { Gives (λ p. p) result (plan_of_text text.now) }
{
    let draft = read_draft(alloc, text)?;
    Ok(draft.into_plan())
}

/// What the text is read as, line by line.
#[tactic(auto, unfolding(crate::specs::Texts::reading, crate::specs::PlanTexts::plan_format))]
fn read_draft(alloc: Global, text: &[u8]) -> Result<PlanDraft, ReadError>
    ensures { Gives (λ d. d) result (reading plan_format text.now) }
{
    let heading = read_heading(b"stickyplan", text)?;
    let draft = PlanDraft::new(alloc, heading.is_second, heading.version);
    read_body(draft, heading.rest)
}

/// The lines from the third on, after the heading.
fn read_body(mut draft: PlanDraft, text: &[u8]) -> Result<PlanDraft, ReadError>
    ensures { Gives (λ d. d) result (body_at plan_format 3 draft (parts 10 text.now)) }
{
    let mut rest = text;
    let mut number = 3;
    while let Some((line, behind)) = cut(rest, b'\n') {
        if is(line, b"end") {
            return end(draft, number, behind);
        }
        draft.add_line(number, line)?;
        rest = behind;
        number += 1;
    }
    Err(ReadError::Fault(TextFault::Truncated))
}

/// The draft, where the text may end after line `number`, which is `end`.
#[tactic(auto, unfolding(crate::specs::Texts::end_at, crate::specs::PlanTexts::plan_format))]
fn end(draft: PlanDraft, number: u64, rest: &[u8]) -> Result<PlanDraft, ReadError>
    requires { number + 1 < 2 ^ 64 }
    ensures { Gives (λ d. d) result (end_at plan_format number draft (parts 10 rest.now)) }
{
    if !draft.may_end() {
        return Err(ReadError::Fault(TextFault::NotCanonical));
    }
    if !is_nothing(rest) {
        return Err(ReadError::Fault(TextFault::BadLine(number + 1)));
    }
    Ok(draft)
}

fn is_nothing(rest: &[u8]) -> bool
    ensures { result ≡ is_nothing (parts 10 rest.now) }
{
    rest.is_empty()
}
