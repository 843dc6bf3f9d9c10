ghost use Rattle.std.specs.Prelude.{◌≡◌, ◌&&◌, nat_lt, length, take, Some, None, IfSome, IfNone};
ghost use Rattle.std.specs.Option.{option_copied};
ghost use Rattle.set_cookie.specs.Answers.{is_unfinished, may_be_answer, taught, taught_by};
ghost use Rattle.set_cookie.specs.Lines.{final_head, lines_of};
ghost use Rattle.set_cookie.specs.Scans.{head_of};
ghost use Rattle.set_cookie.specs.declared.answer.TheConstants.{MOST_BYTES};

use crate::bytes::front;
use crate::fields::last_text;
use crate::heads::{from_final_head, is_status_line};
use crate::lifetimes::is_deletion;
use crate::lines::next_line;
use crate::set_cookies::{pair_of, value_of};

/// The most bytes of an answer that are looked at, with all heads before the final one.
pub const MOST_BYTES: usize = 16384;

/// What every answer of HTTP/1 begins with.
const VERSION: &[u8] = b"HTTP/1.";

/// Whether more bytes of this answer may teach something: its head hasn't come whole, fewer than `MOST_BYTES` have come, and they may
/// be of an answer in HTTP/1. It costs one walk over them, and allocates nothing.
#[tactic(auto, unfolding(crate::specs::Answers::is_unfinished))]
pub fn is_unfinished(answer: &[u8]) -> bool
    ensures exact { result ≡ is_unfinished answer.now }
{
    may_go_on(answer) && from_final_head(answer).is_none()
}

/// Whether more bytes of this answer are looked at, and these may be of one in HTTP/1.
pub(crate) fn may_go_on(answer: &[u8]) -> bool
    ensures { result ≡ (nat_lt (length answer.now) MOST_BYTES && may_be_answer answer.now) }
{
    answer.len() < MOST_BYTES && may_be_answer(answer)
}

fn may_be_answer(answer: &[u8]) -> bool
    ensures { result ≡ may_be_answer answer.now }
{
    let len = answer.len().min(VERSION.len());
    answer[..len] == VERSION[..len]
}

/// The value of the last `Set-Cookie` field that counts for this name, in the first bytes of an answer. None if that field deletes the
/// cookie, or there is no such field; if the head is bad, hasn't come whole, or ends after `MOST_BYTES`. It costs two walks over the
/// head, and allocates nothing.
#[tactic(auto, unfolding(crate::specs::Answers::taught))]
pub fn taught<'a>(answer: &'a [u8], name: &[u8]) -> Option<&'a [u8]>
    ensures exact { option_copied result ≡ taught answer.now name.now }
{
    taught_by(whole_head(answer)?, name)
}

/// The bytes from the final head on, if it has come whole in those that are looked at.
pub(crate) fn whole_head(answer: &[u8]) -> Option<&[u8]>
    ensures some { IfSome result (λ head. final_head (take MOST_BYTES answer.now) ≡ Some (head_of (lines_of head.now))) }
    ensures none { IfNone result (final_head (take MOST_BYTES answer.now) ≡ None) }
{
    from_final_head(front(answer, MOST_BYTES))
}

/// What the head that these bytes begin with teaches.
#[tactic(auto, unfolding(crate::specs::Scans::text_after))]
pub(crate) fn taught_by<'a>(head: &'a [u8], name: &[u8]) -> Option<&'a [u8]>
    ensures { option_copied result ≡ taught_by name.now (head_of (lines_of head.now)) }
{
    let (status, fields) = next_line(head)?;
    if !is_status_line(status) {
        return None;
    }
    let text = last_text(name, fields)?;
    if is_deletion(fields, text) {
        return None;
    }
    Some(value_of(pair_of(text)))
}
