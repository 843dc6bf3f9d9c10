ghost use Rattle.std.specs.Prelude.{◌≡◌, Some, None, IfSome, IfNone};
ghost use Rattle.std.specs.List.{before_first, list_all};
ghost use Rattle.std.specs.Char.{is_ascii_digit};
ghost use Rattle.set_cookie.specs.Lines.{lines_of, is_empty, final_head};
ghost use Rattle.set_cookie.specs.StatusLines.{code_of, ends_code, has_version, is_interim, is_status_line};

use crate::lines::{after_head, next_line};

/// Whether the line is a status line of HTTP/1.
#[tactic(auto, unfolding(crate::specs::StatusLines::is_status_line))]
pub(crate) fn is_status_line(line: &[u8]) -> bool
    ensures { result ≡ is_status_line line.now }
{
    if !has_version(line) {
        return false;
    }
    let code = code_of(line);
    if code.len() != 3 {
        return false;
    }
    if !are_digits(code) {
        return false;
    }
    ends_code(line)
}

fn are_digits(word: &[u8]) -> bool
    ensures { result ≡ list_all is_ascii_digit word.now }
{
    word.iter().all(|byte| byte.is_ascii_digit())
}

fn has_version(line: &[u8]) -> bool
    ensures { result ≡ has_version line.now }
{
    if !line.starts_with(b"HTTP/1.") {
        return false;
    }
    line.len() > 8 && line[7].is_ascii_digit() && line[8] == b' '
}

/// The three digits of the status.
fn code_of(line: &[u8]) -> &[u8]
    ensures { result.now ≡ code_of line.now }
{
    let (_, rest) = line.split_at(line.len().min(9));
    let (code, _) = rest.split_at(rest.len().min(3));
    code
}

/// Whether the line ends after the status, or a blank follows.
fn ends_code(line: &[u8]) -> bool
    ensures { result ≡ ends_code line.now }
{
    line.len() == 12 || line.len() > 12 && line[12] == b' '
}

/// Whether another head follows the one of this status line.
#[tactic(auto, unfolding(crate::specs::StatusLines::is_interim))]
fn is_interim(line: &[u8]) -> bool
    ensures { result ≡ is_interim line.now }
{
    if !is_status_line(line) {
        return false;
    }
    line.len() > 9 && line[9] == b'1' && code_of(line) != b"101".as_slice()
}

/// The bytes from the final head on, if it has come whole.
#[tactic(auto, using(crate::proofs::FinalHeads::final_none, crate::proofs::FinalHeads::final_here, crate::proofs::FinalHeads::final_later))]
pub(crate) fn from_final_head(bytes: &[u8]) -> Option<&[u8]>
    ensures some { IfSome result (λ rest. final_head bytes.now ≡ Some (before_first is_empty (lines_of rest.now))) }
    ensures none { IfNone result (final_head bytes.now ≡ None) }
{
    let mut rest = bytes;
    loop {
        let behind = after_head(rest)?;
        let (status, _) = next_line(rest)?;
        if !is_interim(status) {
            return Some(rest);
        }
        rest = behind;
    }
}
