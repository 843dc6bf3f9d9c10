ghost use Rattle.std.specs.Prelude.{◌≡◌, ◌==◌, [], ◌∷◌, position, true, false, IfSome, IfNone};
ghost use Rattle.std.specs.List.{list_any, after_first};
ghost use Rattle.set_cookie.specs.Lines.{line_text, lines_of, is_empty};

use memchr::memchr;

/// The first line that ends in these bytes, without its end, and what follows it.
#[tactic(auto, using(crate::proofs::Cuts::no_line))]
pub(crate) fn next_line(bytes: &[u8]) -> Option<(&[u8], &[u8])>
    ensures first { IfSome result (λ two. lines_of bytes.now ≡ two.0.now ∷ lines_of two.1.now) }
    ensures none { IfNone result (lines_of bytes.now ≡ []) }
{
    let at = line_end(bytes)?;
    let (line, _) = bytes.split_at(at);
    let (_, rest) = bytes.split_at(at + 1);
    Some((line_text(line), rest))
}

/// The place of the first LF.
#[tactic(auto, using(crate::proofs::Cuts::first_byte))]
fn line_end(bytes: &[u8]) -> Option<usize>
    ensures { result ≡ position (λ b. b == 10) bytes.now }
{
    memchr(b'\n', bytes)
}

/// The line without the CR before its LF.
fn line_text(line: &[u8]) -> &[u8]
    ensures { result.now ≡ line_text line.now }
{
    if !line.ends_with(b"\r") {
        return line;
    }
    let (text, _) = line.split_at(line.len() - 1);
    text
}

/// What follows the first empty line, if one ends in these bytes.
pub(crate) fn after_head(bytes: &[u8]) -> Option<&[u8]>
    ensures whole { IfSome result (λ _. list_any is_empty (lines_of bytes.now) ≡ true) }
    ensures rest { IfSome result (λ rest. lines_of rest.now ≡ after_first is_empty (lines_of bytes.now)) }
    ensures none { IfNone result (list_any is_empty (lines_of bytes.now) ≡ false) }
{
    let mut rest = bytes;
    while let Some((line, behind)) = next_line(rest) {
        if line.is_empty() {
            return Some(behind);
        }
        rest = behind;
    }
    None
}
