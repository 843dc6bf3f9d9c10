ghost use Rattle.std.specs.Prelude.{◌≡◌, [], ◌∷◌, drop, IfSome, IfNone};
ghost use Rattle.lb_config_words.specs.declared.piece.Piece.TheVariants.{Mark, Letter, Broken};
ghost use Rattle.lb_config_words.specs.declared.piece.Quoting.TheVariants as In;
ghost use Rattle.lb_config_words.specs.Pieces.{is_escapable, closes_single, closes_double, pieces, escaped, opened};
ghost use Rattle.lb_config_words.specs.TakenPieces.{Takes, TakesOne};

use crate::SpellingFault;
use std::marker::Model;

/// What one or two bytes of a line stand for.
#[derive(Clone, Copy, Debug, PartialEq, Eq)]
pub(crate) enum Piece {
    /// A blank outside quotes.
    Gap,
    /// A quote that opens or closes. It adds nothing to a word, but where it stands is a word.
    Mark,
    /// A byte of a word.
    Letter(u8),
    /// The spelling breaks here.
    Broken(SpellingFault),
}

impl Piece {
    ghost use Rattle.lb_config_words.specs.Words.{is_gap};

    /// Whether this is a blank outside quotes.
    pub(crate) fn is_gap(self) -> bool
        ensures { result ≡ is_gap self }
    {
        matches!(self, Piece::Gap)
    }
}

/// In which quotes a place of a line stands.
#[derive(Clone, Copy, Debug, PartialEq, Eq)]
pub(crate) enum Quoting {
    /// Outside quotes.
    Plain,
    /// In single quotes, where nothing is special.
    Single,
    /// In double quotes, where a backslash and a `$` are.
    Double,
}

/// The pieces of a line, one after another. As a value it is the list of the pieces not yet given.
#[derive(Debug, Drop)]
pub(crate) struct Pieces<'a> {
    quoting: Quoting,
    rest: &'a [u8],
}

impl<'a> Model for Pieces<'a> {
    ghost use Rattle.std.specs.Prelude.{List};
    ghost use Rattle.lb_config_words.specs.declared.piece.Piece.{Piece};
    ghost use Rattle.lb_config_words.specs.Pieces.{pieces};

    ghost Value = { List Piece };

    ghost view = { λ p. pieces p.quoting p.rest.now };
}

/// A piece, and the place after it.
#[derive(Debug, Drop)]
struct Taken<'a> {
    piece: Piece,
    quoting: Quoting,
    rest: &'a [u8],
}

impl<'a> Pieces<'a> {
    /// All pieces of a line without its end.
    pub(crate) fn new(line: &'a [u8]) -> Self
        ensures { result ≡ pieces In.Plain line.now }
    {
        Pieces {
            quoting: Quoting::Plain,
            rest: line,
        }
    }

    /// The next piece, or none once all were given.
    #[tactic(auto, unfolding(crate::specs::Pieces::pieces))]
    pub(crate) fn next_piece(&mut self) -> Option<Piece>
        ensures first { IfSome result (λ piece. self.old ≡ piece ∷ self.new) }
        ensures none { IfNone result ((self.old ≡ []) × (self.new ≡ [])) }
    {
        match take_piece(self.quoting, self.rest) {
            Some(taken) => {
                self.quoting = taken.quoting;
                self.rest = taken.rest;
                Some(taken.piece)
            }
            None => {
                *self = Pieces::new(b"");
                None
            }
        }
    }
}

/// The first piece of these bytes, or none where there are none left or a comment begins.
#[tactic(auto, unfolding(crate::specs::Pieces::pieces))]
fn take_piece(quoting: Quoting, bytes: &[u8]) -> Option<Taken<'_>>
    ensures { Takes result (pieces quoting bytes.now) }
{
    let (byte, rest) = bytes.split_first()?;
    match quoting {
        Quoting::Plain => in_plain(*byte, rest),
        Quoting::Single => Some(in_single(*byte, rest)),
        Quoting::Double => Some(in_double(*byte, rest)),
    }
}

/// What a byte outside quotes stands for.
#[tactic(auto, unfolding(crate::specs::Pieces::pieces))]
fn in_plain(byte: u8, rest: &[u8]) -> Option<Taken<'_>>
    ensures { Takes result (pieces In.Plain (byte ∷ rest.now)) }
{
    match byte {
        b' ' | b'\t' => Some(Taken {
            piece: Piece::Gap,
            quoting: Quoting::Plain,
            rest,
        }),
        b'#' => None,
        b'\'' => Some(opened(closes_single(rest), Quoting::Single, rest)),
        b'"' => Some(opened(closes_double(rest), Quoting::Double, rest)),
        b'\\' => Some(escaped(Quoting::Plain, rest)),
        _ => Some(letter(byte, Quoting::Plain, rest)),
    }
}

/// What a byte in single quotes stands for.
#[tactic(auto, unfolding(crate::specs::Pieces::pieces))]
fn in_single(byte: u8, rest: &[u8]) -> Taken<'_>
    ensures { TakesOne result (pieces In.Single (byte ∷ rest.now)) }
{
    if byte == b'\'' {
        mark(Quoting::Plain, rest)
    } else {
        letter(byte, Quoting::Single, rest)
    }
}

/// What a byte in double quotes stands for.
#[tactic(auto, unfolding(crate::specs::Pieces::pieces))]
fn in_double(byte: u8, rest: &[u8]) -> Taken<'_>
    ensures { TakesOne result (pieces In.Double (byte ∷ rest.now)) }
{
    match byte {
        b'"' => mark(Quoting::Plain, rest),
        b'$' => broken(SpellingFault::RefusedDollar),
        b'\\' => escaped(Quoting::Double, rest),
        _ => letter(byte, Quoting::Double, rest),
    }
}

/// What follows a backslash.
#[tactic(auto, unfolding(crate::specs::Pieces::escaped))]
fn escaped(quoting: Quoting, bytes: &[u8]) -> Taken<'_>
    ensures { TakesOne result (escaped quoting bytes.now) }
{
    match bytes.split_first() {
        Some((byte, rest)) if is_escapable(*byte) => letter(*byte, quoting, rest),
        _ => broken(SpellingFault::RefusedBackslash),
    }
}

fn is_escapable(byte: u8) -> bool
    ensures { result ≡ is_escapable byte }
{
    matches!(byte, b' ' | b'#' | b'\\' | b'\'' | b'"' | b'$')
}

/// The mark that opens a quote, if the quote is closed.
fn opened(is_closed: bool, quoting: Quoting, rest: &[u8]) -> Taken<'_>
    ensures { TakesOne result (opened is_closed (pieces quoting rest.now)) }
{
    if is_closed {
        mark(quoting, rest)
    } else {
        broken(SpellingFault::UnclosedQuote)
    }
}

fn mark(quoting: Quoting, rest: &[u8]) -> Taken<'_>
    ensures { TakesOne result (Mark ∷ pieces quoting rest.now) }
{
    Taken {
        piece: Piece::Mark,
        quoting,
        rest,
    }
}

fn letter(byte: u8, quoting: Quoting, rest: &[u8]) -> Taken<'_>
    ensures { TakesOne result (Letter byte ∷ pieces quoting rest.now) }
{
    Taken {
        piece: Piece::Letter(byte),
        quoting,
        rest,
    }
}

/// Nothing follows a fault.
#[tactic(auto, unfolding(crate::specs::Pieces::pieces))]
fn broken<'a>(fault: SpellingFault) -> Taken<'a>
    ensures { TakesOne result (Broken fault ∷ []) }
{
    Taken {
        piece: Piece::Broken(fault),
        quoting: Quoting::Plain,
        rest: b"",
    }
}

/// Whether a single quote is in the bytes.
fn closes_single(bytes: &[u8]) -> bool
    ensures { result ≡ closes_single bytes.now }
{
    bytes.contains(&b'\'')
}

/// Whether a double quote is in the bytes, and no backslash before it.
#[tactic(auto, unfolding(crate::specs::Pieces::closes_double), using(crate::proofs::Quotes::closes_behind_one))]
fn closes_double(bytes: &[u8]) -> bool
    ensures { result ≡ closes_double bytes.now }
{
    let mut rest = bytes;
    while let Some((byte, behind)) = rest.split_first() {
        rest = match byte {
            b'"' => return true,
            b'\\' => without_first(behind),
            _ => behind,
        };
    }
    false
}

/// The bytes without the first one.
fn without_first(bytes: &[u8]) -> &[u8]
    ensures { result.now ≡ drop 1 bytes.now }
{
    match bytes.split_first() {
        Some((_, rest)) => rest,
        None => bytes,
    }
}
