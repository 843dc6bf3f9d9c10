ghost use Rattle.std.specs.Prelude.{◌≡◌, IfOk, length, take};
ghost use Rattle.std.specs.Option.{option_copied};
ghost use Rattle.lb_script.specs.Requests.{asked_key, key_in, key_of_type};

use crate::words::is;
use lb_acl::TableType;
use lb_config_arguments::read_ipv4;
use lb_config_parameters::StickTable;
use pin_set::{KeyText, PinKey};
use std::alloc::{AllocError, Global};

/// What the word asks with: a key of the table's type, or no key. None where it is no key of that type.
#[tactic(auto, unfolding(crate::specs::Requests::asked_key))]
pub(crate) fn read_key(
    alloc: Global,
    table: Option<&StickTable>,
    word: &[u8],
) -> Result<Option<Option<PinKey>>, AllocError>
    ensures { IfOk result (λ key. key ≡ asked_key (option_copied table.entry) word.now) }
{
    if is(word, b"-") {
        return Ok(Some(None));
    }
    if word.is_empty() {
        return Ok(None);
    }
    Ok(key_in(alloc, table, word)?.map(Some))
}

/// The key that the word is for a backend with this table.
fn key_in(
    alloc: Global,
    table: Option<&StickTable>,
    word: &[u8],
) -> Result<Option<PinKey>, AllocError>
    ensures { IfOk result (λ key. key ≡ key_in (option_copied table.entry) word.now) }
{
    match table {
        None => Ok(Some(PinKey::Text(KeyText::copied_from(alloc, word)?))),
        Some(table) => key_of_type(alloc, table.kind(), word),
    }
}

/// The key that the word is in a table of the type.
fn key_of_type(alloc: Global, kind: TableType, word: &[u8]) -> Result<Option<PinKey>, AllocError>
    ensures { IfOk result (λ key. key ≡ key_of_type kind word.now) }
{
    match kind {
        TableType::Ip => Ok(read_ipv4(word).map(PinKey::Ipv4)),
        TableType::Text(len) => {
            let kept = front(word, len.get());
            Ok(Some(PinKey::Text(KeyText::copied_from(alloc, kept)?)))
        }
    }
}

/// The first bytes, at most `len`.
fn front(word: &[u8], len: usize) -> &[u8]
    ensures { result.now ≡ take len word.now }
{
    let (kept, _) = word.split_at(len.min(word.len()));
    kept
}
