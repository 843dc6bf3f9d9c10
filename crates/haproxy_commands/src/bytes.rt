ghost use Rattle.std.specs.Prelude.{◌≡◌, position};
ghost use Rattle.std.specs.List.{list_all};
ghost use Rattle.haproxy_commands.specs.Names.{is_table_name, is_name_byte, can_be_named, can_stand, is_unnamed};
ghost use Rattle.haproxy_commands.specs.Writing.{needs_backslash};

use crate::Move;

/// Whether a command can have the bytes as a table's name, each byte as it is.
pub(crate) fn is_table_name(name: &[u8]) -> bool
    ensures { result ≡ is_table_name name.now }
{
    !name.is_empty() && are_name_bytes(name)
}

fn are_name_bytes(name: &[u8]) -> bool
    ensures { result ≡ list_all is_name_byte name.now }
{
    name.iter().all(|byte| is_name_byte(*byte))
}

fn is_name_byte(byte: u8) -> bool
    ensures { result ≡ is_name_byte byte }
{
    byte.is_ascii_alphanumeric() || byte == b'-' || byte == b'_' || byte == b'.' || byte == b':'
}

/// The place of the first move whose key can't be named in a command.
pub(crate) fn first_unnamed(moves: &[Move<'_>]) -> Option<usize>
    ensures { result ≡ position is_unnamed moves.now }
{
    moves.iter().position(|entry| !can_be_named(entry.key))
}

/// Whether a command can name the key.
fn can_be_named(key: &[u8]) -> bool
    ensures { result ≡ can_be_named key.now }
{
    !key.is_empty() && can_all_stand(key)
}

fn can_all_stand(key: &[u8]) -> bool
    ensures { result ≡ list_all can_stand key.now }
{
    key.iter().all(|byte| can_stand(*byte))
}

fn can_stand(byte: u8) -> bool
    ensures { result ≡ can_stand byte }
{
    byte != 0 && byte != b'\n' && byte != b'\r'
}

/// Whether the byte has a meaning of its own in a command, unless a backslash stands before it.
pub(crate) fn needs_backslash(byte: u8) -> bool
    ensures { result ≡ needs_backslash byte }
{
    byte == b'\\' || byte == b' ' || byte == b';' || byte == b'\t' || byte == b'<'
}
