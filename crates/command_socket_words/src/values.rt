ghost use Rattle.std.specs.Prelude.{◌≡◌};
ghost use Rattle.command_socket_words.specs.Values.{name_in, server_of, server_in, number_in};

use crate::{CommandFault, ServerName};
use lb_types::Name;
use lb_types_text::{Digits, Parts};

/// The name that the word is.
#[tactic(auto, unfolding(crate::specs::Values::name_in))]
pub(crate) fn read_name(word: &[u8]) -> Result<Name, CommandFault>
    ensures { result ≡ name_in word.now }
{
    Name::read(word).map_err(|_| CommandFault::UnknownCommand)
}

/// The server that the word `b/s` names.
#[tactic(auto, unfolding(crate::specs::Values::server_in))]
pub(crate) fn read_server(word: &[u8]) -> Result<ServerName, CommandFault>
    ensures { result ≡ server_in word.now }
{
    let mut names = Parts::new(word, b'/');
    read_names(&mut names).ok_or(CommandFault::UnknownCommand)
}

/// The server that two names say, the backend's first.
#[tactic(auto, unfolding(crate::specs::Values::server_of))]
fn read_names(names: &mut Parts) -> Option<ServerName>
    ensures { result ≡ server_of names.old }
{
    let backend = names.next_part()?;
    let server = names.next_part()?;
    if names.next_part().is_some() {
        return None;
    }
    Some(ServerName {
        backend: Name::read(backend).ok()?,
        server: Name::read(server).ok()?,
    })
}

/// The number that the word's decimal digits say, if 64 bits can hold it.
#[tactic(auto, unfolding(crate::specs::Values::number_in, lb_types_text::specs::Numbers::digits_of))]
pub(crate) fn read_number(word: &[u8]) -> Result<u64, CommandFault>
    ensures { result ≡ number_in word.now }
{
    match Digits::read(word) {
        Digits::Value(number) => Ok(number),
        Digits::Misspelt | Digits::TooLarge => Err(CommandFault::BadNumber),
    }
}
