ghost use Rattle.std.specs.Prelude.{◌≡◌};
ghost use Rattle.lb_config_arguments.specs.Faults.{Gives};
ghost use Rattle.lb_config_keywords.specs.SettingLines.{without_family, socket_address_in, stats_socket_at};

use lb_config_arguments::{Endpoint, LineError, Words, read_listen_endpoint};
use lb_config_words::Word;

/// Where the command socket listens.
#[derive(Debug, Drop)]
pub enum SocketAddress {
    /// A path of the file system.
    Path(Word),
    /// An address and a port.
    Tcp(Endpoint),
}

/// A line `stats socket`.
#[derive(Debug, Drop)]
pub struct StatsSocket {
    /// Where it listens.
    pub address: SocketAddress,
    /// Whether words follow the address. They are ignored, with a warning that names the line's first two words.
    pub has_more: bool,
}

/// The words after `stats socket`.
#[tactic(auto, unfolding(crate::specs::SettingLines::stats_socket_at))]
pub fn read_stats_socket(words: &mut Words) -> Result<StatsSocket, LineError>
    ensures { Gives (λ socket. socket) result (stats_socket_at words.old) }
{
    let word = words.next_word()?;
    let address = read_socket_address(words, word)?;
    let has_more = words.more()?;
    Ok(StatsSocket { address, has_more })
}

#[tactic(auto, unfolding(crate::specs::SettingLines::socket_address_in))]
fn read_socket_address(words: &Words, word: &[u8]) -> Result<SocketAddress, LineError>
    ensures { Gives (λ address. address) result (socket_address_in word.now) }
{
    if word.starts_with(b"/") {
        return Ok(SocketAddress::Path(words.copied(word)?));
    }
    let endpoint = read_listen_endpoint(words, word, without_family(word))?;
    Ok(SocketAddress::Tcp(endpoint))
}

/// The word without `ipv4@` at its front.
#[tactic(auto, unfolding(crate::specs::SettingLines::without_family))]
fn without_family(word: &[u8]) -> &[u8]
    ensures { result.now ≡ without_family word.now }
{
    if !word.starts_with(b"ipv4@") {
        return word;
    }
    let (_, rest) = word.split_at(word.len().min(5));
    rest
}
