ghost use Rattle.std.specs.Prelude.{◌≡◌, ◌≤◌, length};
ghost use Rattle.std.specs.Option.{option_copied};
ghost use Rattle.lb_config_arguments.specs.Faults.{Gives};
ghost use Rattle.lb_config_arguments.specs.Addresses.{octet_of, ipv4_of, server_host, listen_host, port_len, host_part, port_part, port_in, endpoint_of, server_endpoint_in, listen_endpoint_in};

use crate::{Fault, LineError, Words, is, read_number};
use lb_types_text::{Parts, numeral};
use std::net::Ipv4Addr;

/// The greatest port: TCP has 16 bits for it (RFC 9293, section 3.1).
pub const MAX_PORT: u64 = 65_535;

/// An IPv4 address and a port.
#[derive(Clone, Copy, Debug, PartialEq, Eq)]
pub struct Endpoint {
    /// The address. `0.0.0.0` stands for all addresses of the host.
    pub address: Ipv4Addr,
    /// 1 to `MAX_PORT`.
    pub port: u16,
}

/// The endpoint of a server: IPv4 or `localhost`, and a port.
#[tactic(auto, unfolding(crate::specs::Addresses::server_endpoint_in))]
pub fn read_server_endpoint(words: &Words, word: &[u8]) -> Result<Endpoint, LineError>
    ensures { Gives (λ endpoint. endpoint) result (server_endpoint_in word.now) }
{
    endpoint_at(words, word, server_host(host_part(word)), port_part(word))
}

/// The endpoint that `text` names: `*`, nothing, IPv4 or `localhost`, and a port. If the address is refused, the fault names `word`.
#[tactic(auto, unfolding(crate::specs::Addresses::listen_endpoint_in))]
pub fn read_listen_endpoint(words: &Words, word: &[u8], text: &[u8]) -> Result<Endpoint, LineError>
    ensures { Gives (λ endpoint. endpoint) result (listen_endpoint_in word.now text.now) }
{
    endpoint_at(words, word, listen_host(host_part(text)), port_part(text))
}

#[tactic(auto, unfolding(crate::specs::Addresses::endpoint_of))]
fn endpoint_at(
    words: &Words,
    word: &[u8],
    address: Option<Ipv4Addr>,
    port: Option<&[u8]>,
) -> Result<Endpoint, LineError>
    ensures { Gives (λ endpoint. endpoint) result (endpoint_of word.now address (option_copied port.entry)) }
{
    let Some(address) = address else {
        return Err(Fault::LeftOut(words.copied(word)?).into());
    };
    let port = read_port(port)?;
    Ok(Endpoint { address, port })
}

#[tactic(auto, unfolding(crate::specs::Addresses::port_in))]
fn read_port(word: Option<&[u8]>) -> Result<u16, Fault>
    ensures { result ≡ port_in (option_copied word.entry) }
{
    let Some(word) = word else {
        return Err(Fault::Missing);
    };
    if word.is_empty() {
        return Err(Fault::Missing);
    }
    let port = read_number(1, MAX_PORT, word)?;
    Ok(port as u16)
}

/// The address that the text writes: four numbers up to 255 without leading zeros, joined by dots.
#[tactic(auto, unfolding(crate::specs::Addresses::ipv4_of))]
pub fn read_ipv4(text: &[u8]) -> Option<Ipv4Addr>
    ensures { result ≡ ipv4_of text.now }
{
    let mut parts = Parts::new(text, b'.');
    let a = parts.next_part()?;
    let b = parts.next_part()?;
    let c = parts.next_part()?;
    let d = parts.next_part()?;
    if parts.next_part().is_some() {
        return None;
    }
    Some(Ipv4Addr::new(octet(a)?, octet(b)?, octet(c)?, octet(d)?))
}

#[tactic(auto, unfolding(crate::specs::Addresses::octet_of))]
fn octet(word: &[u8]) -> Option<u8>
    ensures { result ≡ octet_of word.now }
{
    let number = numeral(word)?;
    if number > 255 {
        return None;
    }
    Some(number as u8)
}

#[tactic(auto, unfolding(crate::specs::Addresses::server_host))]
fn server_host(host: &[u8]) -> Option<Ipv4Addr>
    ensures { result ≡ server_host host.now }
{
    if is(host, b"localhost") {
        return Some(Ipv4Addr::new(127, 0, 0, 1));
    }
    read_ipv4(host)
}

#[tactic(auto, unfolding(crate::specs::Addresses::listen_host))]
fn listen_host(host: &[u8]) -> Option<Ipv4Addr>
    ensures { result ≡ listen_host host.now }
{
    if host.is_empty() || is(host, b"*") {
        return Some(Ipv4Addr::new(0, 0, 0, 0));
    }
    server_host(host)
}

#[tactic(auto, unfolding(crate::specs::Addresses::host_part))]
fn host_part(word: &[u8]) -> &[u8]
    ensures { result.now ≡ host_part word.now }
{
    let behind = port_len(word);
    if behind >= word.len() {
        return word;
    }
    let (host, _) = word.split_at(word.len() - behind - 1);
    host
}

#[tactic(auto, unfolding(crate::specs::Addresses::port_part))]
fn port_part(word: &[u8]) -> Option<&[u8]>
    ensures { option_copied result ≡ port_part word.now }
{
    let behind = port_len(word);
    if behind >= word.len() {
        return None;
    }
    let (_, port) = word.split_at(word.len() - behind);
    Some(port)
}

/// How many bytes follow the last colon; all of them if there is none.
fn port_len(word: &[u8]) -> usize
    ensures exact { result ≡ port_len word.now }
    ensures within { result ≤ length word.now }
{
    let mut end = word.len();
    while end > 0 && word[end - 1] != b':' {
        end -= 1;
    }
    word.len() - end
}
