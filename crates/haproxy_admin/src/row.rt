ghost use Rattle.std.specs.Prelude.{◌≡◌, IfOk};
ghost use Rattle.lb_types_text.specs.Parts.{parts};
ghost use Rattle.haproxy_admin.specs.Columns.{has_column, has_enough, names_servers, names_states, word_at};
ghost use Rattle.haproxy_admin.specs.Rows.{server_of, takes_clients};

use crate::bytes::{Bytes, is_same};
use crate::fields::number_of;
use lb_types_text::Parts;
use std::alloc::{AllocError, Global};

/// A server of a backend.
#[derive(Debug, Drop)]
pub struct Server {
    /// Its number (`srv_id`).
    pub number: u64,
    /// Its name (`srv_name`).
    pub name: Bytes,
    /// Whether it is up, in no state that an operator or the configuration set, and of a weight above 0.
    pub is_on: bool,
}

/// Whether columns name the servers.
#[tactic(auto, unfolding(crate::specs::Columns::names_servers))]
pub(crate) fn names_servers(columns: &[u8]) -> bool
    ensures { result ≡ names_servers (parts 32 columns.now) }
{
    has_column(b"be_name", columns)
        && has_column(b"srv_id", columns)
        && has_column(b"srv_name", columns)
}

/// Whether columns say what state the servers are in.
#[tactic(auto, unfolding(crate::specs::Columns::names_states))]
pub(crate) fn names_states(columns: &[u8]) -> bool
    ensures { result ≡ names_states (parts 32 columns.now) }
{
    has_column(b"srv_op_state", columns)
        && has_column(b"srv_admin_state", columns)
        && has_column(b"srv_uweight", columns)
}

/// Whether a column has this name.
#[tactic(auto, using(crate::proofs::Columns::column_later, crate::proofs::Columns::no_column))]
fn has_column(name: &[u8], columns: &[u8]) -> bool
    ensures { result ≡ has_column name.now (parts 32 columns.now) }
{
    let mut names = Parts::new(columns, b' ');
    while let Some(column) = names.next_part() {
        if is_same(column, name) {
            return true;
        }
    }
    false
}

/// Whether the line has a word for each column.
#[tactic(auto, using(crate::proofs::Columns::enough))]
pub(crate) fn has_enough(columns: &[u8], line: &[u8]) -> bool
    ensures { result ≡ has_enough (parts 32 columns.now) (parts 32 line.now) }
{
    let mut names = Parts::new(columns, b' ');
    let mut words = Parts::new(line, b' ');
    while let Some(_column) = names.next_part() {
        let Some(_word) = words.next_part() else {
            return false;
        };
    }
    true
}

/// The word of the line in the column of this name.
#[tactic(auto, using(crate::proofs::Columns::no_name))]
pub(crate) fn word_at<'a>(name: &[u8], columns: &[u8], line: &'a [u8]) -> &'a [u8]
    ensures { result.now ≡ word_at name.now (parts 32 columns.now) (parts 32 line.now) }
{
    let mut names = Parts::new(columns, b' ');
    let mut words = Parts::new(line, b' ');
    while let Some(column) = names.next_part() {
        let Some(word) = words.next_part() else {
            return &[];
        };
        if is_same(column, name) {
            return word;
        }
    }
    &[]
}

/// The server that the line is, or none.
#[tactic(auto, unfolding(crate::specs::Rows::server_of))]
pub(crate) fn read_server(
    alloc: Global,
    columns: &[u8],
    line: &[u8],
) -> Result<Option<Server>, AllocError>
    ensures { IfOk result (λ server. server ≡ server_of (parts 32 columns.now) (parts 32 line.now)) }
{
    let Some(number) = number_of(word_at(b"srv_id", columns, line)) else {
        return Ok(None);
    };
    let name = Bytes::copied_from(alloc, word_at(b"srv_name", columns, line))?;
    Ok(Some(Server {
        number,
        name,
        is_on: takes_clients(columns, line),
    }))
}

/// Whether the server of the line takes clients.
#[tactic(auto, unfolding(crate::specs::Rows::takes_clients))]
fn takes_clients(columns: &[u8], line: &[u8]) -> bool
    ensures { result ≡ takes_clients (parts 32 columns.now) (parts 32 line.now) }
{
    if word_at(b"srv_op_state", columns, line) != b"2".as_slice() {
        return false;
    }
    if word_at(b"srv_admin_state", columns, line) != b"0".as_slice() {
        return false;
    }
    word_at(b"srv_uweight", columns, line) != b"0".as_slice()
}
