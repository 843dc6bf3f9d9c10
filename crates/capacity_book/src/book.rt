ghost use Rattle.std.specs.Prelude.{◌≡◌, ◌+◌, ◌-◌, ◌^◌, ◌<◌, true, length, IfOk, OnOk, OnErr};
ghost use Rattle.std.specs.Result.{result_err};
ghost use Rattle.capacity_book.specs.Book.{is_full};

use crate::{CloseFault, OpenFault};
use lb_types::ServerId;
use server_state::Farm;
use std::alloc::{AllocError, Global};
use std::marker::Model;

/// The pins and the open connections of each server.
///
/// Each call but `reload` costs a few machine instructions, and none allocates once the book is made.
#[derive(Debug, Drop)]
pub struct Book {
    pins: Vec<u32>,
    connections: Vec<u64>,
}

impl Model for Book {
    ghost use Rattle.std.specs.Prelude.{◌≡◌, length};
    ghost use Rattle.capacity_book.specs.Book.{BookView};

    ghost Value = { BookView };

    ghost view = { λ b. record { pins = b.pins.items; connections = b.connections.items } };

    ghost invariant = { λ b. length b.pins.items ≡ length b.connections.items };
}

impl Book {
    ghost use Rattle.capacity_book.specs.Book.{empty_book, pins_at, connections_at, has_room};
    ghost use Rattle.capacity_book.specs.Book.{with_pins, with_all_pins, with_connections, open_fault, close_fault};

    /// The book of so many servers, with nothing at them. It takes 12 bytes a server.
    pub fn new(alloc: Global, servers: usize) -> Result<Book, AllocError>
        ensures { IfOk result (λ book. book ≡ empty_book servers) }
    {
        Ok(Book {
            pins: vec![in alloc; 0; servers]?,
            connections: vec![in alloc; 0; servers]?,
        })
    }

    /// How many pins the server holds; 0 for one that isn't in the book.
    pub fn pins(&self, server: ServerId) -> u32
        ensures { result ≡ pins_at self.now server }
    {
        self.pins.get(server.index()).copied().unwrap_or(0)
    }

    /// How many connections are open at the server; 0 for one that isn't in the book.
    pub fn connections(&self, server: ServerId) -> u64
        ensures { result ≡ connections_at self.now server }
    {
        self.connections.get(server.index()).copied().unwrap_or(0)
    }

    /// Whether the server is in the book, and holds fewer pins than its capacity.
    pub fn room(&self, server: ServerId, farm: &Farm) -> bool
        ensures { result ≡ has_room self.now farm.now server }
    {
        match self.pins.get(server.index()) {
            None => false,
            Some(pins) => *pins < farm.capacity(server),
        }
    }

    /// Counts one pin more at a server that has room.
    pub fn place(&mut self, server: ServerId, farm: &Farm)
        requires { has_room self.old farm.now server ≡ true }
        ensures { self.new ≡ with_pins self.old server (pins_at self.old server + 1) }
    {
        let within_capacity = self.pins(server) < farm.capacity(server);
        prove!(within_capacity);
        self.pins[server.index()] += 1;
    }

    /// Counts one pin more at a server of the book, whether or not it has room.
    pub fn add(&mut self, server: ServerId)
        requires is_there { server < length self.old.pins }
        requires fits { pins_at self.old server + 1 < 2 ^ 32 }
        ensures { self.new ≡ with_pins self.old server (pins_at self.old server + 1) }
    {
        self.pins[server.index()] += 1;
    }

    /// Counts one pin fewer at a server that holds one.
    pub fn unplace(&mut self, server: ServerId)
        requires { 0 < pins_at self.old server }
        ensures { self.new ≡ with_pins self.old server (pins_at self.old server - 1) }
    {
        self.pins[server.index()] -= 1;
    }

    /// Counts one connection more at a server that serves and isn't full; else it is refused, and counts nothing.
    ///
    /// A server that isn't in the book doesn't serve. One is full where as many connections are open as its `maxconn`
    /// says, and where that is 0, which sets no limit, as many as 64 bits count.
    pub fn open(&mut self, server: ServerId, farm: &Farm) -> Result<(), OpenFault>
        ensures fault { result_err result ≡ open_fault self.old farm.now server }
        ensures ok { OnOk result
            (self.new ≡ with_connections self.old server (connections_at self.old server + 1)) }
        ensures err { OnErr result (self.new ≡ self.old) }
    {
        if !farm.serving(server) {
            return Err(OpenFault::NotServing);
        }
        let Some(connections) = self.connections.get_mut(server.index()) else {
            return Err(OpenFault::NotServing);
        };
        if is_full(farm.max_connections(server), *connections) {
            return Err(OpenFault::Full);
        }
        *connections += 1;
        Ok(())
    }

    /// Counts one connection fewer at a server; where none is open, it is refused, and counts nothing.
    pub fn close(&mut self, server: ServerId) -> Result<(), CloseFault>
        ensures fault { result_err result ≡ close_fault self.old server }
        ensures ok { OnOk result
            (self.new ≡ with_connections self.old server (connections_at self.old server - 1)) }
        ensures err { OnErr result (self.new ≡ self.old) }
    {
        match self.connections.get_mut(server.index()) {
            Some(connections) if *connections > 0 => {
                *connections -= 1;
                Ok(())
            }
            _ => Err(CloseFault::NotOpen),
        }
    }

    /// Sets how many pins each server holds, in the configuration's order: one number for each server of the book.
    pub fn reload(&mut self, loads: &[u32])
        requires { length loads.now ≡ length self.old.pins }
        ensures { self.new ≡ with_all_pins self.old loads.now }
    {
        self.pins.copy_from_slice(loads);
    }
}

/// Whether no connection more may be open at a server with this `maxconn`.
fn is_full(maxconn: u32, connections: u64) -> bool
    ensures { result ≡ is_full maxconn connections }
{
    match maxconn {
        0 => connections == u64::MAX,
        limit => connections >= u64::from(limit),
    }
}
