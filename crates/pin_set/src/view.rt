use crate::Pin;
use lb_types::{Name, ServerSet};
use std::marker::Model;

/// A server as a view lists it, usable or not.
#[derive(Clone, Copy, Debug, PartialEq, Eq)]
pub struct ViewServer {
    pub name: Name,
    /// How many pins the server may hold.
    pub capacity: u32,
}

/// What decides which assignments of a backend's pins are best: the usable servers, each server's name and capacity, and
/// the pins with their places and costs.
///
/// A view has at most 128 servers and at most 16777216 pins, each with a name of its own.
#[derive(Debug, Drop)]
pub struct View {
    usable: ServerSet,
    servers: Vec<ViewServer>,
    pins: Vec<Pin>,
}

impl Model for View {
    ghost use Rattle.pin_set.specs.Views.{ViewParts, IsView, view_of_parts};

    ghost Value = { ViewParts };

    ghost view = { λ v. view_of_parts v.usable v.servers.items v.pins.items };

    ghost invariant = { λ v. IsView (view_of_parts v.usable v.servers.items v.pins.items) };
}

impl View {
    ghost use Rattle.std.specs.Prelude.{◌≡◌};
    ghost use Rattle.pin_set.specs.Views.{IsView, view_of_parts};

    /// The view of these parts, which allocates nothing. The servers are in the configuration's order, and the pins in
    /// order of last use, the one that was used last at the end.
    pub fn new(usable: ServerSet, servers: Vec<ViewServer>, pins: Vec<Pin>) -> Self
        requires { IsView (view_of_parts usable servers.items pins.items) }
        ensures { result ≡ view_of_parts usable servers.items pins.items }
    {
        View {
            usable,
            servers,
            pins,
        }
    }

    /// The servers that pins may go to.
    pub fn usable(&self) -> ServerSet
        ensures exact { result ≡ self.now.usable }
        ensures lawful { IsView self.now }
    {
        self.usable
    }

    /// Every server, in the configuration's order.
    pub fn servers(&self) -> &[ViewServer]
        ensures exact { result.now ≡ self.now.servers }
        ensures lawful { IsView self.now }
    {
        &self.servers
    }

    /// The pins, in order of last use.
    pub fn pins(&self) -> &[Pin]
        ensures exact { result.now ≡ self.now.pins }
        ensures lawful { IsView self.now }
    {
        &self.pins
    }
}
