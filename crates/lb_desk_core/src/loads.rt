ghost use Rattle.std.specs.Prelude.{◌≡◌, ◌+◌, ◌^◌, ℕ, ◌<◌, ◌≤◌, Some, length};
ghost use Rattle.std.specs.Option.{ForSome};
ghost use Rattle.capacity_book.specs.Book.{pins_at};
ghost use Rattle.server_state.specs.Farm.{capacity_of};
ghost use Rattle.lb_desk_pick.specs.Walks.{pins_without};
ghost use Rattle.lb_desk_core.specs.Requests.{one_at};

use capacity_book::Book;
use lb_types::{Place, ServerId};
use server_state::Farm;

/// Counts a pin that leaves this place and comes to that server, which has room for it.
pub(crate) fn shift(book: &mut Book, farm: &Farm, from: Place, to: ServerId)
    requires held { ForSome from (λ server. 0 < pins_at book.old server) }
    requires is_there { to < length book.old.pins }
    requires room { pins_without book.old from to < capacity_of farm.now to }
    ensures pins { (server : ℕ) → pins_at book.new server + one_at from server
        ≡ pins_at book.old server + one_at (Some to) server }
    ensures many { length book.new.pins ≡ length book.old.pins }
    ensures connections { book.new.connections ≡ book.old.connections }
{
    leave(book, from);
    book.place(to, farm);
}

/// Counts a pin that leaves this place and comes to that server, whether or not it has room for it.
pub(crate) fn send(book: &mut Book, from: Place, to: ServerId)
    requires held { ForSome from (λ server. 0 < pins_at book.old server) }
    requires is_there { to < length book.old.pins }
    requires fits { pins_without book.old from to + 1 < 2 ^ 32 }
    ensures pins { (server : ℕ) → pins_at book.new server + one_at from server
        ≡ pins_at book.old server + one_at (Some to) server }
    ensures many { length book.new.pins ≡ length book.old.pins }
    ensures connections { book.new.connections ≡ book.old.connections }
{
    leave(book, from);
    book.add(to);
}

/// Counts a pin that leaves this place.
pub(crate) fn leave(book: &mut Book, from: Place)
    requires { ForSome from (λ server. 0 < pins_at book.old server) }
    ensures pins { (server : ℕ) → pins_at book.new server ≡ pins_without book.old from server }
    ensures held { (server : ℕ) → one_at from server ≤ pins_at book.old server }
    ensures many { length book.new.pins ≡ length book.old.pins }
    ensures connections { book.new.connections ≡ book.old.connections }
{
    if let Some(server) = from {
        book.unplace(server);
    }
}
