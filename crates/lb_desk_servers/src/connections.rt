ghost use Rattle.std.specs.Prelude.{◌≡◌, ◌+◌, ◌<◌, ◌^◌, length, sum};
ghost use Rattle.server_state.specs.Farm.{FarmView};
ghost use Rattle.capacity_book.specs.Book.{connections_at};
ghost use Rattle.lb_desk_servers.specs.Shown.{StepsAtBook, closed, opened};

use crate::replies::{close_reply, open_reply};
use capacity_book::{Book, maxconn_alone_is_the_limit};
use lb_desk_model::{Event, Reply};
use lb_types::ServerId;
use server_state::Farm;

/// One connection more at the server, unless it doesn't serve or is full.
///
/// It costs a few machine instructions.
pub fn open_connection(farm: &Farm, book: &mut Book, server: ServerId) -> Reply
    requires { connections_at book.old server + 1 < 2 ^ 64 }
    ensures steps { StepsAtBook farm.now book.old (Event.Open server) result book.new }

    // What no reply shows: the loads stay, and so many connections are open.
    ensures loads { book.new.pins ≡ book.old.pins }
    ensures many { length book.new.connections ≡ length book.old.connections }
    ensures total { sum book.new.connections ≡ sum book.old.connections + opened result }
{
    maxconn_alone_is_the_limit();
    open_reply(book.open(server, farm))
}

/// One connection fewer at the server, if one is open there.
///
/// It costs a few machine instructions.
pub fn close_connection(book: &mut Book, server: ServerId) -> Reply
    ensures steps { (farm : FarmView)
        → StepsAtBook farm book.old (Event.Close server) result book.new }

    // What no reply shows: the loads stay, and so many connections are open.
    ensures loads { book.new.pins ≡ book.old.pins }
    ensures many { length book.new.connections ≡ length book.old.connections }
    ensures total { sum book.new.connections + closed result ≡ sum book.old.connections }
{
    close_reply(book.close(server))
}
