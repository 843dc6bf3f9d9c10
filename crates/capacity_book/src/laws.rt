ghost use Rattle.std.specs.Prelude.{◌≡◌, ℕ, ◌+◌, ◌<◌, ◌≤◌, ◌^◌, length};
ghost use Rattle.server_state.specs.Farm.{FarmView};
ghost use Rattle.capacity_book.specs.Book.{BookView, connections_at, fault_by_maxconn, open_fault};

/// At a book that has the farm's servers, a connection is refused only for what the server is and for its `maxconn`, as
/// long as 64 bits count one connection more.
pub fn maxconn_alone_is_the_limit()
    ensures { (book : BookView) (farm : FarmView) (server : ℕ)
        → length farm.servers ≤ length book.connections → connections_at book server + 1 < 2 ^ 64
        → open_fault book farm server ≡ fault_by_maxconn farm server (connections_at book server) }
{}
