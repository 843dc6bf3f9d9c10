use lb_desk_tie::Tables;
use std::marker::Brand;

/// Which table of receipts the desk of each number has, which backend it opened with, and how many entries its journal keeps at
/// most. A program picks all three at one call, of `Brand`.
pub trait Naming: Tables {
    ghost use Rattle.std.specs.Prelude.{ℕ};
    ghost use Rattle.lb_desk_model.specs.Backends.{BackendParts};

    ghost opening: { ℕ → BackendParts };

    ghost journal_size: { ℕ → ℕ };
}

impl Naming for Brand {
    ghost use Rattle.lb_desk_model.specs.Backends.{no_backend};

    ghost opening = { λ _. no_backend };

    ghost journal_size = { λ _. 0 };
}
