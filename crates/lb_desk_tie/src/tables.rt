use std::marker::Brand;

/// Which table the keeper of each number, and its passes, belong to. A program picks it at one call, of `Brand`.
pub trait Tables {
    ghost use Rattle.std.specs.Prelude.{ℕ};
    ghost use Rattle.atomic_table.specs.Seated.{TableId};

    ghost table_of: { ℕ → TableId };
}

impl Tables for Brand {
    ghost use Rattle.lb_desk_tie.specs.Rule.{no_table};

    ghost table_of = { λ _. no_table };
}
