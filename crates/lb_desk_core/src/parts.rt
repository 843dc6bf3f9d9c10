use capacity_book::Book;
use lb_desk_model::Stand;
use lb_types::{Balance, Moment, Name, TableSettings};
use pin_table::Table;
use server_state::Farm;
use std::hash::BuildHasher;
use std::marker::Model;

/// What a core keeps. Between what an event does and the count of the version it need not be what a history leads to.
#[derive(Drop)]
pub(crate) struct Parts<S: BuildHasher> {
    pub(crate) balance: Balance,
    pub(crate) settings: Option<TableSettings>,
    pub(crate) names: Vec<Name>,
    pub(crate) farm: Farm,
    pub(crate) book: Book,
    pub(crate) table: Table<S>,
    pub(crate) cursor: Option<Stand>,
    pub(crate) latest: Moment,
}

impl<S: BuildHasher> Model for Parts<S> {
    ghost use Rattle.lb_desk_core.specs.Core.{CoreView};
    ghost use Rattle.lb_desk_core.specs.Parts.{AgreeParts, shown_of};

    ghost Value = { CoreView };

    ghost view = { λ p. record {
      shown = shown_of p.balance p.settings p.names.items p.farm p.book p.table p.cursor p.latest;
      uses = p.table.uses;
    } };

    ghost invariant = { λ p. AgreeParts p.settings p.names.items p.book p.table };
}
