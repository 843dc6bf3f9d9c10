//! The table of one word under the rule, and what each of its steps does.
use atomic_table::{Join, Play, Seat, Split, Table, TableRule};
use std::alloc::Global;
use std::collections::LinkedList;

/// What a seat at the table knows. No value of it is made, so its numbers have no limit.
///
/// The keeper knows the history and how many passes there are, and the lists of receipts and the sights that it has in hand. A pass
/// knows one list and the sights of its own.
pub struct View<E> {
    pub keeps: bool,
    pub history: LinkedList<E>,
    pub passes: u64,
    pub lists: LinkedList<LinkedList<(u64, E)>>,
    pub sights: LinkedList<LinkedList<E>>,
}

/// The word is the length of the history.
pub struct Law;

impl<E> TableRule<E, View<E>, ()> for Law {
    ghost use Rattle.std.specs.Prelude.{[]};
    ghost use Rattle.lb_desk_tie.specs.Rule.{Kept, keeper_view};

    ghost holds = { λ _ state. Kept state };

    ghost first = { λ _. keeper_view [] 0 [] [] };
}

/// One pass more.
pub(crate) struct Admit;

impl<E> Split<View<E>> for Admit {
    ghost use Rattle.std.specs.Prelude.{[]};
    ghost use Rattle.lb_desk_tie.specs.Rule.{one_pass_more, pass_view};

    ghost left = { one_pass_more };

    ghost right = { λ _. pass_view [] [] };
}

/// The list and the sights of a pass go into the keeper's hand, and back.
pub(crate) struct Hand;

impl<E> Join<View<E>> for Hand {
    ghost use Rattle.lb_desk_tie.specs.Rule.{in_hand, spent_view};

    ghost both = { in_hand };

    ghost spent = { spent_view };
}

impl<E> Split<View<E>> for Hand {
    ghost use Rattle.lb_desk_tie.specs.Rule.{hand_back, first_pass};

    ghost left = { hand_back };

    ghost right = { first_pass };
}

/// The history gets an entry, and the first list in hand its receipt.
pub(crate) struct Count;

impl<E> Play<E, View<E>> for Count {
    ghost use Rattle.lb_desk_tie.specs.Rule.{Counts};

    ghost then = { Counts };
}

/// The pass in hand sees the history as it is.
pub(crate) struct See;

impl<E> Play<E, View<E>> for See {
    ghost use Rattle.lb_desk_tie.specs.Rule.{Sights};

    ghost then = { Sights };
}

/// The keeper looks at the history with the lists that it has in hand.
pub(crate) struct Look;

impl<E> Play<E, View<E>> for Look {
    ghost use Rattle.lb_desk_tie.specs.Rule.{Looks};

    ghost then = { Looks };
}

pub(crate) type Word<E> = Table<E, View<E>, (), Law, Global>;

pub(crate) type KeeperSeat<E> = Seat<E, View<E>>;
