ghost use Rattle.std.specs.Prelude.{◌≡◌, nat_eq};
ghost use mathlib.Core.Path.{refl};
ghost use Rattle.std.specs.Cmp.{partial_equiv_from_equiv};
ghost use Rattle.std.specs.Cmp.Lexicographic.{pointwise, slice_cmp, nat_list_cmp_total, nat_list_eq_equiv, texts_po, texts_ties};
ghost use Rattle.std.specs.Ordering.{as_partial_cmp, nat_cmp};

use lb_types::Name;
use std::cmp::Ordering;
use std::marker::Model;

/// A name in the order of its bytes.
#[derive(Drop)]
pub(crate) struct OrderedName {
    name: Name,
}

impl Model for OrderedName {
    ghost use Rattle.std.specs.Prelude.{List, ℕ};

    ghost Value = { List ℕ };

    ghost view = { λ ordered. ordered.name };
}

impl OrderedName {
    pub(crate) fn new(name: Name) -> Self
        ensures { result ≡ name }
    {
        OrderedName { name }
    }
}

impl PartialEq for OrderedName {
    ghost eq = { pointwise nat_eq };

    ghost laws = { partial_equiv_from_equiv nat_list_eq_equiv };

    fn eq(&self, other: &OrderedName) -> bool {
        self.name == other.name
    }
}

impl Eq for OrderedName {
    ghost laws = { nat_list_eq_equiv };
}

impl PartialOrd for OrderedName {
    ghost partial_cmp = { as_partial_cmp (slice_cmp nat_cmp) };

    ghost laws = { texts_po };

    fn partial_cmp(&self, other: &OrderedName) -> Option<Ordering> {
        Some(self.cmp(other))
    }
}

impl Ord for OrderedName {
    ghost cmp = { slice_cmp nat_cmp };

    ghost total = { nat_list_cmp_total };

    ghost matches_partial_cmp = { λ x y. refl };

    ghost matches_eq = { texts_ties };

    fn cmp(&self, other: &OrderedName) -> Ordering {
        self.name.as_bytes().cmp(other.name.as_bytes())
    }
}
