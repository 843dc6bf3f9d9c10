ghost use Rattle.std.specs.Prelude.{◌≡◌, None};
ghost use Rattle.lb_types.specs.Servers.{has};
ghost use Rattle.lb_desk_model.specs.Serves.{pick, pin_pick, loose_pick, staying};
ghost use Rattle.lb_desk_pick.specs.Sights.{ForEachSeen, lost_place};
ghost use Rattle.lb_desk_pick.specs.Walks.{HaveWeights};

use crate::balancing::{balanced, taken_in_place};
use crate::candidates::with_room_for_a_pin;
use crate::pick::Pick;
use crate::servers::{first_in, set_of};
use capacity_book::Book;
use lb_desk_model::Stand;
use lb_types::{Balance, Place, ServerId, ServerSet};
use pin_set::permitted;
use server_state::Farm;

/// The server that a pin gets, and the cursor after it; none if no permitted server has room for the pin.
///
/// `rules` are the servers that the request's rules name, in the rules' order. `lost` is the place of the pin that leaves
/// the table when this one is made, or nowhere if none leaves: one pin at `lost` isn't counted.
///
/// It allocates nothing, and looks at each server and at each rule at most three times.
pub fn pin_pick(
    balance: Balance,
    farm: &Farm,
    book: &Book,
    rules: &[ServerId],
    cursor: Option<Stand>,
    lost: Place,
) -> Option<Pick>
    ensures moved { lost ≡ None → ForEachSeen balance farm.now book.now cursor rules.now
        (λ state request. result ≡ pin_pick state request state.pins) }
    ensures made { ForEachSeen balance farm.now book.now cursor rules.now
        (λ state request. lost_place state ≡ lost → result ≡ pin_pick state request (staying state)) }
{
    let permitted = permitted(set_of(rules), farm.usable());
    let candidates = with_room_for_a_pin(farm, book, permitted, &lost);
    pick(balance, farm, book, rules, cursor, candidates)
}

/// The server that a request without a pin gets, and the cursor after it; none where no server is permitted.
///
/// `rules` are the servers that the request's rules name, in the rules' order. It allocates nothing, and looks at each
/// server at most twice, and at each rule at most three times.
pub fn loose_pick(
    balance: Balance,
    farm: &Farm,
    book: &Book,
    rules: &[ServerId],
    cursor: Option<Stand>,
) -> Option<Pick>
    ensures { ForEachSeen balance farm.now book.now cursor rules.now
        (λ state request. result ≡ loose_pick state request) }
{
    let permitted = permitted(set_of(rules), farm.usable());
    pick(balance, farm, book, rules, cursor, permitted)
}

/// The first candidate that the rules name, where a server that they name is usable, or else what the balance says.
fn pick(
    balance: Balance,
    farm: &Farm,
    book: &Book,
    rules: &[ServerId],
    cursor: Option<Stand>,
    candidates: ServerSet,
) -> Option<Pick>
    requires { HaveWeights farm.now candidates }
    ensures { ForEachSeen balance farm.now book.now cursor rules.now
        (λ state request. result ≡ pick state request (has candidates)) }
{
    if set_of(rules).meet(farm.usable()).is_empty() {
        return balanced(balance, farm, book, candidates, cursor);
    }
    taken_in_place(cursor, first_in(candidates, rules))
}
