ghost use Rattle.std.specs.Prelude.{◌≡◌, ◌≤◌, ◌∷◌, length};
ghost use Rattle.lb_types.specs.declared.limits.TheConstants.{MAX_SERVERS};
ghost use Rattle.dual_cert_text.specs.ServerLines.{AreDistinct};
ghost use Rattle.dual_cert_text.specs.RowLines.{row_words_of};

use crate::kind_words::{SetWord, read_cost, read_place, read_set};
use crate::words::read_positive;
use dual_cert_plan::PricedServer;
use lb_types::Place;
use lb_types_text::Parts;

/// A row line's words, with numbers of any size.
#[derive(Clone, Copy, Debug)]
pub(crate) struct RowWords {
    pub(crate) count: u64,
    pub(crate) place: Place,
    pub(crate) new_place: Place,
    pub(crate) permitted: SetWord,
    pub(crate) cost: u64,
}

/// The words after `row`.
#[tactic(auto, unfolding(crate::specs::RowLines::row_words_of))]
pub(crate) fn read_row_words(
    has_costs: bool,
    servers: &[PricedServer],
    words: &mut Parts,
) -> Option<RowWords>
    requires few { length servers.now ≤ MAX_SERVERS }
    requires distinct { AreDistinct servers.now }
    ensures { result ≡ row_words_of has_costs servers.now words.old }
{
    let count = words.next_part()?;
    let place = words.next_part()?;
    read_placed(has_costs, servers, count, place, words)
}

/// The words after `row`, of which the first two are read.
#[tactic(auto, unfolding(crate::specs::RowLines::row_words_of))]
fn read_placed(
    has_costs: bool,
    servers: &[PricedServer],
    count: &[u8],
    place: &[u8],
    words: &mut Parts,
) -> Option<RowWords>
    requires few { length servers.now ≤ MAX_SERVERS }
    requires distinct { AreDistinct servers.now }
    ensures { result ≡ row_words_of has_costs servers.now (count.now ∷ place.now ∷ words.old) }
{
    let new_place = words.next_part()?;
    let permitted = words.next_part()?;
    Some(RowWords {
        count: read_positive(count)?,
        place: read_place(servers, place)?,
        new_place: read_place(servers, new_place)?,
        permitted: read_set(servers, permitted)?,
        cost: read_cost(has_costs, words)?,
    })
}
