ghost use Rattle.std.specs.Prelude.{◌≡◌, ◌≤◌, length};
ghost use Rattle.lb_types.specs.declared.limits.TheConstants.{MAX_SERVERS};
ghost use Rattle.dual_cert_text.specs.ServerLines.{AreDistinct};
ghost use Rattle.dual_cert_sheet.specs.GroupLines.{group_words_of};

use dual_cert_plan::PricedServer;
use dual_cert_text::kind_words::{SetWord, read_cost, read_place, read_set};
use dual_cert_text::words::read_positive;
use lb_types::Place;
use lb_types_text::Parts;

/// A group line's words, with numbers of any size.
#[derive(Clone, Copy, Debug)]
pub(crate) struct GroupWords {
    pub(crate) count: u64,
    pub(crate) place: Place,
    pub(crate) permitted: SetWord,
    pub(crate) cost: u64,
}

/// The words after `group`.
#[tactic(auto, unfolding(crate::specs::GroupLines::group_words_of))]
pub(crate) fn read_group_words(
    has_costs: bool,
    servers: &[PricedServer],
    words: &mut Parts,
) -> Option<GroupWords>
    requires few { length servers.now ≤ MAX_SERVERS }
    requires distinct { AreDistinct servers.now }
    ensures { result ≡ group_words_of has_costs servers.now words.old }
{
    let count = words.next_part()?;
    let place = words.next_part()?;
    let permitted = words.next_part()?;
    Some(GroupWords {
        count: read_positive(count)?,
        place: read_place(servers, place)?,
        permitted: read_set(servers, permitted)?,
        cost: read_cost(has_costs, words)?,
    })
}
