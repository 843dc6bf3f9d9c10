ghost use Rattle.std.specs.Prelude.{◌≡◌, ◌+◌, ◌≤◌, length, IfOk};
ghost use Rattle.lb_types.specs.declared.limits.TheConstants.{MAX_COST, MAX_PINS, MAX_SERVERS};
ghost use Rattle.dual_cert_text.specs.ServerLines.{AreDistinct};
ghost use Rattle.sheet_format.specs.GroupLines.{cost_of, group_words_of};
ghost use Rattle.sheet_format.specs.Texts.{group_at, group_of, next_group};

use crate::words::Words;
use dual_cert_plan::PricedServer;
use dual_cert_text::TextFault;
use dual_cert_text::kind_words::{read_place, read_set};
use dual_cert_text::words::read_positive;
use lb_types::{MAX_COST, MAX_PINS, Place, ServerSet};
use lb_types_pins::{Group, PinKind};
use lb_types_text::numeral;

/// A group line's words, with numbers of any size.
#[derive(Clone, Copy, Debug)]
struct GroupWords {
    count: u64,
    place: Place,
    permitted: ServerSet,
    cost: u64,
}

/// The group that line `number` says, after groups of `pins` pins.
#[tactic(auto, unfolding(crate::specs::Texts::group_at))]
pub(crate) fn read_group(
    number: u64,
    pins: u64,
    servers: &[PricedServer],
    words: &mut Words,
) -> Result<Group, TextFault>
    requires few { length servers.now ≤ MAX_SERVERS }
    requires distinct { AreDistinct servers.now }
    requires small { pins ≤ MAX_PINS }
    ensures exact { result ≡ group_at number pins servers.now words.old }
    ensures fits { IfOk result (λ group. pins + group.count ≤ MAX_PINS) }
{
    match read_group_words(servers, words) {
        Some(said) => next_group(pins, &said),
        None => Err(TextFault::BadLine(number)),
    }
}

/// The words after `group`.
#[tactic(auto, unfolding(crate::specs::GroupLines::group_words_of))]
fn read_group_words(servers: &[PricedServer], words: &mut Words) -> Option<GroupWords>
    requires few { length servers.now ≤ MAX_SERVERS }
    requires distinct { AreDistinct servers.now }
    ensures { result ≡ group_words_of servers.now words.old }
{
    let count = words.next_word()?;
    let place = words.next_word()?;
    let permitted = words.next_word()?;
    Some(GroupWords {
        count: numeral(count)?,
        place: read_place(servers, place)?,
        permitted: read_set(servers, permitted)?.servers,
        cost: read_cost(words)?,
    })
}

/// The cost at the end of a line, which is 1 if none is there.
#[tactic(auto, unfolding(crate::specs::GroupLines::cost_of))]
fn read_cost(words: &mut Words) -> Option<u64>
    ensures { result ≡ cost_of words.old }
{
    let Some(cost) = words.next_word() else {
        return Some(1);
    };
    if words.next_word().is_some() {
        return None;
    }
    read_positive(cost)
}

/// The group that a line says, after groups of `pins` pins.
fn next_group(pins: u64, said: &GroupWords) -> Result<Group, TextFault>
    requires { pins ≤ MAX_PINS }
    ensures exact { result ≡ next_group pins said.now }
    ensures fits { IfOk result (λ group. pins + group.count ≤ MAX_PINS) }
{
    if said.count > MAX_PINS - pins || said.cost > MAX_COST {
        return Err(TextFault::TooLarge);
    }
    Ok(group_of(said))
}

fn group_of(said: &GroupWords) -> Group
    requires count { said.now.count ≤ MAX_PINS }
    requires cost { said.now.cost ≤ MAX_COST }
    ensures { result ≡ group_of said.now }
{
    Group {
        kind: PinKind {
            place: said.place,
            permitted: said.permitted,
            cost: said.cost as u16,
        },
        count: said.count as u32,
    }
}
