ghost use Rattle.std.specs.Prelude.{◌≡◌, ◌≤◌, IfOk, IfSome};
ghost use Rattle.std.specs.Option.{option_copied};
ghost use Rattle.lb_types.specs.declared.limits.TheConstants.{MAX_COST};
ghost use Rattle.lb_script.specs.Requests.{asked_in, cost_digits, last_cost};

use crate::asked::Asked;
use crate::servers::find_server;
use crate::words::read_number;
use lb_config_values::ServerConfig;
use lb_desk_model::RuleList;
use lb_types::MAX_COST;
use lb_types_text::Parts;
use std::alloc::{AllocError, Global};

/// The servers that the words name, and the cost that the last word may give.
pub(crate) fn read_asked(
    alloc: Global,
    servers: &[ServerConfig],
    words: &mut Parts,
) -> Result<Option<Asked>, AllocError>
    ensures { IfOk result (λ asked. asked ≡ asked_in servers.now words.old) }
{
    let mut rules = Vec::new(alloc);
    while let Some(word) = words.next_part() {
        if let Some(digits) = cost_digits(word) {
            let Some(cost) = last_cost(digits, words) else {
                return Ok(None);
            };
            let rules = RuleList::new(rules);
            return Ok(Some(Asked { rules, cost }));
        }
        let Some(server) = find_server(servers, word) else {
            return Ok(None);
        };
        rules.push(server)?;
    }
    let rules = RuleList::new(rules);
    Ok(Some(Asked { rules, cost: 1 }))
}

/// What follows `cost=`, if the word begins so.
fn cost_digits(word: &[u8]) -> Option<&[u8]>
    ensures { option_copied result ≡ cost_digits word.now }
{
    word.strip_prefix(b"cost=")
}

/// The cost that the digits say, if it is 1 to 1000 and no word follows.
#[tactic(auto, unfolding(crate::specs::Requests::last_cost))]
fn last_cost(digits: &[u8], words: &mut Parts) -> Option<u16>
    ensures exact { result ≡ last_cost digits.now words.old }
    ensures from { IfSome result (λ cost. 1 ≤ cost) }
    ensures to { IfSome result (λ cost. cost ≤ MAX_COST) }
{
    if words.next_part().is_some() {
        return None;
    }
    let cost = read_number(digits)?;
    if cost < 1 || cost > MAX_COST {
        return None;
    }
    Some(cost as u16)
}
