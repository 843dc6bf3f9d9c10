ghost use Rattle.std.specs.Prelude.{◌≡◌, IfOk};
ghost use Rattle.lb_script.specs.Requests.{request_in};

use crate::asking::read_asked;
use crate::keys::read_key;
use crate::words::read_number;
use lb_config::BackendConfig;
use lb_desk_model::Request;
use lb_types::Moment;
use lb_types_text::Parts;
use std::alloc::{AllocError, Global};

/// The request that the words after `serve` say.
#[tactic(auto, unfolding(crate::specs::Requests::request_in))]
pub(crate) fn read_request(
    alloc: Global,
    backend: &BackendConfig,
    words: &mut Parts,
) -> Result<Option<Request>, AllocError>
    ensures { IfOk result (λ request. request ≡ request_in backend.now words.old) }
{
    let Some(moment) = words.next_part() else {
        return Ok(None);
    };
    let Some(word) = words.next_part() else {
        return Ok(None);
    };
    let Some(moment) = read_number(moment) else {
        return Ok(None);
    };
    let Some(key) = read_key(alloc, backend.rules().table(), word)? else {
        return Ok(None);
    };
    let Some(asked) = read_asked(alloc, backend.servers(), words)? else {
        return Ok(None);
    };
    Ok(Some(Request {
        key,
        rules: asked.rules,
        cost: asked.cost,
        moment: Moment::from_millis(moment),
    }))
}
