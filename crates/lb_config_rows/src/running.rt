//! A backend of a configuration as it runs.

use crate::backends::{TWO_SERVERS, config};
use lb_config::BackendConfig;
use lb_desk::{Event, Reply, open, run_world};
use lb_types::ServerId;
use std::alloc::Global;
use std::hash::{BuildHasherDefault, FoldHasher, RandomState};
use std::random::RandomSource;
use std::test::Fail;

// What a desk replies is promised, and `tests/replay` asks this backend whatever it can be asked. So two events are enough here.
#[test]
fn a_backend_of_a_text_opens_and_answers_a_list_of_events(rt: HostRuntime) -> Result<(), Fail> {
    let farm = config(&rt, rt.alloc(), TWO_SERVERS);
    let is_so = match farm.backends().first() {
        Some(web) => opens(rt.alloc(), web) && answers(&rt, rt.alloc(), web)?,
        None => false,
    };
    assert!(&rt; is_so);
    Ok(())
}

/// Whether the backend opens as a desk to which nothing has happened.
fn opens(alloc: Global, backend: &BackendConfig) -> bool {
    match open(alloc, backend, BuildHasherDefault::<FoldHasher>::new()) {
        Ok(desk) => (desk.version(), desk.journal().len()) == (0, 0),
        Err(_) => false,
    }
}

/// Whether a connection and its end are answered as such, in one run with a seeded hasher.
fn answers(rt: &impl RandomSource, alloc: Global, backend: &BackendConfig) -> Result<bool, Fail> {
    let first = ServerId::new(0);
    let events = vec![in alloc; Event::Open(first), Event::Close(first)]?;
    let replies = run_world(alloc, backend, events, RandomState::new(rt)?)?;
    Ok(
        replies.len() == 2
            && matches!(replies.first(), Some(Reply::Opened))
            && matches!(replies.last(), Some(Reply::Closed)),
    )
}
