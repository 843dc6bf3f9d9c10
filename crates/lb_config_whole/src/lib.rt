//! A valid configuration loses nothing that its lines say: the definitions of `lb_config` leave out a second server of one name and a
//! rule whose backend or server is none, and no valid text has any.
//!
//! Promised: `valid_texts_lose_nothing`, which computes nothing: its contract is a law. Start at `specs/Whole.antt`. Private to this
//! repository.
#![tactic(auto)]

mod laws;

pub use laws::valid_texts_lose_nothing;
