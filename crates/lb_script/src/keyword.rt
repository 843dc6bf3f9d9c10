ghost use Rattle.std.specs.Prelude.{◌≡◌};
ghost use Rattle.lb_script.specs.Lines.{keyword_in};

use crate::words::is;

/// The first word of a line that is no operator's command. `set` is one of these too.
#[derive(Clone, Copy, Debug, PartialEq, Eq)]
pub(crate) enum Keyword {
    /// `serve`
    Serve,
    /// `set`
    Set,
    /// `clear`
    Clear,
    /// `open`
    Open,
    /// `close`
    Close,
    /// `expire`
    Expire,
    /// `check`
    Check,
    /// `snapshot`
    Snapshot,
    /// `install`
    Install,
    /// `plan`
    Plan,
    /// `stickyplan`
    PlanText,
}

impl Keyword {
    /// The one that the word is.
    #[tactic(auto, unfolding(crate::specs::Lines::keyword_in))]
    pub(crate) fn read(word: &[u8]) -> Option<Keyword>
        ensures { result ≡ keyword_in word.now }
    {
        if is(word, b"serve") {
            return Some(Keyword::Serve);
        }
        if is(word, b"set") {
            return Some(Keyword::Set);
        }
        if is(word, b"clear") {
            return Some(Keyword::Clear);
        }
        if is(word, b"open") {
            return Some(Keyword::Open);
        }
        if is(word, b"close") {
            return Some(Keyword::Close);
        }
        if is(word, b"expire") {
            return Some(Keyword::Expire);
        }
        if is(word, b"check") {
            return Some(Keyword::Check);
        }
        if is(word, b"snapshot") {
            return Some(Keyword::Snapshot);
        }
        if is(word, b"install") {
            return Some(Keyword::Install);
        }
        if is(word, b"plan") {
            return Some(Keyword::Plan);
        }
        if is(word, b"stickyplan") {
            return Some(Keyword::PlanText);
        }
        None
    }
}
