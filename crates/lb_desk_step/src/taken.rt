ghost use Rattle.std.specs.Prelude.{◌≡◌, ◌+◌, ◌<◌, ◌^◌, [], ◌∷◌, ◌++◌, List, length};
ghost use Rattle.lb_desk_model.specs.declared.entry.Entry.{Entry as AnyEntry};
ghost use Rattle.lb_desk_law.specs.Worlds.{entry};
ghost use Rattle.lb_desk_tail.specs.Tail.{IsTailOf, with_entry};

use lb_desk_model::{Entry, Event, Reply};
use lb_desk_tail::Tail;
use pin_set::Score;

/// What a desk answers to an event that it has taken.
#[derive(Debug, Drop)]
pub struct Taken {
    pub reply: Reply,
    /// The entry that had to leave a full journal. Dropping it may free a whole plan or sheet: do that where nobody waits.
    pub forgotten: Option<Entry>,
}

impl Taken {
    /// The reply alone. The entry that left is dropped.
    pub fn into_reply(self) -> Reply
        ensures { result ≡ self.reply }
    {
        self.reply
    }
}

/// What a desk did when it planned while nobody else got in.
#[derive(Debug, Drop)]
pub struct TakenPlan {
    /// The first event, a Snapshot, with its sheet.
    pub snapshot: Entry,
    /// The second, the install of a plan for that sheet.
    pub install: Entry,
    pub score: Score,
    /// The entries that had to leave a full journal. Drop them where nobody waits.
    pub forgotten: (Option<Entry>, Option<Entry>),
}

impl TakenPlan {
    /// The score alone.
    pub fn into_score(self) -> Score
        ensures { result ≡ self.score }
    {
        self.score
    }
}

/// Puts the entry into the journal, and hands out the one that leaves it.
pub(crate) fn keep(journal: &mut Tail<Entry>, event: Event, reply: Reply) -> Option<Entry>
    requires { journal.old.first + length journal.old.entries + 1 < 2 ^ 64 }
    ensures log { (log : List AnyEntry) → IsTailOf log journal.old
        → IsTailOf (log ++ entry event reply ∷ []) journal.new }
    ensures pushed { journal.new ≡ with_entry journal.old (entry event reply) }
{
    journal.push(Entry { event, reply })
}
