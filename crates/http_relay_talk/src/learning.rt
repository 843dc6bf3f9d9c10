ghost use Rattle.std.specs.Prelude.{◌≡◌, ◌++◌, [], ℕ, List, Option};
ghost use Rattle.http_relay_talk.specs.Learnings.{Keeps, LearnsMore, TeachesAll, TeachesMore};
ghost use Rattle.http_relay_talk.specs.Lessons.{LessonView, Makes, Taught, untaught};
ghost use Rattle.http_relay_talk.specs.Visits.{IsLearning};

use crate::{Lesson, Target};
use lb_desk_ports::Port;
use lb_types::ServerId;
use set_cookie::{MOST_BYTES, TaughtKey};
use std::alloc::AllocError;

/// How far a visit has learned from its server's answer.
#[derive(Debug, Drop)]
pub enum Learning<'a> {
    /// Nothing is learned any more.
    Over,
    /// The answer may still teach something.
    Goes(Front<'a>),
}

/// The beginning of an answer that may still teach something.
#[derive(Debug, Drop)]
pub struct Front<'a> {
    pub lesson: Lesson<'a>,
    /// The server that answers.
    pub server: ServerId,
    /// What was read of the answer, at most 16,384 bytes.
    pub bytes: Vec<u8>,
}

impl<'a> Learning<'a> {
    /// Nothing of the target's answer was read yet.
    pub(crate) fn new(target: &Target<'a>) -> Self
        ensures { IsLearning target.now.lesson target.now.server [] result untaught }
    {
        match &target.lesson {
            Some(lesson) => Learning::Goes(Front {
                lesson: lesson.copied(),
                server: target.server,
                bytes: Vec::new(lesson.alloc()),
            }),
            None => Learning::Over,
        }
    }

    /// Learns from a piece of the answer, which hasn't gone out yet.
    pub(crate) fn learn<R, P: Port<R>>(self, rt: &R, port: &mut P, piece: &[u8]) -> Self
        ensures { (lesson : Option LessonView) (server : ℕ) (answer : List ℕ) (taught : Taught)
            → IsLearning lesson server answer self.entry taught
            → LearnsMore lesson server answer piece.now taught (P.entries port.old) (P.entries port.new)
            (P.refusals port.old) (P.refusals port.new) result }
    {
        match self {
            Learning::Over => Learning::Over,
            Learning::Goes(front) => front.learn(rt, port, piece),
        }
    }
}

impl<'a> Front<'a> {
    // As `Learning::learn`. Most heads come in one piece, of which nothing has to be kept.
    fn learn<R, P: Port<R>>(self, rt: &R, port: &mut P, piece: &[u8]) -> Learning<'a>
        ensures { TeachesMore self.entry piece.now (P.entries port.old) (P.entries port.new)
            (P.refusals port.old) (P.refusals port.new) result }
    {
        if !self.bytes.is_empty() {
            return self.go_on(rt, port, piece);
        }
        match teach(rt, port, &self.lesson, self.server, piece) {
            Ok(true) => self.keep(piece),
            Ok(false) | Err(_) => Learning::Over,
        }
    }

    // As `Learning::learn`, for a piece that others came before.
    fn go_on<R, P: Port<R>>(self, rt: &R, port: &mut P, piece: &[u8]) -> Learning<'a>
        ensures { TeachesMore self.entry piece.now (P.entries port.old) (P.entries port.new)
            (P.refusals port.old) (P.refusals port.new) result }
    {
        let Front {
            lesson,
            server,
            bytes,
        } = self;
        let mut bytes = bytes;
        let left = MOST_BYTES.saturating_sub(bytes.len());
        let (first, rest) = piece.split_at(piece.len().min(left));
        match bytes.extend_from_slice(first) {
            Ok(()) => {}
            Err(_) => return Learning::Over,
        }
        match teach(rt, port, &lesson, server, &bytes) {
            Ok(true) if rest.is_empty() => Learning::Goes(Front {
                lesson,
                server,
                bytes,
            }),
            _ => Learning::Over,
        }
    }

    // Keeps a piece that may teach something with those that follow. If memory for it is refused, nothing is learned any more.
    fn keep(self, piece: &[u8]) -> Learning<'a>
        ensures { Keeps self.entry piece.now result }
    {
        let Front {
            lesson,
            server,
            bytes,
        } = self;
        let mut kept = bytes;
        match kept.extend_from_slice(piece) {
            Ok(()) => Learning::Goes(Front {
                lesson,
                server,
                bytes: kept,
            }),
            Err(_) => Learning::Over,
        }
    }
}

/// Sets the pin that this answer of the server teaches, if it teaches one. True where more bytes may teach something. A pin that is refused
/// changes nothing. The only error is out of memory, and nothing was done then.
fn teach<R, P: Port<R>>(
    rt: &R,
    port: &mut P,
    lesson: &Lesson<'_>,
    server: ServerId,
    answer: &[u8],
) -> Result<bool, AllocError>
    ensures { (taught : Taught) × Makes taught (P.entries port.old) (P.entries port.new) (P.refusals port.old) (P.refusals port.new)
        × TeachesAll lesson.now server answer.now taught result }
{
    match lesson.key(answer)? {
        TaughtKey::Unfinished => Ok(true),
        TaughtKey::Nothing => Ok(false),
        TaughtKey::Key(key) => {
            let _pinning = port.set(rt, lesson.pin(key, server));
            Ok(false)
        }
    }
}
