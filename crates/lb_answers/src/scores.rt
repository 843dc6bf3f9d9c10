//! The score of a plan's moves.
ghost use Rattle.dual_cert_write.specs.Sending.{Sends};
ghost use Rattle.lb_answers.specs.Scores.{score_text};

use crate::names::send_labelled;
use dual_cert_write::sending::Sent;
use lb_types_counted::Counted;
use pin_set::Score;
use std::io::Write;

/// Sends the score, with its cost where that isn't the number of moved pins.
#[tactic(auto, unfolding(crate::specs::Scores::score_text))]
pub(crate) fn send_score<W: Write>(out: &mut Counted<W>, sent: Sent, score: Score) -> Sent
    ensures { Sends out.old sent out.new result (score_text score) }
{
    let sent = send_labelled(out, sent, b"pins ", score.pins);
    let sent = send_labelled(out, sent, b" unplaced ", score.unplaced);
    let sent = send_labelled(out, sent, b" moved ", score.moved);
    if score.cost == score.moved {
        return sent;
    }
    send_labelled(out, sent, b" cost ", score.cost)
}
