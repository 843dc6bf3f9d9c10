ghost use Rattle.command_socket_serve.specs.Desks.{desk_seen};
ghost use Rattle.command_socket_serve.specs.Outcomes.{Says};
ghost use Rattle.command_socket_serve.specs.Tasks.{Asks};

use crate::pins::{change_key, show_key};
use crate::printing::Printed;
use crate::sheets::{plan_dry, show_sheet};
use command_socket::BackendTask;
use lb_answers::NamedBackend;
use lb_desk_steer::Steer;
use lb_types::Moment;
use lb_types_counted::Counted;
use std::alloc::Global;
use std::io::Write;

/// Does what the command socket alone is asked of a backend, and prints what that came to.
pub(crate) fn ask<R, S: Steer<R>, W: Write>(
    rt: &R,
    alloc: Global,
    named: &NamedBackend<'_>,
    moment: Moment,
    desk: &mut S,
    task: &BackendTask<'_>,
    out: &mut Counted<W>,
    sent: Printed,
) -> Printed
    ensures { Says (Asks named.now moment task.now (desk_seen S.entries S.planned_now S.backend S.sights desk.old) (desk_seen S.entries S.planned_now S.backend S.sights desk.new))
        out.old sent out.new result }
{
    match task {
        BackendTask::ShowKey(word) => show_key(rt, alloc, named, desk, word, out, sent),
        BackendTask::ChangeKey(word, change) => {
            change_key(rt, alloc, named, moment, desk, word, change, out, sent)
        }
        BackendTask::ShowSheet => show_sheet(rt, desk, out, sent),
        BackendTask::PlanDry => plan_dry(rt, alloc, desk, out, sent),
    }
}
