ghost use Rattle.std.specs.Prelude.{◌≡◌, OnOk, IfOk};
ghost use Rattle.std.specs.Io.KnownBytes.{Appends};
ghost use Rattle.std.specs.Option.{option_copied};
ghost use Rattle.lb_answers.specs.Journals.{journal_text, last_installed};
ghost use Rattle.lb_replay.specs.Answers.{shown, shown_empty, shown_of};

use crate::answers::print;
use crate::day::Day;
use crate::farm::{Farm, table_of};
use command_socket_words::Shown;
use dual_cert_plan::Plan;
use lb_answers::{Answer, NamedBackend, last_installed};
use lb_cli_faults::JobError;
use lb_config::BackendConfig;
use lb_desk_model::Entry;
use lb_desk_tail::Tail;
use lb_types_counted::Counted;
use std::hash::BuildHasher;
use std::io::Write;

/// Prints what an operator asks to see of the backend at the place.
pub(crate) fn show<H: BuildHasher, W: Write>(
    day: &Day<H>,
    farm: &Farm<'_>,
    what: Shown,
    place: usize,
    out: &mut Counted<W>,
) -> Result<(), JobError>
    ensures { OnOk result (Appends out.old.contents out.new.contents (shown farm.now day.now.desk what place)) }
{
    if place == farm.place {
        return show_own(day, farm, what, out);
    }
    show_empty(farm.config.backends().get(place), what, out)
}

/// Of the script's own backend.
#[tactic(auto, unfolding(lb_answers::specs::Answers::answer_text))]
fn show_own<H: BuildHasher, W: Write>(
    day: &Day<H>,
    farm: &Farm<'_>,
    what: Shown,
    out: &mut Counted<W>,
) -> Result<(), JobError>
    ensures { OnOk result (Appends out.old.contents out.new.contents (shown_of farm.now day.now.desk what)) }
{
    match what {
        Shown::Table => {
            let pins = day.desk.table_rows(day.alloc())?;
            print(out, &Answer::Table(&farm.named(), &pins))
        }
        Shown::Plan => print(out, &Answer::Plan(last_plan(day.desk.journal()))),
        Shown::Journal => show_journal(&farm.named(), day.desk.journal(), out),
    }
}

/// The plan that was installed last, if the journal still keeps it.
fn last_plan(journal: &Tail<Entry>) -> Option<&Plan>
    ensures { option_copied result ≡ last_installed journal.now.entries }
{
    let (earlier, later) = journal.as_slices();
    last_installed(later).or(last_installed(earlier))
}

/// Prints a line for each entry that the journal keeps.
fn show_journal<W: Write>(
    backend: &NamedBackend<'_>,
    journal: &Tail<Entry>,
    out: &mut Counted<W>,
) -> Result<(), JobError>
    ensures { OnOk result (Appends out.old.contents out.new.contents
        (journal_text backend.now.name backend.now.servers.now journal.now.first journal.now.entries)) }
{
    let (earlier, later) = journal.as_slices();
    let number = journal.next_number() - later.len() as u64;
    print_entries(backend, journal.first(), earlier, out)?;
    print_entries(backend, number, later, out)
}

/// Prints a line for each entry, of which the first one has this number.
#[tactic(auto, unfolding(lb_answers::specs::Answers::answer_text))]
fn print_entries<W: Write>(
    backend: &NamedBackend<'_>,
    first: u64,
    entries: &[Entry],
    out: &mut Counted<W>,
) -> Result<(), JobError>
    ensures { OnOk result (Appends out.old.contents out.new.contents
        (journal_text backend.now.name backend.now.servers.now first entries.now)) }
{
    print(out, &Answer::Journal(backend, first, entries))
}

/// Of a backend that has no servers and no events.
#[tactic(auto, unfolding(lb_answers::specs::Answers::answer_text))]
fn show_empty<W: Write>(
    backend: Option<&BackendConfig>,
    what: Shown,
    out: &mut Counted<W>,
) -> Result<(), JobError>
    ensures { OnOk result (Appends out.old.contents out.new.contents (shown_empty (option_copied backend.entry) what)) }
{
    match (backend, what) {
        (Some(backend), Shown::Table) => {
            let named = NamedBackend {
                name: backend.name(),
                servers: &[],
                table: table_of(backend),
            };
            print(out, &Answer::Table(&named, &[]))
        }
        (_, Shown::Plan) => print(out, &Answer::Plan(None)),
        _ => Ok(()),
    }
}
