ghost use Rattle.std.specs.Prelude.{◌≡◌, ◌≤◌, ◌∷◌, [], ◌++◌, map, length, All, Ok, OnOk, OnErr};
ghost use Rattle.std.specs.Io.KnownBytes.{Appends};
ghost use Rattle.lb_types.specs.declared.limits.TheConstants.{MAX_SERVERS};
ghost use Rattle.lb_types_counted.specs.Writers.{AppendsFront, Rises};
ghost use Rattle.dual_cert_plan.specs.Plans.{IsPlan};
ghost use Rattle.dual_cert_text.specs.PlanTexts.{needs_costs, plan_of_text};
ghost use Rattle.dual_cert_text.specs.Spellings.{text_of_lines, server_line, row_line, spelling};
ghost use Rattle.dual_cert_write.specs.Sending.{Sends, WasSent, HasListedSet};

use crate::WriteFailed;
use crate::sending::{Sent, send, send_line, send_words};
use crate::words::{Listed, place_word, send_heading, send_line_end};
use dual_cert_plan::{Plan, PricedServer};
use itoa::Buffer;
use lb_types_counted::Counted;
use lb_types_pins::Row;
use std::io::Write;

/// Writes the plan's text, each byte of its spelling: of version 1 where each row's cost is 1, else of version 2.
///
/// It allocates nothing, and makes a few writes for each word: give it a writer that buffers. Where it fails, the writer's
/// count of failures rose and a beginning of the text went out. A short write is gone on with, and one that a signal
/// interrupted is tried again. Nothing is flushed.
///
/// One walk over the rows, with a walk over the servers for each set.
pub fn write_plan<W: Write>(plan: &Plan, out: &mut Counted<W>) -> Result<(), WriteFailed>
    ensures whole { OnOk result (Appends out.old.contents out.new.contents (spelling plan.now)) }

    // It fails only where a write failed.
    ensures failed { OnErr result (Rises out.old.failures out.new.failures) }
    ensures front { OnErr result (AppendsFront out.old.contents out.new.contents (spelling plan.now)) }

    // What went out is read as this plan.
    ensures read_back { plan_of_text (spelling plan.now) ≡ Ok plan.now }
{
    send_plan(plan, out)
}

fn send_plan<W: Write>(plan: &Plan, out: &mut Counted<W>) -> Sent
    ensures sent { WasSent out.old out.new result (spelling plan.now) }
    ensures read_back { plan_of_text (spelling plan.now) ≡ Ok plan.now }
{
    let has_costs = needs_costs(plan.rows());
    let sent = send_heading(out, Ok(()), b"stickyplan", has_costs, plan.version());
    let sent = send_servers(out, sent, plan.servers());
    let sent = send_rows(out, sent, has_costs, plan.servers(), plan.rows());
    send(out, sent, b"end\n")
}

/// Whether some row has a cost that a text of version 1 can't say.
fn needs_costs(rows: &[Row]) -> bool
    ensures { result ≡ needs_costs rows.now }
{
    rows.iter().any(|row| row.kind.cost != 1)
}

/// Sends the servers' lines.
fn send_servers<W: Write>(out: &mut Counted<W>, sent: Sent, servers: &[PricedServer]) -> Sent
    ensures { Sends out.old sent out.new result
        (text_of_lines (map (λ server. server_line server) servers.now)) }
{
    let mut sent = sent;
    for server in servers {
        sent = send_server(out, sent, server);
    }
    sent
}

fn send_server<W: Write>(out: &mut Counted<W>, sent: Sent, server: &PricedServer) -> Sent
    ensures { Sends out.old sent out.new result (server_line server.now ++ 10 ∷ []) }
{
    let name = server.name();
    let Some(capacity) = server.server.capacity else {
        return send_line(out, sent, b"server", &[name, b"off"]);
    };
    let mut capacity_digits = Buffer::new();
    let capacity = capacity_digits.format(capacity).as_bytes();
    let mut price_digits = Buffer::new();
    let price = price_digits.format(server.price).as_bytes();
    send_line(
        out,
        sent,
        b"server",
        &[name, b"cap", capacity, b"price", price],
    )
}

/// Sends the rows' lines.
fn send_rows<W: Write>(
    out: &mut Counted<W>,
    sent: Sent,
    has_costs: bool,
    servers: &[PricedServer],
    rows: &[Row],
) -> Sent
    requires few { length servers.now ≤ MAX_SERVERS }
    requires listed { All (λ row. HasListedSet (length servers.now) row.kind) rows.now }
    ensures { Sends out.old sent out.new result
        (text_of_lines (map (λ row. row_line has_costs servers.now row) rows.now)) }
{
    let mut sent = sent;
    for row in rows {
        sent = send_row(out, sent, has_costs, servers, row);
    }
    sent
}

fn send_row<W: Write>(
    out: &mut Counted<W>,
    sent: Sent,
    has_costs: bool,
    servers: &[PricedServer],
    row: &Row,
) -> Sent
    requires few { length servers.now ≤ MAX_SERVERS }
    requires listed { HasListedSet (length servers.now) row.now.kind }
    ensures { Sends out.old sent out.new result (row_line has_costs servers.now row.now ++ 10 ∷ []) }
{
    let mut digits = Buffer::new();
    let count = digits.format(row.count).as_bytes();
    let place = place_word(servers, row.kind.place);
    let new_place = place_word(servers, row.new_place);
    let sent = send_words(out, sent, b"row", &[count, place, new_place]);
    send_line_end(out, sent, servers, has_costs, &row.kind)
}
