ghost use Rattle.std.specs.Prelude.{◌≡◌, ◌≤◌, ◌∷◌, [], ◌++◌, map, length, All, Ok, OnOk, OnErr};
ghost use Rattle.std.specs.Io.KnownBytes.{Appends};
ghost use Rattle.lb_types.specs.declared.limits.TheConstants.{MAX_SERVERS};
ghost use Rattle.lb_types_counted.specs.Writers.{AppendsFront, Rises};
ghost use Rattle.dual_cert_text.specs.Spellings.{text_of_lines};
ghost use Rattle.dual_cert_sheet.specs.SheetSpellings.{sheet_server_line, group_line, sheet_spelling};
ghost use Rattle.dual_cert_sheet.specs.SheetTexts.{needs_costs, sheet_of_text};
ghost use Rattle.dual_cert_write.specs.Sending.{Sends, WasSent, HasListedSet};

use crate::WriteFailed;
use dual_cert_plan::{Server, Sheet};
use dual_cert_write::sending::{Sent, send, send_line, send_words};
use dual_cert_write::words::{Listed, place_word, send_heading, send_line_end};
use itoa::Buffer;
use lb_types_counted::Counted;
use lb_types_pins::Group;
use std::io::Write;

/// Writes the sheet's text, each byte of its spelling: of version 1 where each group's cost is 1, else of version 2.
///
/// It allocates nothing, and makes a few writes for each word: give it a writer that buffers. Where it fails, the writer's
/// count of failures rose and a beginning of the text went out. A short write is gone on with, and one that a signal
/// interrupted is tried again. Nothing is flushed.
///
/// One walk over the groups, with a walk over the servers for each set.
pub fn write_sheet<W: Write>(sheet: &Sheet, out: &mut Counted<W>) -> Result<(), WriteFailed>
    ensures whole { OnOk result
        (Appends out.old.contents out.new.contents (sheet_spelling sheet.now)) }

    // It fails only where a write failed.
    ensures failed { OnErr result (Rises out.old.failures out.new.failures) }
    ensures front { OnErr result
        (AppendsFront out.old.contents out.new.contents (sheet_spelling sheet.now)) }

    // What went out is read as this sheet.
    ensures read_back { sheet_of_text (sheet_spelling sheet.now) ≡ Ok sheet.now }
{
    send_sheet(sheet, out)
}

fn send_sheet<W: Write>(sheet: &Sheet, out: &mut Counted<W>) -> Sent
    ensures sent { WasSent out.old out.new result (sheet_spelling sheet.now) }
    ensures read_back { sheet_of_text (sheet_spelling sheet.now) ≡ Ok sheet.now }
{
    let has_costs = needs_costs(sheet.groups());
    let sent = send_heading(out, Ok(()), b"stickysheet", has_costs, sheet.version());
    let sent = send_servers(out, sent, sheet.servers());
    let sent = send_groups(out, sent, has_costs, sheet.servers(), sheet.groups());
    send(out, sent, b"end\n")
}

/// Whether some group has a cost that a text of version 1 can't say.
fn needs_costs(groups: &[Group]) -> bool
    ensures { result ≡ needs_costs groups.now }
{
    groups.iter().any(|group| group.kind.cost != 1)
}

/// Sends the servers' lines.
fn send_servers<W: Write>(out: &mut Counted<W>, sent: Sent, servers: &[Server]) -> Sent
    ensures { Sends out.old sent out.new result
        (text_of_lines (map (λ server. sheet_server_line server) servers.now)) }
{
    let mut sent = sent;
    for server in servers {
        sent = send_server(out, sent, server);
    }
    sent
}

fn send_server<W: Write>(out: &mut Counted<W>, sent: Sent, server: &Server) -> Sent
    ensures { Sends out.old sent out.new result (sheet_server_line server.now ++ 10 ∷ []) }
{
    let name = server.name();
    let Some(capacity) = server.capacity else {
        return send_line(out, sent, b"server", &[name, b"off"]);
    };
    let mut digits = Buffer::new();
    let capacity = digits.format(capacity).as_bytes();
    send_line(out, sent, b"server", &[name, b"cap", capacity])
}

/// Sends the groups' lines.
fn send_groups<W: Write>(
    out: &mut Counted<W>,
    sent: Sent,
    has_costs: bool,
    servers: &[Server],
    groups: &[Group],
) -> Sent
    requires few { length servers.now ≤ MAX_SERVERS }
    requires listed { All (λ group. HasListedSet (length servers.now) group.kind) groups.now }
    ensures { Sends out.old sent out.new result
        (text_of_lines (map (λ group. group_line has_costs servers.now group) groups.now)) }
{
    let mut sent = sent;
    for group in groups {
        sent = send_group(out, sent, has_costs, servers, group);
    }
    sent
}

fn send_group<W: Write>(
    out: &mut Counted<W>,
    sent: Sent,
    has_costs: bool,
    servers: &[Server],
    group: &Group,
) -> Sent
    requires few { length servers.now ≤ MAX_SERVERS }
    requires listed { HasListedSet (length servers.now) group.now.kind }
    ensures { Sends out.old sent out.new result
        (group_line has_costs servers.now group.now ++ 10 ∷ []) }
{
    let mut digits = Buffer::new();
    let count = digits.format(group.count).as_bytes();
    let place = place_word(servers, group.kind.place);
    let sent = send_words(out, sent, b"group", &[count, place]);
    send_line_end(out, sent, servers, has_costs, &group.kind)
}
