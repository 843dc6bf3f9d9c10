//! What is valid in a configuration and surely not meant.
use crate::names::word_at;
use lb_config::{BackendConfig, Config, Frontend};
use lb_config_arguments::{Endpoint, is};
use lb_config_values::ServerConfig;
use lb_config_words::{Line, Word};
use lb_types::Name;
use std::alloc::{AllocError, Global};

/// What is valid in the configuration of these lines and surely not meant, each as the words of a line: what all share, then those of
/// frontends, and then those of backends, in their order.
///
/// It looks at each line, section, server and address once, and at each address once more for each one after it.
pub fn concerns_of(
    alloc: Global,
    config: &Config,
    lines: &[Line],
) -> Result<Vec<Word>, AllocError> {
    let mut found = Vec::new(alloc);
    if lines.iter().filter(|line| is_socket(line)).count() > 1 {
        let words = b"warning: several lines stats socket: the last one is opened";
        found.push(Word::new(Vec::from_slice(alloc, words)?))?;
    }
    let mut bound = Vec::new(alloc);
    for frontend in config.frontends() {
        push_of_frontend(alloc, &mut found, config, frontend)?;
        push_of_binds(alloc, &mut found, &mut bound, frontend)?;
    }
    for backend in config.backends() {
        push_of_servers(alloc, &mut found, backend)?;
        push_of_table(alloc, &mut found, backend)?;
    }
    Ok(found)
}

/// Whether the line is `stats socket`.
fn is_socket(line: &Line) -> bool {
    is(word_at(line.words(), 0), b"stats") && is(word_at(line.words(), 1), b"socket")
}

/// Warnings of a frontend's clients.
fn push_of_frontend(
    alloc: Global,
    found: &mut Vec<Word>,
    config: &Config,
    frontend: &Frontend,
) -> Result<(), AllocError> {
    let name = frontend.name();
    let has_binds = !frontend.rules().binds().is_empty();
    // A section `listen` may be there for its servers alone.
    if !has_binds && config.find_backend(&name).is_err() {
        found.push(said(alloc, "frontend", &name, "has no bind: no request comes in")?)?;
    }
    if has_binds && frontend.client_limit().is_none() {
        found.push(said(
            alloc,
            "frontend",
            &name,
            "has no timeout client: a silent client stays",
        )?)?;
    }
    Ok(())
}

/// Warnings of a frontend's addresses, after those that were bound before it, to which they are added.
fn push_of_binds(
    alloc: Global,
    found: &mut Vec<Word>,
    bound: &mut Vec<Endpoint>,
    frontend: &Frontend,
) -> Result<(), AllocError> {
    for bind in frontend.rules().binds() {
        if bound.iter().any(|it| it == bind) {
            found.push(said(
                alloc,
                "frontend",
                &frontend.name(),
                "binds an address a second time: run can't",
            )?)?;
        }
        bound.push(*bind)?;
    }
    Ok(())
}

/// Warnings of a backend's servers. A backend without any answers 503 to all, which may be meant.
fn push_of_servers(
    alloc: Global,
    found: &mut Vec<Word>,
    backend: &BackendConfig,
) -> Result<(), AllocError> {
    let name = backend.name();
    if backend.servers().is_empty() {
        return Ok(());
    }
    if backend.connect_limit().is_none() {
        found.push(said(
            alloc,
            "backend",
            &name,
            "has no timeout connect: a dial may take minutes",
        )?)?;
    }
    if backend.server_limit().is_none() {
        found.push(said(
            alloc,
            "backend",
            &name,
            "has no timeout server: a silent server keeps its requests",
        )?)?;
    }
    Ok(())
}

/// Warnings of a backend's table.
fn push_of_table(
    alloc: Global,
    found: &mut Vec<Word>,
    backend: &BackendConfig,
) -> Result<(), AllocError> {
    let name = backend.name();
    let Some(table) = backend.rules().table() else {
        if backend.evacuate() {
            found.push(said(
                alloc,
                "backend",
                &name,
                "has no stick-table: option evacuate moves nothing",
            )?)?;
        }
        return Ok(());
    };
    if backend.rules().stick_on().is_none() {
        found.push(said(
            alloc,
            "backend",
            &name,
            "has no stick on: nothing fills its stick-table",
        )?)?;
    } else if room_of(backend.servers()) < u64::from(table.settings().size) {
        found.push(said(
            alloc,
            "backend",
            &name,
            "has a stick-table larger than the sum of maxpins: new clients may get 503",
        )?)?;
    }
    Ok(())
}

/// How many pins the servers may hold together.
fn room_of(servers: &[ServerConfig]) -> u64 {
    let mut room: u64 = 0;
    for server in servers {
        room = room.saturating_add(u64::from(server.settings().max_pins));
    }
    room
}

/// The words of a warning of a section.
fn said(alloc: Global, section: &str, name: &Name, what: &str) -> Result<Word, AllocError> {
    let mut words = Vec::new(alloc);
    words.extend_from_slice(b"warning: ")?;
    words.extend_from_slice(section.as_bytes())?;
    words.push(b' ')?;
    words.extend_from_slice(name.as_bytes())?;
    words.push(b' ')?;
    words.extend_from_slice(what.as_bytes())?;
    Ok(Word::new(words))
}
