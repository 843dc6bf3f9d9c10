use lb_acl::{Field, Head, Version};
use lb_config::{Config, read_config};
use std::alloc::{AllocError, Global};
use std::net::Ipv4Addr;
use std::process::Abort;

/// Two frontends, and four backends: keys of text, keys of addresses, without a table, without a server.
const TEXT: &[u8] = b"
frontend shop
    bind *:80
    timeout client 10s
    use_backend api if { path_beg /api/ }
    use_backend plain if { path_beg /plain/ }
    default_backend pages

frontend tools
    bind *:81
    option forwardfor
    use_backend pages if { path_beg /pages/ }
    use_backend closed if { path_beg /closed/ }

backend pages
    timeout connect 3s
    timeout server 20s
    timeout queue 5s
    stick-table type string len 4 size 100
    stick on req.cook(sid)
    use-server b if { hdr(x-preview) yes }
    use-server a if { path_beg /old/ }
    use-server b if { method POST }
    pin-cost 20 if { src 10.0.0.0/8 }
    pin-cost 30 if { method POST }
    server a 127.0.0.1:8001
    server b 127.0.0.2:8002

backend api
    option forwardfor
    timeout connect 2s
    timeout server 0
    stick-table type ip size 100
    stick on hdr(x-from)
    server c 127.0.0.3:8003

backend plain
    timeout connect 4s
    timeout queue 0
    server d 127.0.0.4:8004

backend closed
";

/// The places of the frontends.
pub(crate) const SHOP: usize = 0;

pub(crate) const TOOLS: usize = 1;

/// The places of the backends.
pub(crate) const PAGES: usize = 0;

pub(crate) const API: usize = 1;

pub(crate) const PLAIN: usize = 2;

pub(crate) const CLOSED: usize = 3;

pub(crate) fn farm(rt: &impl Abort, alloc: Global) -> Config {
    match read_config(alloc, TEXT) {
        Ok(config) => config,
        Err(_) => panic!(rt; "a fault in the configuration"),
    }
}

/// The fields of such lines, each a name and a value.
pub(crate) fn fields<'a>(
    alloc: Global,
    lines: &[(&'a str, &'a str)],
) -> Result<Vec<Field<'a>>, AllocError> {
    let mut fields = Vec::new(alloc);
    for (name, value) in lines {
        fields.push(Field::new(name.as_bytes(), value.as_bytes()))?;
    }
    Ok(fields)
}

/// A request of a client at this address.
pub(crate) fn head<'a>(
    method: &'a str,
    target: &'a str,
    fields: &'a [Field<'a>],
    source: [u8; 4],
) -> Head<'a> {
    let [a, b, c, d] = source;
    Head::new(
        method.as_bytes(),
        target.as_bytes(),
        Version::Http11,
        fields,
        Ipv4Addr::new(a, b, c, d),
    )
}
