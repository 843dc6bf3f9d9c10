//! The words of docs/CONFIGURATION.md in which a typing error is likely, by the place where they stand.

/// The first words of lines.
pub(crate) const FIRST: &[&str] = &[
    "global",
    "defaults",
    "frontend",
    "backend",
    "listen",
    "mode",
    "bind",
    "timeout",
    "balance",
    "option",
    "acl",
    "use_backend",
    "default_backend",
    "stick-table",
    "stick",
    "use-server",
    "pin-cost",
    "default-server",
    "server",
    "stats",
];

/// The words after `timeout`.
pub(crate) const TIMEOUTS: &[&str] = &["client", "connect", "server", "queue", "check"];

/// The words after `option`.
pub(crate) const OPTIONS: &[&str] = &["forwardfor", "httpchk", "allbackups", "evacuate"];

/// The words after `balance`.
pub(crate) const BALANCES: &[&str] = &["roundrobin", "leastconn", "first"];

/// The parameters of a server.
pub(crate) const PARAMETERS: &[&str] = &[
    "check", "inter", "rise", "fall", "weight", "maxconn", "maxpins", "backup", "disabled",
];
