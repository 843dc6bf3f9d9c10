/// How many servers a backend may have. A set of servers is then one number of 128 bits.
pub const MAX_SERVERS: usize = 128;

/// How many pins there may be in a backend, and so in its table, in a view, a sheet and a plan, and at one server (`maxpins`).
/// With `MAX_COST` it keeps the cost of a plan's moves below 2^34, so no sum of costs overflows.
pub const MAX_PINS: u64 = 16_777_216;

/// The most that moving a pin may cost, a number without a unit. The least is 1.
pub const MAX_COST: u64 = 1000;

/// The greatest weight of a server, a number without a unit, as in HAProxy. The least is 0.
pub const MAX_WEIGHT: u64 = 256;

/// The greatest `maxconn` of a server, in open connections: the greatest number of 32 bits. 0 is no limit.
pub const MAX_CONNECTIONS: u64 = 4_294_967_295;

/// How many bytes a name may have. It is short enough that each name is held where it stands, without memory of its own.
pub const MAX_NAME_BYTES: usize = 64;
