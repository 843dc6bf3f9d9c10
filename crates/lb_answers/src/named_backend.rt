use lb_acl::TableType;
use lb_desk_model::BackendServer;
use lb_types::Name;

/// A backend's table, as answers name it.
#[derive(Clone, Copy, Debug, PartialEq, Eq)]
pub struct NamedTable {
    pub key_type: TableType,
    /// How many pins it holds at most.
    pub size: u32,
}

/// A backend, as answers name it.
#[derive(Clone, Copy, Debug)]
pub struct NamedBackend<'a> {
    pub name: Name,
    /// Its servers, in the configuration's order.
    pub servers: &'a [BackendServer],
    /// Its table, if it has one.
    pub table: Option<NamedTable>,
}
