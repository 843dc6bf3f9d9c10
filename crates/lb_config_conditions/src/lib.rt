//! ACLs, conditions and rules of a configuration as words of a line.
//!
//! Promised: each reader gives exactly what its function in `specs/` gives, the value or the first fault from the left. A condition
//! keeps the names of its ACLs: they are looked up when all lines are read. Start at
//! `read_server_rule`; a word's meaning in a condition is in `specs/CondLines`, in an ACL in `specs/AclLines`. Private to `lb_config`.
#![tactic(auto)]

mod acl_draft;
mod call;
mod cond_draft;
mod cond_lines;
mod criterion;
mod rules;
mod unresolved;

pub use criterion::read_pattern;
pub use rules::{
    AclDeclaration, BackendRule, CostRule, ServerRule, read_backend_rule, read_cost_rule,
    read_declaration, read_server_rule,
};
pub use unresolved::{Alternative, UnresolvedAcl, UnresolvedCond, UnresolvedTerm};
