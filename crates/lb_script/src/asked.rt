ghost use Rattle.std.specs.Prelude.{◌≤◌};
ghost use Rattle.lb_types.specs.declared.limits.TheConstants.{MAX_COST};

use lb_desk_model::RuleList;

/// What the words after a request's key ask for.
#[derive(Debug, Drop)]
pub(crate) struct Asked {
    /// The servers that they name.
    pub(crate) rules: RuleList,
    /// What the request's pin costs, 1 to 1000.
    pub(crate) cost: u16,
    ghost cost_from: { 1 ≤ cost },
    ghost cost_to: { cost ≤ MAX_COST },
}
