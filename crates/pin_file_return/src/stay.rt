ghost use Rattle.std.specs.Prelude.{◌≤◌};
ghost use Rattle.lb_types.specs.declared.limits.TheConstants.{MAX_COST};

use lb_types::{Moment, ServerId};

/// What is kept of a pin under its name.
#[derive(Clone, Copy, Debug)]
pub(crate) struct Stay {
    pub(crate) server: ServerId,
    pub(crate) cost: u16,
    pub(crate) moment: Moment,
    pub(crate) ghost cost_from: { 1 ≤ cost },
    pub(crate) ghost cost_to: { cost ≤ MAX_COST },
}
