ghost use Rattle.std.specs.Prelude.{◌≡◌};
ghost use Rattle.flow_planner.specs.Plannings.{PlannedParts, IsPlanned, planned_of};

use dual_cert_plan::Plan;
use std::marker::Model;

/// A plan that a checker accepts for the sheet that it speaks of, and what it took to find it.
#[derive(Debug, Drop)]
pub struct Planned {
    plan: Plan,
    pushes: u64,
    looks: u64,
}

impl Model for Planned {
    ghost Value = { PlannedParts };

    ghost view = { λ p. record { plan = p.plan; pushes = p.pushes; looks = p.looks } };

    ghost invariant = { λ p. IsPlanned (record { plan = p.plan; pushes = p.pushes; looks = p.looks }) };
}

impl Planned {
    pub(crate) fn new(plan: Plan, pushes: u64, looks: u64) -> Self
        requires { IsPlanned (planned_of plan pushes looks) }
        ensures { result ≡ planned_of plan pushes looks }
    {
        Planned {
            plan,
            pushes,
            looks,
        }
    }

    /// The plan.
    pub fn plan(&self) -> &Plan
        ensures exact { result.now ≡ self.now.plan }
        ensures accepted { IsPlanned self.now }
    {
        &self.plan
    }

    /// The plan, alone.
    pub fn into_plan(self) -> Plan
        ensures exact { result ≡ self.plan }
        ensures accepted { IsPlanned self }
    {
        self.plan
    }

    /// How many times pins of one group were pushed along a way.
    pub fn pushes(&self) -> u64
        ensures { result ≡ self.now.pushes }
    {
        self.pushes
    }

    /// How many times it was tested whether a group's pins may go from one option to another.
    pub fn looks(&self) -> u128
        ensures { result ≡ self.now.looks }
    {
        u128::from(self.looks)
    }
}
