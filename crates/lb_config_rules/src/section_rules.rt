ghost use Rattle.std.specs.Prelude.{◌≡◌, ◌++◌, IfOk, OnOk};
ghost use Rattle.std.specs.Option.{option_copied, option_to_list};
ghost use Rattle.lb_config_rules.specs.Parts.{all_in, bind_in};
ghost use Rattle.lb_config_rules.specs.Rules.{back_of, back_rules, choices_of, front_rules, stick_on_of};

use crate::BackendChoice;
use crate::named_acls::NamedAcls;
use crate::resolving::{choices, pin_costs, use_servers};
use crate::section_parts::SectionParts;
use lb_acl::{KeySample, PinCost, StickOn, UseServer};
use lb_config_arguments::Endpoint;
use lb_config_lines::Setting;
use lb_config_parameters::StickTable;
use lb_config_sections::NumberedSetting;
use lb_types::Name;
use std::alloc::{AllocError, Global};
use std::marker::Model;

/// What a section does with the requests of its clients.
#[derive(Debug, Drop)]
pub struct FrontRules {
    binds: Vec<Endpoint>,
    choices: Vec<BackendChoice>,
}

impl Model for FrontRules {
    ghost use Rattle.lb_config_rules.specs.RulesView.{FrontRulesView};

    ghost Value = { FrontRulesView };

    ghost view = { λ rules. record { binds = rules.binds.items; choices = rules.choices.items } };
}

impl FrontRules {
    /// Where it listens.
    pub fn binds(&self) -> &[Endpoint]
        ensures { result.now ≡ self.now.binds }
    {
        &self.binds
    }

    /// The rules `use_backend`, in their order.
    pub fn choices(&self) -> &[BackendChoice]
        ensures { result.now ≡ self.now.choices }
    {
        &self.choices
    }
}

/// What a section does with its servers and pins.
#[derive(Debug, Drop)]
pub struct BackRules {
    table: Option<StickTable>,
    stick_on: Option<StickOn>,
    use_servers: Vec<UseServer>,
    pin_costs: Vec<PinCost>,
}

impl Model for BackRules {
    ghost use Rattle.lb_config_rules.specs.RulesView.{BackRulesView};

    ghost Value = { BackRulesView };

    ghost view = { λ rules. record {
      table = rules.table;
      stick_on = rules.stick_on;
      use_servers = rules.use_servers.items;
      pin_costs = rules.pin_costs.items;
    } };
}

impl BackRules {
    /// The table of pins, if there is one.
    pub fn table(&self) -> Option<&StickTable>
        ensures { option_copied result ≡ self.now.table }
    {
        self.table.as_ref()
    }

    /// What the key of a pin is taken from, if there are pins.
    pub fn stick_on(&self) -> Option<&StickOn>
        ensures { option_copied result ≡ self.now.stick_on }
    {
        self.stick_on.as_ref()
    }

    /// The rules `use-server`, in their order.
    pub fn use_servers(&self) -> &[UseServer]
        ensures { result.now ≡ self.now.use_servers }
    {
        &self.use_servers
    }

    /// The rules `pin-cost`, in their order.
    pub fn pin_costs(&self) -> &[PinCost]
        ensures { result.now ≡ self.now.pin_costs }
    {
        &self.pin_costs
    }
}

/// The rules of a section of these settings. `backends` are the names of all backends, `servers` those of the section's servers.
///
/// The lines of an ACL are moved and not copied, and the conditions that name it share them. The only error is out of memory.
pub fn read_rules(
    alloc: Global,
    backends: &[Name],
    servers: &[Name],
    settings: Vec<NumberedSetting>,
) -> Result<(FrontRules, BackRules), AllocError>
    ensures front { IfOk result (λ two. two.0 ≡ front_rules backends.now settings.items) }
    ensures back { IfOk result (λ two. two.1 ≡ back_rules servers.now settings.items) }
{
    let binds = binds(alloc, &settings)?;
    let parts = SectionParts::of(alloc, settings)?;
    let (choices, back) = resolve_parts(alloc, backends, servers, parts)?;
    Ok((FrontRules { binds, choices }, back))
}

/// Where the section listens.
fn binds(alloc: Global, settings: &[NumberedSetting]) -> Result<Vec<Endpoint>, AllocError>
    ensures { IfOk result (λ binds. binds.items ≡ all_in bind_in settings.now) }
{
    let mut binds = Vec::new(alloc);
    for numbered in settings {
        push_bind(&numbered.setting, &mut binds)?;
    }
    Ok(binds)
}

fn push_bind(setting: &Setting, binds: &mut Vec<Endpoint>) -> Result<(), AllocError>
    ensures { OnOk result (binds.new.items ≡ binds.old.items ++ option_to_list (bind_in setting.now)) }
{
    if let Setting::Bind(endpoint) = setting {
        binds.push(*endpoint)?;
    }
    Ok(())
}

fn resolve_parts(
    alloc: Global,
    backends: &[Name],
    servers: &[Name],
    parts: SectionParts,
) -> Result<(Vec<BackendChoice>, BackRules), AllocError>
    ensures choices { IfOk result (λ two. two.0.items ≡ choices_of backends.now parts) }
    ensures back { IfOk result (λ two. two.1 ≡ back_of servers.now parts) }
{
    let SectionParts {
        acls,
        backend_rules,
        server_rules,
        cost_rules,
        table,
        sample,
    } = parts;
    let named = NamedAcls::of(alloc, acls)?;
    let choices = choices(alloc, backends, &named, backend_rules)?;
    let use_servers = use_servers(alloc, servers, &named, server_rules)?;
    let pin_costs = pin_costs(alloc, &named, cost_rules)?;
    let stick_on = stick_on_of(&table, sample);
    let back = BackRules {
        table,
        stick_on,
        use_servers,
        pin_costs,
    };
    Ok((choices, back))
}

/// The pattern with the type of the table, if both are in the section.
fn stick_on_of(table: &Option<StickTable>, sample: Option<KeySample>) -> Option<StickOn>
    ensures { result ≡ stick_on_of table.now sample }
{
    match (table, sample) {
        (Some(table), Some(sample)) => Some(StickOn {
            sample,
            table: table.kind(),
        }),
        _ => None,
    }
}
