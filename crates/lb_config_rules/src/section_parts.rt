ghost use Rattle.std.specs.Prelude.{◌≡◌, IfOk, OnOk};
ghost use Rattle.lb_config_rules.specs.Parts.{no_parts, parts_behind, parts_of, with_part};

use lb_acl::KeySample;
use lb_config_conditions::{AclDeclaration, BackendRule, CostRule, ServerRule};
use lb_config_lines::Setting;
use lb_config_parameters::StickTable;
use lb_config_sections::NumberedSetting;
use std::alloc::{AllocError, Global};
use std::marker::Model;

/// A section's lines that make rules, by their kinds.
#[derive(Drop)]
pub(crate) struct SectionParts {
    pub(crate) acls: Vec<AclDeclaration>,
    pub(crate) backend_rules: Vec<BackendRule>,
    pub(crate) server_rules: Vec<ServerRule>,
    pub(crate) cost_rules: Vec<CostRule>,
    pub(crate) table: Option<StickTable>,
    pub(crate) sample: Option<KeySample>,
}

impl Model for SectionParts {
    ghost use Rattle.lb_config_rules.specs.PartsView.{PartsView};

    ghost Value = { PartsView };

    ghost view = { λ parts. record {
      acls = parts.acls.items;
      backend_rules = parts.backend_rules.items;
      server_rules = parts.server_rules.items;
      cost_rules = parts.cost_rules.items;
      table = parts.table;
      sample = parts.sample;
    } };
}

impl SectionParts {
    fn none(alloc: Global) -> Self
        ensures { result ≡ no_parts }
    {
        SectionParts {
            acls: Vec::new(alloc),
            backend_rules: Vec::new(alloc),
            server_rules: Vec::new(alloc),
            cost_rules: Vec::new(alloc),
            table: None,
            sample: None,
        }
    }

    /// The parts of the settings. Nothing is copied. The only error is out of memory.
    pub(crate) fn of(alloc: Global, settings: Vec<NumberedSetting>) -> Result<Self, AllocError>
        ensures { IfOk result (λ parts. parts ≡ parts_of settings.items) }
    {
        let mut parts = SectionParts::none(alloc);
        for numbered in settings {
            parts.take(numbered.setting)?;
        }
        Ok(parts)
    }

    fn take(&mut self, setting: Setting) -> Result<(), AllocError>
        ensures { OnOk result (self.new ≡ with_part self.old setting) }
    {
        match setting {
            Setting::Acl(acl) => self.push_acl(acl),
            Setting::UseBackend(rule) => self.push_backend_rule(rule),
            Setting::UseServer(rule) => self.push_server_rule(rule),
            Setting::PinCost(rule) => self.push_cost_rule(rule),
            Setting::StickTable(table) => {
                self.set_table(table);
                Ok(())
            }
            Setting::StickOn(sample) => {
                self.set_sample(sample);
                Ok(())
            }
            _ => Ok(()),
        }
    }

    fn push_acl(&mut self, acl: AclDeclaration) -> Result<(), AllocError>
        ensures { OnOk result (self.new ≡ with_part self.old (Setting.Acl acl)) }
    {
        self.acls.push(acl)?;
        Ok(())
    }

    fn push_backend_rule(&mut self, rule: BackendRule) -> Result<(), AllocError>
        ensures { OnOk result (self.new ≡ with_part self.old (Setting.UseBackend rule)) }
    {
        self.backend_rules.push(rule)?;
        Ok(())
    }

    fn push_server_rule(&mut self, rule: ServerRule) -> Result<(), AllocError>
        ensures { OnOk result (self.new ≡ with_part self.old (Setting.UseServer rule)) }
    {
        self.server_rules.push(rule)?;
        Ok(())
    }

    fn push_cost_rule(&mut self, rule: CostRule) -> Result<(), AllocError>
        ensures { OnOk result (self.new ≡ with_part self.old (Setting.PinCost rule)) }
    {
        self.cost_rules.push(rule)?;
        Ok(())
    }

    fn set_table(&mut self, table: StickTable)
        ensures { self.new ≡ with_part self.old (Setting.StickTable table) }
    {
        self.table = Some(table);
    }

    fn set_sample(&mut self, sample: KeySample)
        ensures { self.new ≡ with_part self.old (Setting.StickOn sample) }
    {
        self.sample = Some(sample);
    }
}
