ghost use Rattle.std.specs.Prelude.{◌≡◌, IfOk, OnOk};
ghost use Rattle.lb_config_values.specs.DefaultsLines.{no_defaults};
ghost use Rattle.lb_config.specs.Configs.{backends_behind, frontends_behind, own_place};
ghost use Rattle.lb_config_keywords.specs.Sections.{is_back, is_front};
ghost use Rattle.lb_config_valid.specs.Numbers.{HasNumbers};
ghost use Rattle.lb_config_valid.specs.Valid.{OfEachSetting};
ghost use Rattle.lb_config.specs.ProxiesSoFar.{no_proxies, with_proxy, with_section, with_sections};
ghost use Rattle.lb_config.specs.SaidInRange.{HaveNumbers};

use crate::proxy::{Basis, read_proxy};
use crate::{BackendConfig, Frontend};
use lb_config_lines::{Header, Section};
use lb_config_rules::place_of;
use lb_config_sections::{ConfigSection, NumberedSetting};
use lb_config_values::Defaults;
use lb_types::Name;
use std::alloc::{AllocError, Global};
use std::marker::Model;

/// The proxies of the sections so far.
#[derive(Drop)]
pub(crate) struct ProxiesSoFar {
    /// What the last `defaults` section says.
    defaults: Defaults,
    frontends: Vec<Frontend>,
    backends: Vec<BackendConfig>,
}

impl Model for ProxiesSoFar {
    ghost use Rattle.lb_config.specs.ProxiesSoFarView.{ProxiesSoFarView};

    ghost Value = { ProxiesSoFarView };

    ghost view = { λ draft. record {
      defaults = draft.defaults;
      frontends = draft.frontends.items;
      backends = draft.backends.items;
    } };

    ghost use Rattle.lb_config.specs.SaidInRange.{AreDefaults};

    ghost invariant = { λ draft. AreDefaults draft.defaults };
}

impl ProxiesSoFar {
    fn none(alloc: Global) -> Self
        ensures { result ≡ no_proxies }
    {
        ProxiesSoFar {
            defaults: Defaults::none(),
            frontends: Vec::new(alloc),
            backends: Vec::new(alloc),
        }
    }

    /// The proxies of the sections.
    fn of(alloc: Global, basis: &Basis, sections: Vec<ConfigSection>) -> Result<Self, AllocError>
        requires { OfEachSetting (λ section. HasNumbers) sections.items }
        ensures { IfOk result (λ draft. draft ≡ with_sections basis.now no_proxies sections.items) }
    {
        let mut draft = ProxiesSoFar::none(alloc);
        for section in sections {
            draft.take(alloc, basis, section)?;
        }
        Ok(draft)
    }

    /// What was read.
    fn into_proxies(self) -> (Vec<Frontend>, Vec<BackendConfig>)
        ensures frontends { result.0.items ≡ self.frontends }
        ensures backends { result.1.items ≡ self.backends }
    {
        let ProxiesSoFar {
            defaults: _,
            frontends,
            backends,
        } = self;
        (frontends, backends)
    }

    /// Takes the next section.
    fn take(
        &mut self,
        alloc: Global,
        basis: &Basis,
        section: ConfigSection,
    ) -> Result<(), AllocError>
        requires { HaveNumbers section.settings }
        ensures { OnOk result (self.new ≡ with_section basis.now self.old section) }
    {
        let Header {
            section: kind,
            name,
        } = *section.header();
        let settings = section.into_settings();
        match kind {
            Section::Defaults => {
                let defaults = Defaults::of(alloc, &settings)?;
                self.defaults = defaults;
                Ok(())
            }
            _ => self.take_proxy(alloc, basis, kind, name, settings),
        }
    }

    fn take_proxy(
        &mut self,
        alloc: Global,
        basis: &Basis,
        kind: Section,
        name: Option<Name>,
        settings: Vec<NumberedSetting>,
    ) -> Result<(), AllocError>
        requires { HaveNumbers settings.items }
        ensures { OnOk result (self.new ≡ with_proxy basis.now self.old kind name settings.items) }
    {
        let Some(name) = name else {
            return Ok(());
        };
        let own = own_place(&basis.backends, kind, &name);
        let (frontend, backend) = read_proxy(alloc, basis, &self.defaults, own, name, settings)?;
        if is_front(kind) {
            self.frontends.push(frontend)?;
        }
        if is_back(kind) {
            self.backends.push(backend)?;
        }
        Ok(())
    }
}

/// The frontends and the backends of the sections, in their order.
pub(crate) fn read_proxies(
    alloc: Global,
    basis: &Basis,
    sections: Vec<ConfigSection>,
) -> Result<(Vec<Frontend>, Vec<BackendConfig>), AllocError>
    requires { OfEachSetting (λ section. HasNumbers) sections.items }
    ensures frontends { IfOk result (λ two. two.0.items ≡ frontends_behind basis.now no_defaults sections.items) }
    ensures backends { IfOk result (λ two. two.1.items ≡ backends_behind basis.now no_defaults sections.items) }
{
    let draft = ProxiesSoFar::of(alloc, basis, sections)?;
    Ok(draft.into_proxies())
}

fn is_front(kind: Section) -> bool
    ensures { result ≡ is_front kind }
{
    match kind {
        Section::Frontend | Section::Listen => true,
        _ => false,
    }
}

fn is_back(kind: Section) -> bool
    ensures { result ≡ is_back kind }
{
    match kind {
        Section::Backend | Section::Listen => true,
        _ => false,
    }
}

/// The backend that the section itself is, where requests go without another.
fn own_place(backends: &[Name], kind: Section, name: &Name) -> Option<usize>
    ensures { result ≡ own_place backends.now kind name.now }
{
    match kind {
        Section::Listen => place_of(backends, name),
        _ => None,
    }
}
