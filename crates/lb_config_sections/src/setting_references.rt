ghost use Rattle.std.specs.Prelude.{◌≡◌};
ghost use Rattle.std.specs.List.{list_all};
ghost use Rattle.lb_config_sections.specs.References.{is_term_known, are_terms_known, is_cond_known, is_optional_cond_known, unless_known, setting_cause, settings_fault};

use crate::names::{SectionNames, has_name};
use crate::{Cause, LocatedFault, NumberedSetting};
use lb_config_conditions::{Alternative, UnresolvedAcl, UnresolvedCond, UnresolvedTerm};
use lb_config_lines::Setting;
use lb_types::Name;

/// The first setting that names nothing, or that sticks without a table.
pub(crate) fn settings_fault(
    backends: &[Name],
    names: &SectionNames,
    settings: &[NumberedSetting],
) -> Option<LocatedFault>
    ensures { result ≡ settings_fault backends.now names.now settings.now }
{
    for numbered in settings {
        if let Some(cause) = setting_cause(backends, names, &numbered.setting) {
            return Some(LocatedFault {
                line: numbered.line,
                cause,
            });
        }
    }
    None
}

/// What is wrong with what the setting names.
#[tactic(auto, unfolding(crate::specs::References::setting_cause))]
fn setting_cause(backends: &[Name], names: &SectionNames, setting: &Setting) -> Option<Cause>
    ensures { result ≡ setting_cause backends.now names.now setting.now }
{
    match setting {
        Setting::UseBackend(rule) => unless_known(
            has_name(backends, &rule.backend) && is_optional_cond_known(names.acls(), &rule.cond),
        ),
        Setting::DefaultBackend(name) => unless_known(has_name(backends, name)),
        Setting::UseServer(rule) => unless_known(
            has_name(names.servers(), &rule.server) && is_cond_known(names.acls(), &rule.cond),
        ),
        Setting::PinCost(rule) => unless_known(is_cond_known(names.acls(), rule.cond())),
        Setting::StickOn(_) => {
            if names.has_table() {
                None
            } else {
                Some(Cause::Missing)
            }
        }
        _ => None,
    }
}

fn unless_known(is_known: bool) -> Option<Cause>
    ensures { result ≡ unless_known is_known }
{
    if is_known {
        None
    } else {
        Some(Cause::NoSuchName)
    }
}

fn is_optional_cond_known(acls: &[Name], cond: &Option<UnresolvedCond>) -> bool
    ensures { result ≡ is_optional_cond_known acls.now cond.now }
{
    match cond {
        Some(cond) => is_cond_known(acls, cond),
        None => true,
    }
}

/// Whether each ACL that the condition names is among these.
fn is_cond_known(acls: &[Name], cond: &UnresolvedCond) -> bool
    ensures { result ≡ is_cond_known acls.now cond.now }
{
    cond.alternatives()
        .iter()
        .all(|alternative| are_terms_known(acls, alternative))
}

fn are_terms_known(acls: &[Name], alternative: &Alternative) -> bool
    ensures { result ≡ are_terms_known acls.now alternative.now }
{
    alternative
        .terms()
        .iter()
        .all(|term| is_term_known(acls, term))
}

fn is_term_known(acls: &[Name], term: &UnresolvedTerm) -> bool
    ensures { result ≡ is_term_known acls.now term.now }
{
    match &term.acl {
        UnresolvedAcl::Named(name) => has_name(acls, name),
        UnresolvedAcl::Anonymous(_) => true,
    }
}
