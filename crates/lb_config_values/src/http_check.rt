ghost use Rattle.std.specs.Prelude.{◌≡◌, Some, None, IfOk};
ghost use Rattle.std.specs.Option.{option_copied, option_map, option_or};
ghost use Rattle.lb_config_values.specs.Servers.{check_request_at};
ghost use Rattle.lb_config_values.specs.Values.{check_line_in, last_said, request_line_of};

use check_workers_rule::{CheckRule, RequestLine};
use lb_config_arguments::Endpoint;
use lb_config_lines::{HttpCheck, Setting};
use lb_config_sections::NumberedSetting;
use std::alloc::{AllocError, Global};
use std::marker::Model;

/// The request line of the last `option httpchk`, if there is one. Sections and servers that are checked under it share it, since it
/// may be long.
#[derive(Debug, Drop)]
pub struct SharedCheck {
    line: Option<RequestLine>,
}

impl Model for SharedCheck {
    ghost use Rattle.std.specs.Prelude.{Option};
    ghost use Rattle.check_workers_rule.specs.CheckRequests.{CheckLine};

    ghost Value = { Option CheckLine };

    ghost view = { λ shared. shared.line };
}

impl SharedCheck {
    /// Nothing is said.
    pub fn none() -> Self
        ensures { result ≡ None }
    {
        SharedCheck { line: None }
    }

    /// The last `option httpchk` of the settings, or this one if they have none. The only error is out of memory.
    pub fn behind(&self, alloc: Global, settings: &[NumberedSetting]) -> Result<Self, AllocError>
        ensures { IfOk result (λ check. check ≡ last_said self.now check_line_in settings.now) }
    {
        match last_http_check(settings) {
            Some(check) => SharedCheck::of(alloc, check),
            None => self.share(),
        }
    }

    fn of(alloc: Global, check: &HttpCheck) -> Result<Self, AllocError>
        ensures { IfOk result (λ shared. shared ≡ Some (request_line_of check.now)) }
    {
        let (method, uri) = (check.method.as_bytes(), check.uri.as_bytes());
        let line = RequestLine::new(alloc, method, uri, check.version)?;
        Ok(SharedCheck { line: Some(line) })
    }

    /// The same once more, without a copy of its line.
    fn share(&self) -> Result<Self, AllocError>
        ensures { IfOk result (λ shared. shared ≡ self.now) }
    {
        match &self.line {
            Some(line) => Ok(SharedCheck {
                line: Some(line.share()?),
            }),
            None => Ok(SharedCheck::none()),
        }
    }

    /// How a server at the endpoint is checked. The line isn't copied.
    pub(crate) fn rule_at(&self, alloc: Global, endpoint: Endpoint) -> Result<CheckRule, AllocError>
        ensures { IfOk result (λ rule. rule ≡ check_request_at self.now endpoint) }
    {
        match &self.line {
            Some(line) => CheckRule::http(alloc, line, endpoint.address, endpoint.port),
            None => Ok(CheckRule::connect()),
        }
    }
}

/// The last `option httpchk` of the settings.
fn last_http_check(settings: &[NumberedSetting]) -> Option<&HttpCheck>
    ensures { option_map request_line_of (option_copied result) ≡ last_said None check_line_in settings.now }
{
    let mut found = None;
    for numbered in settings {
        found = later_check(found, &numbered.setting);
    }
    found
}

fn later_check<'a>(found: Option<&'a HttpCheck>, setting: &'a Setting) -> Option<&'a HttpCheck>
    ensures { option_map request_line_of (option_copied result)
        ≡ option_or (check_line_in setting.now) (option_map request_line_of (option_copied found.entry)) }
{
    match setting {
        Setting::HttpCheck(check) => Some(check),
        _ => found,
    }
}
