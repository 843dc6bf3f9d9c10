ghost use Rattle.std.specs.Prelude.{◌≡◌, IfSome, All};
ghost use Rattle.lb_config_arguments.specs.Ranges.{IsPort};
ghost use Rattle.lb_config.specs.Limits.{limit_of};
ghost use Rattle.lb_config.specs.Fronts.{backend_of};
ghost use Rattle.lb_config.specs.Ranges.{IsLimit};

use crate::backend::limit_of;
use lb_acl::Head;
use lb_config_rules::{FrontRules, chosen};
use lb_types::Name;
use std::marker::Model;

/// A frontend: where clients reach it, and which backends their requests go to.
#[derive(Debug, Drop)]
pub struct Frontend {
    pub(crate) name: Name,
    pub(crate) forward_for: bool,
    pub(crate) client_time: Option<u32>,
    pub(crate) default_backend: Option<usize>,
    pub(crate) rules: FrontRules,
}

impl Model for Frontend {
    ghost use Rattle.lb_config.specs.ConfigViews.{FrontendView};

    ghost Value = { FrontendView };

    ghost view = { λ frontend. record {
      name = frontend.name;
      forward_for = frontend.forward_for;
      client_time = frontend.client_time;
      default_backend = frontend.default_backend;
      rules = frontend.rules;
    } };

    ghost use Rattle.lb_config.specs.Ranges.{HasFrontRanges};

    ghost invariant = { λ frontend. HasFrontRanges (record {
      name = frontend.name;
      forward_for = frontend.forward_for;
      client_time = frontend.client_time;
      default_backend = frontend.default_backend;
      rules = frontend.rules;
    }) };
}

impl Frontend {
    /// The frontend's name.
    pub fn name(&self) -> Name
        ensures { result ≡ self.now.name }
    {
        self.name
    }

    /// Whether the client's address is sent to the servers.
    pub fn forward_for(&self) -> bool
        ensures { result ≡ self.now.forward_for }
    {
        self.forward_for
    }

    /// How many milliseconds one read from a client may take, 1 to 2147483647, if there is a limit.
    pub fn client_limit(&self) -> Option<u32>
        ensures exact { result ≡ limit_of self.now.client_time }
        ensures in_range { IfSome result IsLimit }
    {
        limit_of(self.client_time)
    }

    /// Where it listens, at ports of 1 to 65535, and its rules `use_backend`.
    pub fn rules(&self) -> &FrontRules
        ensures exact { result.now ≡ self.now.rules }
        ensures ports { All (λ endpoint. IsPort endpoint.port) self.now.rules.binds }
    {
        &self.rules
    }

    /// The backend of the request, by its place among the configuration's backends; none where no rule applies and there is no
    /// default. Allocates nothing.
    pub fn backend_of(&self, head: &Head) -> Option<usize>
        ensures { result ≡ backend_of self.now head.now }
    {
        chosen(self.rules.choices(), head).or(self.default_backend)
    }
}
