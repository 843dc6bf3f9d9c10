ghost use Rattle.std.specs.Prelude.{◌≡◌, length};
ghost use Rattle.lb_config.specs.Limits.{limit_of};
ghost use Rattle.lb_routes.specs.RequestsOf.{routes_at, routes_of};

use crate::lessons::lesson_at;
use crate::requests::request_of;
use crate::targets::target_at;
use http_relay_serve::Routing;
use http_relay_talk::{Lesson, Way};
use lb_acl::Head;
use lb_config::{BackendConfig, Config, Frontend};
use lb_desk_model::Request;
use lb_types::{Moment, ServerId};
use std::alloc::{AllocError, Global};
use std::marker::Model;

/// What a configuration says of the requests at one of its frontends.
#[derive(Debug, Drop)]
pub struct ConfigRoutes<'a> {
    frontend: &'a Frontend,
    backends: &'a [BackendConfig],
}

impl<'a> Model for ConfigRoutes<'a> {
    ghost use Rattle.std.specs.Prelude.{length};
    ghost use Rattle.lb_config.specs.ValidConfigs.{LeadsWithin};
    ghost use Rattle.lb_routes.specs.FrontendRoutesView.{FrontendRoutesView};

    ghost Value = { FrontendRoutesView };

    ghost view = { λ routes. record {
      frontend = routes.frontend.now;
      backends = routes.backends.now;
    } };

    ghost invariant = { λ routes. LeadsWithin (length routes.backends.now) routes.frontend.now };
}

impl<'a> ConfigRoutes<'a> {
    /// What the configuration says at its frontend of this place, counted from 0; none where it has no such frontend.
    pub fn at(config: &'a Config, place: usize) -> Option<Self>
        ensures { result ≡ routes_at config.now place }
    {
        let frontend = config.frontends().get(place)?;
        Some(ConfigRoutes {
            frontend,
            backends: config.backends(),
        })
    }

    /// How many milliseconds one read from a client may take, if there is a limit.
    pub fn client_limit(&self) -> Option<u32>
        ensures { result ≡ limit_of self.now.frontend.client_time }
    {
        self.frontend.client_limit()
    }
}

impl Routing for ConfigRoutes<'_> {
    ghost use Rattle.lb_routes.specs.RequestsOf.{routes_of};

    ghost backends = { λ routes. length routes.backends };

    ghost routes = { routes_of };

    fn backend(&self, head: &Head<'_>) -> Option<usize> {
        self.frontend.backend_of(head)
    }

    fn request(
        &self,
        alloc: Global,
        backend: usize,
        head: &Head<'_>,
        moment: Moment,
    ) -> Result<Request, AllocError> {
        request_of(alloc, self.backends, backend, head, moment)
    }

    fn forwards_address(&self, backend: usize) -> bool {
        self.frontend.forward_for() || self.backends[backend].forward_for()
    }

    fn target(&self, backend: usize, server: ServerId) -> Option<Way> {
        target_at(self.backends, backend, server)
    }

    fn lesson(&self, alloc: Global, backend: usize, request: &Request) -> Option<Lesson<'_>> {
        lesson_at(alloc, self.backends, backend, request)
    }
}
