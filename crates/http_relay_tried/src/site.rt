//! The configuration of a round: two backends, of which each has one server.

ghost use Rattle.std.specs.Prelude.{◌≡◌, ◌==◌, Some, None, IfOk, if◌then◌else◌};
ghost use Rattle.lb_acl.specs.Keys.{IsKeyOf};
ghost use Rattle.http_relay_tried.specs.Sites.{backend_for, lesson_by};

use http_relay_serve::Routing;
use http_relay_talk::{Lesson, Way};
use lb_acl::{Head, StickOn, Version, pin_key};
use lb_desk_model::{Request, RuleList};
use lb_types::{Moment, ServerId, ServerSet};
use std::alloc::{AllocError, Global};

/// What a move of a pin costs at each backend.
pub(crate) const COST: u16 = 3;

/// A backend.
#[derive(Drop)]
pub(crate) struct Place {
    /// It takes heads.
    pub(crate) takes: bool,
    /// How its server is reached.
    pub(crate) target: Way,
    pub(crate) forwards_address: bool,
    pub(crate) pattern: StickOn,
    /// Answers may teach pins.
    pub(crate) learns: bool,
}

impl Place {
    /// What the backend is asked for.
    fn request(&self, alloc: Global, head: &Head<'_>, moment: Moment) -> Result<Request, AllocError>
        ensures asks { IfOk result (λ request. IsKeyOf self.now.pattern head.now request.key) }
        ensures moment { IfOk result (λ request. request.moment ≡ moment) }
    {
        Ok(Request {
            key: pin_key(alloc, &self.pattern, head)?,
            rules: RuleList::new(Vec::new(alloc)),
            cost: COST,
            moment,
        })
    }

    /// What the answer to the request may teach.
    fn lesson(&self, alloc: Global, request: &Request) -> Option<Lesson<'_>>
        ensures { result ≡ lesson_by self.now.learns self.now.pattern request.now }
    {
        if !self.learns {
            return None;
        }
        Some(Lesson::new(
            alloc,
            &self.pattern,
            ServerSet::empty(),
            request.cost,
            request.moment,
        ))
    }

    /// How the server of this number is reached.
    fn target_of(&self, server: ServerId) -> Option<Way>
        ensures { result ≡ (if server == self.now.target.server then Some self.now.target else None) }
    {
        if server == self.target.server {
            Some(self.target)
        } else {
            None
        }
    }
}

/// A configuration. The first backend takes the heads of HTTP/1.0, the second those of HTTP/1.1.
#[derive(Drop)]
pub(crate) struct Site {
    pub(crate) first: Place,
    pub(crate) second: Place,
}

impl Site {
    /// The backend that heads of this version are for.
    pub(crate) fn place_for(&self, version: Version) -> &Place {
        match version {
            Version::Http10 => &self.first,
            Version::Http11 => &self.second,
        }
    }
}

impl Routing for Site {
    ghost use Rattle.http_relay_serve.specs.Routes.{Routes};

    ghost backends = { λ _. 2 };

    ghost routes = { λ site. record {
      backend = λ head. backend_for site.first.takes site.second.takes head.version;
      asks = λ backend head request.
          IsKeyOf (if backend == 0 then site.first.pattern else site.second.pattern) head request.key;
      forwards_address = λ backend. if backend == 0 then site.first.forwards_address else site.second.forwards_address;
      target = λ backend server. if backend == 0
          then (if server == site.first.target.server then Some site.first.target else None)
          else (if server == site.second.target.server then Some site.second.target else None);
      lesson = λ backend request. if backend == 0
          then lesson_by site.first.learns site.first.pattern request
          else lesson_by site.second.learns site.second.pattern request;
    } };

    fn backend(&self, head: &Head<'_>) -> Option<usize> {
        match head.version() {
            Version::Http10 => { if self.first.takes { Some(0) } else { None } }
            Version::Http11 => { if self.second.takes { Some(1) } else { None } }
        }
    }

    fn request(
        &self,
        alloc: Global,
        backend: usize,
        head: &Head<'_>,
        moment: Moment,
    ) -> Result<Request, AllocError> {
        if backend == 0 {
            self.first.request(alloc, head, moment)
        } else {
            self.second.request(alloc, head, moment)
        }
    }

    fn forwards_address(&self, backend: usize) -> bool {
        if backend == 0 {
            self.first.forwards_address
        } else {
            self.second.forwards_address
        }
    }

    fn target(&self, backend: usize, server: ServerId) -> Option<Way> {
        if backend == 0 {
            self.first.target_of(server)
        } else {
            self.second.target_of(server)
        }
    }

    fn lesson(&self, alloc: Global, backend: usize, request: &Request) -> Option<Lesson<'_>> {
        if backend == 0 {
            self.first.lesson(alloc, request)
        } else {
            self.second.lesson(alloc, request)
        }
    }
}
