ghost use Rattle.std.specs.Prelude.{◌≡◌, ◌<◌, ℕ, IfOk, IfSome};
ghost use Rattle.http_relay_serve.specs.Routes.{Routes};

use http_relay_talk::{Lesson, Way};
use lb_acl::Head;
use lb_desk_model::Request;
use lb_types::{Moment, ServerId};
use std::alloc::{AllocError, Global};

/// What a configuration says of the requests at one of its frontends. Backends are numbered from 0.
pub trait Routing {
    /// How many backends there are.
    ghost backends: { Self → ℕ };

    /// What is said of requests.
    ghost routes: { Self → Routes };

    /// The backend that takes the head, if one does. It allocates nothing.
    fn backend(&self, head: &Head<'_>) -> Option<usize>
        ensures backend { result ≡ (routes self.now).backend head.now }
        ensures within { IfSome result (λ backend. backend < backends self.now) };

    /// What the backend is asked for the head, if it came at this moment: the pin's key, the servers of the rules that match, and the
    /// pin's cost. The only error is out of memory.
    fn request(
        &self,
        alloc: Global,
        backend: usize,
        head: &Head<'_>,
        moment: Moment,
    ) -> Result<Request, AllocError>
        requires { backend < backends self.now }
        ensures asks { IfOk result (λ request. (routes self.now).asks backend head.now request) }
        ensures moment { IfOk result (λ request. request.moment ≡ moment) };

    /// Whether the backend's servers get the client's address.
    fn forwards_address(&self, backend: usize) -> bool
        requires { backend < backends self.now }
        ensures { result ≡ (routes self.now).forwards_address backend };

    /// How the backend's server of this number is reached, if there is one.
    fn target(&self, backend: usize, server: ServerId) -> Option<Way>
        requires { backend < backends self.now }
        ensures target { result ≡ (routes self.now).target backend server }
        ensures server { IfSome result (λ target. target.server ≡ server) };

    /// What the answer to this request may teach the backend, if anything. It allocates nothing: `alloc` gives memory for what is learned.
    fn lesson(&self, alloc: Global, backend: usize, request: &Request) -> Option<Lesson<'_>>
        requires { backend < backends self.now }
        ensures { result ≡ (routes self.now).lesson backend request.now };
}
