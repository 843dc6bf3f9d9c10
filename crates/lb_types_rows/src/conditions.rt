use crate::requests::{fields, head, text};
use lb_acl::{
    Acl, AclLine, Cond, Conjunction, Matching, Network, PinCost, Polarity, Sample, SourceTest,
    Term, TextTest, UseServer, designated, pin_cost,
};
use lb_types::ServerId;
use std::net::Ipv4Addr;
use std::process::Abort;
use std::sync::Arc;

/// An ACL of one line with one value.
fn acl<R: AllocGlobal + Abort>(
    rt: &R,
    sample: Sample,
    matching: Matching,
    ignores_case: bool,
    value: &str,
) -> Arc<Acl> {
    let alloc = rt.alloc();
    let value = text(alloc, value).expect(rt, "memory");
    let values = vec![in alloc; value].expect(rt, "memory");
    let line = AclLine::Text(TextTest::new(sample, matching, ignores_case, values));
    let lines = vec![in alloc; line].expect(rt, "memory");
    Arc::new(alloc, Acl::new(lines)).expect(rt, "memory")
}

/// What an ACL on texts looks at.
#[derive(Clone, Copy, Debug)]
enum Of {
    Path,
    FieldX,
}

fn sample<R: AllocGlobal + Abort>(rt: &R, of: Of) -> Sample {
    match of {
        Of::Path => Sample::Path,
        Of::FieldX => Sample::Field(text(rt.alloc(), "x").expect(rt, "memory")),
    }
}

/// What an ACL looks at, how it compares, whether it ignores case, its value, a target, and whether it holds for it.
const ACLS: &[(Of, Matching, bool, &str, &str, bool)] = &[
    (Of::Path, Matching::Ends, true, ".JPG", "/a.jpg?x", true),
    (Of::Path, Matching::Ends, false, ".JPG", "/a.jpg?x", false),
    (Of::Path, Matching::Equal, false, "/a.jpg", "/a.jpg?x", true),
    (
        Of::Path,
        Matching::Equal,
        false,
        "/a.jpg?x",
        "/a.jpg?x",
        false,
    ),
    (
        Of::Path,
        Matching::Begins,
        false,
        "/a.",
        "http://h/a.jpg",
        true,
    ),
    (Of::Path, Matching::Begins, true, "/A.", "/a.jpg", true),
    (
        Of::Path,
        Matching::Begins,
        false,
        "/a.jpg/",
        "/a.jpg",
        false,
    ),
    (Of::Path, Matching::Ends, false, "x/a.jpg", "/a.jpg", false),
    (Of::FieldX, Matching::Equal, false, "a", "/", true),
    (Of::FieldX, Matching::Equal, false, "b", "/", true),
    (Of::FieldX, Matching::Equal, false, "c", "/", true),
    (Of::FieldX, Matching::Equal, false, "d", "/", true),
    (Of::FieldX, Matching::Equal, false, "", "/", true),
    (Of::FieldX, Matching::Equal, false, "z", "/", false),
    (Of::FieldX, Matching::Equal, false, "a, b", "/", false),
    (Of::FieldX, Matching::Equal, false, "A", "/", false),
];

// A path is compared without its query, and of fields each value of each field of the name is.
#[test]
fn acls_and_the_requests_that_they_hold_for(rt: HostRuntime) {
    let lines = &[("X", "a, b"), ("Y", "z"), ("x", "c , d,")];
    let lines = fields(rt.alloc(), lines).expect(&rt, "memory");
    for (of, matching, ignores_case, value, target, holds) in ACLS {
        let acl = acl(&rt, sample(&rt, *of), *matching, *ignores_case, *value);
        let found = acl.holds(&head("GET", *target, &lines));
        assert_eq!(rt; found, *holds, "{of:?} {value} with {target}");
    }
}

/// A network by an address and the length of its prefix, and whether the client is in it.
const NETWORKS: &[([u8; 4], u8, bool)] = &[
    ([127, 0, 0, 1], 32, true),
    ([127, 0, 0, 2], 32, false),
    ([127, 0, 0, 3], 30, true),
    ([127, 255, 0, 0], 8, true),
    ([128, 0, 0, 1], 8, false),
    ([10, 0, 0, 1], 0, true),
];

#[test]
fn networks_and_the_clients_in_them(rt: HostRuntime) {
    for (address, prefix_len, holds) in NETWORKS {
        let network = Network::new(Ipv4Addr::from(*address), *prefix_len);
        let networks = vec![in rt.alloc(); network].expect(&rt, "memory");
        let line = AclLine::Source(SourceTest::new(networks));
        let lines = vec![in rt.alloc(); line].expect(&rt, "memory");
        let found = Acl::new(lines).holds(&head("GET", "/", &[]));
        assert_eq!(rt; found, *holds, "{address:?}/{prefix_len}");
    }
}

fn method_is<R: AllocGlobal + Abort>(rt: &R, method: &str) -> Arc<Acl> {
    acl(rt, Sample::Method, Matching::Equal, false, method)
}

/// `if get path_a or !post`.
fn get_path_a_or_not_post<R: AllocGlobal + Abort>(rt: &R) -> Cond {
    let alloc = rt.alloc();
    let get = Term::new(false, method_is(rt, "GET"));
    let path = Term::new(false, acl(rt, Sample::Path, Matching::Equal, false, "/a"));
    let post = Term::new(true, method_is(rt, "POST"));
    let first = Conjunction::new(vec![in alloc; get, path].expect(rt, "memory"));
    let second = Conjunction::new(vec![in alloc; post].expect(rt, "memory"));
    let alternatives = vec![in alloc; first, second].expect(rt, "memory");
    Cond::new(Polarity::If, alternatives)
}

/// A method, a target, and whether `get path_a or !post` holds for the two.
const REQUESTS: &[(&str, &str, bool)] = &[
    ("GET", "/a", true),
    ("GET", "/b", true),
    ("POST", "/a", false),
    ("PUT", "/b", true),
];

// `get path_a or !post` is `(get and path_a) or (not post)`.
#[test]
fn or_binds_looser_than_and(rt: HostRuntime) {
    let cond = get_path_a_or_not_post(&rt);
    for (method, target, holds) in REQUESTS {
        let found = cond.eval(&head(*method, *target, &[]));
        assert_eq!(rt; found, *holds, "{method} {target}");
    }
}

/// `if` or `unless` the method is this one.
fn on_method<R: AllocGlobal + Abort>(rt: &R, polarity: Polarity, method: &str) -> Cond {
    let term = Term::new(false, method_is(rt, method));
    let terms = Conjunction::new(vec![in rt.alloc(); term].expect(rt, "memory"));
    Cond::new(polarity, vec![in rt.alloc(); terms].expect(rt, "memory"))
}

/// `use-server` by this server, if the method is this one.
fn use_server<R: AllocGlobal + Abort>(
    rt: &R,
    server: u8,
    polarity: Polarity,
    method: &str,
) -> UseServer {
    UseServer {
        server: ServerId::new(server % 128),
        cond: on_method(rt, polarity, method),
    }
}

#[test]
fn rules_of_servers_are_taken_in_order(rt: HostRuntime) {
    let alloc = rt.alloc();
    let rules = vec![in alloc;
        use_server(&rt, 2, Polarity::If, "GET"),
        use_server(&rt, 0, Polarity::If, "PUT"),
        use_server(&rt, 1, Polarity::Unless, "PUT"),
    ]
    .expect(&rt, "memory");
    let by_rules = designated(alloc, &rules, &head("GET", "/", &[])).expect(&rt, "memory");
    let by_none = designated(alloc, &[], &head("GET", "/", &[])).expect(&rt, "memory");
    let found = (by_rules.as_slice(), by_none.is_empty());
    let wanted = [ServerId::new(2), ServerId::new(1)];
    assert_eq!(rt; found, (wanted.as_slice(), true));
}

#[test]
fn rules_of_costs_are_taken_in_order(rt: HostRuntime) {
    let rules = vec![in rt.alloc();
        PinCost::new(7, on_method(&rt, Polarity::If, "GET")),
        PinCost::new(1000, on_method(&rt, Polarity::Unless, "PUT")),
    ]
    .expect(&rt, "memory");
    let found = [
        pin_cost(&rules, &head("GET", "/", &[])),
        pin_cost(&rules, &head("POST", "/", &[])),
        pin_cost(&rules, &head("PUT", "/", &[])),
    ];
    assert_eq!(rt; found, [7, 1000, 1]);
}
