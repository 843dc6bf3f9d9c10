ghost use Rattle.std.specs.Prelude.{nat_eq};
ghost use Rattle.std.specs.Cmp.Lexicographic.{pointwise, nat_list_eq_equiv};
ghost use Rattle.std.specs.Cmp.{partial_equiv_from_equiv};

use lb_types::ServerId;
use std::alloc::AllocError;
use std::marker::Model;

/// The servers of the `use-server` rules that matched a request, in the rules' order. A server may be in it twice.
#[derive(Debug, Drop)]
pub struct RuleList {
    servers: Vec<ServerId>,
}

impl Model for RuleList {
    ghost use Rattle.std.specs.Prelude.{List, ℕ};

    ghost Value = { List ℕ };

    ghost view = { λ rules. rules.servers.items };
}

impl RuleList {
    ghost use Rattle.std.specs.Prelude.{◌≡◌};

    /// The list of these servers, which allocates nothing.
    pub fn new(servers: Vec<ServerId>) -> Self
        ensures { result ≡ servers.items }
    {
        RuleList { servers }
    }

    /// The servers, in the rules' order.
    pub fn servers(&self) -> &[ServerId]
        ensures { result.now ≡ self.now }
    {
        &self.servers
    }
}

impl Clone for RuleList {
    ghost use Rattle.std.specs.Prelude.{◌≡◌};

    ghost is_clone = { λ rules copy. copy ≡ rules };

    /// The same list in memory of its own.
    fn clone(&self) -> Result<RuleList, AllocError> {
        Ok(RuleList {
            servers: Vec::from_slice(*self.servers.allocator(), &self.servers)?,
        })
    }
}

impl PartialEq for RuleList {
    ghost eq = { pointwise nat_eq };

    ghost laws = { partial_equiv_from_equiv nat_list_eq_equiv };

    fn eq(&self, other: &RuleList) -> bool {
        self.servers == other.servers
    }
}

impl Eq for RuleList {
    ghost laws = { nat_list_eq_equiv };
}
