ghost use Rattle.std.specs.Prelude.{◌≡◌, ◌≤◌};
ghost use Rattle.lb_acl.specs.Networks.{is_in};

use std::marker::Model;
use std::net::Ipv4Addr;

/// The addresses whose first bits are those of one address.
#[derive(Clone, Copy, Debug)]
pub struct Network {
    address: Ipv4Addr,
    prefix_len: u8,
}

impl Model for Network {
    ghost use Rattle.std.specs.Prelude.{◌≤◌};
    ghost use Rattle.lb_acl.specs.NetworkView.{NetworkView};

    ghost Value = { NetworkView };

    ghost view = { λ network. record {
      address = network.address;
      prefix_len = network.prefix_len;
    } };

    ghost invariant = { λ network. network.prefix_len ≤ 32 };

    ghost inverse = { λ network. record {
      address = network.address;
      prefix_len = network.prefix_len;
    } };
}

impl Network {
    /// The addresses that have the first `prefix_len` bits of `address`: with 32 that one address alone, with 0 all of them.
    pub fn new(address: Ipv4Addr, prefix_len: u8) -> Self
        requires { prefix_len ≤ 32 }
        ensures { result ≡ record { address = address; prefix_len = prefix_len } }
    {
        Network {
            address,
            prefix_len,
        }
    }

    /// Whether the address is one of them.
    pub fn has(self, address: Ipv4Addr) -> bool
        ensures { result ≡ is_in self address }
    {
        let host_bits = 32 - u32::from(self.prefix_len);
        u64::from(address.to_bits()) >> host_bits == u64::from(self.address.to_bits()) >> host_bits
    }
}
