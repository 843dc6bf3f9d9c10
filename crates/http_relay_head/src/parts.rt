ghost use Rattle.std.specs.Prelude.{◌≡◌};

use http_relay_forward::BodyKind;
use lb_acl::{Field, Head, Version};
use std::marker::Model;
use std::net::Ipv4Addr;

/// A head that was read, how the end of its body is found, and what was read after it.
#[derive(Debug, Drop)]
pub struct ReadHead<'a> {
    pub(crate) method: &'a [u8],
    pub(crate) target: &'a [u8],
    pub(crate) version: Version,
    pub(crate) fields: Vec<Field<'a>>,
    pub(crate) source: Ipv4Addr,
    pub(crate) kind: BodyKind,
    pub(crate) rest: &'a [u8],
}

impl<'a> Model for ReadHead<'a> {
    ghost use Rattle.http_relay_head.specs.ReadHeadView.{ReadHeadView};

    ghost Value = { ReadHeadView };

    ghost view = { λ read. record {
      head = record {
        method = read.method.now;
        target = read.target.now;
        version = read.version;
        fields = read.fields.items;
        source = read.source;
      };
      kind = read.kind;
      rest = read.rest.now;
    } };
}

impl<'a> ReadHead<'a> {
    /// The head, for the rules of the configuration.
    pub fn head(&self) -> Head<'_>
        ensures { result ≡ self.now.head }
    {
        Head::new(
            self.method,
            self.target,
            self.version,
            &self.fields,
            self.source,
        )
    }

    /// How the end of the body is found.
    pub fn body_kind(&self) -> BodyKind
        ensures { result ≡ self.now.kind }
    {
        self.kind
    }

    /// The bytes that were read after the head.
    pub fn rest(&self) -> &'a [u8]
        ensures { result.now ≡ self.now.rest }
    {
        self.rest
    }
}
