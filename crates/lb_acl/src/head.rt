ghost use Rattle.std.specs.Prelude.{◌≡◌};
ghost use Rattle.lb_acl.specs.Fields.{is_named};

use crate::bytes::is_equal;
use std::marker::Model;
use std::net::Ipv4Addr;

/// The version in a request line.
#[derive(Clone, Copy, Debug, PartialEq, Eq)]
pub enum Version {
    /// `HTTP/1.0`.
    Http10,
    /// `HTTP/1.1`.
    Http11,
}

/// A field line of a head, its name and value as they came.
#[derive(Debug, Drop)]
pub struct Field<'a> {
    name: &'a [u8],
    value: &'a [u8],
}

impl<'a> Model for Field<'a> {
    ghost use Rattle.lb_acl.specs.FieldView.{FieldView};

    ghost Value = { FieldView };

    ghost view = { λ field. record {
      name = field.name.now;
      value = field.value.now;
    } };
}

impl<'a> Field<'a> {
    /// The field of this name and value.
    pub fn new(name: &'a [u8], value: &'a [u8]) -> Self
        ensures { result ≡ record { name = name.now; value = value.now } }
    {
        Field { name, value }
    }

    /// The name as it came.
    pub fn name(&self) -> &'a [u8]
        ensures { result.now ≡ self.now.name }
    {
        self.name
    }

    /// The value as it came, blanks round it included.
    pub fn value(&self) -> &'a [u8]
        ensures { result.now ≡ self.now.value }
    {
        self.value
    }

    /// Whether the field has this name, without regard to the case of ASCII letters.
    pub fn is_named(&self, name: &[u8]) -> bool
        ensures { result ≡ is_named name.now self.now }
    {
        is_equal(true, self.name, name)
    }
}

/// What rules read of a request: its head as it came, and the client's address.
#[derive(Debug, Drop)]
pub struct Head<'a> {
    method: &'a [u8],
    target: &'a [u8],
    version: Version,
    fields: &'a [Field<'a>],
    source: Ipv4Addr,
}

impl<'a> Model for Head<'a> {
    ghost use Rattle.lb_acl.specs.HeadView.{HeadView};

    ghost Value = { HeadView };

    ghost view = { λ head. record {
      method = head.method.now;
      target = head.target.now;
      version = head.version;
      fields = head.fields.now;
      source = head.source;
    } };
}

impl<'a> Head<'a> {
    /// The head of these parts. `fields` are all field lines in their order.
    pub fn new(
        method: &'a [u8],
        target: &'a [u8],
        version: Version,
        fields: &'a [Field<'a>],
        source: Ipv4Addr,
    ) -> Self
        ensures { result ≡ record {
          method = method.now;
          target = target.now;
          version = version;
          fields = fields.now;
          source = source;
        } }
    {
        Head {
            method,
            target,
            version,
            fields,
            source,
        }
    }

    /// The method.
    pub fn method(&self) -> &'a [u8]
        ensures { result.now ≡ self.now.method }
    {
        self.method
    }

    /// The request target as it came.
    pub fn target(&self) -> &'a [u8]
        ensures { result.now ≡ self.now.target }
    {
        self.target
    }

    /// The version.
    pub fn version(&self) -> Version
        ensures { result ≡ self.now.version }
    {
        self.version
    }

    /// The field lines in their order.
    pub fn fields(&self) -> &'a [Field<'a>]
        ensures { result.now ≡ self.now.fields }
    {
        self.fields
    }

    /// The client's address.
    pub fn source(&self) -> Ipv4Addr
        ensures { result ≡ self.now.source }
    {
        self.source
    }
}
