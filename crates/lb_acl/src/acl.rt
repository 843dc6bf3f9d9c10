ghost use Rattle.std.specs.Prelude.{◌≡◌};
ghost use Rattle.std.specs.List.{list_any};
ghost use Rattle.lb_acl.specs.Fields.{trimmed_parts};
ghost use Rattle.lb_acl.specs.Acls.{has_source, value_passes, field_passes, text_holds, line_holds, acl_holds};

use crate::bytes::trimmed;
use crate::{Field, Head, Matching, Network, Text, path_of};
use lb_types_text::Parts;
use std::marker::Model;

/// What a test of texts looks at.
#[derive(Debug, Drop)]
pub enum Sample {
    /// The method: `method`.
    Method,
    /// The path of the target: `path`, `path_beg`, `path_end`.
    Path,
    /// Each comma-separated value of each field of this name: `hdr(name)`, `req.hdr(name)`.
    Field(Text),
}

/// A line of an ACL that compares texts: its criterion, its flag `-i` and its values.
#[derive(Debug, Drop)]
pub struct TextTest {
    sample: Sample,
    matching: Matching,
    ignores_case: bool,
    values: Vec<Text>,
}

impl Model for TextTest {
    ghost use Rattle.lb_acl.specs.TextTestView.{TextTestView};

    ghost Value = { TextTestView };

    ghost view = { λ test. record {
      sample = test.sample;
      matching = test.matching;
      ignores_case = test.ignores_case;
      values = test.values.items;
    } };
}

impl TextTest {
    /// The test that some sample matches some of the values. `ignores_case` is the flag `-i`.
    pub fn new(sample: Sample, matching: Matching, ignores_case: bool, values: Vec<Text>) -> Self
        ensures { result ≡ record {
          sample = sample;
          matching = matching;
          ignores_case = ignores_case;
          values = values.items;
        } }
    {
        TextTest {
            sample,
            matching,
            ignores_case,
            values,
        }
    }

    /// Whether the test holds of the request. Allocates nothing.
    #[tactic(auto, using(crate::proofs::Values::some_field_passes))]
    pub fn holds(&self, head: &Head) -> bool
        ensures { result ≡ text_holds self.now head.now }
    {
        match &self.sample {
            Sample::Method => self.value_passes(head.method()),
            Sample::Path => self.value_passes(path_of(head.target())),
            Sample::Field(name) => self.some_field_passes(name.as_bytes(), head.fields()),
        }
    }

    /// Whether some field has the name and an element that passes.
    fn some_field_passes(&self, name: &[u8], fields: &[Field]) -> bool
        ensures { result ≡ list_any (field_passes self.now name.now) fields.now }
    {
        fields.iter().any(|field| self.field_passes(name, field))
    }

    /// Whether the field has the name and an element that passes.
    fn field_passes(&self, name: &[u8], field: &Field) -> bool
        ensures { result ≡ field_passes self.now name.now field.now }
    {
        field.is_named(name) && self.element_passes(field.value())
    }

    /// Whether some comma-separated element passes.
    fn element_passes(&self, list: &[u8]) -> bool
        ensures { result ≡ list_any (value_passes self.now) (trimmed_parts 44 list.now) }
    {
        let mut parts = Parts::new(list, b',');
        while let Some(part) = parts.next_part() {
            if self.value_passes(trimmed(part)) {
                return true;
            }
        }
        false
    }

    /// Whether the sample matches some value of the line.
    fn value_passes(&self, sample: &[u8]) -> bool
        ensures { result ≡ value_passes self.now sample.now }
    {
        self.values.iter().any(|value| self
            .matching
            .matches(self.ignores_case, sample, value.as_bytes()))
    }
}

/// A line of an ACL that tests the client's address: `src`.
#[derive(Debug, Drop)]
pub struct SourceTest {
    networks: Vec<Network>,
}

impl Model for SourceTest {
    ghost use Rattle.std.specs.Prelude.{List};
    ghost use Rattle.lb_acl.specs.NetworkView.{NetworkView};

    ghost Value = { List NetworkView };

    ghost view = { λ test. test.networks.items };
}

impl SourceTest {
    /// The test that the client's address is in some of the networks.
    pub fn new(networks: Vec<Network>) -> Self
        ensures { result ≡ networks.items }
    {
        SourceTest { networks }
    }

    /// Whether the test holds of the request. Allocates nothing.
    pub fn holds(&self, head: &Head) -> bool
        ensures { result ≡ has_source self.now head.now }
    {
        let source = head.source();
        self.networks.iter().any(|network| network.has(source))
    }
}

/// One line of an ACL.
#[derive(Debug, Drop)]
pub enum AclLine {
    /// A test of the client's address.
    Source(SourceTest),
    /// A test of texts.
    Text(TextTest),
}

impl AclLine {
    /// Whether the line holds of the request. Allocates nothing.
    pub fn holds(&self, head: &Head) -> bool
        ensures { result ≡ line_holds self.now head.now }
    {
        match self {
            AclLine::Source(test) => test.holds(head),
            AclLine::Text(test) => test.holds(head),
        }
    }
}

/// The lines of one name, or the one line of an anonymous ACL. It holds where some line does.
#[derive(Debug, Drop)]
pub struct Acl {
    lines: Vec<AclLine>,
}

impl Model for Acl {
    ghost use Rattle.std.specs.Prelude.{List};
    ghost use Rattle.lb_acl.specs.declared.acl.AclLine.{AclLine};

    ghost Value = { List AclLine };

    ghost view = { λ acl. acl.lines.items };
}

impl Acl {
    /// The ACL of these lines.
    pub fn new(lines: Vec<AclLine>) -> Self
        ensures { result ≡ lines.items }
    {
        Acl { lines }
    }

    /// Whether some line holds of the request. Allocates nothing.
    pub fn holds(&self, head: &Head) -> bool
        ensures { result ≡ acl_holds self.now head.now }
    {
        self.lines.iter().any(|line| line.holds(head))
    }
}
