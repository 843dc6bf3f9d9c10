ghost use Rattle.std.specs.Prelude.{◌≡◌, true};
ghost use Rattle.std.specs.List.{list_any};
ghost use Rattle.lb_acl.specs.Bytes.{is_equal};
ghost use Rattle.lb_acl.specs.Fields.{trimmed_parts};
ghost use Rattle.http_relay_forward.specs.Options.{is_option, is_kept};

use crate::names::{CONNECTION, EXPECT};
use lb_acl::{Field, trimmed};
use lb_types_text::Parts;

/// Whether a `Connection` field names this field.
pub(crate) fn is_option(fields: &[Field], name: &[u8]) -> bool
    ensures { result ≡ is_option fields.now name.now }
{
    fields.iter().any(|field| field.is_named(CONNECTION) && has_part(field.value(), name))
}

/// Whether the name is among the comma-separated parts, without regard to case.
fn has_part(value: &[u8], name: &[u8]) -> bool
    ensures { result ≡ list_any (is_equal true name.now) (trimmed_parts 44 value.now) }
{
    let mut parts = Parts::new(value, b',');
    while let Some(part) = parts.next_part() {
        if name.eq_ignore_ascii_case(trimmed(part)) {
            return true;
        }
    }
    false
}

/// Whether the server gets this one of the fields.
pub(crate) fn is_kept(fields: &[Field], field: &Field) -> bool
    ensures { result ≡ is_kept fields.now field.now }
{
    !field.is_named(CONNECTION) && !field.is_named(EXPECT) && !is_option(fields, field.name())
}
