ghost use Rattle.std.specs.Prelude.{◌≡◌, IfOk, All, length, map};
ghost use Rattle.httparse.specs.Spans.{IsHeaderWithin, IsRequestWithin};
ghost use Rattle.http_relay_head.specs.Heads.{version_of};
ghost use Rattle.http_relay_head.specs.Scans.{field_at, Assembles};

use crate::fault::HeadFault;
use crate::parts::ReadHead;
use http_relay_forward::body_kind;
use httparse::spans::{HeaderSpan, RequestSpans};
use lb_acl::{Field, Head, Version};
use std::alloc::{AllocError, Global};
use std::net::Ipv4Addr;

/// Makes a head of its parts, if the rules don't refuse it.
pub(crate) fn assemble<'a>(
    alloc: Global,
    bytes: &'a [u8],
    headers: &[HeaderSpan],
    spans: RequestSpans,
    source: Ipv4Addr,
) -> Result<ReadHead<'a>, HeadFault>
    requires { IsRequestWithin bytes.now headers.now spans }
    ensures { Assembles bytes.now headers.now spans source result }
{
    let fields = fields_at(alloc, bytes, &headers[..spans.headers])?;
    let method = spans.method.of(bytes);
    let target = spans.path.of(bytes);
    let version = version_of(spans.version);
    let kind = body_kind(&Head::new(method, target, version, &fields, source))?;
    let (_, rest) = bytes.split_at(spans.len);
    Ok(ReadHead {
        method,
        target,
        version,
        fields,
        source,
        kind,
        rest,
    })
}

fn version_of(minor: u8) -> Version
    ensures { result ≡ version_of minor }
{
    if minor == 0 {
        Version::Http10
    } else {
        Version::Http11
    }
}

fn fields_at<'a>(
    alloc: Global,
    bytes: &'a [u8],
    headers: &[HeaderSpan],
) -> Result<Vec<Field<'a>>, AllocError>
    requires { All (IsHeaderWithin (length bytes.now)) headers.now }
    ensures { IfOk result (λ fields. fields.items ≡ map (field_at bytes.now) headers.now) }
{
    let mut fields = Vec::with_capacity(alloc, headers.len())?;
    for header in headers {
        fields.push(Field::new(header.name.of(bytes), header.value.of(bytes)))?;
    }
    Ok(fields)
}
