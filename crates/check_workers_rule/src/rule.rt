ghost use Rattle.std.specs.Prelude.{◌≡◌, Some, None, IfOk, OnOk, ◌++◌};
ghost use Rattle.std.specs.Option.{option_map};
ghost use Rattle.check_workers_rule.specs.CheckRequests.{check_request, check_fields};

use crate::RequestLine;
use lb_acl::Version;
use std::alloc::{AllocError, Global};
use std::marker::Model;
use std::net::Ipv4Addr;

/// How a server is checked: by connecting alone, or by a request as well.
#[derive(Debug, Drop)]
pub struct CheckRule {
    request: Option<OwnRequest>,
}

/// The request of one server. Its line is shared with others, its fields are its own: at most 31 bytes with the empty line.
#[derive(Debug, Drop)]
struct OwnRequest {
    line: RequestLine,
    fields: Vec<u8>,
}

/// The bytes that a check sends, in two parts, one after the other.
#[derive(Clone, Copy, Debug, PartialEq, Eq)]
pub struct CheckRequest<'a> {
    /// The request line, with its CR LF.
    pub line: &'a [u8],
    /// The fields, each with its CR LF, and the empty line.
    pub fields: &'a [u8],
}

impl Model for CheckRule {
    ghost use Rattle.std.specs.Prelude.{ℕ, List, Option, ◌++◌};
    ghost use Rattle.std.specs.Option.{option_map};

    // The bytes that are sent, or none where connecting is all.
    ghost Value = { Option (List ℕ) };

    ghost view = { λ rule. option_map (λ request. request.line.text ++ request.fields.items) rule.request };
}

impl CheckRule {
    /// A check that connects and sends nothing.
    pub fn connect() -> Self
        ensures { result ≡ None }
    {
        CheckRule { request: None }
    }

    /// A check that sends a request under this line to the server at `address` and `port`. The line isn't copied. The only error
    /// is out of memory.
    pub fn http(
        alloc: Global,
        line: &RequestLine,
        address: Ipv4Addr,
        port: u16,
    ) -> Result<Self, AllocError>
        ensures { IfOk result (λ rule. rule ≡ Some (check_request line.now address port)) }
    {
        let mut fields = Vec::new(alloc);
        push_fields(alloc, &mut fields, line.version(), address, port)?;
        fields.extend_from_slice(b"\r\n")?;
        Ok(CheckRule {
            request: Some(OwnRequest {
                line: line.share()?,
                fields,
            }),
        })
    }

    /// The bytes that the check sends, or none where it only connects.
    pub fn request(&self) -> Option<CheckRequest<'_>>
        ensures { option_map (λ request. request.line.now ++ request.fields.now) result ≡ self.now }
    {
        match &self.request {
            Some(request) => Some(CheckRequest {
                line: request.line.as_bytes(),
                fields: request.fields.as_slice(),
            }),
            None => None,
        }
    }
}

fn push_fields(
    alloc: Global,
    fields: &mut Vec<u8>,
    version: Version,
    address: Ipv4Addr,
    port: u16,
) -> Result<(), AllocError>
    ensures { OnOk result (fields.new.items ≡ fields.old.items ++ check_fields version address port) }
{
    if version == Version::Http10 {
        return Ok(());
    }
    fields.extend_from_slice(b"Host: ")?;
    fields.extend_from_slice(address.to_string(alloc)?.as_bytes())?;
    fields.extend_from_slice(b":")?;
    fields.extend_from_slice(port.to_string(alloc)?.as_bytes())?;
    fields.extend_from_slice(b"\r\n")?;
    Ok(())
}
