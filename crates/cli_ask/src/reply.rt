//! A request as bytes, and bytes as an answer.

ghost use Rattle.std.specs.Prelude.{◌≡◌, Err, IfOk, All, length, map, option_map};
ghost use Rattle.std.specs.Str.{str_eq_ignore_ascii_case};
ghost use Rattle.httparse.specs.Spans.{IsHeaderWithin, header_bytes};
ghost use Rattle.cli_ask.specs.Calls.{call_value};
ghost use Rattle.cli_ask.specs.Replies.{request_bytes, number, text_of, field_in, number_in};
ghost use Rattle.cli_ask.specs.Replies.{has_length};
ghost use Rattle.cli_ask.specs.Replies.{reply_value, IsAnswer, IsNoAnswer};

use crate::call::Call;
use crate::exchange::{Answered, AskFault, Reply};
use httparse::Status;
use httparse::spans::{EMPTY_HEADER_SPAN, HeaderSpan, parse_response};
use std::alloc::{AllocError, Global};

/// How many fields an answer's head has at most.
const FIELDS: usize = 64;

/// The request's bytes: its head, with the body's length, and the body.
pub(crate) fn request_bytes(alloc: Global, call: &Call) -> Result<Vec<u8>, AllocError>
    ensures { IfOk result (λ v. v.items ≡ request_bytes (call_value call.now)) }
{
    let (method, target, len) = (call.method, call.target.as_str(), call.body.len());
    let mut head = String::new(alloc);
    write!(
        head,
        "{method} {target} HTTP/1.1\r\nhost: pfx\r\nconnection: close\r\n"
    )?;
    write!(head, "content-length: {len}\r\n\r\n")?;
    let mut bytes = head.into_bytes();
    bytes.extend_from_slice(call.body.as_slice())?;
    Ok(bytes)
}

/// Bytes as text, none where they aren't UTF-8.
#[tactic(auto, using(pf_scripts::proofs::LinesCut::utf8_text, pf_scripts::proofs::LinesCut::no_text))]
pub(crate) fn text_in(bytes: &[u8]) -> Option<&str>
    ensures { option_map (λ s. s.now) result ≡ text_of bytes.now }
{
    std::str::from_utf8(bytes).ok()
}

/// The number that digits write, perhaps behind a plus, none from 2^32 on, and where they aren't UTF-8.
#[tactic(auto, using(cli_io::proofs::Digits::number_read, cli_io::proofs::Digits::no_number))]
pub(crate) fn number(bytes: &[u8]) -> Option<u32>
    ensures { result ≡ number bytes.now }
{
    text_in(bytes)?.parse().ok()
}

/// Whether two names of fields are the same, whatever the case of their letters.
fn is_named(name: &[u8], wanted: &[u8]) -> bool
    ensures { result ≡ str_eq_ignore_ascii_case name.now wanted.now }
{
    name.eq_ignore_ascii_case(wanted)
}

/// The value of the first of the answer's fields that has this name.
fn field_in<'a>(bytes: &'a [u8], fields: &[HeaderSpan], wanted: &[u8]) -> Option<&'a [u8]>
    requires { All (IsHeaderWithin (length bytes.now)) fields.now }
    ensures { option_map (λ v. v.now) result ≡ field_in wanted.now (map (header_bytes bytes.now) fields.now) }
{
    let mut left = fields;
    while let [field, rest @ ..] = left {
        if is_named(field.name.of(bytes), wanted) {
            return Some(field.value.of(bytes));
        }
        left = rest;
    }
    None
}

/// The number in a field of the answer.
fn number_in(bytes: &[u8], fields: &[HeaderSpan], name: &[u8]) -> Option<u32>
    requires { All (IsHeaderWithin (length bytes.now)) fields.now }
    ensures { result ≡ number_in name.now (map (header_bytes bytes.now) fields.now) }
{
    number(field_in(bytes, fields, name)?)
}

/// Whether the answer's header fields give its body this length, or give none.
fn has_length(bytes: &[u8], fields: &[HeaderSpan], len: usize) -> bool
    requires { All (IsHeaderWithin (length bytes.now)) fields.now }
    ensures { result ≡ has_length len (map (header_bytes bytes.now) fields.now) }
{
    field_in(bytes, fields, b"content-length").is_none_or(|value| number(value).is_some_and(
        |number| number as usize == len,
    ))
}

/// The answer that the bytes are. `BadAnswer` where they are none.
pub(crate) fn reply_in(alloc: Global, bytes: &[u8]) -> Answered
    ensures answer { IfOk result (λ r. IsAnswer bytes.now (reply_value r)) }
    ensures none { result ≡ Err AskFault.BadAnswer → IsNoAnswer bytes.now }
    ensures some { result ≡ Err AskFault.NoAnswer → ⊥ }
{
    let mut fields = [EMPTY_HEADER_SPAN; FIELDS];
    let Ok(Status::Complete(head)) = parse_response(bytes, &mut fields) else {
        return Err(AskFault::BadAnswer);
    };
    let body = &bytes[head.len..];
    let fields = &fields[..head.headers];
    if !has_length(bytes, fields, body.len()) {
        return Err(AskFault::BadAnswer);
    }
    Ok(Reply {
        code: head.code,
        body: Vec::from_slice(alloc, body)?,
        front: number_in(bytes, fields, b"pfx-front"),
        applied: number_in(bytes, fields, b"pfx-applied"),
    })
}
