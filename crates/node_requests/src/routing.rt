//! From HTTP to requests.

ghost use Rattle.std.specs.Prelude.{◌≡◌, IfOk, map, option_map, option_copied, if◌then◌else◌, Some, None};
ghost use Rattle.std.specs.List.{before_first, after_first};
ghost use Rattle.std.specs.Str.Lines.{lines};
ghost use Rattle.pf_arguments.specs.Answers.{Answers};
ghost use Rattle.pf_arguments.specs.Asked.{Asked};
ghost use Rattle.node_requests.specs.inner.Parameters.{pairs_of};
ghost use Rattle.node_requests.specs.Routing.{is_newline, change_asked, lines_in, reads, routed_value, lists};
ghost use Rattle.node_requests.specs.Routing.{entry_asked};
ghost use Rattle.node_requests.specs.Routing.{test_asked, asked_at};
ghost use Rattle.node_requests.specs.Routing.{request_number, status_asked, plain_asked, behind, routed, read_value};

use crate::listing::{rules, table, table_test, tables};
use crate::query::{Parameter, are_parameters, number_in, parameters, position_of};
use crate::request::{Read, Request, Routed};
use crate::target::Target;
use pf_arguments::{Action, CommandFault, USAGE, decode};
use pf_scripts::{ChangeFault, read_change, words_in};
use std::alloc::{AllocError, Global};

/// How many packets one request may have.
const PACKETS_MAX: usize = 64;

/// What is asked for, when out of memory nothing.
type Asked<'a> = Result<Routed<'a>, AllocError>;

/// The bytes before the first newline, and those behind it.
fn cut_at_newline(body: &[u8]) -> (&[u8], &[u8])
    ensures line { result.0.now ≡ before_first is_newline body.now }
    ensures rest { result.1.now ≡ after_first is_newline body.now }
{
    match body.iter().position(|&b| b == b'\n') {
        Some(at) => (&body[..at], &body[at + 1..]),
        None => (body, &[]),
    }
}

/// The lines of a body, none where it isn't UTF-8.
fn lines_in(alloc: Global, body: &[u8]) -> Result<Option<Vec<&str>>, AllocError>
    ensures { IfOk result (λ found. option_map (λ v. map (λ w. w.now) v.items) found ≡ lines_in body.now) }
{
    match str::from_utf8(body) {
        Ok(text) => Ok(Some(text.lines().collect(alloc)?)),
        Err(_) => Ok(None),
    }
}

/// `N.NUMBER`
fn request_number(text: &str) -> Option<(u8, u64)>
    ensures { result ≡ request_number text.now }
{
    let (origin, number) = text.split_once('.')?;
    let (origin, number) = (number_in(origin)?, number_in(number)?);
    (origin <= 255).then(|| (origin as u8, number))
}

/// A change: its arguments are the first line, the text is what is behind it.
fn change_in<'a>(alloc: Global, body: &[u8]) -> Asked<'a>
    ensures { IfOk result (λ r. routed_value r ≡ change_asked body.now) }
{
    let (line, text) = cut_at_newline(body);
    let Some(rest) = words_in(alloc, line)? else {
        return Ok(Routed::Unread(USAGE));
    };
    let mut words = vec![in alloc; "pfctl"]?;
    words.extend_from_slice(&rest)?;
    match read_change(alloc, &words, text) {
        Ok(command) => Ok(Routed::Asked(Request::Change(command))),
        Err(ChangeFault::Refused(code)) => Ok(Routed::Unread(code)),
        Err(ChangeFault::Memory) => Err(AllocError),
    }
}

/// A change as an entry's bytes; the entry's origin and number don't count.
fn entry_in<'a>(alloc: Global, body: &[u8]) -> Asked<'a>
    ensures { IfOk result (λ r. routed_value r ≡ entry_asked body.now) }
{
    match decode(body) {
        Ok(view) => Ok(Routed::Asked(Request::Change(view.to_entry(alloc)?.command))),
        Err(fault) => Ok(Routed::Unread(fault.code())),
    }
}

/// A read, once the positions are applied that the parameters name.
fn reads<'a>(given: &[Parameter], read: Read<'a>) -> Routed<'a>
    ensures { routed_value result ≡ reads (pairs_of given.now) (read_value read.entry) }
{
    Routed::Asked(Request::Read(position_of("at", given).unwrap_or(0), read))
}

/// A read of what an action lists, or the number of its refusal.
#[tactic(auto, using(pf_scripts::proofs::Acted::fault_numbered))]
fn lists<'a>(given: &[Parameter], asked: Result<Action, CommandFault>) -> Asked<'a>
    ensures { (a : Asked) → Answers asked a → IfOk result (λ r. routed_value r ≡ lists (pairs_of given.now) a) }
{
    match asked {
        Ok(action) => Ok(reads(given, Read::List(action))),
        Err(fault) => Ok(Routed::Unread(fault.code().ok_or(AllocError)?)),
    }
}

/// The verdicts for a line's packet each.
fn test_in<'a>(alloc: Global, given: &[Parameter], body: &'a [u8]) -> Asked<'a>
    ensures { IfOk result (λ r. routed_value r ≡ test_asked (pairs_of given.now) body.now) }
{
    let Some(packets) = lines_in(alloc, body)? else {
        return Ok(Routed::Unread(USAGE));
    };
    if packets.is_empty() || packets.len() > PACKETS_MAX {
        return Ok(Routed::Unread(USAGE));
    }
    Ok(reads(given, Read::Test(packets)))
}

/// What a path asks for, of its parameters and the body.
fn asked_at<'a>(
    alloc: Global,
    target: Target,
    given: &[Parameter],
    body: &'a [u8],
    json: bool,
) -> Asked<'a>
    ensures { IfOk result (λ r. routed_value r ≡ asked_at target (pairs_of given.now) body.now json) }
{
    let from = position_of("from", given);
    let count = position_of("count", given);
    match target {
        Target::Changes => change_in(alloc, body),
        Target::Entry => entry_in(alloc, body),
        Target::Rules => lists(given, rules(alloc, given)),
        Target::Tables => lists(given, tables(alloc, given)),
        Target::Anchors => Ok(reads(given, Read::List(Action::ShowAnchors))),
        Target::Table => lists(given, table(alloc, given)),
        Target::TableTest => lists(given, table_test(alloc, given, lines_in(alloc, body)?)),
        Target::Test => test_in(alloc, given, body),
        Target::Log => Ok(reads(given, Read::Log(from))),
        Target::Entries => Ok(reads(given, Read::Entries(from, count))),
        Target::Status => Ok(reads(given, Read::Status(json))),
        Target::Health => Ok(reads(given, Read::Health)),
        Target::Ready => Ok(reads(given, Read::Ready)),
        Target::Metrics => Ok(reads(given, Read::Metrics)),
        Target::Stop => Ok(Routed::Asked(Request::Stop)),
        Target::Requests => Ok(Routed::Unread(USAGE)),
    }
}

/// What the path behind `/v1/requests/` asks for: what became of that request.
fn status_asked<'a>(alloc: Global, method: &str, name: &str, query: &str) -> Asked<'a>
    ensures { IfOk result (λ r. routed_value r ≡ status_asked method.now name.now query.now) }
{
    let Some((origin, number)) = request_number(name) else {
        return Ok(Routed::Refused(404));
    };
    if method != "GET" {
        return Ok(Routed::Refused(405));
    }
    let given = parameters(alloc, query)?;
    if !are_parameters(Target::Requests, &given) {
        return Ok(Routed::Refused(400));
    }
    Ok(reads(&given, Read::RequestStatus(origin, number)))
}

/// What any other path asks for.
fn plain_asked<'a>(
    alloc: Global,
    method: &str,
    path: &str,
    query: &str,
    body: &'a [u8],
    json: bool,
) -> Asked<'a>
    ensures { IfOk result (λ r. routed_value r ≡ plain_asked method.now path.now query.now body.now json) }
{
    let Some(target) = Target::of(path) else {
        return Ok(Routed::Refused(404));
    };
    if method != target.method() {
        return Ok(Routed::Refused(405));
    }
    let given = parameters(alloc, query)?;
    if !are_parameters(target, &given) {
        return Ok(Routed::Refused(400));
    }
    asked_at(alloc, target, &given, body, json)
}

/// What is behind the path of requests.
fn behind(path: &str) -> Option<&str>
    ensures { option_copied result ≡ behind path.now }
{
    path.strip_prefix("/v1/requests/")
}

/// What HTTP's method, path, query (what is behind the `?`, without it) and body ask for; `json` is whether `Accept`
/// names `application/json`.
///
/// The path has no escapes; those of the query are read, and `+` stands for a blank there. A line of the body ends with
/// a newline, which the last one may lack; in bodies of addresses or packets a carriage return may be before it.
pub fn request_in<'a>(
    alloc: Global,
    method: &str,
    path: &str,
    query: &str,
    body: &'a [u8],
    json: bool,
) -> Asked<'a>
    ensures { IfOk result (λ r. routed_value r ≡ routed method.now path.now query.now body.now json) }
{
    match behind(path) {
        Some(name) => status_asked(alloc, method, name, query),
        None => plain_asked(alloc, method, path, query, body, json),
    }
}
