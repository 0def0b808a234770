//! Requests as the request handler has them, and its answers as HTTP has them.

ghost use Rattle.std.specs.Prelude.{◌≡◌, ◌⊎◌, ◌==◌, ◌||◌, [], ◌∷◌, ◌++◌, suc, true, false, decimal};
ghost use Rattle.std.specs.Prelude.{IfOk, OnErr, OnOk, string_bytes, unwrap_or};
ghost use Rattle.http.specs.Token.{lowercase};
ghost use Rattle.http.specs.Uri.{uri_query};
ghost use Rattle.http_server.specs.Response.{IsBlank, fields_of};
ghost use Rattle.node_requests.specs.Answers.{answer_value};
ghost use Rattle.node_requests.specs.Routing.{routed_value};
ghost use Rattle.node_control.specs.inner.Answering.{node_fields, answer_fields, content_type};
ghost use Rattle.node_control.specs.inner.Asking.{accepts_json, asked_for, is_of_figures};
ghost use Rattle.node_control.specs.inner.Handling.{Carries, IsAnswered, IsKept, IsTurnedAway, IsPassedOn};
ghost use Rattle.node_control.specs.inner.Handling.{AnswersRequest, IsHandled, counted_as};
ghost use Rattle.node_control.specs.inner.Handling.{is_served, is_urgent, is_change};
ghost use Rattle.node_control.specs.inner.Handling.{waiting, no_text};

use bytes::{BufMut, Bytes};
use http::{HeaderName, HeaderValue, StatusCode, Uri};
use http_server::{Response, Service};
use node_requests::{Answer, Counters, Read, Request, RequestHandler, Routed, request_in};
use pf_node::Node;
use px_records::Records;
use std::alloc::{AllocError, Global};

/// A request handler as a service: what comes as HTTP is asked of the request handler.
#[derive(Drop)]
pub(crate) struct HttpService<R: Records> {
    pub(crate) handler: RequestHandler<R>,
    /// What was counted.
    pub(crate) counters: Counters,
    /// Whether the node accepts no change now, since it lacks entries that others have.
    pub(crate) is_listening: bool,
    /// How many changes may be asked before the node's next round.
    pub(crate) changes_left: u8,
    /// Whether what comes now came where figures alone are served, and nothing is changed.
    pub(crate) is_scraped: bool,
    /// Whether what comes now came over the connection that is kept for `health` and `stop`.
    pub(crate) is_spare: bool,
    /// How many requests were answered, those for figures too.
    pub(crate) answered: u64,
    pub(crate) alloc: Global,
}

/// What is made, unless out of memory.
pub(crate) type Made<T> = Result<T, AllocError>;

/// The kind of a plain text.
const TEXT: &str = "text/plain; charset=utf-8";

/// The kind of text that a request is answered with.
fn content_type(request: &Request) -> &'static str
    ensures { result.now ≡ content_type request.now }
{
    match request {
        Request::Read(_, read) => match read {
            Read::Metrics => "text/plain; version=0.0.4",
            Read::Status(true) => "application/json",
            _ => TEXT,
        },
        _ => TEXT,
    }
}

/// Whether the field `Accept` names JSON, and nothing else.
fn accepts_json(request: &http::Request<Bytes>) -> bool
    ensures { result ≡ accepts_json request.now }
{
    let accept = request.headers().get("accept");
    accept.is_some_and(|value| value.as_bytes() == b"application/json".as_slice())
}

/// Whether the path is one of figures.
fn is_of_figures(path: &str) -> bool
    ensures { result ≡ is_of_figures path.now }
{
    matches!(path, "/metrics" | "/healthz" | "/readyz")
}

/// Whether the request is answered when there are as many clients as may be.
fn is_urgent(request: &Request) -> bool
    ensures { result ≡ is_urgent request.now }
{
    match request {
        Request::Stop => true,
        Request::Read(_, read) => matches!(read, Read::Health | Read::Ready),
        Request::Change(_) => false,
    }
}

/// Adds a field.
fn add_text(alloc: Global, response: &mut Response, name: &[u8], text: &str) -> Made<()>
    ensures fields { OnOk result
        (fields_of response.new ≡ fields_of response.old ++ (lowercase name.now, text.now) ∷ []) }
    ensures status { OnOk result (response.new.status ≡ response.old.status) }
    ensures body { OnOk result (response.new.body.items ≡ response.old.body.items) }
{
    let name = HeaderName::from_bytes(alloc, name).map_err(|_| AllocError)?;
    let value = HeaderValue::from_str(alloc, text).map_err(|_| AllocError)?;
    response.add_header(name, value)
}

/// Adds a field with a number.
fn add_number(alloc: Global, response: &mut Response, name: &[u8], number: u64) -> Made<()>
    ensures fields { OnOk result
        (fields_of response.new ≡ fields_of response.old ++ (lowercase name.now, decimal number) ∷ []) }
    ensures status { OnOk result (response.new.status ≡ response.old.status) }
    ensures body { OnOk result (response.new.body.items ≡ response.old.body.items) }
{
    let text = number.to_string(alloc)?;
    add_text(alloc, response, name, text.as_str())
}

/// What is behind the `?` of a target, empty where there is none.
fn query_of(uri: &Uri) -> &str
    ensures { result.now ≡ unwrap_or (uri_query uri.now) [] }
{
    uri.query().unwrap_or("")
}

/// What a request asks for.
fn asked_for(alloc: Global, request: &http::Request<Bytes>) -> Made<Routed<'_>>
    ensures { IfOk result (λ v. routed_value v ≡ asked_for request.now) }
{
    let uri = request.uri();
    let method = request.method().as_str();
    let body: &[u8] = request.body();
    let json = accepts_json(request);
    request_in(alloc, method, uri.path(), query_of(uri), body, json)
}

impl<R: Records> HttpService<R> {
    /// The handler of a node's requests.
    pub(crate) fn new(alloc: Global, node: Node<R>, counters: Counters) -> HttpService<R>
        ensures node { result.handler.node ≡ node }
        ensures accepted { result.handler.accepted ≡ None }
        ensures works { result.handler.is_stopping ≡ false }
        ensures counters { result.counters ≡ counters }
    {
        HttpService {
            handler: RequestHandler::new(alloc, node),
            counters,
            is_listening: true,
            changes_left: 0,
            is_scraped: false,
            is_spare: false,
            answered: 0,
            alloc,
        }
    }

    /// The node, with which the handler ends.
    pub(crate) fn close(self) -> Node<R>
        ensures { result ≡ self.handler.node }
    {
        self.handler.close()
    }

    /// Names the node that answers, and the number of positions that it applied.
    fn add_node_fields(&self, response: &mut Response) -> Made<()>
        ensures fields { OnOk result
            (fields_of response.new ≡ fields_of response.old ++ node_fields self.now.handler.node) }
        ensures status { OnOk result (response.new.status ≡ response.old.status) }
        ensures body { OnOk result (response.new.body.items ≡ response.old.body.items) }
    {
        let node = &self.handler.node;
        let me = node.membership().me();
        let applied = u64::from(node.applied());
        add_number(self.alloc, response, b"pfx-node", u64::from(me))?;
        add_number(self.alloc, response, b"pfx-applied", applied)?;
        add_number(self.alloc, response, b"pfx-front", u64::from(node.front()))?;
        Ok(())
    }

    /// Fills a response with an answer.
    fn fill(&self, answer: &Answer, kind: &str, response: &mut Response) -> Made<()>
        requires { IsBlank response.old }
        ensures fields { OnOk result
            (fields_of response.new ≡ answer_fields self.now.handler.node answer.now.code kind.now) }
        ensures status { OnOk result (response.new.status ≡ answer.now.code) }
        ensures body { OnOk result (response.new.body.items ≡ string_bytes answer.now.body) }
    {
        response.status = StatusCode::from_u16(answer.code).map_err(|_| AllocError)?;
        self.add_node_fields(response)?;
        add_text(self.alloc, response, b"content-type", kind)?;
        if answer.code == 503 {
            add_text(self.alloc, response, b"retry-after", "1")?;
        }
        response.body.put_slice(answer.body.as_bytes())
    }

    /// Writes an answer; when out of memory it is 503 alone, since what was asked may be done.
    fn write(&self, answer: &Answer, kind: &str, response: &mut Response)
        requires { IsBlank response.old }
        ensures carries { Carries response.new (answer_value answer.now) }
        ensures fields { (fields_of response.new ≡ answer_fields self.now.handler.node answer.now.code kind.now)
            ⊎ (fields_of response.new ≡ []) }
    {
        if self.fill(answer, kind, response).is_err() {
            response.clear();
            response.status = StatusCode::SERVICE_UNAVAILABLE;
        }
    }

    /// Counts an answer.
    pub(crate) fn count(&mut self, status: u16)
        ensures counted { self.new.counters ≡ counted_as self.old.is_scraped status self.old.counters }
        ensures handler { self.new.handler ≡ self.old.handler }
        ensures scraped { self.new.is_scraped ≡ self.old.is_scraped }
        ensures kept { IsKept self.old self.new }
        ensures left { self.new.changes_left ≡ self.old.changes_left }
    {
        self.answered = self.answered.wrapping_add(1);
        if self.is_scraped {
            return;
        }
        if status < 400 {
            self.counters.served = self.counters.served.saturating_add(1);
        } else if status < 500 {
            self.counters.refused = self.counters.refused.saturating_add(1);
        } else {
            self.counters.unavailable = self.counters.unavailable.saturating_add(1);
        }
    }

    /// Asks the request handler.
    fn ask(&mut self, request: &Request, response: &mut Response) -> Made<()>
        requires { IsBlank response.old }
        ensures answered { OnOk result
            (IsAnswered self.old.handler self.new.handler self.old.counters request.now response.new) }
        ensures memory { OnErr result (self.new ≡ self.old) }
        ensures scraped { self.new.is_scraped ≡ self.old.is_scraped }
        ensures kept { IsKept self.old self.new }
        ensures counted { OnOk result
            (self.new.counters ≡ counted_as self.old.is_scraped response.new.status self.old.counters) }
        ensures left { self.new.changes_left ≡ self.old.changes_left }
    {
        let answer = self.handler.answer(request, &self.counters)?;
        self.write(&answer, content_type(request), response);
        self.count(response.status.as_u16());
        Ok(())
    }

    /// Asks nothing: this is answered.
    fn turn_away(&mut self, answer: &Answer, response: &mut Response) -> Made<()>
        requires { IsBlank response.old }
        ensures away { IsTurnedAway self.old self.new (answer_value answer.now) response.new }
        ensures memory { OnErr result (self.new ≡ self.old) }
        ensures scraped { self.new.is_scraped ≡ self.old.is_scraped }
        ensures kept { IsKept self.old self.new }
        ensures counted { self.new.counters ≡ counted_as self.old.is_scraped response.new.status self.old.counters }
    {
        self.write(answer, TEXT, response);
        self.count(response.status.as_u16());
        Ok(())
    }

    /// Asks nothing: this status is all that is answered.
    fn refuse(&mut self, code: u16, response: &mut Response) -> Made<()>
        requires { IsBlank response.old }
        ensures away { IsTurnedAway self.old self.new (no_text code) response.new }
        ensures memory { OnErr result (self.new ≡ self.old) }
        ensures scraped { self.new.is_scraped ≡ self.old.is_scraped }
        ensures kept { IsKept self.old self.new }
        ensures counted { self.new.counters ≡ counted_as self.old.is_scraped response.new.status self.old.counters }
    {
        let body = String::new(self.alloc);
        self.turn_away(&Answer { code, body }, response)
    }

    /// Asks nothing now: the client is to ask again.
    fn put_off(&mut self, response: &mut Response) -> Made<()>
        requires { IsBlank response.old }
        ensures away { OnOk result (IsTurnedAway self.old self.new waiting response.new) }
        ensures still { self.new.handler ≡ self.old.handler }
        ensures memory { OnErr result (self.new ≡ self.old) }
        ensures scraped { self.new.is_scraped ≡ self.old.is_scraped }
        ensures kept { IsKept self.old self.new }
        ensures counted { OnOk result
            (self.new.counters ≡ counted_as self.old.is_scraped response.new.status self.old.counters) }
    {
        let body = String::from_str(self.alloc, "waiting\n")?;
        self.turn_away(&Answer { code: 503, body }, response)
    }

    /// Asks a change, unless the node is catching up, or as many were asked since its last round as may be.
    fn change(&mut self, request: &Request, response: &mut Response) -> Made<()>
        requires blank { IsBlank response.old }
        requires change { is_change request.now ≡ true }
        ensures asked { (self.old.is_listening || (self.old.changes_left == 0)) ≡ false → OnOk result
            (IsAnswered self.old.handler self.new.handler self.old.counters request.now response.new ×
            (self.old.changes_left ≡ suc self.new.changes_left)) }
        ensures away { (self.old.is_listening || (self.old.changes_left == 0)) ≡ true → OnOk result
            (IsTurnedAway self.old self.new waiting response.new) }
        ensures memory { OnErr result (self.new ≡ self.old) }
        ensures scraped { self.new.is_scraped ≡ self.old.is_scraped }
        ensures kept { IsKept self.old self.new }
        ensures counted { OnOk result
            (self.new.counters ≡ counted_as self.old.is_scraped response.new.status self.old.counters) }
    {
        if self.is_listening || self.changes_left == 0 {
            return self.put_off(response);
        }
        self.ask(request, response)?;
        self.changes_left -= 1;
        Ok(())
    }

    /// Handles a request that was understood: a change isn't asked while the node is catching up, nor more of them
    /// between two rounds than may be, and at the last connection nothing is but `health` and `stop`.
    fn pass_on(&mut self, request: &Request, response: &mut Response) -> Made<()>
        requires { IsBlank response.old }
        ensures passed { OnOk result (IsPassedOn self.old self.new request.now response.new) }
        ensures still { self.old.is_scraped ≡ true → self.new.handler ≡ self.old.handler }
        ensures memory { OnErr result (self.new ≡ self.old) }
        ensures scraped { self.new.is_scraped ≡ self.old.is_scraped }
        ensures kept { IsKept self.old self.new }
        ensures counted { OnOk result
            (self.new.counters ≡ counted_as self.old.is_scraped response.new.status self.old.counters) }
    {
        if self.is_spare && !is_urgent(request) {
            return self.put_off(response);
        }
        if self.is_scraped {
            return match request {
                Request::Read(_, _) => self.ask(request, response),
                Request::Change(_) | Request::Stop => self.refuse(404, response),
            };
        }
        if matches!(request, Request::Change(_)) {
            return self.change(request, response);
        }
        self.ask(request, response)
    }

    /// Whether what the request is for is served here.
    fn is_served(&self, request: &http::Request<Bytes>) -> bool
        ensures { result ≡ is_served self.now request.now }
    {
        !self.is_scraped || is_of_figures(request.uri().path())
    }

    /// Handles a request.
    fn handle(&mut self, request: &http::Request<Bytes>, response: &mut Response) -> Made<()>
        requires { IsBlank response.old }
        ensures handled { OnOk result (IsHandled self.old self.new request.now response.new) }
        ensures still { self.old.is_scraped ≡ true → self.new.handler ≡ self.old.handler }
        ensures memory { OnErr result (self.new ≡ self.old) }
        ensures scraped { self.new.is_scraped ≡ self.old.is_scraped }
        ensures kept { IsKept self.old self.new }
        ensures counted { OnOk result
            (self.new.counters ≡ counted_as self.old.is_scraped response.new.status self.old.counters) }
    {
        if !self.is_served(request) {
            return self.refuse(404, response);
        }
        let routed = asked_for(self.alloc, request)?;
        match &routed {
            Routed::Asked(asked) => self.pass_on(asked, response),
            Routed::Refused(status) => self.refuse(*status, response),
            Routed::Unread(code) => {
                let answer = Answer::refused(self.alloc, *code, 0)?;
                self.turn_away(&answer, response)
            }
        }
    }
}

impl<R: Records> Service for HttpService<R> {
    ghost answers = { λ old request response new. AnswersRequest old request response new };

    fn call(&mut self, request: &http::Request<Bytes>, response: &mut Response) -> Made<()> {
        self.handle(request, response)
    }
}
