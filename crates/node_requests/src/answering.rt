//! What is asked at a request handler.

ghost use Rattle.std.specs.Prelude.{◌≡◌, IfOk, OnErr, OnOk, map, codes, true, false, None};
ghost use Rattle.pf_node.specs.Nodes.{config_of};
ghost use Rattle.pf_entry.specs.Owned.{command_value};
ghost use Rattle.pf_arguments.specs.Answers.{action_value};
ghost use Rattle.pf_scripts.specs.Listings.{listed};
ghost use Rattle.node_requests.specs.Answers.{answer_value, answered, shown};
ghost use Rattle.node_requests.specs.Bounded.{verdicts_within};
ghost use Rattle.node_requests.specs.Changing.{Changes, with_number};
ghost use Rattle.node_requests.specs.Health.{health};
ghost use Rattle.node_requests.specs.Requests.{IsStatus, AreMetrics, IsRead, Answers};
ghost use Rattle.node_requests.specs.RequestStatus.{is_accepted, request_status};
ghost use Rattle.node_requests.specs.StatusJson.{status_as};

use crate::answer::Answer;
use crate::changing::{Changed, change_node};
use crate::counters::Counters;
use crate::figures::Figures;
use crate::handler::RequestHandler;
use crate::health::Health;
use crate::json::status_json;
use crate::metrics::metrics;
use crate::outcome::push_outcome;
use crate::packets::test;
use crate::request::{Read, Request};
use crate::status::status;
use pf_arguments::{Action, Command};
use pf_node::Node;
use px_records::Records;
use std::alloc::{AllocError, Global};

impl<R: Records> RequestHandler<R> {
    /// A request handler at a node.
    pub fn new(alloc: Global, node: Node<R>) -> RequestHandler<R>
        ensures node { result.node ≡ node }
        ensures works { result.is_stopping ≡ false }
        ensures accepted { result.accepted ≡ None }
    {
        RequestHandler {
            node,
            is_stopping: false,
            accepted: None,
            alloc,
        }
    }

    /// What an action lists, as a script's line prints it, at the configuration after the positions that are applied:
    /// 404 where there is no such table, 400 of an action that lists nothing.
    pub fn list(&self, action: &Action) -> Result<Answer, AllocError>
        ensures { IfOk result (λ a. answer_value a
            ≡ answered (listed (config_of self.now.node) (action_value action.now))) }
    {
        Answer::listed(self.alloc, self.node.config(), action)
    }

    /// A verdict line for each packet's text in turn, up to the first that is no packet: that is 30, and 400. It ends
    /// before the verdicts may meet more than [`crate::MET_MAX`] rules together; where one may, that is 88, and 400.
    pub fn test(&self, packets: &[&str]) -> Result<Answer, AllocError>
        ensures { IfOk result (λ a. answer_value a
            ≡ verdicts_within (config_of self.now.node) (map (λ p. p.now) packets.now)) }
    {
        test(self.alloc, self.node.config(), packets)
    }

    /// Whether a number is one of those that were given.
    fn is_accepted(&self, number: u64) -> bool
        ensures { result ≡ is_accepted self.now.accepted number }
    {
        self.accepted
            .is_some_and(|(first, last)| first <= number && number <= last)
    }

    /// What became of a request: `applied`, its position and what came of it where that is applied, `waiting` where it
    /// is learned, or was accepted here and isn't learned below the front, else 404 and `unknown`.
    pub fn request_status(&self, origin: u8, number: u64) -> Result<Answer, AllocError>
        ensures { IfOk result (λ a. answer_value a ≡ request_status self.now.node self.now.accepted origin number) }
    {
        match self.node.position_of(origin, number) {
            Some(position) if position < self.node.applied() => {
                let mut body = String::new(self.alloc);
                writeln!(body, "applied {position}")?;
                push_outcome(&mut body, &self.node, position)?;
                Ok(Answer::shown(body))
            }
            None if origin != self.node.membership().me() || !self.is_accepted(number) =>
                Answer::of(self.alloc, 404, "unknown\n"),
            _ => Answer::of(self.alloc, 200, "waiting\n"),
        }
    }

    /// The node's health.
    pub fn health(&self, counters: &Counters) -> Health
        ensures { result ≡ health self.now.node counters.now }
    {
        Health::of(&self.node, counters)
    }

    /// The node's status, as JSON or in lines.
    fn status(&self, json: bool, counters: &Counters) -> Result<Answer, AllocError>
        ensures { IfOk result (λ a. IsStatus self.now.node counters.now json (answer_value a)) }
    {
        let figures = Figures::of(&self.node)?;
        let health = self.health(counters);
        if json {
            status_json(self.alloc, &figures, health, counters)
        } else {
            status(self.alloc, &figures, health, counters)
        }
    }

    /// The node's numbers for Prometheus.
    fn metrics(&self, counters: &Counters) -> Result<Answer, AllocError>
        ensures { IfOk result (λ a. AreMetrics self.now.node counters.now (answer_value a)) }
    {
        let figures = Figures::of(&self.node)?;
        metrics(self.alloc, &figures, self.health(counters), counters)
    }

    /// What a read answers. Nothing changes.
    pub fn read(&self, read: &Read, counters: &Counters) -> Result<Answer, AllocError>
        ensures { IfOk result (λ a. IsRead self.now.node self.now.accepted counters.now read.now (answer_value a)) }
    {
        let health = self.health(counters);
        match read {
            Read::List(action) => self.list(action),
            Read::Test(packets) => self.test(packets),
            Read::RequestStatus(origin, number) => self.request_status(*origin, *number),
            Read::Log(from) => self.log(*from),
            Read::Entries(from, count) => self.entries(*from, *count),
            Read::Status(json) => self.status(*json, counters),
            Read::Health => health.answer(self.alloc, health != Health::Failed),
            Read::Ready => health.answer(self.alloc, health == Health::Works),
            Read::Metrics => self.metrics(counters),
        }
    }

    /// One ask of the node, or a refusal with nothing changed: 62 where the positions that are left are those of
    /// commands that wait.
    pub fn change(&mut self, command: &Command) -> Changed
        ensures changes { Changes self.old.node self.new.node (command_value command.now) result }
        ensures accepted { self.new.accepted ≡ with_number self.old.accepted result }
        ensures stopping { self.new.is_stopping ≡ self.old.is_stopping }
    {
        let changed = change_node(&mut self.node, command);
        if let Changed::Asked(_, number) = changed {
            let first = self.accepted.map_or(number, |(first, _)| first);
            self.accepted = Some((first, number));
        }
        changed
    }

    /// The node is to end after this turn.
    fn stop(&mut self) -> Result<Answer, AllocError>
        ensures stops { OnOk result (self.new ≡ record self.old { is_stopping = true }) }
        ensures answer { IfOk result (λ a. answer_value a ≡ shown (codes "stopping\n")) }
        ensures memory { OnErr result (self.new ≡ self.old) }
    {
        let answer = Answer::of(self.alloc, 200, "stopping\n")?;
        self.is_stopping = true;
        Ok(answer)
    }

    /// What a request answers: a read leaves all as it was, a change is one ask of the node or a refusal with nothing
    /// changed. When out of memory for the line of a change it is 503 with an empty body, and the node may have been
    /// asked; when this is out of memory nothing has changed.
    pub fn answer(&mut self, request: &Request, counters: &Counters) -> Result<Answer, AllocError>
        ensures answers { IfOk result (λ a. Answers self.old self.new counters.now request.now (answer_value a)) }
        ensures memory { OnErr result (self.new ≡ self.old) }
    {
        match request {
            Request::Change(command) => match self.change(command).to_answer(self.alloc) {
                Ok(answer) => Ok(answer),
                Err(_) => Ok(Answer {
                    code: 503,
                    body: String::new(self.alloc),
                }),
            },
            Request::Read(at, _) if self.node.applied() < *at => Answer::of(
                self.alloc,
                503,
                "waiting\n",
            ),
            Request::Read(_, read) => self.read(read, counters),
            Request::Stop => self.stop(),
        }
    }
}
