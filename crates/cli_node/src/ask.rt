//! The subcommand `ask`: a command asked of a node.

ghost use Rattle.std.specs.Prelude.{◌≡◌, ◌<◌, ◌⊎◌, ◌↔◌, ⊤, ℕ, List, [], ◌∷◌, Some, None, Ok, Err, false};
ghost use Rattle.std.specs.Prelude.{IfSome, IfOk, IfErr, OnErr, IsSome, IsTrue};
ghost use Rattle.std.specs.Prelude.{codes, option_map};
ghost use Rattle.clap.specs.Words.{found_of, rows_of};
ghost use Rattle.pf_entry.specs.Owned.{command_value};
ghost use Rattle.pf_arguments.specs.Asked.{asked, given_in, Change};
ghost use Rattle.px_transport.specs.Wires.{IsQuiet, WireEvent};
ghost use Rattle.node_udp.specs.Addresses.{AreAddresses};
ghost use Rattle.node_udp.specs.Members.{me_of, peers_of, wait_of};
ghost use Rattle.cli_node.specs.declared.outcome.Outcome.TheVariants.{Memory, Refused};
ghost use Rattle.cli_node.specs.Places.{has_8_bits, has_place, waits_of};
ghost use Rattle.cli_io.specs.Sources.{IsNamed, IsText};
ghost use Rattle.cli_io.specs.Numbers.{number_at};
ghost use Rattle.cli_node.specs.Asked.{AreAskArguments, AsksNode, HasNoText, IsRefusedWith};
ghost use Rattle.cli_node.specs.Doing.{Adds, IsLeft};
ghost use Rattle.cli_node.specs.Asked.{is_wait, names_node, unasked_code};
ghost use Rattle.cli_node.specs.declared.ask.TheConstants.{CLIENT};

use crate::outcome::{Outcome, answer_outcome, numbered};
use clap::ArgMatches;
use cli_io::{
    BAD_ADDRESS, INVALID_ARGUMENTS, InputFault, Sources, number_in, source_named, value_in,
};
use node_udp::{BindFault, Membership, UdpWire, ask_once};
use pf_arguments::{Action, Command, from_matches};
use px_transport::Wire;
use std::alloc::Global;
use std::io::Read;
use std::net::UdpSocket;

/// The number of a sender that is no member.
const CLIENT: u8 = 255;

/// How long each wait for an answer is, in milliseconds.
const WAIT_MS: u32 = 200;

/// The arguments of `ask` of its own.
#[derive(Clone, Copy)]
pub struct AskArguments<'a> {
    /// Where the node listens.
    pub(crate) to: &'a str,
    pub(crate) cluster: u32,
    /// How many members the cluster has.
    pub(crate) members: u8,
    /// The number of the node that is asked.
    pub(crate) node: u8,
    /// How many waits of a fifth of a second there are for an answer.
    pub(crate) waits: u32,
}

/// The number of waits for `--wait`: five a second, one at least; five where it isn't given.
fn waits_in(matches: &ArgMatches<'_>) -> Option<u32>
    ensures some { IfSome result (λ n. n ≡ waits_of (number_at (rows_of (found_of matches.now)) (codes "wait"))) }
    ensures none { result ≡ None → is_wait (number_at (rows_of (found_of matches.now)) (codes "wait")) ≡ false }
{
    let Some(seconds) = number_in(matches, "wait") else {
        return Some(5);
    };
    let seconds = u16::try_from(seconds).ok()?;
    Some((5 * u32::from(seconds)).max(1))
}

/// The number of 8 bits that an option has.
fn small_in(matches: &ArgMatches<'_>, id: &str) -> Option<u8>
    ensures some { IfSome result (λ n. number_at (rows_of (found_of matches.now)) id.now ≡ Some n) }
    ensures none { result ≡ None → has_8_bits (number_at (rows_of (found_of matches.now)) id.now) ≡ false }
{
    u8::try_from(number_in(matches, id)?).ok()
}

impl<'a> AskArguments<'a> {
    /// What the matches give. `clap` has refused numbers out of range and arguments that are missing.
    pub(crate) fn of(matches: &ArgMatches<'a>) -> Option<AskArguments<'a>>
        ensures some { IfSome result (AreAskArguments (rows_of (found_of matches.now))) }
        ensures none { result ≡ None → names_node (rows_of (found_of matches.now)) ≡ false }
    {
        Some(AskArguments {
            to: value_in(matches, "to")?,
            cluster: number_in(matches, "cluster")?,
            members: small_in(matches, "members")?,
            node: small_in(matches, "node")?,
            waits: waits_in(matches)?,
        })
    }
}

/// The text that `-f` names; none without it. A file that can't be read gives 40.
fn text_for<T: Sources, R: Read>(
    sources: &T,
    alloc: Global,
    named: Option<&str>,
    reader: &mut R,
) -> Result<Vec<u8>, Outcome>
    ensures text { IfOk result (λ text. IsNamed (option_map (λ n. n.now) named.entry)
        (IsText (T.has sources.now) (R.remaining reader.old)) text.items) }
    ensures why { IfErr result (HasNoText (option_map (λ n. n.now) named.entry)) }
{
    let Some(name) = named else {
        return Ok(Vec::new(alloc));
    };
    source_named(sources, alloc, name, reader).map_err(|fault| match fault {
        InputFault::Memory => Outcome::Memory,
        _ if name == "-" => Outcome::Unread,
        _ => Outcome::Refused(INVALID_ARGUMENTS),
    })
}

/// The change that the arguments ask for.
fn change_in(alloc: Global, matches: &ArgMatches<'_>, text: &[u8]) -> Result<Command, Outcome>
    ensures change { IfOk result (λ command. asked (given_in (rows_of (found_of matches.now))) text.now ≡
        Ok (Change (command_value command))) }
    ensures refused { IfErr result (IsRefusedWith (unasked_code (asked (given_in (rows_of (found_of matches.now)))
        text.now))) }
{
    match from_matches(alloc, matches, text) {
        Ok(Action::Change(command)) => Ok(command),
        Ok(_) => Err(Outcome::Refused(INVALID_ARGUMENTS)),
        Err(fault) => Err(numbered(fault.code())),
    }
}

/// Who makes a client's wires. One can't be dropped: it is closed.
pub trait Client {
    type Wire: Wire;

    // what came and went over the wires that were closed
    ghost went: { Self → List WireEvent → Type 0 };

    // this wire reaches who listens at this address
    ghost reaches: { Self → (to : List ℕ) → Self.Wire → Type 0 };

    // there is no wire to this address
    ghost is_unreached: { Self → (to : List ℕ) → Type 0 };

    /// A wire to this address: 82 where there is none.
    fn bind(&mut self, to: &str) -> Result<Self::Wire, Outcome>
        ensures refused { OnErr result ((result ≡ Err Memory) ⊎ ((result ≡ Err (Refused 82)) ×
            is_unreached self.old to.now)) }
        ensures reaches { IfOk result (reaches self.old to.now) }
        ensures quiet { IsQuiet (went self.old) (went self.new) };

    /// Closes a wire.
    fn close(&mut self, wire: Self::Wire)
        ensures { IsLeft Self.Wire.traffic (Adds (went self.old) (went self.new)) wire };
}

impl Client for HostRuntime {
    type Wire = UdpWire<UdpSocket, HostRuntime>;

    // no contract states what the system's sockets give, nor when there is none
    ghost went = { λ _ _. ⊤ };

    ghost reaches = { λ _ to w. (me_of w ≡ CLIENT) × AreAddresses (to ∷ []) (peers_of w) × (wait_of w ≡ 200000000) };

    ghost is_unreached = { λ _ _. ⊤ };

    fn bind(&mut self, to: &str) -> Result<UdpWire<UdpSocket, HostRuntime>, Outcome> {
        match UdpWire::bind(&*self, self.alloc(), &[to], CLIENT, WAIT_MS) {
            Ok(wire) => Ok(wire),
            Err(BindFault::Memory) => Err(Outcome::Memory),
            Err(BindFault::NoSocket) => Err(Outcome::Refused(BAD_ADDRESS)),
        }
    }

    fn close(&mut self, wire: UdpWire<UdpSocket, HostRuntime>) {
        drop(wire);
    }
}

/// Who is asked: the cluster and how many members it has, and nobody of them; none where the node is none of them.
fn membership(arguments: AskArguments<'_>) -> Option<Membership>
    ensures some { IfSome result (λ m. (m.cluster ≡ arguments.entry.cluster) × (m.members ≡ arguments.entry.members) ×
        (m.me ≡ CLIENT)) }
    ensures none { IsSome result ↔ IsTrue (has_place arguments.entry.node arguments.entry.members) }
{
    if arguments.node >= arguments.members {
        return None;
    }
    Membership::new(arguments.cluster, arguments.members, CLIENT)
}

/// What `ask` gives: the answer; else 40 of its numbers, the faults of the action, and 82, in this order.
pub(crate) fn ask_outcome<T: Sources, C: Client, R: Read>(
    sources: &T,
    client: &mut C,
    alloc: Global,
    arguments: AskArguments<'_>,
    matches: &ArgMatches<'_>,
    reader: &mut R,
) -> Result<Outcome, Outcome>
    ensures asked { IfOk result (AsksNode C.Wire.traffic (C.reaches client.old) (C.is_unreached client.old)
        (Adds (C.went client.old) (C.went client.new)) (IsText (T.has sources.now) (R.remaining reader.old))
        (rows_of (found_of matches.now)) arguments.entry (has_place arguments.entry.node arguments.entry.members)) }
    ensures refused { IfErr result (AsksNode C.Wire.traffic (C.reaches client.old) (C.is_unreached client.old)
        (Adds (C.went client.old) (C.went client.new)) (IsText (T.has sources.now) (R.remaining reader.old))
        (rows_of (found_of matches.now)) arguments.entry (has_place arguments.entry.node arguments.entry.members)) }
{
    let m = membership(arguments).ok_or(Outcome::Refused(INVALID_ARGUMENTS))?;
    let text = text_for(sources, alloc, value_in(matches, "file"), reader)?;
    let command = change_in(alloc, matches, &text)?;
    let mut wire = client.bind(arguments.to)?;
    let node = arguments.node;
    let answer = ask_once(alloc, &m, node, &command, arguments.waits, &mut wire);
    client.close(wire);
    match answer {
        Ok(answer) => Ok(answer_outcome(node, answer)),
        Err(why) => Err(numbered(why.code())),
    }
}
