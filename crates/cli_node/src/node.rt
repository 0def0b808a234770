//! The subcommand `node`: a node over UDP.

ghost use Rattle.std.specs.Prelude.{◌≡◌, ◌≢◌, ◌<◌, ◌⊎◌, ◌↔◌, Err, false, length, IfSome, OnErr, IsSome, IsTrue};
ghost use Rattle.std.specs.Prelude.{Bool, [], None, Ok, IfOk, map, option_map, is_some};
ghost use Rattle.std.specs.Prelude.{◌||◌, ◌++◌, codes, string_bytes};
ghost use Rattle.clap.specs.Words.{found_of, rows_of};
ghost use Rattle.px_transport.specs.Wiring.{inner_of, keys_of, sealer_of};
ghost use Rattle.node_udp.specs.Addresses.{AreAddresses, shown_address};
ghost use Rattle.node_udp.specs.Members.{hears_of, me_of, peers_of};
ghost use Rattle.pf_scripts.specs.Lines.{spaced};
ghost use Rattle.cli_node.specs.declared.outcome.Outcome.TheVariants.{Memory, Refused};
ghost use Rattle.cli_node.specs.MemberRuns.{EndsAs, EndsNew, EndsNode, EndsWith, IsAlone, IsUnrun};
ghost use Rattle.cli_node.specs.MemberRuns.{MadeTurns, RunsHere};
ghost use Rattle.cli_node.specs.MemberRuns.{hears_asks, keys_with, sealer_with};
ghost use Rattle.cli_node.specs.Endings.{ComesTo, ComesOpen, ComesOpenOr, IsWireless, is_beyond};
ghost use Rattle.cli_node.specs.Given.{AreFigures, IsPlaced, is_set, number_for, text_for};
ghost use Rattle.cli_node.specs.Secrets.{AreNamed};
ghost use Rattle.cli_node.specs.Settled.{AreArguments, is_complete, is_whole};
ghost use Rattle.cli_node.specs.Stores.{HasNone, IsClosedIn, IsFoundAt, IsKeptIn, IsNone, IsStoreless, IsRunOver};
ghost use Rattle.cli_node.specs.Stores.{identity_at, is_made};
ghost use Rattle.cli_node.specs.declared.store.Found.{Found};
ghost use Rattle.cli_io.specs.declared.numbers.TheConstants.{NO_STORE};
ghost use Rattle.cli_node.specs.Places.{has_place};

use crate::database::Databases;
use crate::events::{log_end, log_start};
use crate::faults::log_place;
use crate::files::NodeFiles;
use crate::key::{Keys, warn_unsealed};
use crate::outcome::{Outcome, ended_outcome, ending_of};
use crate::sealing::Sealing;
use crate::store::{Found, Kept, is_made};
use clap::ArgMatches;
use cli_files::NodeFile;
use cli_io::{BAD_ADDRESS, INVALID_ARGUMENTS, has_flag, number_in, value_in};
use node_control::{ControlPlace, Observer, run_at_socket, run_sealed_at_socket};
use node_loop::{Membership, Timer, open_member};
use node_udp::{Address, BindFault, UdpWire};
use px_packet::PacketKeys;
use px_records::Records;
use px_store::SqlRecords;
use px_transport::{PacketWire, Wire};
use px_wire::MEMBERS;
use sqlite::{File, FileStore};
use sqlite_trees::store::Store;
use std::alloc::{AllocError, Global};
use std::net::{SocketAddr, UdpSocket};

/// How long a turn waits for a datagram, in milliseconds.
const WAIT_MS: u32 = 100;

/// What the arguments of `node` say.
#[derive(Clone, Copy)]
pub struct NodeArguments<'a> {
    /// This node's number.
    pub(crate) me: u8,
    pub(crate) cluster: u32,
    /// The file of its store.
    pub(crate) store: &'a str,
    /// Whether settings come from a file, so that a store is made where that is asked for and not else.
    pub(crate) is_from_file: bool,
    /// Whether the store is to be made.
    pub(crate) is_new: bool,
    pub(crate) turns: u64,
    /// The file of the cluster's key, if datagrams carry its tag, and that of another that is heard too.
    pub(crate) key: Option<&'a str>,
    pub(crate) other_key: Option<&'a str>,
    /// Whether a missing file of starts is made, beside a store that isn't new too.
    pub(crate) makes_starts: bool,
    /// Whether something below seals datagrams.
    pub(crate) is_unsealed: bool,
    /// Where operators ask, if there is a control socket.
    pub(crate) control: Option<&'a str>,
    /// Where figures are served over TCP, if they are.
    pub(crate) metrics: Option<&'a str>,
    /// Whether only warnings and errors are said.
    pub(crate) is_quiet: bool,
    /// Where the members listen, in order.
    pub(crate) members: &'a [&'a str],
}

/// The text of an option, that of the file where it isn't given.
fn text_for<'g: 's, 's>(matches: &ArgMatches<'g>, file: &'s NodeFile, name: &str) -> Option<&'s str>
    ensures { option_map (λ t. t.now) result ≡ text_for (rows_of (found_of matches.now)) file.now name.now }
{
    value_in(matches, name).or_else(|| file.text(name))
}

/// The number of an option, that of the file where it isn't given.
fn number_for(matches: &ArgMatches<'_>, file: &NodeFile, name: &str) -> Option<u32>
    ensures { result ≡ number_for (rows_of (found_of matches.now)) file.now name.now }
{
    number_in(matches, name).or_else(|| u32::try_from(file.number(name)?).ok())
}

/// Whether an option without a value is given, or so in the file.
fn is_set(matches: &ArgMatches<'_>, file: &NodeFile, name: &str) -> bool
    ensures { result ≡ is_set (rows_of (found_of matches.now)) file.now name.now }
{
    has_flag(matches, name) || file.flag(name)
}

impl<'a> NodeArguments<'a> {
    /// What the matches and a file of settings give, with these members; none where one of them is missing.
    /// `clap` has refused numbers out of range.
    pub(crate) fn of<'g: 'a>(
        matches: &ArgMatches<'g>,
        file: &'a NodeFile,
        members: &'a [&'a str],
    ) -> Option<NodeArguments<'a>>
        ensures some { IfSome result (AreArguments (rows_of (found_of matches.now)) file.now
            (map (λ t. t.now) members.now)) }
        ensures none { result ≡ None → is_complete (rows_of (found_of matches.now)) file.now ≡ false }
    {
        Some(NodeArguments {
            me: u8::try_from(number_for(matches, file, "me")?).ok()?,
            cluster: number_for(matches, file, "cluster")?,
            store: text_for(matches, file, "store")?,
            is_from_file: value_in(matches, "config").is_some(),
            is_new: has_flag(matches, "new"),
            // without a number more than a run can have
            turns: number_in(matches, "turns").map_or(u64::MAX, |turns| u64::from(turns)),
            key: text_for(matches, file, "key"),
            other_key: text_for(matches, file, "other-key"),
            makes_starts: has_flag(matches, "new-starts"),
            is_unsealed: is_set(matches, file, "unsealed"),
            control: text_for(matches, file, "control"),
            metrics: text_for(matches, file, "metrics"),
            is_quiet: is_set(matches, file, "quiet"),
            members,
        })
    }

    /// Whether commands are heard by datagrams: where these carry no tag of a key, and there is no control socket.
    fn hears_asks(self) -> bool
        ensures { result ≡ hears_asks self.entry.key self.entry.control }
    {
        self.key.is_none() && self.control.is_none()
    }

    /// Whether each setting has the one that it needs: a second key and new starts a key, figures a control socket.
    pub(crate) fn is_whole(self) -> bool
        ensures { result ≡ is_whole self.entry }
    {
        (self.other_key.is_none() && !self.makes_starts || self.key.is_some())
            && (self.metrics.is_none() || self.control.is_some())
    }
}

/// The cluster, how many members it has, and which one this is; none where the number is none of theirs.
pub(crate) fn membership(arguments: NodeArguments<'_>) -> Option<Membership>
    ensures some { IfSome result (λ m. (m.cluster ≡ arguments.entry.cluster) × (m.me ≡ arguments.entry.me) ×
        (m.members ≡ length arguments.entry.members.now)) }
    ensures here { IfSome result (λ m. m.me < m.members) }
    ensures none { IsSome result ↔
        IsTrue (has_place arguments.entry.me (length arguments.entry.members.now)) }
{
    let n = arguments.members.len();
    if n > usize::from(MEMBERS) || usize::from(arguments.me) >= n {
        return None;
    }
    Membership::new(arguments.cluster, n as u8, arguments.me)
}

/// The wire of a member: its socket.
type MemberWire = UdpWire<UdpSocket, HostRuntime>;

/// The same whose packets are sealed.
type SealedWire = PacketWire<UdpWire<UdpSocket, HostRuntime>, HostRuntime>;

/// The member's wire. Where asks aren't heard, none comes from elsewhere than a member's address.
pub(crate) fn bind(rt: &HostRuntime, arguments: NodeArguments<'_>) -> Result<MemberWire, Outcome>
    ensures refused { OnErr result ((result ≡ Err Memory) ⊎ (result ≡ Err (Refused 82))) }
    ensures new { IfOk result (λ w. ⟦<UdpWire<UdpSocket, HostRuntime> as Wire>⟧.traffic w []) }
    ensures me { IfOk result (λ w. me_of w ≡ arguments.entry.me) }
    ensures peers { IfOk result (λ w. AreAddresses (map (λ t. t.now) arguments.entry.members.now) (peers_of w)) }
    ensures hears { IfOk result (λ w. hears_of w ≡ hears_asks arguments.entry.key arguments.entry.control) }
{
    match UdpWire::bind(rt, rt.alloc(), arguments.members, arguments.me, WAIT_MS) {
        Ok(mut wire) => {
            if !arguments.hears_asks() {
                wire.hear_members();
            }
            Ok(wire)
        }
        Err(BindFault::Memory) => Err(Outcome::Memory),
        Err(BindFault::NoSocket) => Err(Outcome::Refused(BAD_ADDRESS)),
    }
}

/// Where figures are served over TCP, if they are: 82 for what is no address at which this machine alone is heard, with
/// a port.
pub(crate) fn figures_at(arguments: NodeArguments<'_>) -> Result<Option<SocketAddr>, Outcome>
    ensures refused { OnErr result (result ≡ Err (Refused 82)) }
    ensures served { IfOk result (AreFigures (option_map (λ t. t.now) arguments.entry.metrics)) }
{
    let Some(text) = arguments.metrics else {
        return Ok(None);
    };
    match text.parse::<SocketAddr>() {
        Ok(address) if address.ip().is_loopback() && address.port() != 0 => Ok(Some(address)),
        _ => Err(Outcome::Refused(BAD_ADDRESS)),
    }
}

/// Addresses with a blank between two.
fn addresses_text(alloc: Global, addresses: &[Address]) -> Result<String, AllocError>
    ensures { IfOk result (λ text. string_bytes text ≡ spaced (map shown_address addresses.now)) }
{
    let mut text = String::new(alloc);
    let mut left = addresses;
    while let [first, rest @ ..] = left {
        let blank = if rest.is_empty() { "" } else { " " };
        write!(text, "{first}{blank}")?;
        left = rest;
    }
    Ok(text)
}

/// A start of a node, or a check of whether one could be started: what its arguments say, over the system, the node's
/// files and its databases.
#[derive(Drop)]
pub(crate) struct NodeStart<'a, F, D> {
    pub(crate) rt: &'a HostRuntime,
    pub(crate) files: &'a F,
    pub(crate) dbs: &'a D,
    pub(crate) arguments: NodeArguments<'a>,
}

/// A start of a node that is a member, and what was found of its store.
#[derive(Drop)]
pub(crate) struct MemberStart<'a, F, D> {
    pub(crate) start: NodeStart<'a, F, D>,
    pub(crate) m: Membership,
    pub(crate) found: Found,
}

impl<F: NodeFiles, D: Databases> MemberStart<'_, F, D> {
    /// The record of a member that has no wire, for this reason, is opened alone.
    fn open_alone<R: Records>(&self, records: R, outcome: Outcome) -> (Outcome, R)
        requires members { R.members records ≡ self.now.m.members }
        requires here { self.now.m.me < self.now.m.members }
        requires wireless { IsWireless outcome }
        ensures hosted { ComesOpen R.Records self.now.m records result.0 result.1 }
        ensures turns { ComesTo R.Records self.now.m records result.0 result.1 }
        ensures alone { IsAlone R.Records self.now.m records result.0 result.1 }
    {
        let (ended, records) = open_member(self.start.rt.alloc(), self.m, records);
        (ended_outcome(ended, outcome), records)
    }

    /// The wire whose packets are sealed with a key.
    fn sealed(&self, wire: MemberWire, sealing: Sealing) -> Result<SealedWire, AllocError>
        requires new { ⟦<UdpWire<UdpSocket, HostRuntime> as Wire>⟧.traffic wire [] }
        ensures new { IfOk result (λ w.
            ⟦<PacketWire<UdpWire<UdpSocket, HostRuntime>, HostRuntime> as Wire>⟧.traffic w []) }
        ensures sealer { IfOk result (λ w. sealer_of w ≡ sealer_with self.now.m sealing) }
        ensures keys { IfOk result (λ w. keys_of w ≡ keys_with sealing) }
        ensures inner { IfOk result (λ w. inner_of w ≡ wire) }
    {
        let Sealing { keys, start } = sealing;
        let packets = PacketKeys::new(&keys.key, keys.other.as_ref());
        let rt = self.start.rt;
        let m = self.m;
        let (cluster, n, me) = (m.cluster(), m.members(), m.me());
        PacketWire::new(rt.alloc(), wire, *rt, packets, cluster, n, me, start)
    }

    /// The run of a member at its socket, with packets that are sealed if there are keys, and with a control socket at
    /// the place if there is one; without a wire its record is opened alone.
    fn run_at<R: Records, T: Timer>(
        &self,
        records: R,
        wire: Result<MemberWire, Outcome>,
        sealing: Option<Sealing>,
        timer: &mut T,
        place: Option<ControlPlace<'_>>,
    ) -> (Outcome, R)
        requires placed { IsPlaced (λ p. p.path.now) (λ p. p.figures) (λ p. p.members.now)
            (option_map (λ t. t.now) self.now.start.arguments.control)
            (AreFigures (option_map (λ t. t.now) self.now.start.arguments.metrics))
            (λ text. IfOk wire (λ w. text ≡ spaced (map shown_address (peers_of w)))) place }
        requires members { R.members records ≡ self.now.m.members }
        requires here { self.now.m.me < self.now.m.members }
        requires is { self.now.m.me ≡ self.now.start.arguments.me }
        requires failed { R.failed records ≡ 0 }
        requires refused { OnErr wire ((wire ≡ Err Memory) ⊎ (wire ≡ Err (Refused 82))) }
        requires peers { IfOk wire (λ w.
            AreAddresses (map (λ t. t.now) self.now.start.arguments.members.now) (peers_of w)) }
        requires own { IfOk wire (λ w. me_of w ≡ self.now.start.arguments.me) }
        requires new { IfOk wire (λ w. ⟦<UdpWire<UdpSocket, HostRuntime> as Wire>⟧.traffic w []) }
        ensures hosted { ComesOpen R.Records self.now.m records result.0 result.1 }
        ensures turns { place.entry ≡ None → ComesTo R.Records self.now.m records result.0 result.1 }
        ensures ran { IsAlone R.Records self.now.m records result.0 result.1 ⊎
            RunsHere R.Records self.now.m sealing
            (hears_asks self.now.start.arguments.key self.now.start.arguments.control)
            (map (λ t. t.now) self.now.start.arguments.members.now) records result.0 result.1
            (MadeTurns self.now.start.arguments.turns (T.timer_events timer.old) (T.timer_events timer.new)) }
    {
        let rt = self.start.rt;
        let arguments = self.start.arguments;
        let m = self.m;
        let alloc = rt.alloc();
        let wire = match wire {
            Ok(wire) => wire,
            Err(outcome) => return self.open_alone(records, outcome),
        };
        let Ok(mut observer) = Observer::new(alloc, m, sealing.is_some(), arguments.is_quiet) else {
            return self.open_alone(records, Outcome::Memory);
        };
        let observer = &mut observer;
        let hears = arguments.hears_asks();
        let turns = arguments.turns;
        let Some(sealing) = sealing else {
            let (ended, records, _wire) = run_at_socket(
                rt, alloc, m, records, wire, timer, observer, hears, place, turns,
            );
            return (ended_outcome(ended, Outcome::Memory), records);
        };
        let Ok(wire) = self.sealed(wire, sealing) else {
            return self.open_alone(records, Outcome::Memory);
        };
        let (ended, records, _wire) = run_sealed_at_socket(
            rt, alloc, m, records, wire, timer, observer, hears, place, turns,
        );
        (ended_outcome(ended, Outcome::Memory), records)
    }

    /// The run of a member over its record and a socket, and a control socket if there is one: then what is asked by
    /// datagrams isn't heard.
    fn run_member_in<R: Records, T: Timer>(
        &self,
        records: R,
        sealing: Option<Sealing>,
        timer: &mut T,
    ) -> (Outcome, R)
        requires members { R.members records ≡ self.now.m.members }
        requires here { self.now.m.me < self.now.m.members }
        requires is { self.now.m.me ≡ self.now.start.arguments.me }
        requires failed { R.failed records ≡ 0 }
        requires keyed { is_some sealing ≡ is_some self.now.start.arguments.key }
        ensures hosted { ComesOpenOr R.Records self.now.m records result.0 result.1 }
        ensures turns { self.now.start.arguments.control ≡ None →
            ComesTo R.Records self.now.m records result.0 result.1 }
        ensures ran { IsUnrun R.Records self.now.m records result.0 result.1 ⊎
            RunsHere R.Records self.now.m sealing
            (hears_asks self.now.start.arguments.key self.now.start.arguments.control)
            (map (λ t. t.now) self.now.start.arguments.members.now) records result.0 result.1
            (MadeTurns self.now.start.arguments.turns (T.timer_events timer.old) (T.timer_events timer.new)) }
    {
        let (rt, arguments) = (self.start.rt, self.start.arguments);
        let wire = bind(rt, arguments);
        let Some(path) = arguments.control else {
            return self.run_at(records, wire, sealing, timer, None);
        };
        let wire = match wire {
            Ok(wire) => wire,
            Err(outcome) => return (outcome, records),
        };
        let figures = match figures_at(arguments) {
            Ok(figures) => figures,
            Err(outcome) => return (outcome, records),
        };
        let Ok(members) = addresses_text(rt.alloc(), wire.peers()) else {
            return (Outcome::Memory, records);
        };
        let place = Some(ControlPlace {
            path,
            figures,
            members: members.as_str(),
            fd: wire.raw_fd(),
        });
        self.run_at(records, Ok(wire), sealing, timer, place)
    }

    /// The run of a member over its record, which is closed, whatever came of it; what a node has committed is kept also
    /// where closing fails. A node whose store failed ends with that (70, 72), whichever client asked for the change.
    fn run_on<T: Timer>(&self, records: Kept, sealing: Option<Sealing>, timer: &mut T) -> Outcome
        requires members { ⟦<SqlRecords<FileStore<File>> as Records>⟧.members records ≡ self.now.m.members }
        requires here { self.now.m.me < self.now.m.members }
        requires is { self.now.m.me ≡ self.now.start.arguments.me }
        requires failed { ⟦<SqlRecords<FileStore<File>> as Records>⟧.failed records ≡ 0 }
        requires keyed { is_some sealing ≡ is_some self.now.start.arguments.key }
        ensures ran { EndsAs ⟦<SqlRecords<FileStore<File>> as Records>⟧ self.now.m sealing
            (hears_asks self.now.start.arguments.key self.now.start.arguments.control)
            (map (λ t. t.now) self.now.start.arguments.members.now) records
            (IsClosedIn ⟦<FileStore<File> as Store>⟧ (D.closed self.now.start.dbs.now))
            (MadeTurns self.now.start.arguments.turns (T.timer_events timer.old) (T.timer_events timer.new)) result }
        ensures why { result ≢ Refused 80 }
        ensures beyond { is_beyond false (is_some self.now.start.arguments.control) result ≡ false }
        ensures store { (file new : Bool) → IsStoreless file new result }
    {
        log_start(self.start.rt, self.start.arguments);
        let (outcome, records) = self.run_member_in(records, sealing, timer);
        let outcome = ending_of(outcome, records.failures());
        log_end(self.start.rt, self.start.arguments, outcome);
        self.start.dbs.close(records.release());
        outcome
    }

    /// The run of a member over its record, where its packets can be sealed; else the record is closed: 95.
    fn run_sealed<T: Timer>(&self, records: Kept, keys: Option<Keys>, timer: &mut T) -> Outcome
        requires members { ⟦<SqlRecords<FileStore<File>> as Records>⟧.members records ≡ self.now.m.members }
        requires here { self.now.m.me < self.now.m.members }
        requires is { self.now.m.me ≡ self.now.start.arguments.me }
        requires failed { ⟦<SqlRecords<FileStore<File>> as Records>⟧.failed records ≡ 0 }
        requires keyed { is_some keys ≡ is_some self.now.start.arguments.key }
        ensures ran { EndsWith ⟦<SqlRecords<FileStore<File>> as Records>⟧ self.now.m keys
            (F.raises self.now.start.files.now (self.now.start.arguments.store.now ++ codes "-starts")
            self.now.m.members self.now.m.me
            (is_made self.now.start.arguments.is_from_file self.now.start.arguments.is_new self.now.found
            || self.now.start.arguments.makes_starts))
            (hears_asks self.now.start.arguments.key self.now.start.arguments.control)
            (map (λ t. t.now) self.now.start.arguments.members.now) records
            (IsClosedIn ⟦<FileStore<File> as Store>⟧ (D.closed self.now.start.dbs.now))
            (MadeTurns self.now.start.arguments.turns (T.timer_events timer.old) (T.timer_events timer.new)) result }
        ensures ending { result ≢ Refused 80 }
        ensures beyond { is_beyond (is_some self.now.start.arguments.key) (is_some self.now.start.arguments.control)
            result ≡ false }
        ensures store { (file new : Bool) → IsStoreless file new result }
    {
        match self.sealing_for(keys) {
            Ok(sealing) => self.run_on(records, sealing, timer),
            Err(outcome) => {
                self.start.dbs.close(records.release());
                outcome
            }
        }
    }

    /// What a node over a new store gives: its file of starts is made before its store, so that no store is without
    /// one, and no store is made where its sockets are refused. 95, the store's refusals, 82, 84, and the first refusal
    /// of a turn, in this order.
    fn run_new<T: Timer>(&self, keys: Option<Keys>, timer: &mut T) -> Outcome
        requires here { self.now.m.me < self.now.m.members }
        requires is { self.now.m.me ≡ self.now.start.arguments.me }
        requires keyed { is_some keys ≡ is_some self.now.start.arguments.key }
        ensures ran { EndsNew ⟦<SqlRecords<FileStore<File>> as Records>⟧ self.now.m keys
            (F.raises self.now.start.files.now (self.now.start.arguments.store.now ++ codes "-starts")
            self.now.m.members self.now.m.me
            (is_made self.now.start.arguments.is_from_file self.now.start.arguments.is_new self.now.found
            || self.now.start.arguments.makes_starts))
            (hears_asks self.now.start.arguments.key self.now.start.arguments.control)
            (map (λ t. t.now) self.now.start.arguments.members.now)
            (IsKeptIn ⟦<FileStore<File> as Store>⟧
            (D.holds self.now.start.dbs.now self.now.start.arguments.store.now) self.now.found
            (identity_at self.now.m))
            (IsClosedIn ⟦<FileStore<File> as Store>⟧ (D.closed self.now.start.dbs.now))
            (MadeTurns self.now.start.arguments.turns (T.timer_events timer.old) (T.timer_events timer.new)) result }
        ensures ending { result ≢ Refused 80 }
        ensures beyond { is_beyond (is_some self.now.start.arguments.key) (is_some self.now.start.arguments.control)
            result ≡ false }
        ensures store { IsStoreless self.now.start.arguments.is_from_file self.now.start.arguments.is_new result }
        ensures none { result ≡ Refused NO_STORE → IsNone self.now.found }
    {
        let sealing = match self.sealing_for(keys) {
            Ok(sealing) => sealing,
            Err(outcome) => return outcome,
        };
        match self.opened_record() {
            Ok(records) => self.run_on(records, sealing, timer),
            Err(outcome) => outcome,
        }
    }
}

/// What a run of a node gives with these files, databases and timer: 40 of its numbers, 83, 93, 94, the store's
/// refusals, 95, 82, 84, and the first refusal of a turn, in this order. It runs over a store only where one was seen,
/// or where none was and one may be made.
pub fn run_node<F: NodeFiles, D: Databases, T: Timer>(
    rt: &HostRuntime,
    files: &F,
    dbs: &D,
    arguments: NodeArguments<'_>,
    timer: &mut T,
) -> Outcome
    ensures place { has_place arguments.entry.me (length arguments.entry.members.now) ≡ false → result ≡ Refused 40 }
    ensures ran { EndsNode ⟦<SqlRecords<FileStore<File>> as Records>⟧
        (λ m. (m.cluster ≡ arguments.entry.cluster) × (m.me ≡ arguments.entry.me) ×
        (m.members ≡ length arguments.entry.members.now))
        (AreNamed (F.makes files.now arguments.entry.cluster (map (λ t. t.now) arguments.entry.members.now))
        (option_map (λ t. t.now) arguments.entry.key) (option_map (λ t. t.now) arguments.entry.other_key))
        (λ m start. (found : Found) × IsFoundAt (D.is_seen dbs.now) arguments.entry.store.now found ×
        F.raises files.now (arguments.entry.store.now ++ codes "-starts") m.members m.me
        (is_made arguments.entry.is_from_file arguments.entry.is_new found || arguments.entry.makes_starts) start)
        (hears_asks arguments.entry.key arguments.entry.control) (map (λ t. t.now) arguments.entry.members.now)
        (λ m. IsRunOver ⟦<FileStore<File> as Store>⟧ (D.is_seen dbs.now) (D.holds dbs.now arguments.entry.store.now)
        arguments.entry.store.now arguments.entry.is_from_file arguments.entry.is_new (identity_at m))
        (IsClosedIn ⟦<FileStore<File> as Store>⟧ (D.closed dbs.now))
        (MadeTurns arguments.entry.turns (T.timer_events timer.old) (T.timer_events timer.new)) result }
    ensures ending { result ≢ Refused 80 }
    ensures beyond { is_beyond (is_some arguments.entry.key) (is_some arguments.entry.control) result ≡ false }
    ensures store { IsStoreless arguments.entry.is_from_file arguments.entry.is_new result }
    ensures none { result ≡ Refused NO_STORE → HasNone (D.is_seen dbs.now) arguments.entry.store.now }
{
    let Some(m) = membership(arguments) else {
        log_place(rt, arguments);
        return Outcome::Refused(INVALID_ARGUMENTS);
    };
    let start = NodeStart {
        rt,
        files,
        dbs,
        arguments,
    };
    let keys = match start.named_keys() {
        Ok(keys) => keys,
        Err(outcome) => return outcome,
    };
    warn_unsealed(rt, arguments);
    let Some(found) = start.found_store() else {
        return Outcome::Memory;
    };
    let start = MemberStart { start, m, found };
    if is_made(arguments.is_from_file, arguments.is_new, found) {
        return start.run_new(keys, timer);
    }
    match start.opened_record() {
        Ok(records) => start.run_sealed(records, keys, timer),
        Err(outcome) => outcome,
    }
}
