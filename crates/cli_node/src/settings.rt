//! The subcommand `node` with its file of settings.

ghost use Rattle.std.specs.Prelude.{◌≡◌, ◌≢◌, ◌⊎◌, ◌∷◌, ℕ, List, [], Some, None, Err, false, length, map};
ghost use Rattle.std.specs.Prelude.{◌||◌, option_map, is_some, codes, IfOk, IfErr, OnErr};
ghost use Rattle.std.specs.List.{All};
ghost use Rattle.cli_files.specs.Clusters.{IsClusterKey, IsKeyOfFile};
ghost use Rattle.cli_node.specs.declared.outcome.Outcome.TheVariants.{Memory, Refused};
ghost use Rattle.cli_io.specs.declared.numbers.TheConstants.{UNREADABLE};
ghost use Rattle.cli_node.specs.Doing.{Adds, GaveSo, NodeEvent, Ran, Checked};
ghost use Rattle.cli_node.specs.Endings.{is_beyond};
ghost use Rattle.cli_node.specs.Places.{has_place};
ghost use Rattle.cli_node.specs.MemberRuns.{Anything, EndsNode, hears_asks};
ghost use Rattle.cli_node.specs.Secrets.{AreNamed};
ghost use Rattle.cli_node.specs.Settled.{AreSettings, IsNode, IsSettled, IsSettledOr};
ghost use Rattle.cli_node.specs.Settled.{IsUnsettled, members_for, settings_code, settings_outcome};
ghost use Rattle.clap.specs.Words.{first_of, found_of, rows_of};
ghost use Rattle.cli_node.specs.Stores.{IsStoreless};

use crate::check::check_node;
use crate::node::{NodeArguments, run_node};
use crate::outcome::Outcome;
use clap::ArgMatches;
use cli_files::{FileFault, NodeFile};
use cli_io::{
    BAD_SETTINGS, INVALID_ARGUMENTS, Shown, Sources, UNREADABLE, has_flag, number_in, value_in,
};
use node_loop::TickTimer;
use px_records::Records;
use px_store::SqlRecords;
use sqlite::{File, FileStore};
use std::alloc::Global;
use std::io::{Eprint, ErrorKind, Read};

/// The bytes of the regular file at a path; why there are none is logged on standard error.
fn bytes_at<RT: Eprint + Sources>(rt: &RT, alloc: Global, path: &str) -> Result<Vec<u8>, Outcome>
    ensures read { IfOk result (λ bytes. RT.has rt.now path.now bytes.items) }
    ensures refused { OnErr result ((result ≡ Err Memory) ⊎ (result ≡ Err (Refused UNREADABLE))) }
{
    match rt.file_at(alloc, path) {
        Ok(bytes) => Ok(bytes),
        Err(error) if error.kind() == ErrorKind::OutOfMemory => Err(Outcome::Memory),
        Err(error) => {
            let _logged = eprintln!(rt; "pfx: error: {}: {error} ({UNREADABLE})", Shown(path));
            Err(Outcome::Refused(UNREADABLE))
        }
    }
}

/// What a wrong file is refused for, logged on standard error too.
fn file_refused<RT: Eprint>(rt: &RT, path: &str, fault: FileFault) -> Outcome
    ensures { result ≡ settings_outcome fault }
{
    if fault == FileFault::Memory {
        return Outcome::Memory;
    }
    let path = Shown(path);
    let Some(line) = fault.line() else {
        let _logged = eprintln!(rt; "pfx: error: {path}: {fault} ({BAD_SETTINGS})");
        return Outcome::Refused(BAD_SETTINGS);
    };
    let _logged = eprintln!(rt; "pfx: error: {path}:{line}: {fault} ({BAD_SETTINGS})");
    let code = BAD_SETTINGS;
    Outcome::RefusedLine { code, line }
}

/// The settings of a file, or what it is refused for.
type Settings = Result<NodeFile, Outcome>;

/// The settings in the file that is named; none without one.
fn settings_for<RT: Eprint + Sources>(rt: &RT, alloc: Global, named: Option<&str>) -> Settings
    ensures settings { IfOk result (AreSettings (RT.has rt.now) (option_map (λ n. n.now) named.entry)) }
    ensures refused { IfErr result (IsUnsettled (RT.has rt.now) (option_map (λ n. n.now) named.entry)) }
{
    let Some(path) = named else {
        return Ok(NodeFile::empty(alloc));
    };
    let bytes = bytes_at(rt, alloc, path)?;
    NodeFile::read(alloc, &bytes).map_err(|fault| file_refused(rt, path, fault))
}

/// The number with which settings are refused: 92 where a file is named, 40 for arguments alone.
fn settings_code(matches: &ArgMatches<'_>) -> u8
    ensures { result ≡ settings_code (first_of (codes "config") (rows_of (found_of matches.now))) }
{
    value_in(matches, "config").map_or(INVALID_ARGUMENTS, |_| BAD_SETTINGS)
}

/// Logs which setting is missing.
fn log_missing<RT: Eprint>(rt: &RT, name: &str, code: u8) {
    let _logged = eprintln!(rt;
        "pfx: error: {name} is given neither by an option nor in the file ({code})"
    );
}

/// What is refused where a setting is missing that no option gives.
fn lacking<RT: Eprint>(rt: &RT, matches: &ArgMatches<'_>, file: &NodeFile) -> Outcome
    ensures { result ≡ Refused (settings_code (first_of (codes "config") (rows_of (found_of matches.now)))) }
{
    let code = settings_code(matches);
    if number_in(matches, "me").is_none() && file.number("me").is_none() {
        log_missing(rt, "me", code);
    }
    if number_in(matches, "cluster").is_none() && file.number("cluster").is_none() {
        log_missing(rt, "cluster", code);
    }
    if value_in(matches, "store").is_none() && file.text("store").is_none() {
        log_missing(rt, "store", code);
    }
    Outcome::Refused(code)
}

/// Who runs nodes, or checks whether they could be started.
pub trait Nodes {
    // these were run or checked, and gave this
    ghost did: { Self → List NodeEvent → Type 0 };

    /// Runs a node.
    fn run(&mut self, arguments: NodeArguments<'_>) -> Outcome
        ensures { Adds (did self.old) (did self.new) (Ran arguments.entry result ∷ []) };

    /// Checks whether a node could be started.
    fn check(&mut self, arguments: NodeArguments<'_>) -> Outcome
        ensures { Adds (did self.old) (did self.new) (Checked arguments.entry result ∷ []) };
}

impl Nodes for HostRuntime {
    // no contract states what is in a file, or which turns are made by the system's clock
    ghost did = { λ _. All (GaveSo
        (λ w outcome. (has_place w.me (length w.members.now) ≡ false → outcome ≡ Refused 40) ×
        EndsNode ⟦<SqlRecords<FileStore<File>> as Records>⟧
        (λ m. (m.cluster ≡ w.cluster) × (m.me ≡ w.me) × (m.members ≡ length w.members.now))
        (AreNamed (λ path key. ((text : List ℕ) × IsClusterKey text w.cluster (map (λ t. t.now) w.members.now) key)
        × IsKeyOfFile ⟦<std::fs::File as Read>⟧.remaining w.cluster (map (λ t. t.now) w.members.now) key)
        (option_map (λ t. t.now) w.key) (option_map (λ t. t.now) w.other_key))
        (λ m. Anything) (hears_asks w.key w.control) (map (λ t. t.now) w.members.now) (λ m. Anything) Anything
        Anything outcome × (outcome ≢ Refused 80) × IsStoreless w.is_from_file w.is_new outcome ×
        (is_beyond (is_some w.key) (is_some w.control) outcome ≡ false))
        (λ w outcome. (has_place w.me (length w.members.now) ≡ false → outcome ≡ Refused 40) ×
        IsStoreless w.is_from_file w.is_new outcome ×
        (is_beyond (is_some w.key || is_some w.other_key) (is_some w.control) outcome ≡ false))) };

    fn run(&mut self, arguments: NodeArguments<'_>) -> Outcome {
        let mut timer = TickTimer::new(arguments.me);
        let rt = *self;
        run_node(&rt, &rt, &rt, arguments, &mut timer)
    }

    fn check(&mut self, arguments: NodeArguments<'_>) -> Outcome {
        let rt = *self;
        let mut inspection = rt;
        check_node(&rt, &rt, &rt, &mut inspection, arguments)
    }
}

/// What `node` gives with these settings and members; an option goes before the file's.
fn outcome_for<'g: 'f, 'f, RT: Eprint, N: Nodes>(
    rt: &RT,
    nodes: &mut N,
    matches: &ArgMatches<'g>,
    file: &'f NodeFile,
    members: &[&str],
) -> Outcome
    ensures { IsSettled (Adds (N.did nodes.old) (N.did nodes.new)) (rows_of (found_of matches.now)) file.now
        (map (λ t. t.now) members.now) result }
{
    let Some(arguments) = NodeArguments::of(matches, file, members) else {
        return lacking(rt, matches, file);
    };
    if !arguments.is_whole() {
        let code = settings_code(matches);
        let _logged = eprintln!(rt;
            "pfx: error: other-key or new-starts is given without key, or metrics without control ({code})"
        );
        return Outcome::Refused(code);
    }
    match has_flag(matches, "check") {
        true => nodes.check(arguments),
        false => nodes.run(arguments),
    }
}

/// What `node` gives with these settings; the members among the arguments go before the file's.
fn outcome_with<'g: 'f, 'f, RT: Eprint, N: Nodes>(
    rt: &RT,
    nodes: &mut N,
    alloc: Global,
    matches: &ArgMatches<'g>,
    file: &'f NodeFile,
) -> Outcome
    ensures { IsSettledOr (Adds (N.did nodes.old) (N.did nodes.new)) (rows_of (found_of matches.now)) file.now
        (members_for (rows_of (found_of matches.now)) file.now) result }
{
    match matches.get_strs("member") {
        Some(members) => outcome_for(rt, nodes, matches, file, members),
        None => match file.texts(alloc, "members") {
            Ok(listed) => outcome_for(rt, nodes, matches, file, listed.as_slice()),
            Err(_) => Outcome::Memory,
        },
    }
}

/// What `node` gives: 90 for a file of settings that can't be read, 92 for one that is wrong or where a setting is
/// missing; then what a node with these settings gives.
pub(crate) fn settled_outcome<RT: Eprint + Sources, N: Nodes>(
    rt: &RT,
    nodes: &mut N,
    alloc: Global,
    matches: &ArgMatches<'_>,
) -> Outcome
    ensures { IsNode (Adds (N.did nodes.old) (N.did nodes.new)) (RT.has rt.now) (rows_of (found_of matches.now))
        result }
{
    match settings_for(rt, alloc, value_in(matches, "config")) {
        Ok(file) => outcome_with(rt, nodes, alloc, matches, &file),
        Err(outcome) => outcome,
    }
}
