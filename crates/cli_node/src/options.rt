//! The arguments of `node`, `ask` and `key`, as `clap` reads them.

ghost use Rattle.std.specs.Prelude.{◌≡◌, IfOk, false, map};
ghost use Rattle.clap.specs.Words.{app_of};
ghost use Rattle.clap.specs.declared.builder.command.Command.TheViews.{out-Command};
ghost use Rattle.cli_node.specs.Arguments.{node_app, ask_app, key_app, net_app};
ghost use Rattle.cli_node.specs.Arguments.{is_config, names_config};

use clap::Command;
use cli_io::{Argument, with_options};
use pf_arguments::pfctl_args;
use std::alloc::{AllocError, Global};
use std::convert::AsStr;

/// The help of each option, and what is below them.
const CONFIG: &str =
    "A file of settings in TOML, named as these options, and members for the addresses; options override it";

const CLUSTER: &str = "The cluster's number, 0 to 4294967295";

const STORE: &str =
    "The node's store, a file; created if it is missing, with --config only if --new is given";

const NEW: &str =
    "Creates the store of a node that never ran, once on each machine; refused if the file exists";

const CHECK: &str =
    "Checks settings, keys, addresses, sockets and store; starts and changes nothing";

const TURNS: &str =
    "Ends after this many turns: a turn receives one datagram, or ticks after 100 ms without one. By default the node
runs until it is stopped";

const KEY: &str =
    "A file with the cluster's key, 64 hexadecimal digits, that only its owner may read; it authenticates datagrams";

const OTHER_KEY: &str = "A file with a second key, accepted too while the cluster's key is changed";

const NEW_STARTS: &str =
    "Creates a missing file of starts beside a store that isn't new: it was lost, or the node had no key";

const QUIET: &str = "Prints only warnings, errors and changes of health on standard error";

const UNSEALED: &str =
    "Doesn't warn of a missing key: IPsec, WireGuard or the like authenticates datagrams";

const CONTROL: &str = "A Unix socket for operators, which the node creates";

const METRICS: &str =
    "A loopback TCP address, as 127.0.0.1:9470, that serves GET /metrics, /healthz and /readyz";

const MEMBER: &str =
    "The members' addresses in their order, 1 to 15 of them: IPV4:PORT, [IPV6]:PORT or NAME:PORT; a node binds its own";

const TO: &str = "The node's address: IPV4:PORT, [IPV6]:PORT or NAME:PORT";

const WAIT: &str = "Seconds to wait for the answer, 0 to 3600; 1 by default";

const NODE_BELOW: &str =
    "When it ends it prints front F applied A: the number of positions learned without a gap, and applied. A refusal is
refused CODE: 40 invalid arguments, 83 no key in its file, or others may read it, 70 the store failed, 71 it is of
another cluster or member, 72 a bad row, 73 another format, 82 its address is in use, or that of --metrics isn't
loopback, 84 its control socket is in use, 90 its file of settings can't be read, 92 (with the line) that file is
invalid, 93 its store is missing, 94 with --new it exists, 95 its file of starts is missing or damaged. Standard error
names the file or address, and the system's error. --check prints ok, or the first refusal. With a key or a control
socket, requests by UDP are ignored.";

const KEY_BELOW: &str =
    "It writes 64 hexadecimal digits, as pfx node --key reads them, to FILE, which it creates and only its owner may
read, or to standard output. A refusal is refused CODE: 94 the file exists, 83 it can't be created.";

const ASK_BELOW: &str =
    "It prints asked NODE.NUMBER, no answer, or refused CODE; a node refuses with 60 (64 commands wait) or 62 (no number
is left). A command that is asked isn't learned yet: see the nodes' logs.";

/// `node [--config FILE] --me N --cluster C --store FILE [--turns T] [--control PATH [--metrics ADDR]]
/// [--key FILE [--other-key FILE] [--new-starts]] [--unsealed] [--new] [--check] [--quiet] ADDR..`, with a number,
/// a cluster and a store that have to be given where no file of settings is named.
fn node_command<'a>(alloc: Global, is_needed: bool) -> Result<Command<'a>, AllocError>
    ensures app { IfOk result (λ c. app_of c ≡ node_app is_needed) }
    ensures local { IfOk result (λ c. (out-Command c).has_globals ≡ false) }
{
    let node = Command::new(alloc, "node")
        .about("Runs a node on its store over UDP")
        .after_help(NODE_BELOW);
    let arguments = [
        Argument::Value("config", CONFIG),
        Argument::U8("me", "The node's number, from 0 on", is_needed),
        Argument::U32("cluster", CLUSTER, is_needed),
        Argument::NeededIf("store", STORE, is_needed),
        Argument::U32("turns", TURNS, false),
        Argument::Value("control", CONTROL),
        Argument::Value("metrics", METRICS),
        Argument::Value("key", KEY),
        Argument::Value("other-key", OTHER_KEY),
        Argument::Flag("new-starts", NEW_STARTS),
        Argument::Flag("unsealed", UNSEALED),
        Argument::Flag("new", NEW),
        Argument::Flag("check", CHECK),
        Argument::Flag("quiet", QUIET),
        Argument::Several("member", MEMBER),
    ];
    with_options(alloc, node, &arguments)
}

/// `ask --to ADDR --cluster C --members N --node N [--wait S]`, and pfctl's arguments.
fn ask_command<'a>(alloc: Global) -> Result<Command<'a>, AllocError>
    ensures app { IfOk result (λ c. app_of c ≡ ask_app) }
    ensures local { IfOk result (λ c. (out-Command c).has_globals ≡ false) }
{
    let ask = Command::new(alloc, "ask")
        .about("Submits a change to a node, by pfctl's options")
        .after_help(ASK_BELOW);
    let arguments = [
        Argument::Needed("to", TO),
        Argument::U32("cluster", CLUSTER, true),
        Argument::U8("members", "The number of members, 1 to 15", true),
        Argument::U8("node", "The number of the node that is asked", true),
        Argument::Number("wait", WAIT, 0, 3_600),
    ];
    pfctl_args(alloc, with_options(alloc, ask, &arguments)?)
}

/// `key [FILE]`
fn key_command<'a>(alloc: Global) -> Result<Command<'a>, AllocError>
    ensures app { IfOk result (λ c. app_of c ≡ key_app) }
    ensures local { IfOk result (λ c. (out-Command c).has_globals ≡ false) }
{
    let key = Command::new(alloc, "key")
        .about("Makes a new key for a cluster, from the system's random source")
        .after_help(KEY_BELOW);
    let file = Argument::Single("file", "The file to create");
    with_options(alloc, key, &[file])
}

/// The program with these subcommands, of which one has to be given.
pub(crate) fn command<'a>(alloc: Global, is_needed: bool) -> Result<Command<'a>, AllocError>
    ensures { IfOk result (λ c. app_of c ≡ net_app is_needed) }
{
    let command = Command::new(alloc, "pfx").subcommand(node_command(alloc, is_needed)?)?;
    let command = command.subcommand(ask_command(alloc)?)?;
    let command = command.subcommand(key_command(alloc)?)?;
    Ok(command.subcommand_required(true))
}

/// Whether an argument names a file of settings.
fn is_config(argument: &str) -> bool
    ensures { result ≡ is_config argument.now }
{
    argument == "--config" || argument.as_bytes().starts_with(b"--config=")
}

/// Whether a file of settings is named.
pub(crate) fn names_config<S: AsStr>(arguments: &[S]) -> bool
    ensures { result ≡ names_config (map S.text arguments.now) }
{
    let mut left = arguments.iter();
    left.any(|argument| is_config(argument.as_str()))
}
