//! The kinds of command lines, by their arguments.

ghost use Rattle.std.specs.Prelude.{◌≡◌, map};
ghost use Rattle.std.specs.List.{list_any};
ghost use Rattle.pfx.specs.Arguments.{asks_help, has_control, is_batch, is_help, kind_of, names_control, names_node};
ghost use Rattle.pfx.specs.Arguments.{subcommand_of};

use cli_nft::asks_nft;

/// What a command line is, by what runs it.
#[derive(Clone, Copy)]
pub(crate) enum Kind {
    /// Which program this is.
    Version,
    /// `ask` at a control socket.
    Socket,
    /// The help of `ask`, of its two forms.
    AskHelp,
    /// `node`, `key`, and `ask` over UDP.
    Net,
    /// `show`.
    Show,
    /// `follow`.
    Follow,
    /// `check --nft`.
    Nft,
    /// What reaches no node, and all else.
    Tool,
}

/// The first argument behind the program's name, empty where there is none.
pub(crate) fn subcommand_of<'a>(arguments: &[&'a str]) -> &'a str
    ensures { result.now ≡ subcommand_of (map (λ a. a.now) arguments.now) }
{
    match arguments {
        [_, subcommand, ..] => subcommand,
        _ => "",
    }
}

/// Whether the command lines of a batch are asked for.
pub(crate) fn is_batch(arguments: &[&str]) -> bool
    ensures { result ≡ is_batch (map (λ a. a.now) arguments.now) }
{
    subcommand_of(arguments) == "batch"
}

/// Whether an argument is `--control`, with its value or without.
pub(crate) fn names_control(argument: &str) -> bool
    ensures { result ≡ names_control argument.now }
{
    argument.as_bytes().starts_with(b"--control")
}

/// Whether an argument is `--to`, with its value or without.
pub(crate) fn names_node(argument: &str) -> bool
    ensures { result ≡ names_node argument.now }
{
    argument.as_bytes().starts_with(b"--to")
}

/// Whether an argument asks for help.
pub(crate) fn is_help(argument: &str) -> bool
    ensures { result ≡ is_help argument.now }
{
    argument == "--help" || argument == "-h"
}

/// Whether a control socket is named.
fn has_control(arguments: &[&str]) -> bool
    ensures { result ≡ has_control (map (λ a. a.now) arguments.now) }
{
    arguments.iter().any(|argument| names_control(argument))
}

/// Whether one of these asks for help.
fn any_is_help(arguments: &[&str]) -> bool
    ensures { result ≡ list_any is_help (map (λ a. a.now) arguments.now) }
{
    arguments.iter().any(|argument| is_help(argument))
}

/// Whether one of these names a node.
fn any_names_node(arguments: &[&str]) -> bool
    ensures { result ≡ list_any names_node (map (λ a. a.now) arguments.now) }
{
    arguments.iter().any(|argument| names_node(argument))
}

/// Whether help is asked for, and no node is named.
fn asks_help(arguments: &[&str]) -> bool
    ensures { result ≡ asks_help (map (λ a. a.now) arguments.now) }
{
    any_is_help(arguments) && !any_names_node(arguments)
}

/// What a command line is, the program's name first.
pub(crate) fn kind_of(arguments: &[&str]) -> Kind
    ensures { result ≡ kind_of (map (λ a. a.now) arguments.now) }
{
    match subcommand_of(arguments) {
        "--version" | "-V" => Kind::Version,
        "ask" if has_control(arguments) => Kind::Socket,
        "ask" if asks_help(arguments) => Kind::AskHelp,
        "ask" | "node" | "key" => Kind::Net,
        "show" => Kind::Show,
        "follow" => Kind::Follow,
        _ if asks_nft(arguments) => Kind::Nft,
        _ => Kind::Tool,
    }
}
