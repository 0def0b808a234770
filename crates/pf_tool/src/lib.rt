//! The subcommands `check`, `test`, `ctl`, `lab` and `explain`: what they write for their arguments and input, and how
//! they end.
//!
//! # Organization
//!
//! - [`run`]: the subcommands `check`, `test`, `ctl`, `lab` and `explain`, over any reader and writers.
//! - [`Status`]: how a run ends, and the exit status.
//!
//! Within: `options` has the arguments as `clap` reads them, `call` what they ask for, `checking`, `testing`, `scripts`
//! and `explaining` what each subcommand writes, `source` and `packets` rulesets and packets in files, `answering` what
//! a call writes over the input and files, `reporting` the messages on standard error, `output` what a run writes,
//! `running` one run from the arguments to the status.
//!
//! # Why
//!
//! - **Help changes nothing that is promised**: how `clap` reads arguments doesn't depend on it (`app_of`), so no
//!   definition has it.
//! - **`pfx --help` lists all subcommands, and seven programs of `clap` read them.** pf_tool's has the subcommands of
//!   others (`node`, `ask`, `key`, `show`, `follow`) by their names alone; pfx hands a run whose first argument is
//!   one of these to the crate that has its options. One command of all options would make the crate that holds it
//!   depend on all of them, SQLite too, and `ask` has two sets of options (`--to`, `--control`), which `clap` could
//!   distinguish only by rules between arguments, for which its contracts don't state what is refused. The exit is in
//!   one place: `main` makes the status of each into the exit code.
//! - **A number is refused by pf_tool and not by `clap`** where no refusal has it (`explain 99`), and so is `test`
//!   without a packet: both are rules on more than one argument or on the table, which `clap`'s exact contracts leave
//!   out. They are reported in one line, with status 2.
//! - **`run` is lent the table of refusals**, and so are the calls of cli_io. A clause can't name a constant
//!   that is a list of structs, and a copy of the table among the definitions would be a second table. So what is
//!   promised of `explain` holds for whatever table is lent, and pfx lends the one that there is.
//! - **A clause names the path of each file that is read**, and what a file has is what `cli_io::Sources` says of its
//!   path; of the system's files that is that some file has it. Names of files are UTF-8 arguments. A file is read
//!   whole before anything is written; `-` doesn't name standard input, `/dev/stdin` does.
//! - **`check FILE..` goes on behind a refused file**, as compilers do, and shows by the status that one was; so a
//!   script sees all that is wrong. The message on standard error names the file.
//! - **A message is made where its line is**: of one refusal both `refused CODE` and its message, of one verdict both
//!   its line and the rule that decides. So they can't contradict each other, and nothing is evaluated twice. Messages
//!   are written after the output; that they can't be written changes nothing.
//! - **A script's refusals are named by the line of what is printed** (`stdout:2:`). No rule is reported of a script's
//!   `test`.
//! - **Numbers with names** (60 to 62, 30, 90) are in cli_io. Lower crates keep their enums with a `code` of
//!   their own: they are below it, and each number is in each of them once.
//! - **More input than 16,777,216 bytes is a fault of its own** (`TooLong`), so that a clause can say what it
//!   means; the run ends as one whose input can't be read, with nothing written.
//! - **All output at once.** A run collects what it writes, and writes it once. So a run that is out of memory
//!   prints `memory` and not a part of its lines before it.
//! - **Random packets over random rulesets are rows too** (`scripts/verdict-rows`): their verdicts are an earlier
//!   program's, so they show that faster bodies answer alike, and no more.
//! - **What is wanted of changed datagrams comes from a script** (`scripts/datagram-rows`) that has the formats
//!   once more and shares nothing with the code. Each byte of 16 datagrams is set to each value there.
//! - **Rows are data** (pfx, by `batch`): rulesets, arguments, exact output and status are in tables that a program
//!   goes through when the gate runs it, since rows as tests are proved code, and are paid for at each check. A row
//!   that doesn't match ends the program with a status that its stored run doesn't have.
//! - **The body is in `running.rt`**, since a module may not have the name of a function that the crate hands out
//!   (`run`).
//! - **`test` loads its text into an empty configuration**, so tables that no rule refers to and that aren't
//!   `persist` are gone, as pfctl's load does it; no verdict shows it.
//! - **A subcommand has to be named** (`subcommand_required`): without one `clap` reports that, and the status is 2.
//! - **A command-line argument that isn't text** is one that isn't understood, status 2.
//! - **No contract can state that a read succeeds.** std's `Read` and `Write` may return an error at any call, and none
//!   of their clauses states when, so a status of a failed read or write has no clause beyond itself; tests with
//!   readers and writers that don't fail are in its place.
//! - **The status is an enum with a code**, so that a body that gives up doesn't meet the contract by returning 1.
//! - **`run` answers `node`, `ask`, `key`, `show`, `follow` and `batch` with status 2, and writes nothing**: it knows
//!   them by name. These subcommands are `run_net`'s, `run_control_ask`'s, `run_show`'s, `run_follow`'s and those of
//!   `pfx`, which hands on every run whose first argument is one of them: so pf_tool depends on neither sockets nor
//!   databases.
//! - **What runs of all subcommands have in common** (`Status`, `read_all`, `misused`, `out_of_memory`) is in cli_io,
//!   over `clap` alone, so that the subcommands of the network, the control socket and nftables wait for no lab.
//! - **No test lends an allocator that refuses**: what takes memory takes `alloc: Global`, which is one type and
//!   not a parameter. What a call leaves where a growth is refused is in its contract. In place of a test two
//!   checks are outside the gate: `rt try --fail-alloc N`, which refuses the N-th allocation of a run, and
//!   `scripts/refused-memory`, which refuses each in turn in the built programs of pfx and rows_nodes. The gate
//!   runs the same rows with ample memory.
#![tactic(auto)]

mod answering;
mod call;
mod checking;
mod explaining;
mod options;
mod output;
mod packets;
mod reporting;
mod running;
mod scripts;
mod source;
mod testing;

pub use cli_io::Status;
pub use running::run;
