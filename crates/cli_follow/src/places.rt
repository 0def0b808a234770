//! What is to be written where, by the arguments.

ghost use Rattle.std.specs.Prelude.{false, IfOk, IfSome, Some};
ghost use Rattle.clap.specs.Words.{found_of, rows_of};
ghost use Rattle.nft_rules.specs.Seen.{machine_of};
ghost use Rattle.cli_follow.specs.Places.{ArePlaces, IsListed};

use crate::files::TextFiles;
use clap::ArgMatches;
use cli_io::{BAD_INTERFACES, INVALID_ARGUMENTS, Shown, Sources, has_flag, value_in};
use cli_nft::{machine_in, read_file};
use nft_rules::MachineInterface;
use std::alloc::{AllocError, Global};
use std::fs::{self, Files};
use std::io::{self, Write};

/// What is to be written where.
#[derive(Drop)]
pub(crate) struct Places {
    /// The machine's interfaces, where lines for nft(8) are wanted.
    pub(crate) interfaces: Option<Vec<MachineInterface>>,
    /// Whether those have the members' guard.
    pub(crate) is_guarded: bool,
    /// Rulesets for pfctl(8).
    pub(crate) files: Option<TextFiles>,
}

/// The interfaces that a file lists; none where it lists none.
fn interfaces_in<T: Sources>(
    sources: &T,
    alloc: Global,
    file: &str,
) -> Result<Option<Vec<MachineInterface>>, AllocError>
    ensures { IfOk result (λ o. IfSome o (λ m. IsListed (T.has sources.now) (Some file.now)
        (Some (machine_of m.items)))) }
{
    match read_file(sources, alloc, file)? {
        Some(text) => machine_in(alloc, text.as_slice()),
        None => Ok(None),
    }
}

/// Why a file can't be opened, as the system reports it; none where it can. What isn't a regular file isn't opened,
/// since a pipe would be waited for.
fn why_unread<RT: Files>(rt: &RT, file: &str) -> io::Result<()> {
    if fs::metadata(rt, file)?.is_file() {
        let _opened = fs::open(rt, file)?;
    }
    Ok(())
}

/// Logs why a file lists no interfaces.
fn log_interfaces<RT: Files, E: Write>(rt: &RT, file: &str, errors: &mut E) {
    let shown = Shown(file);
    let bad = "it has a malformed name, a name twice, or too many names";
    let _logged = match why_unread(rt, file) {
        Ok(()) => writeln!(errors, "pfx: interfaces {shown}: {bad}"),
        Err(error) => writeln!(errors, "pfx: interfaces {shown}: {error}"),
    };
}

/// Where the arguments want it written. 40 where they want it nowhere, `--nft` and `--interfaces` aren't both there, or
/// `--no-member-guard` is without them; 89 where the file lists no interfaces, which is logged on standard error.
pub(crate) fn places_for<RT: Files + Sources, E: Write>(
    rt: &RT,
    alloc: Global,
    matches: &ArgMatches<'_>,
    errors: &mut E,
) -> Result<Result<Places, u8>, AllocError>
    ensures { IfOk result (λ places. ArePlaces (RT.has rt.now) (rows_of (found_of matches.now)) places) }
{
    let folder = value_in(matches, "pf");
    let files = folder
        .map(|folder| TextFiles::new(alloc, folder))
        .transpose()?;
    let is_guarded = !has_flag(matches, "no-member-guard");
    let Some(file) = value_in(matches, "interfaces") else {
        if has_flag(matches, "nft") || files.is_none() || !is_guarded {
            return Ok(Err(INVALID_ARGUMENTS));
        }
        return Ok(Ok(Places {
            interfaces: None,
            is_guarded: false,
            files,
        }));
    };
    if !has_flag(matches, "nft") {
        return Ok(Err(INVALID_ARGUMENTS));
    }
    match interfaces_in(rt, alloc, file)? {
        Some(interfaces) => Ok(Ok(Places {
            interfaces: Some(interfaces),
            is_guarded,
            files,
        })),
        None => {
            log_interfaces(rt, file, errors);
            Ok(Err(BAD_INTERFACES))
        }
    }
}
