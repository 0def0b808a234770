//! The sockets of a node, tried before its store is made, and with `--check`: each is opened and closed.

ghost use Rattle.std.specs.Prelude.{◌≡◌, ◌⊎◌, IfErr, false, is_some};
ghost use Rattle.cli_node.specs.declared.outcome.Outcome.TheVariants.{Memory, Refused, Sound};
ghost use Rattle.cli_node.specs.Endings.{is_beyond};

use crate::faults::{log_error, log_why};
use crate::node::{NodeArguments, bind, figures_at};
use crate::outcome::Outcome;
use cli_io::{BAD_ADDRESS, BAD_CONTROL_SOCKET, Shown, knock};
use std::fs;
use std::io::{self, Error, ErrorKind};
use std::net::{TcpListener, UdpSocket};
use std::os::unix::fs::FileTypeExt;
use std::os::unix::net::UnixListener;

/// Whether a control socket could be made at a path: none answers there, nothing else is there, and one can be made
/// beside it, under a name as long as that of the folder in which a node makes it.
pub(crate) fn try_control(rt: &HostRuntime, path: &str) -> io::Result<()> {
    if knock(rt, path).is_ok() {
        return Err(Error::new(ErrorKind::AddrInUse, "a node answers there"));
    }
    match fs::symlink_metadata(rt, path) {
        Ok(found) if !found.file_type().is_socket() => {
            return Err(Error::new(ErrorKind::AlreadyExists, "it isn't a socket"));
        }
        Err(error) if error.kind() != ErrorKind::NotFound => return Err(error),
        _ => {}
    }
    let beside = format!(in rt.alloc(); "{path}.try")?;
    let _bound = UnixListener::bind(rt, beside.as_str())?;
    fs::remove_file(rt, beside.as_str())
}

/// Tries the socket of the members' datagrams, the port of figures and the control socket, if there are such.
fn try_all(rt: &HostRuntime, arguments: NodeArguments<'_>) -> Result<(), Outcome>
    ensures refused { IfErr result (λ o. (o ≡ Memory) ⊎ ((o ≡ Refused 82) ⊎ (o ≡ Refused 84))) }
    ensures beyond { IfErr result (λ o. is_beyond false (is_some arguments.entry.control) o ≡ false) }
{
    drop(bind(rt, arguments)?);
    if let Some(figures) = figures_at(arguments)? {
        let _bound = TcpListener::bind(rt, figures).map_err(|_| Outcome::Refused(BAD_ADDRESS))?;
    }
    let Some(path) = arguments.control else {
        return Ok(());
    };
    match try_control(rt, path) {
        Ok(()) => Ok(()),
        Err(error) if error.kind() == ErrorKind::OutOfMemory => Err(Outcome::Memory),
        Err(_) => Err(Outcome::Refused(BAD_CONTROL_SOCKET)),
    }
}

/// Tries the sockets that a node opens: 82, 84, in this order; why is logged on standard error.
pub(crate) fn try_sockets(rt: &HostRuntime, arguments: NodeArguments<'_>) -> Result<(), Outcome>
    ensures refused { IfErr result (λ o. (o ≡ Memory) ⊎ ((o ≡ Refused 82) ⊎ (o ≡ Refused 84))) }
    ensures beyond { IfErr result (λ o. is_beyond false (is_some arguments.entry.control) o ≡ false) }
{
    let tried = try_all(rt, arguments);
    if let Err(Outcome::Refused(code)) = tried {
        log_why(rt, arguments, code);
    }
    tried
}

/// What is refused of a socket that was tried; nothing where it is in use, as by this node where it runs: that a start
/// would be refused is logged.
fn tried(rt: &HostRuntime, what: &str, name: &str, socket: io::Result<()>, code: u8) -> Outcome
    ensures { (result ≡ Sound) ⊎ (result ≡ Refused code) }
{
    let Err(error) = socket else {
        return Outcome::Sound;
    };
    if error.kind() == ErrorKind::AddrInUse {
        let name = Shown(name);
        let _logged = eprintln!(rt; "pfx: info: {what} {name}: {error}; a start would be refused");
        return Outcome::Sound;
    }
    log_error(rt, what, name, &error);
    Outcome::Refused(code)
}

/// What is refused of the node's own address.
pub(crate) fn of_own_address(rt: &HostRuntime, arguments: NodeArguments<'_>) -> Outcome
    ensures { (result ≡ Sound) ⊎ (result ≡ Refused 82) }
{
    let Some(own) = arguments.members.get(usize::from(arguments.me)) else {
        return Outcome::Sound;
    };
    let bound = UdpSocket::bind(rt, *own).map(drop);
    tried(rt, "address", own, bound, BAD_ADDRESS)
}

/// What is refused of the control socket, if there is one; nothing where its folder is missing, which may be made with
/// the service.
pub(crate) fn of_control(rt: &HostRuntime, arguments: NodeArguments<'_>) -> Outcome
    ensures why { (result ≡ Sound) ⊎ ((result ≡ Memory) ⊎ (result ≡ Refused 84)) }
    ensures beyond { is_beyond false (is_some arguments.entry.control) result ≡ false }
{
    let Some(path) = arguments.control else {
        return Outcome::Sound;
    };
    match try_control(rt, path) {
        Err(error) if error.kind() == ErrorKind::OutOfMemory => Outcome::Memory,
        Err(error) if error.kind() == ErrorKind::NotFound => Outcome::Sound,
        made => tried(rt, "control socket", path, made, BAD_CONTROL_SOCKET),
    }
}
