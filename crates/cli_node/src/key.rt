//! The keys that the arguments of `node` name, and new ones.

ghost use Rattle.std.specs.List.{All};
ghost use Rattle.std.specs.Prelude.{◌≡◌, ◌⊎◌, ◌==◌, ◌/◌, ◌∷◌, List, [], Ok, Err, OnErr, IfOk, IfErr, option_map};
ghost use Rattle.std.specs.Prelude.{map, is_some, false};
ghost use Rattle.cli_files.specs.KeyTexts.{key_text};
ghost use Rattle.node_udp.specs.Addresses.{address_of};
ghost use Rattle.cli_node.specs.declared.outcome.Outcome.TheVariants.{Memory, Refused};
ghost use Rattle.cli_node.specs.Endings.{is_beyond};
ghost use Rattle.cli_node.specs.Doing.{Adds, FileEvent, Written, Unwritten};
ghost use Rattle.cli_node.specs.Keeping.{IsNewKey, IsWrittenIn};
ghost use Rattle.cli_node.specs.Places.{is_loopback};
ghost use Rattle.cli_node.specs.Secrets.{AreNamed};

use crate::faults::{log_cause, log_error};
use crate::files::NodeFiles;
use crate::node::{NodeArguments, NodeStart};
use crate::outcome::Outcome;
use cli_files::{KeyFault, RandomBytes, key_text, new_key};
use cli_io::{BAD_KEY, FILE_EXISTS, Shown, make_private, open_regular};
use node_udp::parse_address;
use pf_addr::Addr;
use std::alloc::Global;
use std::fs::{self, Files};
use std::io::{self, Eprint, ErrorKind, Write};

/// The keys of a cluster's tags: the one that a node seals with, and another under which it hears too.
#[derive(Clone, Copy)]
pub(crate) struct Keys {
    pub(crate) key: [u8; 32],
    pub(crate) other: Option<[u8; 32]>,
}

/// What a file is refused for, logged on standard error too.
fn key_refused(rt: &HostRuntime, path: &str, fault: KeyFault) -> Outcome
    ensures { (result ≡ Memory) ⊎ (result ≡ Refused 83) }
{
    if fault == KeyFault::Memory {
        return Outcome::Memory;
    }
    log_cause(rt, "key", path, open_regular(rt, path).map(drop), &fault);
    Outcome::Refused(BAD_KEY)
}

impl<F: NodeFiles, D> NodeStart<'_, F, D> {
    /// The key of the cluster's tags that the secret in a file makes.
    pub(crate) fn key_in(&self, path: &str) -> Result<[u8; 32], Outcome>
        ensures refused { OnErr result ((result ≡ Err Memory) ⊎ (result ≡ Err (Refused 83))) }
        ensures made { IfOk result (F.makes self.now.files.now self.now.arguments.cluster
            (map (λ t. t.now) self.now.arguments.members.now) path.now) }
    {
        let arguments = self.arguments;
        self.files
            .cluster_key(path, arguments.cluster, arguments.members)
            .map_err(|fault| key_refused(self.rt, path, fault))
    }

    /// The keys that the arguments name, if they do: 83 where a file can't be read or has none, or where others may
    /// read it.
    pub(crate) fn named_keys(&self) -> Result<Option<Keys>, Outcome>
        ensures refused { OnErr result ((result ≡ Err Memory) ⊎ (result ≡ Err (Refused 83))) }
        ensures beyond { IfErr result (λ o. is_beyond (is_some self.now.arguments.key) false o ≡ false) }
        ensures keyed { IfOk result (λ ks. is_some ks ≡ is_some self.now.arguments.key) }
        ensures named { IfOk result (AreNamed (F.makes self.now.files.now self.now.arguments.cluster
            (map (λ t. t.now) self.now.arguments.members.now))
            (option_map (λ t. t.now) self.now.arguments.key) (option_map (λ t. t.now) self.now.arguments.other_key)) }
    {
        let Some(path) = self.arguments.key else {
            return Ok(None);
        };
        let key = self.key_in(path)?;
        let other = match self.arguments.other_key {
            Some(path) => Some(self.key_in(path)?),
            None => None,
        };
        Ok(Some(Keys { key, other }))
    }
}

/// Whether the text is an address at which this machine alone is heard, and a port; a name isn't.
fn is_loopback(text: &str) -> bool
    ensures { result ≡ is_loopback (address_of text.now) }
{
    parse_address(text).is_some_and(|address| match address.ip {
        Addr::V4(bits) => bits / 0x100_0000 == 127,
        Addr::V6(bits) => bits == 1,
    })
}

/// Logs on standard error that the datagrams of a node carry no tag, where others than this machine may send it some.
pub(crate) fn warn_unsealed(rt: &HostRuntime, arguments: NodeArguments<'_>) {
    let Some(own) = arguments.members.get(usize::from(arguments.me)) else {
        return;
    };
    if arguments.key.is_some() || arguments.is_unsealed || is_loopback(own) {
        return;
    }
    let _logged = eprintln!(rt;
        "pfx: warning: no key: anyone who can send datagrams to {} can change what this cluster learns (unless \
         --unsealed)",
        Shown(*own)
    );
}

/// Where files are made that their owner alone may read and write.
pub trait NewFiles {
    // these were to be made
    ghost made: { Self → List FileEvent → Type 0 };

    /// Makes a file with this text. Where something is there, a link too, it is refused with `AlreadyExists`.
    fn make(&mut self, path: &str, text: &str) -> io::Result<()>
        ensures written { IfOk result (λ done. Adds (made self.old) (made self.new) (Written path.now text.now ∷ [])) }
        ensures refused { IfErr result (λ e. Adds (made self.old) (made self.new) (Unwritten path.now ∷ [])) };
}

impl<F: Files> NewFiles for F {
    // no contract ties a file to its path
    ghost made = { λ _. All (IsWrittenIn F.File.contents) };

    // none is left where it can't be written
    fn make(&mut self, path: &str, text: &str) -> io::Result<()> {
        let files = &*self;
        let mut file = make_private(files, path)?;
        let written = file.write_all(text.as_bytes());
        if written.is_err() {
            let _gone = fs::remove_file(files, path);
        }
        written
    }
}

/// A new key, of the next bytes of a random source: written out, or in a new file where one is named, which is refused
/// with 94 where one is there, and with 83 where the system doesn't make it.
pub(crate) fn key_outcome<R: RandomBytes + Eprint, F: NewFiles>(
    rt: &R,
    files: &mut F,
    alloc: Global,
    file: Option<&str>,
) -> Outcome
    ensures { IsNewKey (R.gives rt.now) (Adds (F.made files.old) (F.made files.new))
        (option_map (λ f. f.now) file.entry) result }
{
    let Ok(key) = new_key(rt) else {
        return Outcome::Unread;
    };
    let Some(path) = file else {
        return Outcome::Key(key);
    };
    let Ok(text) = key_text(alloc, &key) else {
        return Outcome::Memory;
    };
    let Err(error) = files.make(path, text.as_str()) else {
        return Outcome::Made;
    };
    log_error(rt, "key", path, &error);
    let is_there = error.kind() == ErrorKind::AlreadyExists;
    Outcome::Refused(if is_there { FILE_EXISTS } else { BAD_KEY })
}
