//! The subcommand `node` with `--check`: whether a node could be started. Nothing is changed: a socket that is made to
//! try that is removed.

ghost use Rattle.std.specs.Prelude.{◌≡◌, ◌⊎◌, ℕ, Bool, List, Option, Err, None, Some, false, length, map, option_map};
ghost use Rattle.std.specs.Prelude.{◌||◌, is_some};
ghost use Rattle.sqlite.specs.Held.{state};
ghost use Rattle.sqlite.specs.State.{HasCleanDisk};
ghost use Rattle.px_store.specs.Adopting.{Began, LeavesOld};
ghost use Rattle.px_store.specs.Judging.{reopen_refusal};
ghost use Rattle.px_store.specs.declared.formats.Format.{Format};
ghost use Rattle.cli_node.specs.declared.outcome.Outcome.{Outcome};
ghost use Rattle.cli_node.specs.declared.outcome.Outcome.TheVariants.{Memory, Refused, Sound};
ghost use Rattle.cli_node.specs.Endings.{first_of, is_beyond};
ghost use Rattle.cli_node.specs.Places.{has_place};
ghost use Rattle.cli_node.specs.Secrets.{IsNamed};
ghost use Rattle.px_wire.specs.declared.membership.Membership.{Membership};
ghost use Rattle.cli_node.specs.declared.store.Found.{Found};
ghost use Rattle.cli_node.specs.Stores.{IsFit, IsFoundAt, IsSoundAt, IsStoreless, identity_at};

use crate::database::{Databases, Inspection};
use crate::faults::{log_closed, log_judged, log_metrics, log_place, log_storeless, log_unknown};
use crate::files::NodeFiles;
use crate::node::{NodeArguments, NodeStart, figures_at, membership};
use crate::outcome::{Outcome, numbered};
use crate::sockets::{of_control, of_own_address};
use crate::store::{Found, Opening, failed_outcome, identity_of, opening_of};
use cli_io::{BAD_ADDRESS, INVALID_ARGUMENTS, STORE_FAILED, Shown, open_regular};
use node_loop::Membership;
use px_store::examine;
use sqlite::{Alter, Connection, Error, ErrorCode, File, FileStore};
use sqlite_trees::store::Store;
use std::fs::{Files, OpenFile};
use std::io::Read;

/// How a database begins.
const HEAD: &[u8] = b"SQLite format 3\0";

/// The first of two outcomes that is no `Sound`.
fn first_of(one: Outcome, other: Outcome) -> Outcome
    ensures { result ≡ first_of one other }
{
    match one {
        Outcome::Sound => other,
        _ => one,
    }
}

/// Whether a file begins as a database does, or has no byte, as a store has whose writes are all beside it.
fn is_database<F: Files>(files: &F, path: &str) -> bool {
    let Ok(mut file) = open_regular(files, path) else {
        return false;
    };
    let mut head = [0u8; 16];
    file.metadata().is_ok_and(|about| {
        about.len() == 0 || file.read_exact(&mut head).is_ok() && head.as_slice() == HEAD
    })
}

impl<F, D> NodeStart<'_, F, D> {
    /// What is refused of a store that is open; nothing is changed.
    #[tactic(auto, using(crate::proofs::Stores::by_fault, crate::proofs::Stores::sound))]
    fn judged<S: Alter>(&self, m: Membership, conn: &mut Connection<S>) -> Outcome
        ensures store { (file new : Bool) → IsStoreless file new result }
        ensures beyond { is_beyond false false result ≡ false }
        ensures sound { HasCleanDisk (state S.Store conn.new) → result ≡ Sound → (f : Format) →
            Began f (state S.Store conn.old) →
            reopen_refusal f (identity_at m) (state S.Store conn.old).now.trees ≡ None }
        ensures known { result ≡ Sound → (f : Format) × Began f (state S.Store conn.old) }
        ensures stop { HasCleanDisk (state S.Store conn.new) →
            LeavesOld (state S.Store conn.old) (state S.Store conn.new) }
    {
        let Err(fault) = examine(conn, identity_of(m)) else {
            return Outcome::Sound;
        };
        log_judged(self.rt, self.arguments.store, m, fault, conn);
        numbered(fault.code())
    }

    /// What is refused of a store that is there; nothing of one that a node has open, nor of one without its log of
    /// writes, which an opening makes.
    #[tactic(auto, using(crate::proofs::Stores::by_read, crate::proofs::Stores::by_memory, crate::proofs::Stores::refused_70, crate::proofs::Stores::sound))]
    fn looked_at<I: Inspection>(&self, inspection: &mut I, m: Membership) -> Outcome
        ensures store { (file new : Bool) → IsStoreless file new result }
        ensures beyond { is_beyond false false result ≡ false }
        ensures sound { result ≡ Sound → I.is_unseen inspection.old self.now.arguments.store.now
            ⊎ IsSoundAt ⟦<FileStore<File> as Store>⟧ (I.holds inspection.old self.now.arguments.store.now)
            (identity_at m) }
        ensures over { I.is_over inspection.old → I.is_over inspection.new }
    {
        let rt = self.rt;
        let store = self.arguments.store;
        if !is_database(rt, store) {
            log_closed(rt, store, &"it isn't a database");
            return Outcome::Refused(STORE_FAILED);
        }
        let Ok(lacks_log) = inspection.lacks_log(rt.alloc(), store) else {
            return Outcome::Memory;
        };
        if lacks_log {
            let _logged = eprintln!(rt;
                "pfx: info: store {}: its write-ahead log (-wal) is missing, so its contents aren't checked",
                Shown(store)
            );
            return Outcome::Sound;
        }
        match inspection.inspect(store) {
            Ok(mut conn) => {
                let outcome = self.judged(m, &mut conn);
                inspection.leave(conn);
                outcome
            }
            Err(Error::SqliteFailure(ErrorCode::DatabaseBusy)) => {
                let _logged = eprintln!(rt;
                    "pfx: info: store {}: a node has it open, so it isn't checked",
                    Shown(store)
                );
                Outcome::Sound
            }
            Err(error) => failed_outcome(rt, store, error),
        }
    }

    /// What is refused of the store that the arguments name, where this was found; none when out of memory.
    #[tactic(auto, using(crate::proofs::Stores::by_opening, crate::proofs::Stores::by_memory, crate::proofs::Stores::sound))]
    fn of_store<I: Inspection>(
        &self,
        inspection: &mut I,
        m: Option<Membership>,
        found: Option<Found>,
    ) -> Outcome
        ensures store { IsStoreless self.now.arguments.is_from_file self.now.arguments.is_new result }
        ensures beyond { is_beyond false false result ≡ false }
        ensures sound { result ≡ Sound → (owner : Membership) → m ≡ Some owner → (f : Found) × ((found ≡ Some f) ×
            IsFit ⟦<FileStore<File> as Store>⟧ (I.is_unseen inspection.old self.now.arguments.store.now)
            (I.holds inspection.old self.now.arguments.store.now) self.now.arguments.is_from_file
            self.now.arguments.is_new f (identity_at owner)) }
        ensures over { I.is_over inspection.old → I.is_over inspection.new }
    {
        let Some(found) = found else {
            return Outcome::Memory;
        };
        match opening_of(self.arguments.is_from_file, self.arguments.is_new, found) {
            Opening::Makes => Outcome::Sound,
            Opening::Opens => match m {
                Some(m) => self.looked_at(inspection, m),
                None => Outcome::Sound,
            },
            Opening::Refuses(code) => {
                log_storeless(self.rt, self.arguments.store, code);
                Outcome::Refused(code)
            }
        }
    }
}

impl<F: NodeFiles, D> NodeStart<'_, F, D> {
    /// What is refused of one key's file, if there is one.
    fn of_key(&self, path: Option<&str>) -> Outcome
        ensures why { (result ≡ Sound) ⊎ ((result ≡ Memory) ⊎ (result ≡ Refused 83)) }
        ensures beyond { is_beyond (is_some path.entry) false result ≡ false }
        ensures sound { result ≡ Sound → (key : Option (List ℕ)) × IsNamed
            (F.makes self.now.files.now self.now.arguments.cluster (map (λ t. t.now) self.now.arguments.members.now))
            (option_map (λ t. t.now) path.entry) key }
    {
        let Some(path) = path else {
            return Outcome::Sound;
        };
        match self.key_in(path) {
            Ok(_key) => Outcome::Sound,
            Err(outcome) => outcome,
        }
    }
}

/// What is refused of the addresses that the arguments name.
fn of_addresses(rt: &HostRuntime, arguments: NodeArguments<'_>) -> Outcome
    ensures { (result ≡ Sound) ⊎ (result ≡ Refused 82) }
{
    if !log_unknown(rt, arguments) {
        return Outcome::Refused(BAD_ADDRESS);
    }
    let Err(outcome) = figures_at(arguments) else {
        return of_own_address(rt, arguments);
    };
    log_metrics(rt, arguments.metrics.unwrap_or(""));
    outcome
}

/// What a start with these arguments would be refused for, as far as settings, keys, addresses, sockets and store show:
/// all is logged on standard error, and the first answered, in the order of a start: 40, 83, 93, 94, the store's
/// refusals, 95, 82, 84.
pub fn check_node<F: NodeFiles, D: Databases, I: Inspection>(
    rt: &HostRuntime,
    files: &F,
    dbs: &D,
    inspection: &mut I,
    arguments: NodeArguments<'_>,
) -> Outcome
    ensures place { has_place arguments.entry.me (length arguments.entry.members.now) ≡ false → result ≡ Refused 40 }
    ensures store { IsStoreless arguments.entry.is_from_file arguments.entry.is_new result }
    ensures beyond { is_beyond (is_some arguments.entry.key || is_some arguments.entry.other_key)
        (is_some arguments.entry.control) result ≡ false }
    ensures key { result ≡ Sound → (key : Option (List ℕ)) × IsNamed
        (F.makes files.now arguments.entry.cluster (map (λ t. t.now) arguments.entry.members.now))
        (option_map (λ t. t.now) arguments.entry.key) key }
    ensures other { result ≡ Sound → (key : Option (List ℕ)) × IsNamed
        (F.makes files.now arguments.entry.cluster (map (λ t. t.now) arguments.entry.members.now))
        (option_map (λ t. t.now) arguments.entry.other_key) key }
    ensures fit { result ≡ Sound → (m : Membership) × ((f : Found) × ((m.cluster ≡ arguments.entry.cluster) ×
        ((m.me ≡ arguments.entry.me) × ((m.members ≡ length arguments.entry.members.now) ×
        (IsFoundAt (D.is_seen dbs.now) arguments.entry.store.now f ×
        IsFit ⟦<FileStore<File> as Store>⟧ (I.is_unseen inspection.old arguments.entry.store.now)
        (I.holds inspection.old arguments.entry.store.now) arguments.entry.is_from_file arguments.entry.is_new f
        (identity_at m)))))) }
    ensures over { I.is_over inspection.old → I.is_over inspection.new }
{
    let start = NodeStart {
        rt,
        files,
        dbs,
        arguments,
    };
    let m = membership(arguments);
    if m.is_none() {
        log_place(rt, arguments);
    }
    let place = m.map_or(Outcome::Refused(INVALID_ARGUMENTS), |_| Outcome::Sound);
    let key = start.of_key(arguments.key);
    let keys = first_of(key, start.of_key(arguments.other_key));
    let found = start.found_store();
    let store = start.of_store(inspection, m, found);
    let starts = start.of_starts(m, found);
    let sockets = first_of(of_addresses(rt, arguments), of_control(rt, arguments));
    let beside = first_of(store, first_of(starts, sockets));
    first_of(place, first_of(keys, beside))
}
