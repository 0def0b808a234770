//! A file of the system, or one in memory. Both compilers compile SQLite again for each kind of file that the program
//! names: with this there is one.
ghost use Rattle.rows_stores.specs.declared.place.Place.TheVariants.{Real, Fused};

use sqlite::{File, FileStore};
use sqlite_disk::{Disk, Fuse, Memory, Tally};
use std::io;

/// Either passes each call on.
#[derive(Drop)]
pub(crate) enum Place<F: Disk, M: Disk> {
    Real(F),
    Fused(M),
}

/// A file of the system, or one in memory that stops.
pub(crate) type Either = Place<File, Fuse<Memory>>;

/// A store in such files.
pub(crate) type Store = FileStore<Either>;

impl<F: Disk, M: Disk> Disk for Place<F, M> {
    ghost seen = { elim [ Real f ↦ F.Disk.seen f | Fused m ↦ M.Disk.seen m ] };

    ghost may_leave = { elim [ Real f ↦ F.Disk.may_leave f | Fused m ↦ M.Disk.may_leave m ] };

    ghost is_usable = { elim [ Real f ↦ F.Disk.is_usable f | Fused m ↦ M.Disk.is_usable m ] };

    ghost faults = { elim [ Real f ↦ F.Disk.faults f | Fused m ↦ M.Disk.faults m ] };

    ghost tally_of = { elim [ Real f ↦ F.Disk.tally_of f | Fused m ↦ M.Disk.tally_of m ] };

    ghost is_clean = { elim [ Real f ↦ F.Disk.is_clean f | Fused m ↦ M.Disk.is_clean m ] };

    ghost key_of = { elim [ Real f ↦ F.Disk.key_of f | Fused m ↦ M.Disk.key_of m ] };

    ghost is_fair = { elim [ Real f ↦ F.Disk.is_fair f | Fused m ↦ M.Disk.is_fair m ] };

    ghost is_frozen = { elim [ Real f ↦ F.Disk.is_frozen f | Fused m ↦ M.Disk.is_frozen m ] };

    ghost is_rotten = { elim [ Real f ↦ F.Disk.is_rotten f | Fused m ↦ M.Disk.is_rotten m ] };

    ghost is_mixing = { elim [ Real f ↦ F.Disk.is_mixing f | Fused m ↦ M.Disk.is_mixing m ] };

    ghost seen_may_stay = { elim [ Real f ↦ F.Disk.seen_may_stay f | Fused m ↦ M.Disk.seen_may_stay m ] };

    ghost fair_if_clean = { elim [ Real f ↦ F.Disk.fair_if_clean f | Fused m ↦ M.Disk.fair_if_clean m ] };

    fn mixes(&self) -> bool {
        match self {
            Place::Real(file) => file.mixes(),
            Place::Fused(file) => file.mixes(),
        }
    }

    fn key(&self) -> u64 {
        match self {
            Place::Real(file) => file.key(),
            Place::Fused(file) => file.key(),
        }
    }

    fn tally(&self) -> Tally {
        match self {
            Place::Real(file) => file.tally(),
            Place::Fused(file) => file.tally(),
        }
    }

    fn may_be_used(&self) -> bool {
        match self {
            Place::Real(file) => file.may_be_used(),
            Place::Fused(file) => file.may_be_used(),
        }
    }

    fn len(&mut self) -> io::Result<usize> {
        match self {
            Place::Real(file) => file.len(),
            Place::Fused(file) => file.len(),
        }
    }

    fn read_at(&mut self, at: usize, buf: &mut [u8]) -> io::Result<()> {
        match self {
            Place::Real(file) => file.read_at(at, buf),
            Place::Fused(file) => file.read_at(at, buf),
        }
    }

    fn read_checked(&mut self, key: u64, want: u64, at: usize, buf: &mut [u8]) -> io::Result<()> {
        match self {
            Place::Real(file) => file.read_checked(key, want, at, buf),
            Place::Fused(file) => file.read_checked(key, want, at, buf),
        }
    }

    fn write_at(&mut self, at: usize, bytes: &[u8]) -> io::Result<()> {
        match self {
            Place::Real(file) => file.write_at(at, bytes),
            Place::Fused(file) => file.write_at(at, bytes),
        }
    }

    fn set_len(&mut self, len: usize) -> io::Result<()> {
        match self {
            Place::Real(file) => file.set_len(len),
            Place::Fused(file) => file.set_len(len),
        }
    }

    fn sync(&mut self) -> io::Result<()> {
        match self {
            Place::Real(file) => file.sync(),
            Place::Fused(file) => file.sync(),
        }
    }
}
