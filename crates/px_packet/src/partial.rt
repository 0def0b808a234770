//! An unfinished datagram.

ghost use Rattle.std.specs.Prelude.{◌≡◌, ◌<◌, ◌≤◌, [], IfOk, OnOk, OnErr, length, replicate};
ghost use Rattle.px_packet.specs.Seen.{seen};
ghost use Rattle.px_packet.specs.Held.{is_present, bits_of};
ghost use Rattle.px_packet.specs.Reassembling.{empty_of, is_of, with_part, is_whole, joined, later, pause};
ghost use Rattle.px_packet.specs.Reassembling.{is_due, due_at, reported};

use crate::held::PiecesHeld;
use crate::piece::{Piece, piece_count};
use std::alloc::{AllocError, Global};
use std::marker::Model;

/// How many milliseconds after a part it is reported which have come.
const REPORT_AFTER: u64 = 20;

/// How many, where the datagram's last part has come: those before it were sent first.
const REPORT_SOON: u64 = 5;

/// How many milliseconds after a report it is reported again; after each later one that many more.
const REPORT_AGAIN: u64 = 50;

/// How often it is reported at most while no part comes.
const REPORTS_MAX: u8 = 6;

/// A part; one that hasn't come is empty.
#[derive(Drop)]
pub(crate) struct Part {
    bytes: Vec<u8>,
}

impl Model for Part {
    ghost use Rattle.std.specs.Prelude.{List, ℕ};

    ghost Value = { List ℕ };

    ghost view = { λ p. p.bytes.items };
}

impl Part {
    fn new(bytes: Vec<u8>) -> Part
        ensures { result ≡ bytes.items }
    {
        Part { bytes }
    }

    fn is_present(&self) -> bool
        ensures { result ≡ is_present self.now }
    {
        !self.bytes.is_empty()
    }

    fn bytes(&self) -> &[u8]
        ensures { result.now ≡ self.now }
    {
        self.bytes.as_slice()
    }
}

/// A datagram of which some parts have come.
#[derive(Drop)]
pub(crate) struct Partial {
    name: u32,
    size: u16,
    parts: Vec<Part>,
    /// When it is reported next which have come, in milliseconds.
    due: u64,
    /// How often that was since the last part came.
    reports: u8,
}

impl Model for Partial {
    ghost use Rattle.std.specs.Prelude.{◌≤◌, length};
    ghost use Rattle.px_packet.specs.Reassembling.{Unfinished};

    ghost Value = { Unfinished };

    ghost view = { λ u. record {
      name = u.name;
      size = u.size;
      parts = u.parts.items;
      due = u.due;
      reports = u.reports;
    } };

    ghost invariant = { λ u. length u.parts.items ≤ 29 };
}

/// The given number of empty parts.
fn empty_parts(alloc: Global, count: usize) -> Result<Vec<Part>, AllocError>
    ensures { IfOk result (λ parts. parts.items ≡ replicate count []) }
{
    let mut parts = Vec::with_capacity(alloc, count)?;
    for _ in 0..count {
        parts.push(Part::new(Vec::new(alloc)))?;
    }
    Ok(parts)
}

/// A bit for each part, 1 where it has come.
fn bits_of(parts: &[Part]) -> u32
    requires { length parts.now ≤ 29 }
    ensures { result ≡ bits_of parts.now }
{
    let mut bits = 0u32;
    for i in 0..parts.len() {
        let part = &parts[parts.len() - 1 - i];
        bits = u32::from(part.is_present()) + 2 * bits;
    }
    bits
}

/// How many milliseconds after a part it is reported which of these have come.
fn pause(parts: &[Part]) -> u64
    requires { 0 < length parts.now }
    ensures { result ≡ pause parts.now }
{
    let last = &parts[parts.len() - 1];
    if last.is_present() {
        return REPORT_SOON;
    }
    REPORT_AFTER
}

impl Partial {
    /// The datagram of a piece, of which nothing has come.
    pub(crate) fn new(alloc: Global, piece: &Piece<'_>, now: u64) -> Result<Partial, AllocError>
        ensures { IfOk result (λ u. u ≡ empty_of (seen piece.now) now) }
    {
        Ok(Partial {
            name: piece.name,
            size: piece.size,
            parts: empty_parts(alloc, piece_count(usize::from(piece.size)))?,
            due: now,
            reports: 0,
        })
    }

    /// Whether a piece is one of the datagram.
    pub(crate) fn is_of(&self, piece: &Piece<'_>) -> bool
        ensures { result ≡ is_of (seen piece.now) self.now }
    {
        self.name == piece.name && self.size == piece.size
    }

    /// Takes the part of a piece, if it hasn't come yet. When out of memory nothing changes.
    pub(crate) fn take(&mut self, piece: &Piece<'_>, now: u64) -> Result<(), AllocError>
        ensures kept_part { OnOk result (self.new ≡ with_part self.old (seen piece.now) now) }
        ensures refused { OnErr result (self.new ≡ self.old) }
    {
        let index = usize::from(piece.index);
        if index < self.parts.len() && !self.parts[index].is_present() {
            let bytes = Vec::from_slice(*self.parts.allocator(), piece.part)?;
            self.parts[index] = Part::new(bytes);
            self.due = now.saturating_add(pause(self.parts.as_slice()));
            self.reports = 0;
        }
        Ok(())
    }

    /// Whether all parts have come.
    pub(crate) fn is_whole(&self) -> bool
        ensures { result ≡ is_whole self.now }
    {
        self.parts.iter().all(Part::is_present)
    }

    /// The parts one behind the other.
    pub(crate) fn join(&self) -> Result<Vec<u8>, AllocError>
        ensures { IfOk result (λ whole. whole.items ≡ joined self.now.parts) }
    {
        let mut whole = Vec::with_capacity(*self.parts.allocator(), usize::from(self.size))?;
        for part in &self.parts {
            whole.extend_from_slice(part.bytes())?;
        }
        Ok(whole)
    }

    /// Whether it is to be reported which parts have come.
    pub(crate) fn is_due(&self, now: u64) -> bool
        ensures { result ≡ is_due now self.now }
    {
        self.reports < REPORTS_MAX && self.due <= now
    }

    /// When it is reported next which parts have come, if it is.
    pub(crate) fn due_at(&self) -> Option<u64>
        ensures { result ≡ due_at self.now }
    {
        (self.reports < REPORTS_MAX).then_some(self.due)
    }

    /// Which parts have come; this is reported now.
    pub(crate) fn report(&mut self, now: u64) -> PiecesHeld
        ensures held { result ≡ record { name = self.old.name; bits = bits_of self.old.parts } }
        ensures reported { self.new ≡ reported now self.old }
    {
        self.due = now.saturating_add(REPORT_AGAIN * (u64::from(self.reports) + 1));
        self.reports = self.reports.saturating_add(1);
        PiecesHeld {
            name: self.name,
            bits: bits_of(self.parts.as_slice()),
        }
    }
}
