//! What a sender keeps of the datagrams that it cut for one receiver.

ghost use Rattle.std.specs.Prelude.{◌≡◌, ◌↔◌, ◌≤◌, ◌^◌, ◌==◌, [], IfOk, OnOk, OnErr, Err, option_map, length};
ghost use Rattle.std.specs.List.{position_or_len};
ghost use Rattle.px_packet.specs.declared.send_buffer.CutFault.TheVariants.{Memory};
ghost use Rattle.px_packet.specs.Sending.{CanBeCut, place_of, name_of, sent_after, cut_with};

use crate::piece::DATAGRAM_MAX;
use std::alloc::{AllocError, Global};
use std::marker::Model;
use thiserror::Error;

/// How many datagrams are kept.
const KEPT_MAX: usize = 8;

/// How many names there are.
const NAMES: u64 = 0x1_0000_0000;

/// Why a datagram isn't cut.
#[derive(Clone, Copy, Debug, PartialEq, Eq, Error)]
pub enum CutFault {
    /// It is empty, or has more bytes than 29 pieces.
    #[error("it is empty or too long to be cut")]
    Size,
    /// Each name was given to a datagram.
    #[error("all names are used")]
    Names,
    /// Out of memory.
    #[error("out of memory")]
    Memory,
}

impl From<AllocError> for CutFault {
    ghost from_gives = { λ _ e. e ≡ Memory };

    fn from(_error: AllocError) -> CutFault {
        CutFault::Memory
    }
}

/// A datagram that was cut, and its name.
#[derive(Drop)]
struct Cut {
    name: u32,
    bytes: Vec<u8>,
}

impl Model for Cut {
    ghost use Rattle.std.specs.Prelude.{List, ℕ};

    ghost Value = { ℕ × List ℕ };

    ghost view = { λ c. (c.name, c.bytes.items) };
}

impl Cut {
    fn new(alloc: Global, name: u32, datagram: &[u8]) -> Result<Cut, AllocError>
        ensures { IfOk result (λ c. c ≡ (name, datagram.now)) }
    {
        let bytes = Vec::from_slice(alloc, datagram)?;
        Ok(Cut { name, bytes })
    }

    fn name(&self) -> u32
        ensures { result ≡ self.now.0 }
    {
        self.name
    }

    fn bytes(&self) -> &[u8]
        ensures { result.now ≡ self.now.1 }
    {
        self.bytes.as_slice()
    }
}

/// The place of a datagram that is kept, byte for byte the same, or the end.
fn place_of(cuts: &[Cut], datagram: &[u8]) -> usize
    ensures { result ≡ place_of cuts.now datagram.now }
{
    for i in 0..cuts.len() {
        let cut = &cuts[i];
        if cut.bytes() == datagram {
            return i;
        }
    }
    cuts.len()
}

/// The place of the datagram with a name, or the end.
fn place_with(cuts: &[Cut], name: u32) -> usize
    ensures { result ≡ position_or_len (λ c. c.0 == name) cuts.now }
{
    for i in 0..cuts.len() {
        let cut = &cuts[i];
        if cut.name() == name {
            return i;
        }
    }
    cuts.len()
}

/// What a sender keeps of the datagrams that it cut for one receiver, 8 at most, so that pieces that are missing can be
/// sent again. A sender that starts anew begins with a new one.
#[derive(Drop)]
pub struct SendBuffer {
    /// How many datagrams were cut: the next name.
    count: u64,
    cuts: Vec<Cut>,
}

impl Model for SendBuffer {
    ghost use Rattle.std.specs.Prelude.{◌≤◌, length};
    ghost use Rattle.px_packet.specs.Sending.{Sent};

    ghost Value = { Sent };

    ghost view = { λ b. record { count = b.count; cuts = b.cuts.items } };

    ghost invariant = { λ b. length b.cuts.items ≤ 8 };
}

impl SendBuffer {
    /// No datagram was cut. Allocates nothing.
    pub fn new(alloc: Global) -> SendBuffer
        ensures { result ≡ record { count = 0; cuts = [] } }
    {
        SendBuffer {
            count: 0,
            cuts: Vec::new(alloc),
        }
    }

    /// The name of a datagram whose pieces are sent. One that is kept has the name that it had, so that pieces of
    /// several sendings add up; another gets a name that no datagram had, and is kept, and the one that was cut first
    /// gives way to a ninth.
    pub fn name(&mut self, datagram: &[u8]) -> Result<u32, CutFault>
        ensures name { IfOk result (λ n. n ≡ name_of self.old datagram.now) }
        ensures after { OnOk result (self.new ≡ sent_after self.old datagram.now) }
        ensures size { (result ≡ Err CutFault.Size) ↔ (CanBeCut datagram.now → ⊥) }
        ensures names { result ≡ Err CutFault.Names → 2 ^ 32 ≤ self.old.count }
        ensures refused { OnErr result (self.new ≡ self.old) }
        ensures few { length self.new.cuts ≤ KEPT_MAX }
    {
        let _few = &self.cuts;
        if datagram.is_empty() || datagram.len() > DATAGRAM_MAX {
            return Err(CutFault::Size);
        }
        let place = place_of(self.cuts.as_slice(), datagram);
        if place < self.cuts.len() {
            let cut = &self.cuts[place];
            return Ok(cut.name());
        }
        if self.count >= NAMES {
            return Err(CutFault::Names);
        }
        let name = self.count as u32;
        let cut = Cut::new(*self.cuts.allocator(), name, datagram)?;
        self.cuts.push(cut).map_err(|_| CutFault::Memory)?;
        if self.cuts.len() > KEPT_MAX {
            let _first = self.cuts.remove(0);
        }
        self.count += 1;
        Ok(name)
    }

    /// The datagram with a name, while it is kept.
    pub fn get(&self, name: u32) -> Option<&[u8]>
        ensures { option_map (λ b. b.now) result ≡ cut_with self.now name }
    {
        let place = place_with(self.cuts.as_slice(), name);
        self.cuts.get(place).map(Cut::bytes)
    }
}
