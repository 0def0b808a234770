//! Making, copying, comparing and reading entries.
ghost use Rattle.std.specs.Prelude.{◌≡◌, ◌≤◌, ℕ, IfOk, IfSome, IsTrue, ◌↔◌, length, take, drop};
ghost use Rattle.std.specs.Prelude.{◌++◌, nat_eq, ◌&&◌, option_map};
ghost use Rattle.std.specs.Cmp.Lexicographic.{pointwise};
ghost use Rattle.std.specs.Int.{from_be_bytes, w64};
ghost use Rattle.px_model.specs.Node.{same_entry};
ghost use Rattle.px_model.specs.Spelling.{command_in, entry_in, spelled};
ghost use Rattle.px_model.specs.inner.Spelling.{renamed};
ghost use Rattle.px_model.specs.Entries.{entry_of, view_of};

use crate::entry::{Entry, EntryView};
use std::alloc::{AllocError, Global};
use std::rc::Rc;

/// The format byte.
fn format_in(bytes: &[u8]) -> &[u8]
    ensures { result.now ≡ take 1 bytes.now }
{
    if bytes.is_empty() { bytes } else { &bytes[..1] }
}

/// The command's bytes but for the format.
fn body_in(bytes: &[u8]) -> &[u8]
    ensures { result.now ≡ drop 10 bytes.now }
{
    if bytes.len() < 10 { &[] } else { &bytes[10..] }
}

fn is_same_command(bytes: &[u8], other: &[u8]) -> bool
    ensures { result ≡ pointwise nat_eq (command_in bytes.now) (command_in other.now) }
{
    format_in(bytes) == format_in(other) && body_in(bytes) == body_in(other)
}

/// The spelling with another origin and number.
#[tactic(auto, unfolding(crate::specs::inner::Spelling::renamed))]
fn renamed_bytes(
    alloc: Global,
    bytes: &[u8],
    origin: u8,
    number: u64,
) -> Result<Vec<u8>, AllocError>
    requires { 10 ≤ length bytes.now }
    ensures { IfOk result (λ v. v.items ≡ renamed bytes.now origin number) }
{
    let mut spelled = Vec::with_capacity(alloc, bytes.len())?;
    spelled.extend_from_slice(&bytes[..1])?;
    spelled.push(origin)?;
    spelled.extend_from_slice(&number.to_be_bytes())?;
    spelled.extend_from_slice(&bytes[10..])?;
    Ok(spelled)
}

impl Entry {
    /// The entry that the view shows. Its bytes are copied. Fails only when out of memory.
    #[tactic(auto, unfolding(crate::specs::Entries::entry_of, crate::specs::Entries::view_of))]
    pub fn from_view(alloc: Global, view: &EntryView) -> Result<Entry, AllocError>
        ensures { IfOk result (λ e. entry_of e ≡ view_of view.now) }
    {
        let bytes = Vec::from_slice(alloc, view.bytes)?;
        let bytes = Rc::new(alloc, bytes)?;
        Ok(Entry {
            origin: view.origin,
            number: view.number,
            bytes,
        })
    }

    /// The command of the view's entry, accepted by this member as this number. Fails only when out of memory.
    #[tactic(auto, unfolding(crate::specs::Entries::entry_of, crate::specs::Entries::view_of), using(crate::proofs::Commands::renamed_command, crate::proofs::Commands::renamed_again, crate::proofs::Commands::renamed_long))]
    pub fn named(
        alloc: Global,
        view: &EntryView,
        origin: u8,
        number: u64,
    ) -> Result<Entry, AllocError>
        ensures origin { IfOk result (λ e. (entry_of e).origin ≡ origin) }
        ensures number { IfOk result (λ e. (entry_of e).number ≡ number) }
        ensures command { IfOk result (λ e. (entry_of e).command ≡ (view_of view.now).command) }
    {
        let bytes = renamed_bytes(alloc, view.bytes, origin, number)?;
        let bytes = Rc::new(alloc, bytes)?;
        Ok(Entry {
            origin,
            number,
            bytes,
        })
    }

    /// One owner more of the same bytes. Fails when out of memory, or where there are 2^64 owners.
    #[tactic(auto, unfolding(crate::specs::Entries::entry_of))]
    pub fn share(&self) -> Result<Entry, AllocError>
        ensures { IfOk result (λ e. entry_of e ≡ entry_of self.now) }
    {
        let Entry {
            origin,
            number,
            bytes,
        } = self;
        let bytes = bytes.clone()?;
        Ok(Entry {
            origin: *origin,
            number: *number,
            bytes,
        })
    }

    /// Whether both are one entry: equal in origin, number and command. The bytes are compared last.
    #[tactic(auto, unfolding(crate::specs::Entries::entry_of))]
    pub fn is_same(&self, other: &Entry) -> bool
        ensures { result ≡ same_entry (pointwise nat_eq) (entry_of self.now) (entry_of other.now) }
    {
        self.origin == other.origin
            && self.number == other.number
            && is_same_command(self.bytes.as_slice(), other.bytes.as_slice())
    }

    /// The member that the command was submitted to.
    #[tactic(auto, unfolding(crate::specs::Entries::entry_of))]
    pub fn origin(&self) -> u8
        ensures { result ≡ (entry_of self.now).origin }
    {
        self.origin
    }

    /// Its number at that member.
    #[tactic(auto, unfolding(crate::specs::Entries::entry_of))]
    pub fn number(&self) -> u64
        ensures { result ≡ (entry_of self.now).number }
    {
        self.number
    }

    /// The entry, lent.
    #[tactic(auto, unfolding(crate::specs::Entries::entry_of, crate::specs::Entries::view_of))]
    pub fn view(&self) -> EntryView<'_>
        ensures { view_of result ≡ entry_of self.now }
    {
        EntryView {
            origin: self.origin,
            number: self.number,
            bytes: self.bytes.as_slice(),
        }
    }

    /// Its spelling.
    #[tactic(auto, unfolding(crate::specs::Entries::entry_of), using(crate::proofs::Commands::spelling_is))]
    pub fn bytes(&self) -> &[u8]
        ensures { result.now ≡ spelled (entry_of self.now) }
    {
        self.bytes.as_slice()
    }
}

/// The number in bytes 2 to 9.
fn number_in(bytes: &[u8]) -> u64
    requires { 10 ≤ length bytes.now }
    ensures { result ≡ from_be_bytes w64 (take 8 (drop 2 bytes.now)) }
{
    match <[u8; 8]>::try_from(&bytes[2..10]) {
        Ok(number) => u64::from_be_bytes(number),
        Err(_) => 0,
    }
}

impl<'a> EntryView<'a> {
    /// The entry that the bytes spell, of which only the origin and the number are decoded; none where there are fewer
    /// than ten bytes. What is behind these isn't looked at.
    #[tactic(auto, unfolding(crate::specs::Spelling::entry_in, crate::specs::Entries::view_of), using(crate::proofs::Commands::read_again, crate::proofs::Commands::spelling_is))]
    pub fn read(bytes: &'a [u8]) -> Option<EntryView<'a>>
        ensures entry { option_map view_of result ≡ entry_in bytes.now }
        ensures bytes { IfSome result (λ e. spelled (view_of e) ≡ bytes.now) }
    {
        if bytes.len() < 10 {
            return None;
        }
        Some(EntryView {
            origin: bytes[1],
            number: number_in(bytes),
            bytes,
        })
    }

    /// The member that the command was submitted to, or 255 where it is asked from outside.
    #[tactic(auto, unfolding(crate::specs::Entries::view_of))]
    pub fn origin(&self) -> u8
        ensures { result ≡ (view_of self.now).origin }
    {
        self.origin
    }

    /// Its number at that member, or the token of a client.
    #[tactic(auto, unfolding(crate::specs::Entries::view_of))]
    pub fn number(&self) -> u64
        ensures { result ≡ (view_of self.now).number }
    {
        self.number
    }

    /// Its spelling.
    #[tactic(auto, unfolding(crate::specs::Entries::view_of), using(crate::proofs::Commands::spelling_is))]
    pub fn bytes(&self) -> &'a [u8]
        ensures { result.now ≡ spelled (view_of self.now) }
    {
        self.bytes
    }
}
