//! The tokens in a packet text, read from the front.

ghost use Rattle.std.specs.Prelude.{◌≡◌, Some, ◌<◌, drop, length, IsSome, IfSome, IfOk, IfErr, true, map};
ghost use Rattle.std.specs.Prelude.{option_map, codes};
ghost use Rattle.std.specs.Prelude.{if◌then◌else◌, not};
ghost use Rattle.std.specs.List.{list_all};
ghost use Rattle.std.specs.Option.{option_copied};
ghost use Rattle.pf_eval.specs.PacketTexts.{is_blank, begins, word_at, word_after, value, keyed, optional};
ghost use Rattle.pf_eval.specs.inner.PacketTexts.{is_empty};
ghost use Rattle.pf_eval.specs.PacketTexts.{direction_of, name_of, address_of, port_number_of, type_number_of};
ghost use Rattle.pf_eval.specs.PacketTexts.{groups_at, end_at, words};
ghost use Rattle.pf_rules.specs.Words.{protocol_of, flags_of};
ghost use Rattle.pf_eval.specs.declared.fault.PacketFault.TheVariants.{Memory};
ghost use Rattle.pf_eval.specs.inner.Cursors.{left, end_of, Reads, ReadsAll};

use crate::fault::PacketFault;
use crate::word::{behind, first_word};
use pf_addr::{Addr, parse_bytes};
use pf_rules::{
    Direction, InterfaceName, Profile, TcpFlags, is_reserved, is_same_word, parse_decimal,
    parse_flags, parse_protocol,
};
use std::alloc::Global;

/// An address and its port.
#[derive(Clone, Copy)]
pub(crate) struct End {
    pub(crate) addr: Addr,
    pub(crate) port: Option<u16>,
}

/// The tokens that are left to read, as the text that is left.
#[derive(Clone, Copy)]
pub(crate) struct Cursor<'t> {
    rest: &'t [u8],
}

impl<'t> Cursor<'t> {
    /// Before the first token of a string.
    pub(crate) fn new(text: &'t [u8]) -> Cursor<'t>
        ensures { left result ≡ words text.now }
    {
        Cursor { rest: text }
    }

    /// Whether no token is left.
    pub(crate) fn is_empty(&self) -> bool
        ensures { result ≡ is_empty (left self.now) }
    {
        first_word(self.rest).is_none()
    }

    /// Consumes this keyword, if it comes next.
    #[inline(always)]
    fn passes(&mut self, key: &[u8]) -> bool
        requires some { 0 < length key.now }
        requires plain { list_all (λ b. not (is_blank b)) key.now ≡ true }
        ensures begins { result ≡ begins key.now (left self.old) }
        ensures past { left self.new ≡ (if result then drop 1 (left self.old) else left self.old) }
    {
        let Some(rest) = behind(self.rest, key) else {
            return false;
        };
        self.rest = rest;
        true
    }

    /// The next token.
    fn word(&mut self) -> Option<&'t [u8]>
        ensures read { Reads (option_copied result) (left self.new) (word_at (left self.old)) }
        ensures consumed { IsSome result → length (left self.new) < length (left self.old) }
    {
        let (word, rest) = first_word(self.rest)?;
        self.rest = rest;
        Some(word)
    }

    /// The token after this keyword.
    #[inline(always)]
    #[tactic(auto, unfolding(crate::specs::PacketTexts::word_after))]
    fn word_after(&mut self, key: &[u8]) -> Option<&'t [u8]>
        requires some { 0 < length key.now }
        requires plain { list_all (λ b. not (is_blank b)) key.now ≡ true }
        ensures read { Reads (option_copied result) (left self.new) (word_after key.now (left self.old)) }
        ensures consumed { IsSome result → length (left self.new) < length (left self.old) }
    {
        if self.passes(key) { self.word() } else { None }
    }

    /// The direction of the packet.
    #[tactic(auto, unfolding(crate::specs::PacketTexts::value))]
    pub(crate) fn direction(&mut self) -> Option<Direction>
        ensures { Reads result (left self.new) (value direction_of (left self.old)) }
    {
        let word = self.word()?;
        if is_same_word(word, b"in") {
            return Some(Direction::In);
        }
        is_same_word(word, b"out").then_some(Direction::Out)
    }

    /// The name of an interface.
    #[tactic(auto, unfolding(crate::specs::PacketTexts::value, pf_rules::specs::Words::is_interface_name))]
    fn name(&mut self) -> Option<InterfaceName>
        ensures read { Reads result (left self.new) (value name_of (left self.old)) }
        ensures consumed { IsSome result → length (left self.new) < length (left self.old) }
    {
        let word = self.word()?;
        if is_reserved(Profile::One, word) {
            return None;
        }
        InterfaceName::new(word)
    }

    /// The name of an interface after this keyword.
    #[tactic(auto, unfolding(crate::specs::PacketTexts::keyed, crate::specs::PacketTexts::value, crate::specs::PacketTexts::word_after))]
    pub(crate) fn name_after(&mut self, key: &[u8]) -> Option<InterfaceName>
        requires some { 0 < length key.now }
        requires plain { list_all (λ b. not (is_blank b)) key.now ≡ true }
        ensures { Reads result (left self.new) (keyed key.now name_of (left self.old)) }
    {
        if self.passes(key) { self.name() } else { None }
    }

    /// The groups of the interface.
    #[tactic(auto, using(crate::proofs::Groups::groups_stop, crate::proofs::Groups::groups_step, crate::proofs::Groups::prepend_more, crate::proofs::Groups::prepend_none))]
    pub(crate) fn groups(&mut self, alloc: Global) -> Result<Vec<InterfaceName>, PacketFault>
        ensures { ReadsAll (λ v. v.items) result (left self.new) (groups_at (left self.old)) }
    {
        let mut groups = Vec::new(alloc);
        while self.passes(b"group") {
            let Some(name) = self.name() else {
                return Err(PacketFault::BadPacket);
            };
            groups.push(name)?;
        }
        Ok(groups)
    }

    /// The protocol.
    #[tactic(auto, unfolding(crate::specs::PacketTexts::keyed))]
    pub(crate) fn protocol(&mut self) -> Option<u8>
        ensures { Reads result (left self.new) (keyed (codes "proto") protocol_of (left self.old)) }
    {
        parse_protocol(self.word_after(b"proto")?)
    }

    #[inline(always)]
    #[tactic(auto, unfolding(crate::specs::PacketTexts::keyed))]
    fn address_after(&mut self, key: &[u8]) -> Option<Addr>
        requires some { 0 < length key.now }
        requires plain { list_all (λ b. not (is_blank b)) key.now ≡ true }
        ensures { Reads result (left self.new) (keyed key.now address_of (left self.old)) }
    {
        parse_bytes(self.word_after(key)?).ok()
    }

    #[tactic(auto, unfolding(crate::specs::PacketTexts::keyed, crate::specs::PacketTexts::word_after, crate::specs::PacketTexts::optional))]
    fn port(&mut self) -> Option<Option<u16>>
        ensures { Reads result (left self.new) (optional (codes "port") port_number_of (left self.old)) }
    {
        if !self.passes(b"port") {
            return Some(None);
        }
        parse_decimal(self.word()?, 5, u16::MAX).map(|port| Some(port))
    }

    /// An address after this keyword, and its port.
    #[inline(always)]
    #[tactic(auto, unfolding(crate::specs::PacketTexts::end_at))]
    pub(crate) fn end(&mut self, key: &[u8]) -> Option<End>
        requires some { 0 < length key.now }
        requires plain { list_all (λ b. not (is_blank b)) key.now ≡ true }
        ensures { Reads (option_map end_of result) (left self.new) (end_at key.now (left self.old)) }
    {
        let addr = self.address_after(key)?;
        let port = self.port()?;
        Some(End { addr, port })
    }

    /// The flags, if they are given.
    #[tactic(auto, unfolding(crate::specs::PacketTexts::keyed, crate::specs::PacketTexts::word_after, crate::specs::PacketTexts::optional))]
    pub(crate) fn flags(&mut self) -> Option<Option<TcpFlags>>
        ensures { Reads result (left self.new) (optional (codes "flags") flags_of (left self.old)) }
    {
        if !self.passes(b"flags") {
            return Some(None);
        }
        parse_flags(self.word()?).map(|flags| Some(flags))
    }

    /// The type of ICMP, if it is given.
    #[tactic(auto, unfolding(crate::specs::PacketTexts::keyed, crate::specs::PacketTexts::word_after, crate::specs::PacketTexts::optional))]
    pub(crate) fn icmp_type(&mut self) -> Option<Option<u8>>
        ensures { Reads result (left self.new) (optional (codes "icmp-type") type_number_of (left self.old)) }
    {
        if !self.passes(b"icmp-type") {
            return Some(None);
        }
        parse_decimal(self.word()?, 3, 255).map(|number| Some(number as u8))
    }
}
