//! The members' guard.

ghost use Rattle.std.specs.Prelude.{◌≡◌, ◌++◌, ◌∷◌, [], Some, OnOk, string_bytes};
ghost use Rattle.std.specs.List.{flat_map};
ghost use Rattle.pf_eval.specs.Matching.{of_family};
ghost use Rattle.nft_rules.specs.declared.subset.Side.TheVariants.{Source, Destination};
ghost use Rattle.nft_rules.specs.Guard.{has_family, AtMember, AtHome, OfUdp, IsLater, IsTooBig};
ghost use Rattle.nft_rules.specs.Guard.{family_rules, link_rules};
ghost use Rattle.nft_text.specs.Texts.{member_text, udp_text, later_text, too_big_text, guard_match_text};
ghost use Rattle.nft_text.specs.Texts.{guard_rule_text, members_text, members_gone};
ghost use Rattle.nft_text.specs.inner.Ends.{end_match};

use crate::Pushed;
use crate::labels::Generation;
use crate::matching::{address_text, family_text};
use nft_rules::{Member, Side};
use pf_addr::{Addr, Family};
use std::fmt;

/// What is done with what a rule of the guard matches.
const ACCEPT: &str = "counter accept comment \"members\"; ";

/// Whether the address is of the family.
#[tactic(auto, using(crate::proofs::Guarded::of_its_family))]
fn of_family(address: Addr, family: Family) -> bool
    ensures { result ≡ of_family address family }
{
    address.family() == family
}

/// Whether some member has an address of the family.
fn has_family(family: Family, members: &[Member]) -> bool
    ensures { result ≡ has_family family members.now }
{
    members
        .iter()
        .any(|member| of_family(member.address, family))
}

/// Which port is asked for.
fn udp_text(side: Side) -> &'static str
    ensures { result.now ≡ udp_text side }
{
    match side {
        Side::Source => ". udp sport ",
        Side::Destination => ". udp dport ",
    }
}

/// What asks for a later fragment.
fn later_text(family: Family) -> &'static str
    ensures { result.now ≡ later_text family }
{
    match family {
        Family::Inet => "ip frag-off & 0x1fff != 0 ",
        Family::Inet6 => "frag frag-off != 0 ",
    }
}

/// The match of a report that a packet was too big.
fn too_big_text(family: Family) -> &'static str
    ensures { result.now ≡ too_big_text family }
{
    match family {
        Family::Inet => "icmp type destination-unreachable icmp code frag-needed ",
        Family::Inet6 => "icmpv6 type packet-too-big ",
    }
}

/// The members of a cluster, of which those with addresses of a family are meant.
#[derive(Clone, Copy)]
struct Guard<'m> {
    family: Family,
    members: &'m [Member],
}

impl Guard<'_> {
    /// Puts where a member listens, if its address is of the family, behind the text: the address, and its port where
    /// ports are asked too.
    fn push_member(self, out: &mut String, has_port: bool, member: Member) -> Pushed
        ensures { OnOk result (string_bytes out.new ≡ string_bytes out.old
            ++ member_text has_port self.entry.family member) }
    {
        let Member { address, port } = member;
        if !of_family(address, self.family) {
            return Ok(());
        }
        if has_port {
            return write!(out, "{address} . {port}, ");
        }
        write!(out, "{address}, ")
    }

    /// The same of all members.
    fn push_members(self, out: &mut String, has_port: bool) -> Pushed
        ensures { OnOk result (string_bytes out.new ≡ string_bytes out.old
            ++ flat_map (member_text has_port self.entry.family) self.entry.members.now) }
    {
        for member in self.members {
            self.push_member(out, has_port, *member)?;
        }
        Ok(())
    }

    /// Puts that an end is the address of a member of the family, and where ports are asked too its port, behind the
    /// text.
    #[tactic(auto, unfolding(crate::specs::Texts::guard_match_text))]
    fn push_end(self, out: &mut String, has_port: bool, side: Side) -> Pushed
        ensures { OnOk result (string_bytes out.new ≡ string_bytes out.old
            ++ guard_match_text (end_match has_port side self.entry.family self.entry.members.now)) }
    {
        let (what, end) = (family_text(self.family), address_text(side));
        let port = if has_port { udp_text(side) } else { "" };
        write!(out, "{what}{end}{port}{{ ")?;
        self.push_members(out, has_port)?;
        out.push_str("} ")
    }

    /// Puts the rule for the members' datagrams behind the text.
    fn push_datagrams(self, out: &mut String) -> Pushed
        ensures { OnOk result (string_bytes out.new ≡ string_bytes out.old ++ guard_rule_text
            (AtMember Source self.entry.family self.entry.members.now
            ∷ AtMember Destination self.entry.family self.entry.members.now ∷ [])) }
    {
        self.push_end(out, true, Side::Source)?;
        self.push_end(out, true, Side::Destination)?;
        out.push_str(ACCEPT)
    }

    /// Puts the rule for their later fragments behind the text.
    fn push_fragments(self, out: &mut String) -> Pushed
        ensures { OnOk result (string_bytes out.new ≡ string_bytes out.old ++ guard_rule_text
            (IsLater self.entry.family ∷ OfUdp ∷ AtHome Source self.entry.family self.entry.members.now
            ∷ AtHome Destination self.entry.family self.entry.members.now ∷ [])) }
    {
        write!(out, "{}meta l4proto 17 ", later_text(self.family))?;
        self.push_end(out, false, Side::Source)?;
        self.push_end(out, false, Side::Destination)?;
        out.push_str(ACCEPT)
    }

    /// Puts the rule for reports that a packet was too big behind the text.
    fn push_too_big(self, out: &mut String) -> Pushed
        ensures { OnOk result (string_bytes out.new ≡ string_bytes out.old ++ guard_rule_text
            (IsTooBig self.entry.family ∷ AtHome Destination self.entry.family self.entry.members.now ∷ [])) }
    {
        out.push_str(too_big_text(self.family))?;
        self.push_end(out, false, Side::Destination)?;
        out.push_str(ACCEPT)
    }
}

/// Puts these three rules, if some member is of the family, behind the text.
#[tactic(auto, using(crate::proofs::Guarded::family_some))]
fn push_family(out: &mut String, family: Family, members: &[Member]) -> Pushed
    ensures { OnOk result (string_bytes out.new ≡ string_bytes out.old
        ++ flat_map guard_rule_text (family_rules family members.now)) }
{
    if !has_family(family, members) {
        return Ok(());
    }
    let guard = Guard { family, members };
    guard.push_datagrams(out)?;
    guard.push_fragments(out)?;
    guard.push_too_big(out)
}

/// What members with IPv6 addresses need beside, if there are such.
#[derive(Clone, Copy)]
struct LinkText<'m>(&'m [Member]);

impl fmt::Display for LinkText<'_> {
    ghost output = { λ x. Some (flat_map guard_rule_text (link_rules x.0.now)) };

    #[tactic(auto, unfolding(crate::specs::Texts::guard_match_text, crate::specs::Texts::guard_rule_text))]
    fn fmt<W: fmt::Write>(&self, f: &mut fmt::Formatter<W>) -> fmt::Result {
        if !has_family(Family::Inet6, self.0) {
            return Ok(());
        }
        f.write_str("icmpv6 type { nd-neighbor-solicit, nd-neighbor-advert } ip6 hoplimit 255 ")?;
        f.write_str("counter accept comment \"members\"; ")
    }
}

/// Puts the chain of the guard, if there are members, behind the text.
#[tactic(auto, using(crate::proofs::Guarded::members_some), unfolding(crate::specs::Texts::members_text))]
pub(crate) fn push_members(out: &mut String, position: u32, members: &[Member]) -> Pushed
    ensures { OnOk result (string_bytes out.new ≡ string_bytes out.old ++ members_text position members.now) }
{
    if members.is_empty() {
        return Ok(());
    }
    write!(out, "chain {}members {{ ", Generation(position))?;
    push_family(out, Family::Inet, members)?;
    push_family(out, Family::Inet6, members)?;
    write!(out, "{}}}; ", LinkText(members))
}

/// Puts the end of the guard's chain, if there are members, behind the text.
#[tactic(auto, using(crate::proofs::Guarded::gone_some), unfolding(crate::specs::Texts::members_gone))]
pub(crate) fn push_members_gone(out: &mut String, position: u32, members: &[Member]) -> Pushed
    ensures { OnOk result (string_bytes out.new ≡ string_bytes out.old ++ members_gone position members.now) }
{
    if members.is_empty() {
        return Ok(());
    }
    let generation = Generation(position);
    write!(out, "delete chain inet reltzuma {generation}members; ")
}
