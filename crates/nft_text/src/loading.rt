//! The three transactions.

ghost use Rattle.std.specs.Prelude.{◌≡◌, ◌++◌, IfOk, OnOk, codes, map, string_bytes};
ghost use Rattle.std.specs.List.{flat_map};
ghost use Rattle.nft_rules.specs.Guard.{hook_of, ToChain};
ghost use Rattle.nft_rules.specs.Subset.{Base};
ghost use Rattle.nft_rules.specs.Refusing.{Renders};
ghost use Rattle.nft_rules.specs.Seen.{chain_of, machine_of, ruleset_of};
ghost use Rattle.nft_text.specs.Texts.{members_text, chain_text, headers_text, guard_text, refuse_text, jump_text, hook_text};
ghost use Rattle.nft_text.specs.Texts.{fixed_gone, sets_line, rules_line, gone_line, lines};
ghost use Rattle.nft_text.specs.Loading.{transactions_value, rendered_lines};

use crate::Pushed;
use crate::labels::{ChainLabel, Generation, Whole};
use crate::members::{push_members, push_members_gone};
use crate::states::some_keep_state;
use nft_rules::{ChainName, MachineInterface, Member, NftRuleset, RenderFault, render};
use pf_config::Config;
use pf_rules::Direction;
use std::alloc::{AllocError, Global};

/// What nft(8) is to load of a position: three lines, a transaction each.
#[derive(Drop)]
pub struct Transactions {
    /// The sets, to which nothing refers yet, and all rules in place of those before: two lines.
    pub load: String,
    /// For later, the end of this position's sets and chains, once another position's rules have come: a line.
    pub end: String,
}

/// Puts what drops headers of TCP, UDP or ICMP that are cut short behind the text.
fn push_headers(out: &mut String) -> Pushed
    ensures { OnOk result (string_bytes out.new ≡ string_bytes out.old ++ headers_text) }
{
    out.push_str("meta l4proto 6 tcp urgptr 0-65535 return; meta l4proto 6 counter drop; ")?;
    out.push_str("meta l4proto 17 udp checksum 0-65535 return; meta l4proto 17 counter drop; ")?;
    out.push_str("meta nfproto ipv4 meta l4proto 1 icmp checksum 0-65535 return; ")?;
    out.push_str("meta nfproto ipv4 meta l4proto 1 counter drop; ")
}

/// Puts the chain that drops what can't be judged since a header is missing behind the text: later fragments, and
/// headers of TCP, UDP or ICMP that are cut short.
fn push_guard(out: &mut String, position: u32) -> Pushed
    ensures { OnOk result (string_bytes out.new ≡ string_bytes out.old ++ guard_text position) }
{
    write!(out, "chain {}guard {{ ", Generation(position))?;
    out.push_str("ip frag-off & 0x1fff != 0 counter drop; frag frag-off != 0 counter drop; ")?;
    push_headers(out)?;
    out.push_str("}; ")
}

/// Puts the chain that answers what is refused behind the text.
fn push_refuse(out: &mut String, position: u32) -> Pushed
    ensures { OnOk result (string_bytes out.new ≡ string_bytes out.old ++ refuse_text position) }
{
    write!(out, "chain {}", Generation(position))?;
    out.push_str("refuse { meta l4proto 6 counter reject with tcp reset; ")?;
    out.push_str("counter reject with icmpx port-unreachable; }; ")
}

/// Puts the end of the chains that each position has behind the text.
fn push_fixed_gone(out: &mut String, position: u32) -> Pushed
    ensures { OnOk result (string_bytes out.new ≡ string_bytes out.old ++ fixed_gone position) }
{
    let generation = Generation(position);
    write!(
        out,
        "delete chain inet reltzuma {generation}guard; delete chain inet reltzuma {generation}refuse; "
    )
}

impl Whole<'_, '_> {
    /// Puts the hooks of a machine's packets, and the sets, behind the text: nothing asks them yet.
    #[tactic(auto, unfolding(crate::specs::Texts::sets_line))]
    fn push_sets_line(self, out: &mut String) -> Pushed
        ensures { OnOk result (string_bytes out.new ≡ string_bytes out.old
            ++ sets_line self.entry.position (ruleset_of self.entry.parts.now)) }
    {
        out.push_str("table inet reltzuma { ")?;
        out.push_str("chain in { type filter hook prerouting priority 0; policy accept; }; ")?;
        out.push_str("chain out_l { type filter hook output priority 0; policy accept; }; ")?;
        out.push_str("chain out_f { type filter hook forward priority 0; policy accept; }; ")?;
        self.push_sets(out)?;
        out.push_str("}\n")
    }

    /// Puts the jump to the ruleset's first chain, which names the position, behind the text.
    #[tactic(auto, unfolding(crate::specs::Texts::jump_text))]
    fn push_jump(self, out: &mut String) -> Pushed
        ensures { OnOk result (string_bytes out.new ≡ string_bytes out.old ++ jump_text self.entry.position
            self.entry.direction (ruleset_of self.entry.parts.now) (ToChain Base)) }
    {
        let label = ChainLabel(self, ChainName::Base);
        write!(out, "jump {label} comment \"applied {}\"; ", self.position)
    }

    /// Puts the jumps of a hook behind the text: to the members' guard, if there are members, and then to the ruleset's
    /// first chain.
    #[tactic(auto, using(crate::proofs::Guarded::jumps_none))]
    fn push_jumps(self, out: &mut String, members: &[Member]) -> Pushed
        ensures { OnOk result (string_bytes out.new ≡ string_bytes out.old
            ++ flat_map (jump_text self.entry.position self.entry.direction (ruleset_of self.entry.parts.now))
            (hook_of members.now)) }
    {
        if members.is_empty() {
            return self.push_jump(out);
        }
        write!(out, "jump {}members; ", Generation(self.position))?;
        self.push_jump(out)
    }

    /// Puts a hook's chain behind the text.
    fn push_hook(self, out: &mut String, name: &str, members: &[Member]) -> Pushed
        ensures { OnOk result (string_bytes out.new ≡ string_bytes out.old
            ++ hook_text name.now self.entry.position self.entry.direction (ruleset_of self.entry.parts.now)
            (hook_of members.now)) }
    {
        write!(out, "chain {name} {{ ")?;
        self.push_jumps(out, members)?;
        out.push_str("}; ")
    }
}

/// Two rulesets of a position, one a direction, whether a rule keeps state, and the members.
#[derive(Clone, Copy)]
struct Both<'r, 'c> {
    position: u32,
    keeps: bool,
    members: &'r [Member],
    inward: &'r NftRuleset<'c>,
    outward: &'r NftRuleset<'c>,
}

/// Puts the three hooks, of which one is for packets in and two for packets out, behind the text.
fn push_hooks(
    out: &mut String,
    members: &[Member],
    inward: Whole<'_, '_>,
    outward: Whole<'_, '_>,
) -> Pushed
    ensures { OnOk result (string_bytes out.new ≡ string_bytes out.old ++ (hook_text (codes "in")
        inward.entry.position inward.entry.direction (ruleset_of inward.entry.parts.now) (hook_of members.now)
        ++ (hook_text (codes "out_l") outward.entry.position outward.entry.direction
        (ruleset_of outward.entry.parts.now) (hook_of members.now)
        ++ hook_text (codes "out_f") outward.entry.position outward.entry.direction
        (ruleset_of outward.entry.parts.now) (hook_of members.now)))) }
{
    inward.push_hook(out, "in", members)?;
    outward.push_hook(out, "out_l", members)?;
    outward.push_hook(out, "out_f", members)
}

/// Puts the chains and the hooks of the table, up to its end, behind the text.
fn push_table(
    out: &mut String,
    keeps: bool,
    members: &[Member],
    inward: Whole<'_, '_>,
    outward: Whole<'_, '_>,
) -> Pushed
    ensures { OnOk result (string_bytes out.new ≡ string_bytes out.old
        ++ (flat_map (chain_text inward.entry.position keeps inward.entry.direction (ruleset_of inward.entry.parts.now))
        (map chain_of inward.entry.parts.now.chains.items)
        ++ (flat_map (chain_text outward.entry.position keeps outward.entry.direction
        (ruleset_of outward.entry.parts.now)) (map chain_of outward.entry.parts.now.chains.items)
        ++ ((hook_text (codes "in") inward.entry.position inward.entry.direction (ruleset_of inward.entry.parts.now)
        (hook_of members.now) ++ (hook_text (codes "out_l") outward.entry.position outward.entry.direction
        (ruleset_of outward.entry.parts.now) (hook_of members.now) ++ hook_text (codes "out_f") outward.entry.position
        outward.entry.direction (ruleset_of outward.entry.parts.now) (hook_of members.now))) ++ codes "}\n")))) }
{
    inward.push_chains(out, keeps)?;
    outward.push_chains(out, keeps)?;
    push_hooks(out, members, inward, outward)?;
    out.push_str("}\n")
}

/// Puts the end of all rules behind the text, and the chains that each position's table has first.
fn push_front(out: &mut String, position: u32, members: &[Member]) -> Pushed
    ensures { OnOk result (string_bytes out.new ≡ string_bytes out.old
        ++ (codes "flush table inet reltzuma; table inet reltzuma { " ++ (members_text position members.now
        ++ (guard_text position ++ refuse_text position)))) }
{
    out.push_str("flush table inet reltzuma; table inet reltzuma { ")?;
    push_members(out, position, members)?;
    push_guard(out, position)?;
    push_refuse(out, position)
}

impl Both<'_, '_> {
    /// Puts the line behind the text by which all rules go, and those of this position come.
    fn push_rules_line(self, out: &mut String) -> Pushed
        ensures { OnOk result (string_bytes out.new ≡ string_bytes out.old
            ++ rules_line self.entry.position self.entry.keeps self.entry.members.now (ruleset_of self.entry.inward.now)
            (ruleset_of self.entry.outward.now)) }
    {
        let inward = Whole {
            position: self.position,
            direction: Direction::In,
            parts: self.inward,
        };
        let outward = Whole {
            position: self.position,
            direction: Direction::Out,
            parts: self.outward,
        };
        push_front(out, self.position, self.members)?;
        push_table(out, self.keeps, self.members, inward, outward)
    }

    /// Puts the line behind the text by which the chains and sets of this position go.
    #[tactic(auto, unfolding(crate::specs::Texts::gone_line))]
    fn push_gone_line(self, out: &mut String) -> Pushed
        ensures { OnOk result (string_bytes out.new ≡ string_bytes out.old
            ++ gone_line self.entry.position self.entry.members.now (ruleset_of self.entry.inward.now)
            (ruleset_of self.entry.outward.now)) }
    {
        let inward = Whole {
            position: self.position,
            direction: Direction::In,
            parts: self.inward,
        };
        let outward = Whole {
            position: self.position,
            direction: Direction::Out,
            parts: self.outward,
        };
        inward.push_chains_gone(out)?;
        outward.push_chains_gone(out)?;
        push_fixed_gone(out, self.position)?;
        push_members_gone(out, self.position, self.members)?;
        inward.push_sets_gone(out)?;
        out.push_str("\n")
    }
}

/// The rulesets of a position, one a direction, as three lines for nft(8), a transaction each: the sets, to which
/// nothing refers yet; all rules in place of those before; and, for later, the end of this position's sets and chains,
/// once another position's rules have come. A position's names are its own: no two rulesets are loaded under one
/// position; behind another members' guard its sets are the same. Where a rule keeps state, what belongs to a
/// connection passes. Before all else at the hooks is the guard of these members, if there are any. A growth that
/// is refused is the error.
#[tactic(auto, unfolding(crate::specs::Texts::lines))]
pub fn lines<'r, 'c>(
    alloc: Global,
    position: u32,
    keeps: bool,
    members: &'r [Member],
    inward: &'r NftRuleset<'c>,
    outward: &'r NftRuleset<'c>,
) -> Result<Transactions, AllocError>
    ensures { IfOk result (λ l. transactions_value l
        ≡ lines position keeps members.now (ruleset_of inward.now) (ruleset_of outward.now)) }
{
    let both = Both {
        position,
        keeps,
        members,
        inward,
        outward,
    };
    let mut load = String::new(alloc);
    let whole = Whole {
        position,
        direction: Direction::In,
        parts: inward,
    };
    whole.push_sets_line(&mut load)?;
    both.push_rules_line(&mut load)?;
    let mut end = String::new(alloc);
    both.push_gone_line(&mut end)?;
    Ok(Transactions { load, end })
}

/// A configuration, on a machine with these interfaces, behind the guard of these members, as three lines for nft(8),
/// or why there are none. Of no members there is no guard.
#[tactic(auto, unfolding(crate::specs::Loading::rendered_lines))]
pub fn rendered_lines(
    alloc: Global,
    config: &Config,
    machine: &[MachineInterface],
    members: &[Member],
    position: u32,
) -> Result<Transactions, RenderFault>
    ensures { Renders transactions_value result (rendered_lines config.now (machine_of machine.now) members.now
        position) }
{
    let keeps = some_keep_state(config, &config.paths()?);
    let inward = render(alloc, config, machine, Direction::In)?;
    let outward = render(alloc, config, machine, Direction::Out)?;
    Ok(lines(alloc, position, keeps, members, &inward, &outward)?)
}
