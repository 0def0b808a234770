//! A ruleset as text: a line for each part, its tokens between single blanks.

ghost use Rattle.std.specs.Prelude.{◌≡◌, ◌++◌, Some, IfOk, OnOk, map, string_bytes};
ghost use Rattle.pf_rules.specs.Rulesets.{ruleset_of};
ghost use Rattle.pf_show.specs.Shown.{direction_parts, quick_parts, action_parts, interface_parts, family_parts};
ghost use Rattle.pf_show.specs.Shown.{protocol_parts, host_parts, test_parts, port_parts, end_parts, ends_parts};
ghost use Rattle.pf_show.specs.Shown.{type_parts, letters, flags_text, flags_parts, state_parts, condition_parts};
ghost use Rattle.pf_show.specs.Shown.{rule_parts, line, skip_line, shown_items, shown};
ghost use Rattle.pf_show.specs.inner.Spaced.{spaced, joined, text_if, is_any_end};
ghost use Rattle.pf_rules.specs.Seen.{rule_of};

use crate::items::{push_items, push_line};
use crate::tables::TableLines;
use pf_addr::Family;
use pf_rules::{
    Action, Addresses, Conditions, Direction, FlagTest, Host, Interface, InterfaceName, Item,
    PortTest, Rule, Ruleset, TcpFlags,
};
use std::alloc::{AllocError, Global};
use std::fmt;

/// What a rule does.
fn action_words(action: Action) -> &'static str
    ensures { result.now ≡ joined (action_parts action) }
{
    match action {
        Action::Pass => "pass",
        Action::Drop => "block drop",
        Action::Return => "block return",
    }
}

/// A direction behind a blank, if there is one.
pub(crate) fn direction_part(direction: Option<Direction>) -> &'static str
    ensures { result.now ≡ spaced (direction_parts direction) }
{
    match direction {
        Some(Direction::In) => " in",
        Some(Direction::Out) => " out",
        None => "",
    }
}

/// `quick` behind a blank, if it is given.
pub(crate) fn quick_part(quick: bool) -> &'static str
    ensures { result.now ≡ spaced (quick_parts quick) }
{
    if quick { " quick" } else { "" }
}

/// A family behind a blank, if there is one.
fn family_part(family: Option<Family>) -> &'static str
    ensures { result.now ≡ spaced (family_parts family) }
{
    match family {
        Some(Family::Inet) => " inet",
        Some(Family::Inet6) => " inet6",
        None => "",
    }
}

/// Whether a state would be kept, for a rule that passes.
fn state_part(action: Action, keeps: bool) -> &'static str
    ensures { result.now ≡ spaced (state_parts action keeps) }
{
    match action {
        Action::Pass if keeps => " keep state",
        Action::Pass => " no state",
        Action::Drop | Action::Return => "",
    }
}

/// Puts an interface after its keyword, if there is one, behind the text.
fn push_interface(out: &mut String, interface: &Option<Interface>) -> Result<(), AllocError>
    ensures { OnOk result (string_bytes out.new ≡ string_bytes out.old ++ spaced (interface_parts interface.now)) }
{
    let Some(interface) = interface else {
        return Ok(());
    };
    out.push_str(if interface.negated { " on !" } else { " on " })?;
    out.push_str(interface.name.as_str())
}

/// Puts the number of a protocol after its keyword, if there is one, behind the text.
fn push_protocol(out: &mut String, protocol: Option<u8>) -> Result<(), AllocError>
    ensures { OnOk result (string_bytes out.new ≡ string_bytes out.old ++ spaced (protocol_parts protocol)) }
{
    match protocol {
        Some(number) => write!(out, " proto {number}"),
        None => Ok(()),
    }
}

/// Puts a host behind a blank behind the text.
fn push_host(out: &mut String, host: &Host) -> Result<(), AllocError>
    ensures { OnOk result (string_bytes out.new ≡ string_bytes out.old ++ spaced (host_parts host.now)) }
{
    match host {
        Host::Any => out.push_str(" any"),
        Host::In(Addresses::Prefix(prefix)) => write!(out, " {prefix}"),
        Host::In(Addresses::Range(range)) => write!(out, " {range}"),
        Host::In(Addresses::Table(name)) => write!(out, " <{}>", name.as_str()),
        Host::NotIn(Addresses::Prefix(prefix)) => write!(out, " !{prefix}"),
        Host::NotIn(Addresses::Range(range)) => write!(out, " !{range}"),
        Host::NotIn(Addresses::Table(name)) => write!(out, " !<{}>", name.as_str()),
    }
}

/// Puts a test on ports behind a blank behind the text.
fn push_test(out: &mut String, test: PortTest) -> Result<(), AllocError>
    ensures { OnOk result (string_bytes out.new ≡ string_bytes out.old ++ spaced (test_parts test)) }
{
    match test {
        PortTest::Equal(n) => write!(out, " = {n}"),
        PortTest::NotEqual(n) => write!(out, " != {n}"),
        PortTest::Less(n) => write!(out, " < {n}"),
        PortTest::LessEqual(n) => write!(out, " <= {n}"),
        PortTest::Greater(n) => write!(out, " > {n}"),
        PortTest::GreaterEqual(n) => write!(out, " >= {n}"),
        PortTest::FromTo(a, b) => write!(out, " {a}:{b}"),
        PortTest::Between(a, b) => write!(out, " {a} >< {b}"),
        PortTest::Outside(a, b) => write!(out, " {a} <> {b}"),
    }
}

/// Puts a test on ports after its keyword, if there is one, behind the text.
fn push_port(out: &mut String, port: Option<PortTest>) -> Result<(), AllocError>
    ensures { OnOk result (string_bytes out.new ≡ string_bytes out.old ++ spaced (port_parts port)) }
{
    match port {
        Some(test) => {
            out.push_str(" port")?;
            push_test(out, test)
        }
        None => Ok(()),
    }
}

/// One end of a rule.
#[derive(Clone, Copy)]
struct End<'a> {
    host: &'a Host,
    port: Option<PortTest>,
}

impl End<'_> {
    /// Whether it is any host, at any port.
    fn is_any(self) -> bool
        ensures { result ≡ is_any_end self.entry.host.now self.entry.port }
    {
        match (self.host, self.port) {
            (Host::Any, None) => true,
            (Host::Any, Some(_)) => false,
            (Host::In(_) | Host::NotIn(_), _) => false,
        }
    }

    /// Puts it after its keyword behind the text.
    #[tactic(auto, using(crate::proofs::Spacing::spaced_append))]
    fn push(self, out: &mut String, word: &str) -> Result<(), AllocError>
        ensures { OnOk result (string_bytes out.new ≡ string_bytes out.old
            ++ spaced (end_parts word.now self.entry.host.now self.entry.port)) }
    {
        write!(out, " {word}")?;
        push_host(out, self.host)?;
        push_port(out, self.port)
    }
}

/// Puts both ends of a rule, `all` where they are any, behind the text.
#[tactic(auto, using(crate::proofs::Spacing::ends_are, crate::proofs::Spacing::spaced_append))]
fn push_ends(out: &mut String, source: End<'_>, destination: End<'_>) -> Result<(), AllocError>
    ensures { OnOk result (string_bytes out.new ≡ string_bytes out.old ++ spaced (ends_parts source.entry.host.now
        source.entry.port destination.entry.host.now destination.entry.port)) }
{
    if source.is_any() && destination.is_any() {
        return out.push_str(" all");
    }
    source.push(out, "from")?;
    destination.push(out, "to")
}

/// Puts the number of a type of ICMP after its keyword, if there is one, behind the text.
fn push_type(out: &mut String, number: Option<u8>) -> Result<(), AllocError>
    ensures { OnOk result (string_bytes out.new ≡ string_bytes out.old ++ spaced (type_parts number)) }
{
    match number {
        Some(number) => write!(out, " icmp-type {number}"),
        None => Ok(()),
    }
}

/// Puts the conditions from the interface to the type of ICMP behind the text.
pub(crate) fn push_conditions(out: &mut String, c: &Conditions) -> Result<(), AllocError>
    ensures { OnOk result (string_bytes out.new ≡ string_bytes out.old ++ spaced (condition_parts c.now)) }
{
    push_interface(out, &c.interface)?;
    out.push_str(family_part(c.family))?;
    push_protocol(out, c.protocol)?;
    let source = End {
        host: &c.source,
        port: c.source_port,
    };
    let destination = End {
        host: &c.destination,
        port: c.destination_port,
    };
    push_ends(out, source, destination)?;
    push_type(out, c.icmp_type)
}

/// The text, if it is wanted.
pub(crate) fn text_if(wanted: bool, text: &str) -> &str
    ensures { result.now ≡ text_if wanted text.now }
{
    if wanted { text } else { "" }
}

/// The letters of the flags that are set.
#[derive(Clone, Copy)]
struct Letters(TcpFlags);

impl fmt::Display for Letters {
    ghost output = { λ x. Some (letters x.0) };

    #[tactic(auto, using(crate::proofs::Spacing::letter_is))]
    fn fmt<W: fmt::Write>(&self, f: &mut fmt::Formatter<W>) -> fmt::Result {
        let fin = text_if(self.0.fin, "F");
        let syn = text_if(self.0.syn, "S");
        let rst = text_if(self.0.rst, "R");
        let psh = text_if(self.0.psh, "P");
        let ack = text_if(self.0.ack, "A");
        let urg = text_if(self.0.urg, "U");
        let ece = text_if(self.0.ece, "E");
        let cwr = text_if(self.0.cwr, "W");
        write!(f, "{fin}{syn}{rst}{psh}{ack}{urg}{ece}{cwr}")
    }
}

/// What is asked of the flags.
#[derive(Clone, Copy)]
struct FlagsText(FlagTest);

impl fmt::Display for FlagsText {
    ghost output = { λ t. Some (flags_text t.0) };

    fn fmt<W: fmt::Write>(&self, f: &mut fmt::Formatter<W>) -> fmt::Result {
        match self.0 {
            FlagTest::Any => f.write_str("any"),
            // in most rules
            test if test == FlagTest::SYN_OF_SYN_ACK => f.write_str("S/SA"),
            FlagTest::Just { set, of } => write!(f, "{}/{}", Letters(set), Letters(of)),
        }
    }
}

/// Puts what is tested of the flags, after its keyword, behind the text: always for a rule that passes, else where
/// something is tested.
pub(crate) fn push_flags(out: &mut String, action: Action, test: FlagTest) -> Result<(), AllocError>
    ensures { OnOk result (string_bytes out.new ≡ string_bytes out.old ++ spaced (flags_parts action test)) }
{
    match (action, test) {
        (Action::Drop | Action::Return, FlagTest::Any) => Ok(()),
        _ => write!(out, " flags {}", FlagsText(test)),
    }
}

/// Puts the line of a rule behind the text.
pub(crate) fn push_rule(out: &mut String, rule: &Rule) -> Result<(), AllocError>
    ensures { OnOk result (string_bytes out.new ≡ string_bytes out.old ++ line (rule_parts rule.now)) }
{
    let (action, quick) = (action_words(rule.action), quick_part(rule.quick));
    write!(
        out,
        "{action}{}{quick}",
        direction_part(rule.conditions.direction)
    )?;
    push_conditions(out, &rule.conditions)?;
    push_flags(out, rule.action, rule.conditions.flags)?;
    writeln!(out, "{}", state_part(rule.action, rule.keeps_state))
}

/// Names, each behind a blank.
#[derive(Clone, Copy)]
struct Names<'a>(&'a [InterfaceName]);

impl fmt::Display for Names<'_> {
    ghost use Rattle.std.specs.Prelude.{◌∷◌};
    ghost use Rattle.std.specs.List.{flat_map};

    ghost output = { λ n. Some (flat_map (λ name. 32 ∷ name) n.0.now) };

    fn fmt<W: fmt::Write>(&self, f: &mut fmt::Formatter<W>) -> fmt::Result {
        for name in self.0 {
            write!(f, " {}", name.as_str())?;
        }
        Ok(())
    }
}

/// The line of what is skipped, if anything is.
#[derive(Clone, Copy)]
pub struct SkipLine<'a>(pub &'a [InterfaceName]);

impl fmt::Display for SkipLine<'_> {
    ghost output = { λ n. Some (skip_line n.0.now) };

    #[tactic(auto, using(crate::proofs::Spacing::skip_is))]
    fn fmt<W: fmt::Write>(&self, f: &mut fmt::Formatter<W>) -> fmt::Result {
        match self.0 {
            [] => Ok(()),
            [_, ..] => writeln!(f, "set skip on {{{} }}", Names(self.0)),
        }
    }
}

/// The ruleset as text: a line `set skip on { .. }` if anything is skipped, a line for each table, and a line for each
/// rule; where one carries a block, its rules follow up to a line `}` (pfctl(8), `-s rules`). A growth that is refused
/// is the error.
pub fn show(alloc: Global, rules: &Ruleset) -> Result<String, AllocError>
    ensures { IfOk result (λ text. string_bytes text ≡ shown (ruleset_of rules.now)) }
{
    let mut text = String::new(alloc);
    let (skip, tables) = (SkipLine(&rules.skip), TableLines(&rules.tables));
    write!(text, "{skip}{tables}")?;
    push_items(&mut text, &rules.items)?;
    Ok(text)
}

/// The items as text, a line for each rule, with every name and without blocks (pfctl(8), `-s rules`). A growth that is
/// refused is the error.
pub fn show_items(alloc: Global, items: &[Item]) -> Result<String, AllocError>
    ensures { IfOk result (λ text. string_bytes text ≡ shown_items (map rule_of items.now)) }
{
    let mut text = String::new(alloc);
    for item in items {
        push_line(&mut text, item)?;
    }
    Ok(text)
}
