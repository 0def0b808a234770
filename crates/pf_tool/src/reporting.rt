//! Messages on standard error: what is refused, and which rules decide.

ghost use Rattle.std.specs.Prelude.{◌≡◌, IfOk, string_bytes};
ghost use Rattle.cli_io.specs.Written.{AppendsFront};
ghost use Rattle.pf_tool.specs.Messages.{Refuses, Decides, level_of, has_refusals};
ghost use Rattle.pf_tool.specs.Messages.{message_line, rule_at, shown_rule, decided_line};
ghost use Rattle.pf_eval.specs.Seen.{judgement_of};

use crate::output::Made;
use cli_io::{Explanation, Remark, Shown, explanation, write_bytes};
use pf_config::Config;
use pf_eval::{Spot, Verdict, show_verdict};
use pf_grammar::show_items;
use std::alloc::Global;
use std::io::Write;

/// The rule at a place, shown in its line.
fn rule_at(alloc: Global, config: &Config, spot: Spot<'_>) -> Made<String>
    ensures { IfOk result (λ text. string_bytes text ≡ rule_at config.now spot.entry.names.now spot.entry.index) }
{
    let rules = config.items(spot.names);
    match rules.get(spot.index as usize) {
        Some(rule) => show_items(alloc, std::slice::from_ref(rule)),
        None => Ok(String::new(alloc)),
    }
}

/// The rule that decides, shown in its line; why there is none.
fn shown_rule(alloc: Global, config: &Config, found: &Verdict<'_>) -> Made<String>
    ensures { IfOk result (λ text. string_bytes text ≡ shown_rule config.now (judgement_of found.now)) }
{
    match *found {
        Verdict::Skip => String::from_str(alloc, "the interface is skipped"),
        Verdict::Default => String::from_str(alloc, "no rule matches"),
        Verdict::Pass(spot) | Verdict::Drop(spot) | Verdict::Return(spot) => rule_at(
            alloc, config, spot,
        ),
    }
}

/// Which messages are written.
#[derive(Clone, Copy)]
pub(crate) enum Level {
    /// None.
    Silent,
    /// What is refused.
    Refusals,
    /// What is refused, and which rules decide.
    Rules,
}

/// Which messages are written: all with `-v`, refusals where standard error is a terminal.
pub(crate) fn level_of(is_verbose: bool, is_terminal: bool) -> Level
    ensures { result ≡ level_of is_verbose is_terminal }
{
    match (is_verbose, is_terminal) {
        (true, _) => Level::Rules,
        (false, true) => Level::Refusals,
        (false, false) => Level::Silent,
    }
}

/// How messages are written: which, and with which table of refusals.
#[derive(Clone, Copy)]
pub(crate) struct Reporter<'t> {
    pub(crate) alloc: Global,
    pub(crate) table: &'t [Explanation],
    pub(crate) level: Level,
}

impl Reporter<'_> {
    /// Whether refusals are reported.
    pub(crate) fn has_refusals(&self) -> bool
        ensures { result ≡ has_refusals self.now.level }
    {
        !matches!(self.level, Level::Silent)
    }

    /// The line of a refusal, empty where refusals aren't reported.
    pub(crate) fn refusal(&self, source: &str, line: Option<u64>, code: u8) -> Made<String>
        ensures { IfOk result (λ text. string_bytes text ≡ message_line self.now.level self.now.table.now
            (Refuses source.now line code)) }
    {
        if !self.has_refusals() {
            return Ok(String::new(self.alloc));
        }
        let source = format!(in self.alloc; "{}", Shown(source))?;
        let remark = Remark {
            source: source.as_str(),
            line,
            name: explanation(self.table, code).map_or("refused", |row| row.name),
            code,
        };
        format!(in self.alloc; "{remark}\n")
    }

    /// What is reported of the packet with this number: the verdict, and the rule that decides.
    #[tactic(auto, unfolding(crate::specs::Messages::decided_line))]
    fn decided_line(&self, n: usize, config: &Config, found: &Verdict<'_>) -> Made<String>
        ensures { IfOk result (λ text. string_bytes text ≡ decided_line config.now n (judgement_of found.now)) }
    {
        let shown = show_verdict(self.alloc, found)?;
        let rule = shown_rule(self.alloc, config, found)?;
        format!(in self.alloc; "packet {n}: {shown}: {}", rule.as_str().trim_end())
    }

    /// The line of the rule that decides, for the packet with this number; empty where rules aren't reported.
    pub(crate) fn decision(&self, n: usize, config: &Config, found: &Verdict<'_>) -> Made<String>
        ensures { IfOk result (λ text. string_bytes text ≡ message_line self.now.level self.now.table.now
            (Decides n config.now (judgement_of found.now))) }
    {
        if !matches!(self.level, Level::Rules) {
            return Ok(String::new(self.alloc));
        }
        let line = self.decided_line(n, config, found)?;
        format!(in self.alloc; "{line}\n")
    }
}

/// Writes messages. That they can't be written changes nothing.
#[tactic(auto, using(crate::proofs::Messages::whole_written))]
pub(crate) fn report<E: Write>(messages: &str, errors: &mut E)
    ensures { AppendsFront (E.contents errors.old) (E.contents errors.new) messages.now }
{
    let _written = write_bytes(errors, messages.as_bytes());
}
