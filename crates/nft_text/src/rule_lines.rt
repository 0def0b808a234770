//! Rules as text.

ghost use Rattle.std.specs.Prelude.{◌≡◌, ◌++◌, OnOk, map, string_bytes};
ghost use Rattle.std.specs.List.{flat_map};
ghost use Rattle.nft_rules.specs.Seen.{note_of, statement_of, nft_rule_of, ruleset_of};
ghost use Rattle.nft_text.specs.Texts.{are_short, note_text, outcome_text, statement_text, rule_text};

use crate::Pushed;
use crate::labels::{ChainLabel, Generation, Whole};
use nft_rules::{NftRule, Note, Outcome, Statement};
use pf_rules::Name;
use pf_show::Slashed;

/// Whether names, each with a slash, take no more than that many bytes.
fn are_short(room: usize, path: &[Name]) -> bool
    ensures { result ≡ are_short room path.now }
{
    let mut left = room;
    for name in path {
        let len = name.as_bytes().len();
        if len >= left {
            return false;
        }
        left -= len + 1;
    }
    true
}

/// Puts what a counter counts behind the text: of a rule its place, without a path that is too long for a comment.
fn push_note(out: &mut String, note: Note<'_>) -> Pushed
    ensures { OnOk result (string_bytes out.new ≡ string_bytes out.old ++ note_text (note_of note.entry)) }
{
    match note {
        Note::Unknown => out.push_str("unknown"),
        Note::Skip => out.push_str("skip"),
        Note::Default => out.push_str("default"),
        Note::Spot { path, index } => {
            if are_short(110, path) {
                write!(out, "{}", Slashed(path))?;
            }
            write!(out, "@{index}")
        }
    }
}

impl<'c> Whole<'_, 'c> {
    /// Puts what is done with a packet behind the text.
    fn push_outcome(self, out: &mut String, outcome: Outcome) -> Pushed
        ensures { OnOk result (string_bytes out.new ≡ string_bytes out.old
            ++ outcome_text self.entry.position outcome) }
    {
        match outcome {
            Outcome::Accept => out.push_str("accept"),
            Outcome::Drop => out.push_str("drop"),
            Outcome::Reject => write!(out, "goto {}refuse", Generation(self.position)),
        }
    }

    /// Puts what a rule does behind the text.
    fn push_statement(self, out: &mut String, statement: Statement<'c>) -> Pushed
        ensures { OnOk result (string_bytes out.new ≡ string_bytes out.old
            ++ statement_text self.entry.position self.entry.direction (ruleset_of self.entry.parts.now)
            (statement_of statement.entry)) }
    {
        match statement {
            Statement::Ends { outcome, note } => {
                out.push_str("counter ")?;
                self.push_outcome(out, outcome)?;
                out.push_str(" comment \"")?;
                push_note(out, note)?;
                out.push_str("\"; ")
            }
            Statement::Jump(name) => write!(out, "jump {}; ", ChainLabel(self, name)),
        }
    }

    /// Puts a rule behind the text.
    #[tactic(auto, unfolding(crate::specs::Texts::rule_text))]
    fn push_rule(self, out: &mut String, rule: &NftRule<'c>) -> Pushed
        ensures { OnOk result (string_bytes out.new ≡ string_bytes out.old
            ++ rule_text self.entry.position self.entry.direction (ruleset_of self.entry.parts.now)
            (nft_rule_of rule.now)) }
    {
        for test in &rule.matches {
            self.push_match(out, test)?;
        }
        self.push_statement(out, rule.statement)
    }

    /// Puts rules, one behind the other, behind the text.
    pub(crate) fn push_rules(self, out: &mut String, rules: &[NftRule<'c>]) -> Pushed
        ensures { OnOk result (string_bytes out.new ≡ string_bytes out.old
            ++ flat_map (rule_text self.entry.position self.entry.direction (ruleset_of self.entry.parts.now))
            (map nft_rule_of rules.now)) }
    {
        for rule in rules {
            self.push_rule(out, rule)?;
        }
        Ok(())
    }
}
