//! The subcommand `test`: the verdicts of a ruleset's rules for packets.

ghost use Rattle.std.specs.Prelude.{◌≡◌, IfOk, map};
ghost use Rattle.pf_tool.specs.Tool.{verdict_lines};
ghost use Rattle.pf_tool.specs.Tool.{test_output, tested_sources};
ghost use Rattle.pf_tool.specs.inner.Output.{written, rendered};
ghost use Rattle.pf_tool.specs.inner.Sources.{source_in};

use crate::output::{Made, Output};
use crate::packets::packet_texts;
use crate::reporting::Reporter;
use crate::source::Source;
use cli_io::NO_PACKET;
use pf_config::Config;
use pf_eval::{PacketFault, parse_packet, show_verdict, verdict};
use pf_grammar::{ParseFault, Place, Profile, parse};
use pf_rules::Path;
use pf_scripts::push_line;
use std::alloc::AllocError;

impl Reporter<'_> {
    /// A verdict line for each packet text in turn, up to the first that is no packet, and which rules decide.
    fn verdict_lines(&self, config: &Config, packets: &[&str]) -> Made<Output>
        ensures { IfOk result (λ o. written o ≡ rendered self.now
            (verdict_lines config.now 1 (map (λ p. p.now) packets.now))) }
    {
        let mut all = self.answered(String::new(self.alloc));
        for (i, packet) in packets.iter().enumerate() {
            let packet = match parse_packet(self.alloc, packet) {
                Ok(packet) => packet,
                Err(PacketFault::Memory) => return Err(AllocError),
                Err(PacketFault::BadPacket) => {
                    let source = format!(in self.alloc; "packet {}", i + 1)?;
                    all.append(&self.refused(source.as_str(), None, NO_PACKET)?)?;
                    return Ok(all);
                }
            };
            let found = verdict(config, &packet);
            let shown = show_verdict(self.alloc, &found)?;
            push_line(&mut all.text, shown.as_str())?;
            let decision = self.decision(i + 1, config, &found)?;
            all.messages.push_str(decision.as_str())?;
        }
        Ok(all)
    }

    /// What `test PACKET..` writes over the text of this source: its ruleset is loaded as the main one of an empty
    /// configuration, which then answers.
    #[tactic(auto, unfolding(crate::specs::Tool::test_output))]
    pub(crate) fn test_output(&self, source: &str, packets: &[&str], text: &[u8]) -> Made<Output>
        ensures { IfOk result (λ o. written o ≡ rendered self.now
            (test_output source.now (map (λ p. p.now) packets.now) text.now)) }
    {
        let rules = match parse(self.alloc, text, Place::Main, Profile::Two) {
            Ok(rules) => rules,
            Err(ParseFault::Memory) => return Err(AllocError),
            Err(ParseFault::Refused(refusal)) => return self.refused_ruleset(source, refusal),
        };
        let mut config = Config::new(self.alloc)?;
        match config.load(&Path::main(self.alloc), rules) {
            Ok(()) => self.verdict_lines(&config, packets),
            Err(fault) => self.refused(source, None, fault.code().ok_or(AllocError)?),
        }
    }

    /// What `test` writes under rules, for packets given as arguments and, after them, in lines; either may be of a
    /// file that can't be read.
    pub(crate) fn tested_sources(
        &self,
        packets: &[&str],
        rules: &Source<'_>,
        lines: &Source<'_>,
    ) -> Made<Output>
        ensures { IfOk result (λ o. written o ≡ rendered self.now
            (tested_sources (map (λ p. p.now) packets.now) (source_in rules.now) (source_in lines.now))) }
    {
        let Some(text) = rules.text.as_deref() else {
            return self.unread(rules.name);
        };
        let Some(bytes) = lines.text.as_deref() else {
            return self.unread(lines.name);
        };
        let Some(more) = packet_texts(self.alloc, bytes)? else {
            return self.unread(lines.name);
        };
        let mut all = Vec::new(self.alloc);
        all.extend_from_slice(packets)?;
        all.extend_from_slice(&more)?;
        self.test_output(rules.name, &all, text)
    }
}
