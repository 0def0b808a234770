//! The changes of a script in the form of `ctl`'s.

ghost use Rattle.std.specs.Prelude.{◌≡◌, ◌<◌, ◌≤◌, Some, None, IfOk, IfErr, IfSome, OnOk, length, option_map};
ghost use Rattle.pf_scripts.specs.WordsRead.{IsAskedAs};
ghost use Rattle.cli_ask.specs.Calls.{call_value};
ghost use Rattle.cli_ask.specs.Scripting.{call_for};
ghost use Rattle.cli_ask.specs.Scripts.{items_left, items_in, change_value, found, IsBadAt};
ghost use Rattle.cli_ask.specs.Scripts.{fault_of, script_refusal, IsRefusal};

use crate::call::{Call, Kind};
use crate::checking::{Found, Refused, refused_command};
use crate::outcome::Outcome;
use pf_arguments::USAGE;
use pf_scripts::{ChangeFault, cut_line, push_bytes, read_change, takes_text, words_in};
use std::alloc::{AllocError, Global};

/// What is left of a script, and the number of its first line, from 1.
#[derive(Clone, Copy)]
pub(crate) struct Left<'a> {
    pub(crate) bytes: &'a [u8],
    pub(crate) line: u64,
}

/// A change of a script.
#[derive(Drop)]
pub(crate) struct Change<'a> {
    /// The number of the line that has its arguments.
    pub(crate) line: u64,
    /// The arguments, `pfctl` first.
    pub(crate) words: Vec<&'a str>,
    /// The text behind them.
    pub(crate) text: Vec<u8>,
}

/// Puts the lines up to a line `.`, or to the end of the script, behind the text of a change.
fn read_text(left: &mut Left<'_>, change: &mut Change<'_>) -> Result<(), AllocError>
    ensures found { OnOk result (items_left left.old (Some (change_value change.old))
        ≡ found (Some (change_value change.new)) (items_left left.new None)) }
    ensures less { OnOk result (length left.new.bytes.now ≤ length left.old.bytes.now) }
{
    while let Some((line, rest)) = cut_line(left.bytes) {
        left.bytes = rest;
        left.line = left.line.saturating_add(1);
        if line.content == b".".as_slice() {
            return Ok(());
        }
        push_bytes(&mut change.text, line)?;
    }
    Ok(())
}

/// A change, or why there is none; none at the end of the script.
type Next<'a> = Result<Option<Change<'a>>, Outcome>;

/// The next change: its first line is the next that isn't empty. A line that asks for no change is refused with 40.
pub(crate) fn next_change<'a>(alloc: Global, left: &mut Left<'a>) -> Next<'a>
    ensures found { IfOk result (λ c. items_left left.old None
        ≡ found (option_map change_value c) (items_left left.new None)) }
    ensures bad { IfErr result (λ f. IsBadAt f (items_left left.old None)) }
    ensures less { IfOk result (λ c. IfSome c (λ _. length left.new.bytes.now < length left.old.bytes.now)) }
{
    while let Some((first, rest)) = cut_line(left.bytes) {
        let line = left.line;
        let bad = Refused { code: USAGE, line };
        left.bytes = rest;
        left.line = line.saturating_add(1);
        let words = words_in(alloc, first.content)?.ok_or(Outcome::Refused(bad))?;
        if let [first, ..] = words.as_slice() {
            if *first != "pfctl" {
                return Err(Outcome::Refused(bad));
            }
            let text = Vec::new(alloc);
            let mut change = Change { line, words, text };
            if takes_text(alloc, change.words.as_slice())? {
                read_text(left, &mut change)?;
            }
            return Ok(Some(change));
        }
    }
    Ok(None)
}

impl Change<'_> {
    /// What it is refused for before a node is asked, with the line of the script: 40, 24, 1 to 3, 41, and what the
    /// grammar refuses of a ruleset.
    pub(crate) fn fault(&self, alloc: Global) -> Found
        ensures { IfOk result (λ r. r ≡ fault_of (change_value self.now)) }
    {
        let line = self.line;
        match read_change(alloc, self.words.as_slice(), self.text.as_slice()) {
            Ok(command) => Ok(refused_command(alloc, &command)?.map(|found| Refused {
                line: line.saturating_add(found.line),
                ..found
            })),
            Err(ChangeFault::Memory) => Err(AllocError),
            Err(ChangeFault::Refused(code)) => Ok(Some(Refused { code, line })),
        }
    }

    /// What is sent for it, whatever the grammar says of its ruleset.
    pub(crate) fn call(&self, alloc: Global) -> Result<Call, ChangeFault>
        ensures { IsAskedAs result call_value (call_for (change_value self.now)) }
    {
        let command = read_change(alloc, self.words.as_slice(), self.text.as_slice())?;
        Call::entry(alloc, &command, Kind::Change).map_err(|fault| fault
            .code()
            .map_or(ChangeFault::Memory, ChangeFault::Refused))
    }
}

/// What the first change from this line on is refused for that is refused wherever it is asked; so is a line that asks
/// for none.
pub(crate) fn check_script(alloc: Global, bytes: &[u8], from: u64) -> Result<(), Outcome>
    ensures good { IfOk result (λ _. script_refusal from (items_in bytes.now) ≡ None) }
    ensures refused { IfErr result (IsRefusal (script_refusal from (items_in bytes.now))) }
{
    let mut left = Left { bytes, line: 1 };
    while let Some(change) = next_change(alloc, &mut left)? {
        if change.line >= from {
            if let Some(refused) = change.fault(alloc)? {
                return Err(Outcome::Refused(refused));
            }
        }
    }
    Ok(())
}
