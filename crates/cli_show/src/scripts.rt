//! A script that gives a configuration.

ghost use Rattle.std.specs.Prelude.{◌≡◌, ◌++◌, IfOk, OnOk};
ghost use Rattle.pf_entry.specs.Reading.{reading};
ghost use Rattle.pf_node.specs.Applied.{after_read};
ghost use Rattle.pf_node.specs.Nodes.{learned_by, applied_of, config_of};
ghost use Rattle.cli_show.specs.Scripts.{lines_read, log_script, ShowsScript, HasScript};
ghost use Rattle.cli_show.specs.Writing.{OrNone};

use crate::pfctl::refused;
use crate::shown::{Made, Shown};
use cli_io::NO_SCRIPT;
use pf_command::{ApplyFault, apply};
use pf_config::Config;
use pf_dump::{dump, gives, push_change};
use pf_entry::decode;
use pf_node::Node;
use px_records::Records;
use std::alloc::{AllocError, Global};

/// Puts the command that bytes spell behind a script, unless it is refused at this configuration, where it is done.
#[tactic(auto, using(crate::proofs::LogScripts::done_lines, crate::proofs::LogScripts::refused_lines))]
fn push_done(alloc: Global, script: &mut Vec<u8>, config: &mut Config, bytes: &[u8]) -> Made<()>
    ensures configuration { OnOk result (config.new ≡ after_read config.old (reading bytes.now)) }
    ensures script { OnOk result (script.new.items
        ≡ script.old.items ++ lines_read config.old (reading bytes.now)) }
{
    let Ok(view) = decode(bytes) else {
        return Ok(());
    };
    match apply(alloc, config, &view.command) {
        Ok(_) => push_change(script, &view.to_entry(alloc)?.command),
        Err(ApplyFault::Refused(_, _)) => Ok(()),
        Err(ApplyFault::Memory) => Err(AllocError),
    }
}

/// The script of all commands of the log that weren't refused.
fn log_script<R: Records>(alloc: Global, node: &Node<R>) -> Made<Vec<u8>>
    ensures { IfOk result (λ s. s.items ≡ log_script (learned_by node.now) (applied_of node.now)) }
{
    let mut script = Vec::new(alloc);
    let mut config = Config::new(alloc)?;
    for position in 0..node.applied() {
        let Some(entry) = node.entry(position) else {
            unreachable!();
        };
        push_done(alloc, &mut script, &mut config, entry.bytes())?;
    }
    Ok(script)
}

/// A script that gives the node's configuration: one load a path, and where a path's rules are too long for that the
/// commands of the log that weren't refused. 91 where neither gives it.
pub(crate) fn show_script<R: Records>(alloc: Global, node: &Node<R>) -> Made<Shown>
    ensures { IfOk result (λ s. OrNone s
        (ShowsScript (learned_by node.now) (applied_of node.now) (config_of node.now))
        (HasScript (learned_by node.now) (applied_of node.now) (config_of node.now))) }
{
    let config = node.config();
    if let Some(bytes) = dump(alloc, config)? {
        return Ok(Shown::new(bytes, false));
    }
    let script = log_script(alloc, node)?;
    if gives(alloc, &script, config)? {
        return Ok(Shown::new(script, false));
    }
    refused(alloc, NO_SCRIPT)
}
