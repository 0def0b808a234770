//! Tables, and changes of a configuration.

ghost use Rattle.std.specs.Prelude.{◌≡◌, Ok};
ghost use Rattle.pf_tables.specs.Tables.{in_table};
ghost use Rattle.pf_config.specs.Changes.{Changes, flush_rules};
ghost use Rattle.pf_entry.specs.Seen.{command_of};
ghost use Rattle.pf_command.specs.Answers.{Leaves};
ghost use Rattle.pf_command.specs.Effect.{after_command};

use pf_addr::Addr;
use pf_command::{Applied, ApplyFault};
use pf_config::{Config, ConfigFault};
use pf_entry::CommandView;
use pf_rules::Path;
use pf_tables::Table;
use std::alloc::Global;

/// [`Table::holds`]: the longest entry that contains the address decides.
pub fn holds(table: &Table, addr: Addr) -> bool
    ensures { result ≡ in_table addr table.now.entries }
{
    table.holds(addr)
}

/// [`Config::flush_rules`]: the rules go, and the tables that no rule refers to any more.
pub fn flush_rules(config: &mut Config, path: &Path) -> Result<(), ConfigFault>
    ensures { Changes result config.old config.new (Ok (flush_rules config.old path.now)) }
{
    config.flush_rules(path)
}

/// [`pf_command::apply`]: a command that is refused changes nothing.
pub fn apply(
    alloc: Global,
    config: &mut Config,
    command: &CommandView,
) -> Result<Applied, ApplyFault>
    ensures { Leaves result config.old config.new (after_command config.old (command_of command.now)) }
{
    pf_command::apply(alloc, config, command)
}
