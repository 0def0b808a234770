//! A node in numbers.

ghost use Rattle.std.specs.Prelude.{◌≡◌, IfOk, ◌+◌, ◌-◌, length, map, min};
ghost use Rattle.pf_config.specs.Map.{rules_at, table_names};
ghost use Rattle.px_model.specs.Step.{front, positions};
ghost use Rattle.pf_node.specs.Nodes.{learned_by};
ghost use Rattle.node_requests.specs.Requests.{AreFigures};
ghost use Rattle.node_requests.specs.Sizes.{entries_at};

use pf_config::Config;
use pf_node::Node;
use pf_rules::Name;
use px_core::POSITIONS;
use px_records::Records;
use std::alloc::AllocError;

/// A node in numbers.
#[derive(Clone, Copy)]
pub struct Figures {
    /// Its number as a member.
    pub node: u8,
    /// How many members there are.
    pub members: u8,
    /// The cluster's number.
    pub cluster: u32,
    /// The least position not learned.
    pub front: u32,
    /// How many positions are applied.
    pub applied: u32,
    /// Its round.
    pub round: u64,
    /// How many commands wait to be proposed.
    pub waiting: usize,
    /// How many positions the log has left.
    pub left: u32,
    /// Paths that have rules or tables.
    pub anchors: usize,
    /// Rules, at all paths.
    pub rules: usize,
    /// Tables, at all paths.
    pub tables: usize,
    /// Entries, in all tables.
    pub addresses: usize,
    /// Whether its store failed.
    pub has_failed: bool,
}

/// How many entries the tables of a path have.
fn entries_at(config: &Config, path: &[Name], names: &[&str]) -> usize
    ensures { result ≡ entries_at config.now path.now (map (λ n. n.now) names.now) }
{
    let mut entries = 0usize;
    for name in names {
        let found = config
            .table(path, name)
            .map_or(0, |table| table.entry_count());
        entries = entries.saturating_add(found);
    }
    entries
}

/// These figures, and what a path has.
fn with_path(config: &Config, path: &[Name], figures: Figures) -> Result<Figures, AllocError>
    ensures { IfOk result (λ n. n ≡ record figures {
      rules = min (figures.rules + length (rules_at config.now path.now)) 18446744073709551615;
      tables = min (figures.tables + length (table_names config.now path.now)) 18446744073709551615;
      addresses = min (figures.addresses + entries_at config.now path.now (table_names config.now path.now))
          18446744073709551615;
    }) }
{
    let names = config.table_names(path)?;
    let rules = config.items(path).len();
    let addresses = entries_at(config, path, &names);
    Ok(Figures {
        rules: figures.rules.saturating_add(rules),
        tables: figures.tables.saturating_add(names.len()),
        addresses: figures.addresses.saturating_add(addresses),
        ..figures
    })
}

/// How many positions the log has left.
pub(crate) fn positions_left<R: Records>(node: &Node<R>) -> u32
    ensures { result ≡ positions - front (learned_by node.now) }
{
    POSITIONS - node.front()
}

impl Figures {
    /// A node in numbers.
    pub fn of<R: Records>(node: &Node<R>) -> Result<Figures, AllocError>
        ensures { IfOk result (AreFigures node.now) }
    {
        let config = node.config();
        let paths = config.paths()?;
        let m = node.membership();
        let mut figures = Figures {
            node: m.me(),
            members: m.members(),
            cluster: m.cluster(),
            front: node.front(),
            applied: node.applied(),
            round: node.round(),
            waiting: node.waiting(),
            left: positions_left(node),
            anchors: paths.len(),
            rules: 0,
            tables: 0,
            addresses: 0,
            has_failed: node.has_failed(),
        };
        for path in &paths {
            figures = with_path(config, path, figures)?;
        }
        Ok(figures)
    }
}
