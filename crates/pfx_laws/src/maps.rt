//! A configuration is a map from paths: what its changes leave, and so what a log leaves.

ghost use Rattle.std.specs.Prelude.{◌≡◌, List, true};
ghost use Rattle.std.specs.List.{AllByRecursion};
ghost use Rattle.pf_rules.specs.Names.{Name};
ghost use Rattle.pf_rules.specs.declared.ruleset.TableEntry.{TableEntry};
ghost use Rattle.pf_config.specs.Changes.{add, replace, delete, flush_table, flush_rules, flush_tables, flush_all};
ghost use Rattle.pf_config.specs.Map.{Configuration, Path};
ghost use Rattle.pf_entry.specs.Entry.{Command, Entry, Fits, are_names, path_of};
ghost use Rattle.pf_command.specs.Effect.{after, after_command};
ghost use Rattle.pfx_laws.specs.Logs.{have_paths};
ghost use Rattle.pfx_laws.specs.Maps.{AnswersMap, IsMap, IsPath};
ghost use Rattle.pfx_laws.specs.Targets.{have_targets};

/// A change of one table, and each flush, leaves a map if there was one and the path is one that a path can be: 8
/// names at most, each an anchor's.
pub fn changes_keep_a_map()
    ensures add { (c : Configuration) (p : Path) (name : Name) (list : List TableEntry) → IsMap c → IsPath p →
        AnswersMap (add c p name list) }
    ensures replace { (c : Configuration) (p : Path) (name : Name) (list : List TableEntry) → IsMap c → IsPath p →
        AnswersMap (replace c p name list) }
    ensures delete { (c : Configuration) (p : Path) (name : Name) (list : List TableEntry) → IsMap c → IsPath p →
        AnswersMap (delete c p name list) }
    ensures flush_table { (c : Configuration) (p : Path) (name : Name) → IsMap c → IsPath p →
        AnswersMap (flush_table c p name) }
    ensures flush_rules { (c : Configuration) (p : Path) → IsMap c → IsPath p → IsMap (flush_rules c p) }
    ensures flush_tables { (c : Configuration) (p : Path) → IsMap c → IsPath p → IsMap (flush_tables c p) }
    ensures flush_all { (c : Configuration) (p : Path) → IsMap c → IsPath p → IsMap (flush_all c p) }
{}

/// A command at a path that commands may have leaves a map, if there was one: each path once, in byte order, with at
/// most 8 names, each an anchor's; no entry empty; at most 1,024 entries; at most 1,024 rules at a path, and the target
/// of an anchor rule has 1 to 8 names; each name of a table once, and in a table each prefix once, in order of family,
/// length and address.
pub fn commands_keep_a_map()
    ensures { (c : Configuration) (command : Command) → IsMap c → are_names (path_of command) ≡ true →
        IsMap (after_command c command) }
{}

/// So what a log leaves is a map, whatever its commands are.
pub fn logs_leave_maps()
    ensures { (entries : List Entry) → have_paths entries ≡ true → IsMap (after entries) }
{}

/// And each of its anchor rules names anchors, as the law on nine levels asks.
pub fn logs_have_targets()
    ensures { (entries : List Entry) → have_paths entries ≡ true → have_targets (after entries) ≡ true }
{}

/// Entries that have a spelling have such paths.
pub fn spelled_logs_have_paths()
    ensures { (entries : List Entry) → AllByRecursion Fits entries → have_paths entries ≡ true }
{}
