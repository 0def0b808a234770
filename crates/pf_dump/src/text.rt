//! The text of a path.

ghost use Rattle.std.specs.Prelude.{◌≡◌, ◌++◌, IfOk, OnOk, map, option_map, string_bytes};
ghost use Rattle.std.specs.Option.{option_copied};
ghost use Rattle.pf_rules.specs.Seen.{heading_of, rule_of, target_of};
ghost use Rattle.pf_show.specs.Shown.{line, table_parts};
ghost use Rattle.pf_dump.specs.Written as text;
ghost use Rattle.pf_dump.specs.Written.{defined, table_text, table_text_if, tables_text, heading_in, block_name, is_on};
ghost use Rattle.pf_dump.specs.Written.{heading_text, rules_text};
ghost use Rattle.pf_dump.specs.Written.{path_text};
ghost use Rattle.pf_dump.specs.inner.Seen.{opens_of};

use crate::Made;
use crate::same_rules::same_names;
use pf_config::{Config, Table, joined};
use pf_rules::{AnchorHeading, Item, Name, TableEntry};
use pf_show::{SkipLine, TableLine, show_items};
use std::alloc::Global;
use std::slice;

/// How deep rulesets are in one another at most: a path has at most 8 names.
const DEPTH: u32 = 10;

/// What a rule opens: nothing, or a block that no command names, of an unnamed one with its name.
type Opens<'c> = Option<Option<&'c Name>>;

/// Puts the line that defines a table with these entries behind the text.
fn push_line<'a>(
    out: &mut String,
    name: &'a str,
    table: &Table,
    entries: Option<&'a [TableEntry]>,
) -> Made<()>
    ensures { OnOk result (string_bytes out.new ≡ string_bytes out.old
        ++ line (table_parts (defined name.entry.now table.now (option_map (λ v. v.now) entries.entry)))) }
{
    let line = TableLine {
        name,
        persist: table.persist(),
        is_const: table.is_const(),
        entries,
    };
    write!(out, "{line}")
}

/// Puts the line that defines a table behind the text, with its entries if they are listed.
fn push_table(out: &mut String, name: &str, table: &Table, is_listed: bool) -> Made<()>
    ensures { OnOk result (string_bytes out.new ≡ string_bytes out.old ++ table_text is_listed name.now table.now) }
{
    if is_listed {
        let entries = table.gathered(*out.allocator())?;
        return push_line(out, name, table, Some(&entries));
    }
    push_line(out, name, table, None)
}

/// Puts the lines that define the tables of a path behind the text.
fn push_tables(out: &mut String, config: &Config, path: &[Name], is_listed: bool) -> Made<()>
    ensures { OnOk result (string_bytes out.new ≡ string_bytes out.old ++ tables_text is_listed config.now path.now) }
{
    let names = config.table_names(path)?;
    for name in &names {
        if let Some(table) = config.table(path, name) {
            push_table(out, name, table, is_listed)?;
        }
    }
    Ok(())
}

/// The anchor rule that a rule is.
#[tactic(auto, using(crate::proofs::Items::anchor_rule))]
fn heading_in(item: &Item) -> Option<&AnchorHeading>
    ensures { option_map (λ h. heading_of h.now) result ≡ heading_in (rule_of item.now) }
{
    match item {
        Item::Filter(_) => None,
        Item::Anchor(anchor) => Some(&anchor.heading),
    }
}

/// The name, if the target is the unnamed block of this number.
fn block_name<'c>(
    alloc: Global,
    heading: &'c AnchorHeading,
    number: usize,
) -> Made<Option<&'c Name>>
    ensures { IfOk result (λ o. option_copied o ≡ block_name (target_of heading.now.target) number) }
{
    match heading.target.names.as_slice() {
        [own] if !heading.target.children => {
            let name = format!(in alloc; "_{number}")?;
            Ok((own.as_bytes() == name.as_bytes()).then(|| own))
        }
        _ => Ok(None),
    }
}

/// Whether a rule is an anchor rule on these names themselves.
fn is_on(item: &Item, names: &[Name]) -> bool
    ensures { result ≡ is_on names.now (heading_in (rule_of item.now)) }
{
    heading_in(item).is_some_and(|heading| {
        !heading.target.children && same_names(&heading.target.names, names)
    })
}

/// Whether one of the rules is an anchor rule on these names themselves.
fn has_target(items: &[Item], names: &[Name]) -> bool
    ensures { result ≡ text.has_target names.now (map rule_of items.now) }
{
    items.iter().any(|item| is_on(item, names))
}

/// What a rule opens, with the rules before it; the number is the next unnamed block's. On a hidden path a rule that is
/// the first on its anchor carries the anchor's rules.
fn opened_by<'c>(
    alloc: Global,
    config: &Config,
    path: &[Name],
    is_hidden: bool,
    before: &[Item],
    item: &'c Item,
    number: usize,
) -> Made<Opens<'c>>
    ensures { IfOk result (λ o. opens_of o ≡ text.opens config.now path.now is_hidden (map rule_of before.now) number
        (heading_in (rule_of item.now))) }
{
    let Some(heading) = heading_in(item) else {
        return Ok(None);
    };
    if let Some(name) = block_name(alloc, heading, number)? {
        return Ok(Some(Some(name)));
    }
    if !is_hidden || heading.target.children || has_target(before, &heading.target.names) {
        return Ok(None);
    }
    let below = joined(alloc, path, &heading.target.names)?;
    let has_rules = !config.items(&below).is_empty();
    Ok(has_rules.then(|| None))
}

/// Puts an anchor rule's line behind the text, without the name of an unnamed block.
fn push_heading(out: &mut String, unnamed: Option<&Name>, line: &str) -> Made<()>
    ensures { OnOk result (string_bytes out.new
        ≡ string_bytes out.old ++ heading_text (option_copied unnamed.entry) line.now) }
{
    let Some(name) = unnamed else {
        return out.push_str(line);
    };
    let text = name.as_str();
    let front = format!(in *out.allocator(); "anchor \"{text}\"")?;
    match line.strip_prefix(front.as_str()) {
        Some(rest) => write!(out, "anchor{rest}"),
        None => out.push_str(line),
    }
}

/// The path below which a rule's block is.
fn below(alloc: Global, path: &[Name], item: &Item) -> Made<Vec<Name>>
    ensures { IfOk result (λ v. v.items ≡ path.now ++ text.names_in (heading_in (rule_of item.now))) }
{
    match heading_in(item) {
        Some(heading) => joined(alloc, path, &heading.target.names),
        None => joined(alloc, path, &[]),
    }
}

/// Puts the rules of a path behind the text, with the blocks that no command names, down to a depth.
#[tactic(auto, using(crate::proofs::Rules::deeper, crate::proofs::Rules::line_one))]
fn push_rules(
    out: &mut String,
    config: &Config,
    path: &[Name],
    is_hidden: bool,
    depth: u32,
) -> Made<()>
    ensures { OnOk result (string_bytes out.new
        ≡ string_bytes out.old ++ rules_text depth is_hidden config.now path.now) }
{
    if depth == 0 {
        return Ok(());
    }
    let alloc = *out.allocator();
    let items = config.items(path);
    let mut number = 1usize;
    for at in 0..items.len() {
        let item = &items[at];
        let line = show_items(alloc, slice::from_ref(item))?;
        let opens = opened_by(alloc, config, path, is_hidden, &items[..at], item, number)?;
        number += usize::from(matches!(opens, Some(Some(_))));
        match opens {
            None => out.push_str(line.as_str())?,
            Some(unnamed) => {
                push_heading(out, unnamed, line.as_str().trim_end())?;
                out.push_str(" {\n")?;
                let inner = below(alloc, path, item)?;
                push_rules(out, config, &inner, true, depth - 1)?;
                out.push_str("}\n")?;
            }
        }
    }
    Ok(())
}

/// Puts the text of a path behind another, as `pfctl -a PATH -f -` reads it: the skipped interfaces of main, the tables
/// with their flags and, if they are listed, their entries, and the rules with the blocks that no command names.
pub(crate) fn push_text(
    out: &mut String,
    config: &Config,
    path: &[Name],
    is_listed: bool,
) -> Made<()>
    ensures { OnOk result (string_bytes out.new ≡ string_bytes out.old ++ path_text is_listed config.now path.now) }
{
    if path.is_empty() {
        write!(out, "{}", SkipLine(config.skip()))?;
    }
    push_tables(out, config, path, is_listed)?;
    push_rules(out, config, path, false, DEPTH)
}
