//! A written rule's lists are expanded: which rules it gives (pf.conf(5), lists), and why one is refused.
//!
//! # Organization
//!
//! - [`judge_rule`]: one [`Rule`](pf_rules::Rule) for each combination of what a rule lists, or the lowest [`Cause`]
//!   that refuses it.
//! - [`judge_anchor`]: the same of an anchor rule.
//! - [`judge_block`]: the same of an anchor rule with a block.
//! - [`push_rules`], [`push_anchors`]: what these give, behind the rules of a ruleset so far.
//! - [`judge_table`]: the table that a table statement defines, or the lowest cause that refuses it. [`DefinedTables`]
//!   keeps those that a ruleset has defined so far.
//! - [`is_deep`]: whether too many lists are in one another.
//!
//! Within: `expand` makes the conditions of each combination, `counts` counts them first; `judge` and `judged` find the
//! lowest cause, for one rule and at every depth of blocks; `block_names` are the names of unnamed blocks,
//! `block_paths` and `numbers` whether a path of a block comes again.
//!
//! # Why
//!
//! - **Two families** are found where the rule would be made, before memory is taken for it.
//! - **Number of combinations.** The code's product stops at the greatest number of its type, which is far above
//!   the limit; a rule with more than 65,536 combinations is never expanded.
//! - **Empty lists.** The grammar makes no list without elements; the expansion of one has no rule, so it would be
//!   refused as no combination.
//! - **Newlines in lists** are blanks in the relation exactly as pf_tokens takes them out, since no more than 65
//!   open braces are distinguished.
//! - **An anchor rule is read like a block rule without its action**: its line shows flags only where something is
//!   checked, so the proofs that a shown block rule is read again serve it too. It has no option, so `icmp-type`,
//!   `keep state` and `no state` are refused with 12.
//! - **`*` in a target** ends it, behind a slash: `"*"` and `"x/*/y"` are refused with 12.
//! - **An item's block is shared** (`Rc`), so that a load puts it at its anchor without a copy. A recursive type
//!   can't keep a fact about itself, so that blocks have at most 1,024 items is a fact of `Ruleset`.
//! - **The causes of a block are asked of the rules as written**, so two blocks with one path are 16 also where the
//!   statement has too many rules. A rule with too many combinations adds none to its ruleset's count: it is
//!   refused for its width.
//! - **The first rule of an expanded block carries it**; the further ones name it, an unnamed one as `_k`.
//! - **`_k/*` is reserved**: only `_k` alone may be written.
//! - **At most 65,535 unnamed blocks of a ruleset are distinguished**; a statement has no more tokens.
//! - **A ruleset with blocks is read again where its lines fit a statement**: a block's expansion can have more
//!   than 65,536 tokens, and a ruleset with such a statement is refused.
//! - **`show_items` is stated over rules without blocks** (`AnyRule`), which is what a configuration keeps at a
//!   path.
//! - **A prefix of a list is looked up in those kept so far, in order** (`push_first`).
//! - **Whether a path of a block comes again is asked by numbers.** Each path in a rule has one, found in the logarithm
//!   of their number. Of the rules before only those blocks are walked to which a path in the rule leads. No path is
//!   copied, so 64 nested blocks of 8 names cost what their source does.
#![tactic(auto)]

mod anchors;
mod block_names;
mod block_paths;
mod blocks;
mod cause;
mod counts;
mod defined_tables;
mod expand;
mod judge;
mod judged;
mod numbers;
mod rules;
mod tables;

pub use anchors::judge_anchor;
pub use block_names::unnamed_in;
pub use blocks::{judge_block, push_anchors, push_rules};
pub use cause::Cause;
pub use defined_tables::DefinedTables;
pub use judge::is_deep;
pub use judged::Judged;
pub use rules::judge_rule;
pub use tables::judge_table;
