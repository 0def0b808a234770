//! Public calls of crates that take long to prove: each function has a clause of one call, and only makes that call. A
//! mutant of such a call is one of its wrapper: the wrapper proves only if the call promises the clause, and the clause
//! must refuse the mutant, which takes only as long as this crate. The modules are by what is called: `rulesets`,
//! `verdicts`, `configurations`, `members` (datagrams, records and labs), `nodes`, and `adopting` (stores).
#![tactic(auto)]

mod adopting;
mod configurations;
mod members;
mod nodes;
mod rulesets;
mod verdicts;

pub use adopting::adopt;
pub use configurations::{apply, flush_rules, holds};
pub use members::{commit, decode, front, read_top, receive, step};
pub use nodes::{applied, tick};
pub use rulesets::{parse, rules_of};
pub use verdicts::verdict;
