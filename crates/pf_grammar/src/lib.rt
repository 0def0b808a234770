//! Rulesets as source, and what they give (pf.conf(5), GRAMMAR).
//!
//! # Organization
//!
//! - [`parse`] reads a source for a [`Place`] in a [`Profile`]: its [`Ruleset`], or its first refused statement.
//! - [`Cause`], why a statement is refused.
//! - [`reading_again`]: what is shown of a ruleset is read as that ruleset.
//! - Of the layers below: [`show`] and [`show_items`] write a ruleset or its rules in one form; [`Rule`] and the types
//!   of its parts; [`reads_the_grammar`], a statement is read exactly as the grammar spells it.
//!
//! Within: `reading` goes from statement to statement, `gathered` has what those so far give, `fault` why a source is
//! refused.
//!
//! # Why
//!
//! - A change by a statement (`Change`) is a value that is made while the macros are borrowed and applied
//!   afterwards (`Gathered::add`): the parser borrows the macros that are before, so nothing can be added while it
//!   lives, and a refused statement changes nothing by its form.
//! - The parser's `finish` is called once a statement has been read, so that the tokens behind it aren't gone over
//!   again.
//! - **Both profiles are built in from the start**, with `icmp-type` in profile Two alone; `check` and `test` use
//!   Two.
//! - **A macro's tokens have no line of their own**: a refusal's line is that of the statement's first token as
//!   written, and a macro counts as one, also where its text is empty. A statement left without tokens is passed
//!   over.
//! - **A string with `$` or `#`** is refused with 11 in macro statements alone; elsewhere it is a bad name, 12.
//! - **A string that spells a reserved word** is refused as the name of an interface.
//! - **A range of ports may have names at its ends, in any order.** A token with a colon is a range only where it is
//!   the whole test; after an operator it is a port that is neither number nor name, 13.
//! - **Types of ICMP**: inside braces any word token is a type (a reserved one is then 19); outside braces a reserved
//!   word ends the statement's options, 12. A type gives the rule the family inet, also where it is no type.
//! - **14 isn't asked of a rule with more than 65,536 combinations**, where 18 holds.
//! - **Names of skipped interfaces** are kept as often as they are written.
//! - **A shown ruleset with more than 65,531 skipped names isn't read again**: its one `set skip` line has more than
//!   65,536 tokens and is refused. The law of the round trip excludes it by its premise; the form of the line leaves no
//!   other way. The same holds of a rule whose block is shown in more tokens than that, which a source of fewer can
//!   give: a list is shown as one rule for each of its elements.
//! - **Tokens for numbers and names** are read by pf_rules for rulesets and for packets alike, from tables
//!   that the definition and the code both have as lists.
//! - **The name of an interface is in its value**, 15 bytes and how many count: no memory is taken for it. A
//!   packet's text is read token by token, without a list of them.
//! - **A ruleset has at most 1,024 rules** as a fact of its type, so the place of a rule is a `u32` without a test.
#![tactic(auto)]

mod fault;
mod gathered;
mod laws;
mod place;
mod reading;

pub use fault::{ParseFault, Refusal};
pub use laws::reading_again;
pub use pf_addr::Family;
pub use pf_expansion::Cause;
pub use pf_rules::{
    Action, Addresses, AnchorHeading, AnchorRule, Conditions, Direction, FlagTest, Host, Interface,
    InterfaceName, Item, Name, Policy, PortTest, Profile, Rule, Ruleset, TableDef, TableEntry,
    TableName, Target, TcpFlags, is_interface_name, is_reserved, parse_decimal, parse_flags,
    parse_icmp_type, parse_port, parse_protocol,
};
pub use pf_show::{show, show_items};
pub use pf_statements::reads_the_grammar;
pub use place::Place;
pub use reading::parse;
