//! Rules and rulesets as values, and the names that stand for numbers in them (pf.conf(5), protocols(5), services(5)).
//!
//! # Organization
//!
//! - [`Ruleset`]: skipped interfaces, tables with their [`TableEntry`]s, and an [`Item`] for each rule: a [`Rule`] with
//!   its [`Action`] and the [`Conditions`] under which it matches, or an [`AnchorRule`].
//! - [`Host`], [`PortTest`], [`FlagTest`], [`Interface`] and others: the parts of which rules are made.
//! - [`InterfaceName`], [`TableName`] and [`Name`], of an anchor within another: each has its form; [`Path`] of an
//!   anchor.
//! - [`parse_protocol`], [`parse_port`], [`parse_icmp_type`] and [`parse_decimal`] read numbers, or names that stand
//!   for them; [`parse_flags`] reads the letters of [`TcpFlags`].
//! - [`is_same_word`] compares keywords; [`is_reserved`] distinguishes reserved words from names;
//!   [`is_interface_name`], [`is_table_name`] and [`is_anchor_text`] test the forms of names.
//! - [`Profile`]: how a source is read; profile Two has `icmp-type` and reserves its word.
//!
//! Within: `text` has names as bytes of text.
//!
//! # Why
//!
//! - These values don't depend on how they are read or shown, so what depends on them is proved beside the grammar.
//! - **Keywords are compared byte for byte** (`is_same_word`, inlined), their lengths first. std's `==` on slices costs
//!   some hundred instructions for four equal bytes, and `starts_with` as much.
#![tactic(auto)]

mod flags;
mod interface_name;
mod item;
mod name;
mod names;
mod parts;
mod path;
mod profile;
mod rule;
mod ruleset;
mod table_name;
mod text;
mod words;

pub use flags::TcpFlags;
pub use interface_name::InterfaceName;
pub use item::{AnchorHeading, AnchorRule, Item, Target};
pub use name::Name;
pub use names::{
    is_anchor_text, is_interface_name, is_interface_text, is_table_name, is_table_text,
};
pub use parts::{Addresses, Direction, FlagTest, Host, Interface, Policy, PortTest};
pub use path::{PATH_MAX, Path};
pub use profile::Profile;
pub use rule::{Action, Conditions, Rule};
pub use ruleset::{Ruleset, TableDef, TableEntry};
pub use table_name::TableName;
pub use words::{
    is_reserved, is_same_word, parse_decimal, parse_flags, parse_icmp_type, parse_port,
    parse_protocol,
};
