//! The record of a node, and two keepers of it.
//!
//! # Organization
//!
//! - [`Records`]: what a node requires of the keeper of its record over a restart, in `specs/Records.antt`'s terms.
//! - [`MemoryRecords`]: a record in memory, which never fails.
//! - [`FaultyRecords`]: any record, with one commit that fails, for tests of what a failure leaves.
//!
//! A keeper over SQLite is px_store's, which hands out these too. Here nothing links SQLite, so a node is proved and
//! tested without it.
#![tactic(auto)]

mod faulty;
mod memory;
mod records;

pub use faulty::{FaultyRecords, When};
pub use memory::MemoryRecords;
pub use records::{Records, StoreFault};
