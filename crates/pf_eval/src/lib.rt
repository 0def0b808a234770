//! Packet records, and the verdict for them.
//!
//! # Organization
//!
//! - `Packet` and `parse_packet`: a packet as a record, and its text; `packets_as_spelled`: which strings spell one;
//!   `without_digits`: the name of which an interface is one.
//! - `verdict`: the verdict of a configuration; `verdict_flat`: that of one ruleset alone.
//! - `show_verdict`: a verdict as text; `verdict_for`: that for a packet's text.
//!
//! Within: `decide` makes the two walks of `walk` (of `flat` for one ruleset alone): one forwards, for a match that
//! ends the evaluation, one backwards, for the last match. `matching` tests a rule's conditions, `sieving` first the
//! few numbers of its sieve, with a packet's `key`; `scope` is where a rule is evaluated, `hit` a rule that matches,
//! `skipping` tests skipped interfaces. `reading` reads a packet's text by `cursor` and `word`, `fault` is why there is
//! none; `answer` has the verdict as a value.
//!
//! # Why
//!
//! - **A packet text has no blank at either end**; between its tokens there may be several spaces or tabs. Its ports
//!   have one to five digits and its types one to three, leading zeros allowed.
//! - **The packet grammar is a relation** too (`IsPacketText`); a law states that what is read is exactly what it
//!   spells.
//! - **Groups and interfaces of a packet** are plain tokens, none of which is a word reserved in profile One.
//! - **A packet's numbers are read without a look-up among the names of ports and protocols**, and an interface's
//!   name that ends with a digit but 6 without one among the reserved words. Keywords are compared in place, and only
//!   values are cut (`behind`, `first_word`); an octet is cut by its first four bytes (`cut_dot`, pf_addr).
#![tactic(auto)]

mod answer;
mod cursor;
mod decide;
mod fault;
mod flat;
mod hit;
mod key;
mod laws;
mod matching;
mod packet;
mod reading;
mod scope;
mod show;
mod sieving;
mod skipping;
mod walk;
mod word;

pub use answer::{Spot, Verdict};
pub use decide::{verdict, verdict_flat};
pub use fault::PacketFault;
pub use laws::packets_as_spelled;
pub use packet::{Packet, without_digits};
pub use reading::parse_packet;
pub use show::{show_verdict, verdict_for};
pub use word::words as words_between_blanks;
