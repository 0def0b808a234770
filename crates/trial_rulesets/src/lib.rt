//! Tests of addresses, tokens and rulesets, of `check` and `test` beyond the rows of pfx, and of files of settings.
//! Rulesets at limits, reads and writes that fail, what the place and the profile decide, of rulesets and of loads as
//! entries.
//!
//! The tests are in a crate of their own, since a crate with tests is proved twice.
//!
//! Within: `addresses`, `tokens`, `profiles` and `large` are of rulesets, `effects` of loads, `leading_back` of what
//! isn't rendered for nftables, `settings` of files, `runs` and `endings` of the program; `refusing` fails a test.
#![tactic(auto)]

#[cfg(test)]
mod addresses;
#[cfg(test)]
mod effects;
#[cfg(test)]
mod endings;
#[cfg(test)]
mod large;
#[cfg(test)]
mod leading_back;
#[cfg(test)]
mod profiles;
#[cfg(test)]
mod refusing;
#[cfg(test)]
mod runs;
#[cfg(test)]
mod settings;
#[cfg(test)]
mod tokens;
