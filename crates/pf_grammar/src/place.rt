//! Where a source is loaded.

/// Where a source is loaded.
#[derive(Clone, Copy, PartialEq, Eq)]
pub enum Place {
    /// The main ruleset.
    Main,
    /// An anchor, whose text has no `set`.
    Anchor,
}
