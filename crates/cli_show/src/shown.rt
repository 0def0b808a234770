//! What is to be shown of a record, and what is shown.

ghost use Rattle.std.specs.Prelude.{◌≡◌};

use pf_arguments::Action;
use std::alloc::AllocError;

/// What was made, unless it was out of memory.
pub(crate) type Made<T> = Result<T, AllocError>;

/// What is to be shown of a record.
#[derive(Clone, Copy)]
pub enum Wanted<'a> {
    /// What an action lists (pfctl(8), `-s` and `-T`).
    Listing(&'a Action),
    /// The verdicts for packets.
    Packets(&'a [&'a str]),
    /// Lines of the log: from a position on, and that many at most. Without a position the last ones, 20 if no count is
    /// given.
    Log {
        from: Option<u32>,
        count: Option<u32>,
    },
    /// As what nft(8) loads on a machine whose interfaces this file lists; none where it can't be read.
    Nft {
        interfaces: Option<&'a [u8]>,
    },
    /// The rulesets as pfctl(8) loads them.
    Texts,
    /// A script that gives the configuration.
    Script,
    /// How many positions are applied, and how many the log has left.
    Figures,
}

/// All that is to be written, and whether it is a refusal.
#[derive(Drop)]
pub struct Shown {
    /// The text.
    pub bytes: Vec<u8>,
    /// Whether it is a refusal.
    pub refused: bool,
}

impl Shown {
    /// A text, and whether it is a refusal.
    pub(crate) fn new(bytes: Vec<u8>, refused: bool) -> Shown
        ensures { result ≡ record { bytes = bytes; refused = refused } }
    {
        Shown { bytes, refused }
    }
}
