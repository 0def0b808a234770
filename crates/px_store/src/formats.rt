//! The formats of a store.
ghost use Rattle.std.specs.Prelude.{◌≡◌};
ghost use Rattle.px_store.specs.Formats.{number_of, has_table};

/// A format that a store may have. Each has the tables of the one before and one more.
#[derive(Clone, Copy)]
pub enum Format {
    /// The row for the whole node, and slots.
    One,
    /// A floor too.
    Two,
    /// Learned entries too.
    Three,
}

impl Format {
    /// The number in the row for the whole node.
    pub fn number(self) -> u64
        ensures { result ≡ number_of self }
    {
        match self {
            Format::One => 1,
            Format::Two => 2,
            Format::Three => 3,
        }
    }

    /// Whether it has this table, the first being 0.
    pub(crate) fn has_table(self, table: u64) -> bool
        ensures { result ≡ has_table table self }
    {
        table <= self.number()
    }
}
