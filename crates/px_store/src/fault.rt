//! Why a store isn't opened.

ghost use Rattle.std.specs.Prelude.{◌≡◌};
ghost use Rattle.px_store.specs.Adopting.{code_of};

use thiserror::Error;

/// Why a store isn't taken. Where more than one holds, the first of 70, 73, 72, 71 is reported.
#[derive(Clone, Copy, Debug, PartialEq, Eq, Error)]
pub enum AdoptFault {
    /// Out of memory. The store shows the record that it showed.
    #[error("out of memory")]
    Memory,
    /// 70: the database refused a statement, or the connection is in a transaction. The store is as it was, or brought
    /// to format 3 whole.
    #[error("the store has failed")]
    Failed,
    /// 73: the format isn't 1, 2 or 3, or the tables aren't those of the format. The store is as it was.
    #[error("the store has an unknown format")]
    StoreVersion,
    /// 72: a row for the whole node is missing beside others, or has what no node writes. The store is as it was.
    #[error("the store holds a bad row")]
    BadStore,
    /// 71: the store belongs to another cluster, to a cluster of another size, or to another node. The store is as it
    /// was.
    #[error("the store belongs to another node")]
    WrongNode,
}

/// What taking a store gives.
pub(crate) type Adopt<T> = Result<T, AdoptFault>;

impl AdoptFault {
    /// The number of the refusal, none when out of memory.
    pub fn code(&self) -> Option<u8>
        ensures { result ≡ code_of self.now }
    {
        match self {
            AdoptFault::Memory => None,
            AdoptFault::Failed => Some(70),
            AdoptFault::StoreVersion => Some(73),
            AdoptFault::BadStore => Some(72),
            AdoptFault::WrongNode => Some(71),
        }
    }
}
