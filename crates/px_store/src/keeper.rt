//! The keeper and what stays true of it.
ghost use Rattle.sqlite.specs.Held.{state};
ghost use Rattle.std.specs.Prelude.{◌≡◌};
ghost use Rattle.px_store.specs.inner.Ready.{IsReady, IsReady-prop, AreBounded, AreBounded-prop};
ghost use Rattle.px_store.specs.inner.Ready.{AreAhead, AreAhead-prop, IsOwned, IsOwned-prop};

use crate::ahead::Ahead;
use crate::calls::Identity;
use px_model::Meta;
use sqlite::{Alter, Connection};
use std::alloc::Global;

/// The record in a database.
#[derive(Drop)]
pub struct SqlRecords<S: Alter> {
    pub(crate) conn: Connection<S>,
    pub(crate) identity: Identity,
    pub(crate) meta: Meta,
    pub(crate) failures: u64,
    /// Rows of learned entries, for a reader that asks them in turn.
    pub(crate) ahead: Ahead,
    pub(crate) alloc: Global,
    ghost bounds: { AreBounded identity meta } by { AreBounded-prop identity meta },
    ghost ready: { IsReady failures identity meta (state S.Store conn) } by { IsReady-prop failures identity meta
        (state S.Store conn) },
    ghost ahead_is: { AreAhead failures ahead (state S.Store conn) } by { AreAhead-prop failures ahead
        (state S.Store conn) },
    // after a failure too
    ghost owned: { IsOwned identity (state S.Store conn) } by { IsOwned-prop identity (state S.Store conn) },
}

impl<S: Alter> SqlRecords<S> {
    ghost use Rattle.px_store.specs.View.{connection_of};

    /// Gives the connection back, to be closed or taken again. It allocates nothing, and may be called after a failure.
    pub fn release(self) -> Connection<S>
        ensures { result ≡ connection_of self }
    {
        self.conn
    }
}
