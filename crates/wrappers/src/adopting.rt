//! Opening a store.

ghost use Rattle.std.specs.Prelude.{IfOk};
ghost use Rattle.sqlite.specs.Held.{state};
ghost use Rattle.sqlite.specs.State.{HasCleanDisk};
ghost use Rattle.px_store.specs.Formats.{record_at};
ghost use Rattle.px_store.specs.Adopting.{Began};
ghost use Rattle.px_store.specs.View.{connection_of, IsOpened};

use px_store::{AdoptFault, Format, Identity, SqlRecords};
use sqlite::{Alter, Connection};
use std::alloc::Global;

/// [`SqlRecords::adopt`]: the record of a store of format 1, 2 or 3 is that of its rows.
pub fn adopt<S: Alter>(
    alloc: Global,
    conn: Connection<S>,
    identity: Identity,
) -> Result<SqlRecords<S>, (AdoptFault, Connection<S>)>
    ensures rows { IfOk result (λ r. HasCleanDisk (state S.Store (connection_of r)) → (f : Format) →
        Began f (state S.Store conn) → IsOpened S.Store r (record_at f (state S.Store conn).now.trees)) }
{
    SqlRecords::adopt(alloc, conn, identity)
}
