//! Taking a store, and giving it back.
ghost use Rattle.std.specs.Prelude.{◌≡◌, ◌≢◌, false, Err, IfOk, IfErr, Some, None};
ghost use Rattle.sqlite.specs.Held.{state};
ghost use Rattle.sqlite.specs.State.{HasCleanDisk};
ghost use Rattle.px_model.specs.World.{nothing_stored};
ghost use Rattle.px_store.specs.Tables.{no_schema};
ghost use Rattle.px_store.specs.Formats.{record_at};
ghost use Rattle.px_store.specs.Adopting.{IsVerdict, IsKnown, IsSame, Began, IsMade, IsBrought, LeavesOr};
ghost use Rattle.px_store.specs.Judging.{refusal, reopen_refusal, IsOwn};
ghost use Rattle.px_store.specs.View.{connection_of, connection_after, IsOpened};

use crate::adopt::bring;
use crate::ahead::Ahead;
use crate::calls::Identity;
use crate::fault::AdoptFault;
use crate::finding::refuse_lost;
use crate::formats::Format;
use crate::keeper::SqlRecords;
use crate::opening::read_again;
use px_records::Records;
use sqlite::{Alter, Connection};
use std::alloc::Global;

impl<S: Alter> SqlRecords<S> {
    /// The record in a store: of a store without tables the empty record, of one whose tables are those of format 1, 2
    /// or 3 the record of its rows, brought to format 3 in one transaction. What an older format lacks is 0, or nothing
    /// learned.
    ///
    /// A refusal gives the connection back. 73 means that the schema is none of these, or that the row for the whole
    /// node has another format, 72 that a row has what no node writes, or that this row is missing beside others, and
    /// 71 that the store is another node's, in this order. Such a store isn't written to. One without tables is never
    /// refused so.
    ///
    /// Whatever it returns, a stop while it runs leaves what a stop left before, or the store of format 3, whole: its
    /// row for the whole node, and the rows that there were, which the node may take again. An opening that finds rows
    /// of format 3 finds their tables too, and so the record, or answers 73.
    pub fn adopt(
        alloc: Global,
        mut conn: Connection<S>,
        identity: Identity,
    ) -> Result<SqlRecords<S>, (AdoptFault, Connection<S>)>
        ensures begins { IfOk result (λ r. ⟦<SqlRecords<S> as Records>⟧.failed r ≡ 0) }
        ensures members { IfOk result (λ r. ⟦<SqlRecords<S> as Records>⟧.members r ≡ identity.members) }
        ensures clean { IfOk result (λ r. HasCleanDisk (state S.Store (connection_of r)) →
            HasCleanDisk (state S.Store conn)) }
        ensures refused { IfErr result (λ e. HasCleanDisk (state S.Store e.1) → HasCleanDisk (state S.Store conn)) }
        ensures known { IfOk result (λ r. IsKnown (state S.Store conn).now.schema ×
            ((state S.Store conn).in_transaction ≡ false)) }
        ensures unknown { (IsKnown (state S.Store conn).now.schema → ⊥) → (state S.Store conn).in_transaction ≡ false →
            result ≡ Err (AdoptFault.StoreVersion, conn) }
        ensures as_it_was { IfErr result (λ e. HasCleanDisk (state S.Store e.1) →
            IsVerdict e.0 → IsSame (state S.Store conn) (state S.Store e.1)) }
        ensures empty { IfOk result (λ r. HasCleanDisk (state S.Store (connection_of r)) →
            (state S.Store conn).now.schema ≡ no_schema → (state S.Store conn).in_transaction ≡ false →
            IsOpened S.Store r nothing_stored) }
        ensures rows { IfOk result (λ r. HasCleanDisk (state S.Store (connection_of r)) → (f : Format) →
            Began f (state S.Store conn) → IsOpened S.Store r (record_at f (state S.Store conn).now.trees)) }
        ensures adopted { IfOk result (λ r. HasCleanDisk (state S.Store (connection_of r)) → (f : Format) →
            Began f (state S.Store conn) → refusal f identity (state S.Store conn).now.trees ≡ None) }
        ensures judged { IfErr result (λ e. HasCleanDisk (state S.Store e.1) → (f : Format) →
            Began f (state S.Store conn) →
            IsVerdict e.0 → refusal f identity (state S.Store conn).now.trees ≡ Some e.0) }
        ensures found { IfOk result (λ r. HasCleanDisk (state S.Store (connection_of r)) →
            IsOwn identity (state S.Store conn).now.trees → (state S.Store conn).now.schema ≢ no_schema →
            IsOpened S.Store r (record_at Format.Three (state S.Store conn).now.trees)) }
        ensures unfound { IfErr result (λ e. HasCleanDisk (state S.Store e.1) →
            IsOwn identity (state S.Store conn).now.trees → IsVerdict e.0 → e.0 ≡ AdoptFault.StoreVersion) }
        ensures stop_empty { HasCleanDisk (state S.Store (connection_after result)) →
            (state S.Store conn).now.schema ≡ no_schema → (state S.Store conn).in_transaction ≡ false →
            LeavesOr (IsMade identity) (state S.Store conn) (state S.Store (connection_after result)) }
        ensures stop { HasCleanDisk (state S.Store (connection_after result)) → (f : Format) →
            Began f (state S.Store conn) → LeavesOr (IsBrought f identity (state S.Store conn).now.trees)
            (state S.Store conn) (state S.Store (connection_after result)) }
        ensures never { IfErr result (λ e. (state S.Store conn).now.schema ≡ no_schema → IsVerdict e.0 → ⊥) }
    {
        if let Err(fault) = bring(&mut conn, identity) {
            return Err((fault, conn));
        }
        match read_again(&mut conn, identity) {
            Ok(meta) => Ok(SqlRecords {
                conn,
                identity,
                meta,
                failures: 0,
                ahead: Ahead::none(alloc),
                alloc,
            }),
            Err(fault) => Err((fault, conn)),
        }
    }

    /// The record in a store that isn't new: as [`adopt`](SqlRecords::adopt), but a store without tables is refused
    /// with 73, one without the row for the whole node with 72, and neither is written to. Such a store has lost what
    /// its node promised and accepted; or, without tables, a stop came before its first start had made them, and its
    /// node has promised nothing.
    pub fn reopen(
        alloc: Global,
        mut conn: Connection<S>,
        identity: Identity,
    ) -> Result<SqlRecords<S>, (AdoptFault, Connection<S>)>
        ensures begins { IfOk result (λ r. ⟦<SqlRecords<S> as Records>⟧.failed r ≡ 0) }
        ensures members { IfOk result (λ r. ⟦<SqlRecords<S> as Records>⟧.members r ≡ identity.members) }
        ensures clean { IfOk result (λ r. HasCleanDisk (state S.Store (connection_of r)) →
            HasCleanDisk (state S.Store conn)) }
        ensures refused { IfErr result (λ e. HasCleanDisk (state S.Store e.1) → HasCleanDisk (state S.Store conn)) }
        ensures known { IfOk result (λ r. (f : Format) × Began f (state S.Store conn)) }
        ensures lost { (state S.Store conn).now.schema ≡ no_schema → (state S.Store conn).in_transaction ≡ false →
            result ≡ Err (AdoptFault.StoreVersion, conn) }
        ensures unknown { (IsKnown (state S.Store conn).now.schema → ⊥) → (state S.Store conn).in_transaction ≡ false →
            result ≡ Err (AdoptFault.StoreVersion, conn) }
        ensures as_it_was { IfErr result (λ e. HasCleanDisk (state S.Store e.1) →
            IsVerdict e.0 → IsSame (state S.Store conn) (state S.Store e.1)) }
        ensures rows { IfOk result (λ r. HasCleanDisk (state S.Store (connection_of r)) → (f : Format) →
            Began f (state S.Store conn) → IsOpened S.Store r (record_at f (state S.Store conn).now.trees)) }
        ensures adopted { IfOk result (λ r. HasCleanDisk (state S.Store (connection_of r)) → (f : Format) →
            Began f (state S.Store conn) → reopen_refusal f identity (state S.Store conn).now.trees ≡ None) }
        ensures judged { IfErr result (λ e. HasCleanDisk (state S.Store e.1) → (f : Format) →
            Began f (state S.Store conn) →
            IsVerdict e.0 → reopen_refusal f identity (state S.Store conn).now.trees ≡ Some e.0) }
        ensures found { IfOk result (λ r. HasCleanDisk (state S.Store (connection_of r)) →
            IsOwn identity (state S.Store conn).now.trees →
            IsOpened S.Store r (record_at Format.Three (state S.Store conn).now.trees)) }
        ensures unfound { IfErr result (λ e. HasCleanDisk (state S.Store e.1) →
            IsOwn identity (state S.Store conn).now.trees → IsVerdict e.0 → e.0 ≡ AdoptFault.StoreVersion) }
        ensures stop { HasCleanDisk (state S.Store (connection_after result)) → (f : Format) →
            Began f (state S.Store conn) → LeavesOr (IsBrought f identity (state S.Store conn).now.trees)
            (state S.Store conn) (state S.Store (connection_after result)) }
    {
        match refuse_lost(&mut conn) {
            Ok(_format) => SqlRecords::adopt(alloc, conn, identity),
            Err(fault) => Err((fault, conn)),
        }
    }
}
