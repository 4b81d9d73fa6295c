//! Batches and statements that are committed.
ghost use Rattle.qd_durable.specs.Moments.{Told};
ghost use Rattle.qd_io.specs.Ends.{Counts};
ghost use Rattle.qd_lines.specs.declared.fault.LineFault.TheVariants as lines;
ghost use Rattle.qd_lines.specs.Walks.{IsLineFault};
ghost use Rattle.qd_meaning.specs.Write.{write};
ghost use Rattle.qd_prepare.specs.Prepared.{IsRead, IsShort};
ghost use Rattle.qd_sql_ast.specs.Kinds.{IsWrite};
ghost use Rattle.qd_sequencer.specs.Faults.{CountsFault};
ghost use Rattle.qd_sequencer.specs.Sequences.{IsAsBefore, chosen};
ghost use Rattle.qd_base.specs.Lawful.{AreSchemas};
ghost use Rattle.qd_store.specs.Arriving.{IsBehind, IsPlaced, IsReady, SaysLines, SaysStmt};
ghost use Rattle.qd_store.specs.Calls.{Commits, Stands};
ghost use Rattle.qd_store.specs.Faults.{Causes, IsFullFor, IsSettled};
ghost use Rattle.std.specs.Prelude.{◌≡◌, ◌+◌, ◌<◌, ◌≤◌, ℕ, None, Err, length, IfErr, IfOk, IfSome, OnErr, OnOk};

use crate::book::Book;
use crate::fault::{of_lines, of_stmt};
use qd_base::Schemas;
use qd_ilp::Batch;
use qd_io::IoFault;
use qd_lines::LineFault;
use qd_prepare::{Prepared, prepare_lines, prepare_stmt};
use qd_sequencer::{CommitFault, Committed};
use qd_sql_ast::Stmt;
use qd_volume::Volume;
use std::alloc::Global;

/// What was made ready of a batch ahead, or else it is made ready now.
fn ready_lines(
    alloc: Global,
    schemas: &Schemas,
    batch: &Batch,
    now: u64,
    ahead: Option<Prepared>,
) -> Result<Prepared, LineFault>
    requires lawful { AreSchemas schemas.now }
    requires read { IsRead batch.now }
    requires ahead { IfSome ahead (IsReady schemas.now now batch.now) }
    ensures prepared { IfOk result (IsReady schemas.now now batch.now) }
    ensures refused { IfErr result (λ fault. IsLineFault schemas.now now batch.now fault) }
{
    match ahead {
        Some(prepared) => Ok(prepared),
        None => prepare_lines(alloc, schemas, batch, now),
    }
}

impl Book {
    /// Settles what a failed commit may have left: its transaction isn't there. A call that writes begins with it.
    pub(crate) fn settle<V: Volume>(&mut self, volume: &mut V) -> Result<(), IoFault>
        ensures limits { self.new.limits ≡ self.old.limits }
        ensures same { IsAsBefore self.old.sequence self.new.sequence }
        ensures versions { self.new.versions ≡ self.old.versions }
        ensures clean { OnOk result (self.new.sequence.pending ≡ None) }
        ensures told { Told (V.storage volume.old).disk (V.storage volume.new).disk (Stands self.old self.new) }
        ensures counted { Counts (V.storage volume.old).faults (V.storage volume.new).faults result }
    {
        self.versions.keeps_its_law();
        self.sequencer.repair(volume)
    }

    /// Commits the transaction of a batch.
    pub(crate) fn accept_lines<V: Volume>(
        &mut self,
        alloc: Global,
        volume: &mut V,
        writer: Option<u32>,
        batch: &Batch,
        now: u64,
        ahead: Option<Prepared>,
    ) -> Result<Committed, CommitFault>
        requires read { IsRead batch.now }
        requires ahead { IfSome ahead (IsReady self.old.sequence.schemas now batch.now) }
        ensures limits { self.new.limits ≡ self.old.limits }
        ensures count { IfOk result (λ done. done.n ≡ length self.new.sequence.refs) }
        ensures writer { IfOk result (λ done. done.writer ≡ (chosen self.old.sequence writer).wal) }
        ensures place { OnOk result (IsPlaced self.old.limits self.old.sequence self.new.sequence writer) }
        ensures stays { OnErr result (IsAsBefore self.old.sequence self.new.sequence) }
        ensures versions { self.new.versions ≡ self.old.versions }
        ensures said { OnOk result (IsBehind self.old.sequence.schemas self.new.sequence.schemas (SaysLines self.old.sequence.schemas now batch.now)) }
        ensures room { OnOk result (length self.old.sequence.refs < self.old.limits.max_txns) }
        ensures settled { IsSettled result self.new.sequence }
        ensures causes { IfErr result (Causes (λ code line. IsLineFault self.old.sequence.schemas now batch.now (lines.Refused code line)) (IsFullFor self.old (SaysLines self.old.sequence.schemas now batch.now))) }
        ensures told { Told (V.storage volume.old).disk (V.storage volume.new).disk (Commits result self.old self.new (SaysLines self.old.sequence.schemas now batch.now)) }
        ensures counted { CountsFault (V.storage volume.old).faults (V.storage volume.new).faults result }
    {
        self.settle(volume)?;
        match ready_lines(alloc, self.sequencer.schemas(), batch, now, ahead) {
            Ok(Prepared { bytes, schemas }) => self.commit(volume, writer, bytes.bytes(), schemas),
            Err(cause) => Err(of_lines(cause)),
        }
    }

    /// Commits the transaction of a statement that writes.
    pub(crate) fn accept_sql<V: Volume>(
        &mut self,
        alloc: Global,
        volume: &mut V,
        writer: Option<u32>,
        stmt: &Stmt,
    ) -> Result<Committed, CommitFault>
        requires short { IsShort stmt.now }
        requires writes { IsWrite stmt.now }
        ensures limits { self.new.limits ≡ self.old.limits }
        ensures count { IfOk result (λ done. done.n ≡ length self.new.sequence.refs) }
        ensures writer { IfOk result (λ done. done.writer ≡ (chosen self.old.sequence writer).wal) }
        ensures place { OnOk result (IsPlaced self.old.limits self.old.sequence self.new.sequence writer) }
        ensures stays { OnErr result (IsAsBefore self.old.sequence self.new.sequence) }
        ensures versions { self.new.versions ≡ self.old.versions }
        ensures said { OnOk result (IsBehind self.old.sequence.schemas self.new.sequence.schemas (SaysStmt self.old.sequence.schemas stmt.now)) }
        ensures room { OnOk result (length self.old.sequence.refs < self.old.limits.max_txns) }
        ensures settled { IsSettled result self.new.sequence }
        ensures causes { IfErr result (Causes (λ code place. write self.old.sequence.schemas stmt.now ≡ Err (record { code = code; place = place })) (IsFullFor self.old (SaysStmt self.old.sequence.schemas stmt.now))) }
        ensures told { Told (V.storage volume.old).disk (V.storage volume.new).disk (Commits result self.old self.new (SaysStmt self.old.sequence.schemas stmt.now)) }
        ensures counted { CountsFault (V.storage volume.old).faults (V.storage volume.new).faults result }
    {
        self.settle(volume)?;
        match prepare_stmt(alloc, self.sequencer.schemas(), stmt) {
            Ok(Prepared { bytes, schemas }) => self.commit(volume, writer, bytes.bytes(), schemas),
            Err(cause) => Err(of_stmt(cause)),
        }
    }
}
