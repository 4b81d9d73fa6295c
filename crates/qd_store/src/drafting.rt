//! Drafts: transactions read for the next version, and what their merge reads of its parts.
ghost use Rattle.qd_base.specs.declared.op.Entry.{Entry};
ghost use Rattle.qd_base.specs.declared.part.Part.{Part};
ghost use Rattle.qd_catalog.specs.declared.version.Version as shown;
ghost use Rattle.qd_catalog.specs.Versions.{current_n, version_at};
ghost use Rattle.qd_apply.specs.Olds.{all_late};
ghost use Rattle.qd_column.specs.Cells.{CellsOf};
ghost use Rattle.qd_column_files.specs.Reading.{IsBlockRead, IsFitColumn};
ghost use Rattle.qd_durable.specs.declared.fault.LogFault.TheVariants as damage;
ghost use Rattle.qd_durable.specs.Faults.{CountsVol};
ghost use Rattle.qd_manifest.specs.declared.shape.TableParts.{TableParts};
ghost use Rattle.qd_seq.specs.Layout.{AreInSegments};
ghost use Rattle.qd_store.specs.Damage.{IsDraftDamage, IsPartRead, IsThere};
ghost use Rattle.qd_store.specs.Drafting.{AreArrived, ArePartsRead, AreRead, AreSomeTaken, AreTaken, AreTimesRead, IsArrived, IsArrivedFrom, IsReadOf, IsRoundTaken, IsSomeRound, IsTaken};
ghost use Rattle.qd_store.specs.Drafts.{IsDraftOver, IsDraftedFrom, sets_keys_in};
ghost use Rattle.qd_store.specs.Grown.{rows_written, written_to};
ghost use Rattle.qd_store.specs.Stores.{IsStore};
ghost use Rattle.qd_txnfile.specs.Versions.{Version};
ghost use Rattle.qd_versions.specs.Reading.{IsPartAt};
ghost use Rattle.qd_volume.specs.Disk.{reads_of};
ghost use Rattle.std.specs.Prelude.{◌≡◌, ◌+◌, ◌^◌, ◌<◌, ◌≤◌, ℕ, List, Some, Err, length, map, IfOk, IfSome};

use crate::book::Book;
use qd_apply::{Draft as Arrivals, Late, OldPart, Plan, rows_are_few};
use qd_base::{Entry, Memory, Part, WalRef};
use qd_column::Column;
use qd_column_files::laws::one_block_is_held;
use qd_column_format::laws::one_column_is_spelled;
use qd_durable::LogFault;
use qd_symbols::SymbolMap;
use qd_volume::Volume;
use qd_wal::{one_entry_is_read, read_entry, segment_file};
use std::alloc::Global;
use std::marker::Model;

/// The transactions behind a version, planned to be merged into it, with what the merge reads of the parts that rows are merged
/// into: how many of each stay as they lie, and the rows behind. Its merge needs no store.
#[derive(Drop)]
pub struct Draft {
    pub(crate) plan: Plan,
    pub(crate) olds: Vec<OldPart>,
}

impl Model for Draft {
    ghost use Rattle.qd_store.specs.Drafts.{Drafted, IsSomeDraft};

    ghost Value = { Drafted };

    ghost view = { λ d. record { plan = d.plan; olds = d.olds.items } };

    ghost invariant = { λ d. IsSomeDraft (record { plan = d.plan; olds = d.olds.items }) };
}

impl Book {
    /// Drafts a round of the transactions behind the current version, up to a number: the first one, and those behind it before the
    /// next one that sets keys.
    pub(crate) fn draft<V: Volume>(
        &self,
        alloc: Global,
        volume: &mut V,
        upto: u64,
    ) -> Result<Draft, LogFault>
        requires more { (n : ℕ) → current_n self.now.versions.versions ≡ Some n → n < upto }
        requires few { upto ≤ length self.now.sequence.refs }
        ensures over { IfOk result (λ d. IsDraftOver self.now.versions.versions d) }
        ensures upto { IfOk result (λ d. (d.plan.base < d.plan.upto) × (d.plan.upto ≤ upto)) }
        ensures split { IfOk result (λ d. d.plan.split_rows ≡ self.now.limits.split_rows) }
        ensures told { IfSome (V.storage volume.old).disk (λ disk. (h : List Entry) (next : Version) → IsStore self.now h next disk → IsDraftedFrom result self.now h upto) }
        ensures damaged { IfSome (V.storage volume.old).disk (λ disk. (file at : ℕ) → result ≡ Err (damage.Damaged file at) → IsDraftDamage self.now upto (reads_of disk) file at) }
        ensures stays { (V.storage volume.new).disk ≡ (V.storage volume.old).disk }
        ensures counted { CountsVol (V.storage volume.old).faults (V.storage volume.new).faults result }
    {
        rows_are_few();
        one_block_is_held();
        one_column_is_spelled();
        self.versions.keeps_its_law();
        let arrived = self.arrived(alloc, volume, upto)?;
        let written = self.rows_written(alloc)?;
        let plan = arrived.plan(alloc, written, self.limits.split_rows)?;
        let olds = self.olds_of(alloc, volume, &plan)?;
        Ok(Draft { plan, olds })
    }

    /// Reads a round of the transactions behind the current version, up to a number.
    fn arrived<V: Volume>(
        &self,
        alloc: Global,
        volume: &mut V,
        upto: u64,
    ) -> Result<Arrivals, LogFault>
        requires more { (n : ℕ) → current_n self.now.versions.versions ≡ Some n → n < upto }
        requires few { upto ≤ length self.now.sequence.refs }
        ensures arrived { IfOk result (λ d. IsArrived self.now.versions.versions upto d) }
        ensures told { IfSome (V.storage volume.old).disk (λ disk. (h : List Entry) (next : Version) → IsStore self.now h next disk → IsArrivedFrom result self.now h upto) }
        ensures read { IfSome (V.storage volume.old).disk (λ disk. AreArrived result self.now upto (reads_of disk)) }
        ensures stays { (V.storage volume.new).disk ≡ (V.storage volume.old).disk }
        ensures counted { CountsVol (V.storage volume.old).faults (V.storage volume.new).faults result }
    {
        one_entry_is_read();
        self.versions.keeps_its_law();
        let row = self.versions.current();
        let n = self.versions.n_of(row).unwrap_or(0);
        let shape = self.versions.shape_of(row);
        let draft = Arrivals::begin(alloc, n, self.versions.next_block(), shape)?;
        let refs = &self.sequencer.refs()[n as usize..upto as usize];
        take_round(alloc, volume, refs, draft)
    }

    /// Gives how many rows the files of the blocks of the current version's parts hold.
    fn rows_written(&self, alloc: Global) -> Result<Vec<Vec<u64>>, Memory>
        ensures written { IfOk result (λ list. (x : shown.Version) → version_at self.now.versions.versions self.now.versions.versions.current ≡ Some x → map (λ rows. rows.items) list.items ≡ rows_written self.now.versions.versions x.shape) }
    {
        self.versions.keeps_its_law();
        let shape = self.versions.shape_of(self.versions.current());
        let mut list = Vec::with_capacity(alloc, shape.len())?;
        for table in shape.as_slice() {
            let rows = self.written_to(alloc, table.parts.as_slice())?;
            list.push(rows)?;
        }
        Ok(list)
    }

    /// Gives how many rows the files of the blocks of parts hold.
    fn written_to(&self, alloc: Global, parts: &[Part]) -> Result<Vec<u64>, Memory>
        ensures written { IfOk result (λ list. list.items ≡ written_to self.now.versions.versions parts.now) }
    {
        let mut list = Vec::with_capacity(alloc, parts.len())?;
        for part in parts {
            list.push(self.versions.written(part.block))?;
        }
        Ok(list)
    }

    /// Reads the parts that a plan's rows are merged into, in order: what of each stays as it lies, and the rows behind.
    fn olds_of<V: Volume>(
        &self,
        alloc: Global,
        volume: &mut V,
        plan: &Plan,
    ) -> Result<Vec<OldPart>, LogFault>
        requires of { (x : shown.Version) × (version_at self.now.versions.versions self.now.versions.versions.current ≡ Some x) × (plan.now.shape ≡ x.shape) }
        ensures read { IfOk result (λ list. AreRead plan.now.written plan.now.split_rows plan.now.shape plan.now.tables list.items) }
        ensures files { IfSome (V.storage volume.old).disk (λ disk. ArePartsRead result plan.now.split_rows (all_late 0 plan.now.written plan.now.split_rows plan.now.shape plan.now.tables) plan.now.shape (reads_of disk)) }
        ensures stays { (V.storage volume.new).disk ≡ (V.storage volume.old).disk }
        ensures counted { CountsVol (V.storage volume.old).faults (V.storage volume.new).faults result }
    {
        let mut olds = Vec::new(alloc);
        for late in plan.late() {
            let old = self.old_at(alloc, volume, plan, *late)?;
            olds.push(old)?;
        }
        Ok(olds)
    }

    /// Reads a part of the current version that a plan's rows are merged into: its designated times, by which it is known how
    /// many of its rows stay as they lie, and the rows behind.
    fn old_at<V: Volume>(
        &self,
        alloc: Global,
        volume: &mut V,
        plan: &Plan,
        late: Late,
    ) -> Result<OldPart, LogFault>
        requires there { (x : shown.Version) × (version_at self.now.versions.versions self.now.versions.versions.current ≡ Some x) × IsThere x.shape late }
        ensures read { (x : shown.Version) → version_at self.now.versions.versions self.now.versions.versions.current ≡ Some x → IfOk result (λ old. IsReadOf plan.now.split_rows x.shape late old) }
        ensures files { (x : shown.Version) → version_at self.now.versions.versions self.now.versions.versions.current ≡ Some x → IfSome (V.storage volume.old).disk (λ disk. IsPartRead plan.now.split_rows x.shape late result (reads_of disk)) }
        ensures stays { (V.storage volume.new).disk ≡ (V.storage volume.old).disk }
        ensures counted { CountsVol (V.storage volume.old).faults (V.storage volume.new).faults result }
    {
        self.versions.keeps_its_law();
        let row = self.versions.current();
        let (table, part) = (late.table, late.part);
        let column = self.times_at(alloc, volume, row, table, part)?;
        let stay = plan.stay(late, column.times());
        let skip = stay.rows(column.len() as u64);
        let rest = self
            .versions
            .read_rest(alloc, volume, row, table, part, &column, skip)?;
        Ok(OldPart { stay, rest })
    }

    /// Reads the designated times of a part of a live version. Where they are damaged, the whole block is read, so that the
    /// answer is the first damage of that.
    fn times_at<V: Volume>(
        &self,
        alloc: Global,
        volume: &mut V,
        row: u8,
        table: usize,
        i: usize,
    ) -> Result<Column<SymbolMap>, LogFault>
        requires there { (t : TableParts) × (p : Part) × IsPartAt self.now.versions.versions row table i t p }
        ensures fit { (t : TableParts) (p : Part) → IsPartAt self.now.versions.versions row table i t p → IfOk result (λ times. IsFitColumn t.schema p t.schema.time_col times) }
        ensures files { (t : TableParts) (p : Part) → IsPartAt self.now.versions.versions row table i t p → IfSome (V.storage volume.old).disk (λ disk. AreTimesRead result t.schema p (reads_of disk)) }
        ensures stays { (V.storage volume.new).disk ≡ (V.storage volume.old).disk }
        ensures counted { CountsVol (V.storage volume.old).faults (V.storage volume.new).faults result }
    {
        match self.versions.read_times(alloc, volume, row, table, i) {
            Ok(times) => Ok(times),
            Err(LogFault::Damaged { file: _, at: _ }) => {
                Err(self.damage_of(alloc, volume, row, table, i))
            }
            Err(cause) => Err(cause),
        }
    }

    /// Where the files of the block of a part of a live version are damaged; want of memory where they aren't.
    fn damage_of<V: Volume>(
        &self,
        alloc: Global,
        volume: &mut V,
        row: u8,
        table: usize,
        i: usize,
    ) -> LogFault
        requires there { (t : TableParts) × (p : Part) × IsPartAt self.now.versions.versions row table i t p }
        ensures files { (t : TableParts) (p : Part) → IsPartAt self.now.versions.versions row table i t p → IfSome (V.storage volume.old).disk (λ disk. IsBlockRead (Err result) t.schema p (reads_of disk)) }
        ensures stays { (V.storage volume.new).disk ≡ (V.storage volume.old).disk }
        ensures counted { CountsVol {T = CellsOf} (V.storage volume.old).faults (V.storage volume.new).faults (Err result) }
    {
        match self.versions.read_part(alloc, volume, row, table, i) {
            Ok(_) => LogFault::Memory,
            Err(cause) => cause,
        }
    }
}

/// Takes a round of the transactions at some places: the first one, and those behind it before the next one that sets keys. That one
/// is read here to know it, and read again by the next round.
fn take_round<V: Volume>(
    alloc: Global,
    volume: &mut V,
    refs: &[WalRef],
    draft: Arrivals,
) -> Result<Arrivals, LogFault>
    requires segments { AreInSegments refs.now }
    requires some { 0 < length refs.now }
    requires room { draft.upto + length refs.now < 2 ^ 64 }
    ensures taken { IfOk result (λ d. IsSomeRound (length refs.now) draft d) }
    ensures told { IfSome (V.storage volume.old).disk (λ disk. IsRoundTaken result refs.now draft (reads_of disk)) }
    ensures stays { (V.storage volume.new).disk ≡ (V.storage volume.old).disk }
    ensures counted { CountsVol (V.storage volume.old).faults (V.storage volume.new).faults result }
{
    let first = refs[0];
    let entry = read_entry(alloc, volume, first)?;
    let draft = take_entry(alloc, first, &entry, draft)?;
    take_before_keys(alloc, volume, &refs[1..], draft)
}

/// Takes the transactions at some places, one behind another, before the first one that sets keys.
fn take_before_keys<V: Volume>(
    alloc: Global,
    volume: &mut V,
    refs: &[WalRef],
    draft: Arrivals,
) -> Result<Arrivals, LogFault>
    requires segments { AreInSegments refs.now }
    requires room { draft.upto + length refs.now < 2 ^ 64 }
    ensures taken { IfOk result (λ d. AreSomeTaken (length refs.now) draft d) }
    ensures told { IfSome (V.storage volume.old).disk (λ disk. AreTaken result refs.now draft (reads_of disk)) }
    ensures stays { (V.storage volume.new).disk ≡ (V.storage volume.old).disk }
    ensures counted { CountsVol (V.storage volume.old).faults (V.storage volume.new).faults result }
{
    let mut draft = draft;
    for at in refs {
        let entry = read_entry(alloc, volume, *at)?;
        if sets_keys(&entry) {
            return Ok(draft);
        }
        draft = take_entry(alloc, *at, &entry, draft)?;
    }
    Ok(draft)
}

/// Says whether a transaction sets keys.
fn sets_keys(entry: &Entry) -> bool
    ensures keys { result ≡ sets_keys_in entry.now }
{
    entry.ops.as_slice().iter().any(|op| op.sets_keys())
}

/// Takes the transaction that was read at a place.
fn take_entry(
    alloc: Global,
    at: WalRef,
    entry: &Entry,
    draft: Arrivals,
) -> Result<Arrivals, LogFault>
    requires segment { at.segment < 2 ^ 24 }
    requires room { draft.upto + 1 < 2 ^ 64 }
    ensures taken { IsTaken result at draft entry.now }
{
    match draft.take(alloc, entry)? {
        Some(next) => Ok(next),
        None => Err(LogFault::Damaged {
            file: segment_file(at.wal, at.segment),
            at: at.start,
        }),
    }
}
