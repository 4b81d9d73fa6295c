//! How the lines of a batch are gone over.
ghost use Rattle.std.specs.Prelude.{◌≡◌, ◌<◌, ◌≤◌, ◌∷◌, [], ℕ, List, Some, All, length, map, fold, IfOk, IfErr, OnOk, Ok};
ghost use Rattle.qd_base.specs.declared.limits.TheConstants.{MAX_BATCH_CELLS, MAX_COLUMNS};
ghost use Rattle.qd_base.specs.declared.schema.Schema.{Schema};
ghost use Rattle.qd_base.specs.declared.op.Op.{Op};
ghost use Rattle.qd_base.specs.declared.op.Entry.{Entry};
ghost use Rattle.qd_base.specs.Lawful.{AreSchemas, cells_of as cells_inserted};
ghost use Rattle.qd_ilp.specs.Whole.{IsReading};
ghost use Rattle.qd_lines.specs.Laws.{KeepLaws};
ghost use Rattle.qd_ilp.specs.Kept.{moment_in};
ghost use Rattle.qd_ilp.specs.Transaction as line;
ghost use Rattle.qd_ilp.specs.Transaction.{Work, joined, line_ops, stamp_column, work_in};
ghost use Rattle.qd_ilp.specs.Line.{Row, Gives};
ghost use Rattle.qd_lines.specs.Codes.{IsPlaceOf, KeepsTo, moment_at};
ghost use Rattle.qd_lines.specs.Drafts.{AreNamed, Draws, Usable};
ghost use Rattle.qd_lines.specs.Overlays.{Covers, spotted};
ghost use Rattle.qd_lines.specs.Walks.{Walks, IsDrawn, IsRowFault, HasNone, SaysOf, IsLineFault, opened, schema_made};
ghost use Rattle.qd_base.specs.declared.op.Op.TheVariants as op;
ghost use Rattle.qd_base.specs.Schemas.{schema_of, schemas_step};

use crate::cells::push_row;
use crate::changes::Changes;
use crate::codes::{Place, code_of};
use crate::draft::{Columns, Draft};
use crate::fault::{LineFault, RowFault};
use crate::overlay::Overlay;
use crate::sink::OpSink;
use qd_base::{
    Code, Col, ColList, ColType, Duplicate, Entry, KeyList, MAX_TIME, Memory, PartUnit, Schema,
    Schemas, Txt,
};
use qd_ilp::{Batch, RowView, When};
use std::alloc::Global;

/// The name of the designated timestamp of a table that lines make.
const TIMESTAMP: &[u8] = b"timestamp";

/// The lines so far: what they find and what they do to the tables.
#[derive(Drop)]
pub(crate) struct Walk<'a> {
    alloc: Global,
    /// The tables as the next line finds them.
    overlay: Overlay<'a>,
    /// How many cells are inserted so far.
    cells: u64,
    /// What the line does to the columns of its table.
    draft: Draft,
    /// The designated timestamp of a table that lines make, alone.
    stamp: ColList,
}

/// Makes the transaction of a batch over the tables that are there, or says which line is refused: the first that has a
/// code over the tables that the lines before it leave, with its least code; else the first that is outside the grammar.
/// Lines without a stamp take the time `now`, in microseconds.
///
/// It is `walk_batch` with a sink that keeps all, and costs what that does, and time and memory linear in the rows and
/// texts of the transaction.
pub fn entry_of(
    alloc: Global,
    schemas: &Schemas,
    batch: &Batch,
    now: u64,
) -> Result<Entry, LineFault>
    requires lawful { AreSchemas schemas.now }
    ensures entry { IfOk result (λ entry. SaysOf schemas.now now batch.now (Ok entry)) }
    ensures refused { IfErr result (λ fault. IsLineFault schemas.now now batch.now fault) }
    // The lines of a text of bytes make a transaction that is lawful over the tables.
    ensures lawful { IfOk result (λ entry. (text : List ℕ) → All (λ b. b < 256) text → IsReading text batch.now →
        KeepLaws schemas.now entry.ops × (cells_inserted entry ≤ MAX_BATCH_CELLS)) }
{
    let mut changes = Changes::new(alloc);
    walk_batch(alloc, schemas, batch, now, &mut changes)?;
    Ok(changes.finish()?)
}

/// Walks over the lines of a batch and gives a sink the changes of their transaction one by one, in its order, or says
/// which line is refused, as `entry_of` does. Cells are lent from the batch, and no rows are made. Where a line is refused,
/// the sink has taken the changes of the lines before it, and nothing need be said of it.
///
/// It costs time linear in the batch and, for each row, in the columns of its table. A line that isn't of the table of the
/// line before costs time logarithmic in the number of tables; what the sink does comes on top. A table's schema is copied
/// where a line changes it.
pub fn walk_batch<T: OpSink>(
    alloc: Global,
    schemas: &Schemas,
    batch: &Batch,
    now: u64,
    sink: &mut T,
) -> Result<(), LineFault>
    requires lawful { AreSchemas schemas.now }
    requires begins { T.taken sink.old [] }
    ensures taken { OnOk result ((entry : Entry) × SaysOf schemas.now now batch.now (Ok entry) × T.taken sink.new entry.ops) }
    ensures refused { IfErr result (λ fault. IsLineFault schemas.now now batch.now fault) }
    // The lines of a text of bytes make a transaction that is lawful over the tables.
    ensures lawful { OnOk result ((entry : Entry) → SaysOf schemas.now now batch.now (Ok entry) → (text : List ℕ) → All (λ b. b < 256) text → IsReading text batch.now →
        KeepLaws schemas.now entry.ops × (cells_inserted entry ≤ MAX_BATCH_CELLS)) }
{
    let mut walk = Walk::new(alloc, schemas)?;
    let lines = batch.lines();
    let mut left = lines;
    for i in 0..batch.rows() {
        let (blanks, row) = batch.row(i);
        left -= blanks;
        match walk.take(sink, &row, now) {
            Ok(()) => left -= 1,
            Err(RowFault::Code(code)) => {
                return Err(LineFault::Refused {
                    code,
                    line: lines - left + 1,
                });
            }
            Err(RowFault::Memory) => return Err(LineFault::Memory),
        }
    }
    match batch.faulty_line() {
        Some(line) => Err(LineFault::Refused {
            code: Code::LineSyntax,
            line,
        }),
        None => Ok(()),
    }
}

impl<'a> Walk<'a> {
    /// Begins before the first line.
    fn new(alloc: Global, schemas: &'a Schemas) -> Result<Walk<'a>, Memory>
        requires lawful { AreSchemas schemas.now }
        ensures walks { IfOk result (λ walk. Walks walk (line.start schemas.now)) }
    {
        let mut stamp = ColList::new(alloc);
        stamp.push(Col {
            name: Txt::from_bytes(alloc, TIMESTAMP)?,
            kind: ColType::Time,
        })?;
        Ok(Walk {
            alloc,
            overlay: Overlay::new(alloc, schemas),
            cells: 0,
            draft: Draft::new(alloc),
            stamp,
        })
    }

    /// Takes the next line, or refuses it. Where it is refused, or no memory is found, nothing need be said of the walk and
    /// of the sink.
    fn take<T: OpSink>(&mut self, sink: &mut T, row: &RowView<'_>, now: u64) -> Result<(), RowFault>
        requires walks { (work : Work) × Walks self.old work }
        ensures ok { (work : Work) → Walks self.old work → T.taken sink.old work.ops →
            OnOk result (HasNone now work row.now × Walks self.new (work_in now work (Gives row.now)) × T.taken sink.new (work_in now work (Gives row.now)).ops) }
        ensures err { (work : Work) → Walks self.old work → IfErr result (λ fault. IsRowFault now work row.now fault) }
    {
        let fresh = self.draw(sink, row, now)?;
        self.change(row, fresh)?;
        Ok(())
    }

    /// Gives the changes of the next line to the sink, and says whether it makes its table. Tables stay as they are.
    fn draw<T: OpSink>(
        &mut self,
        sink: &mut T,
        row: &RowView<'_>,
        now: u64,
    ) -> Result<bool, RowFault>
        requires walks { (work : Work) × Walks self.old work }
        ensures walks { (work : Work) → Walks self.old work → OnOk result (Walks self.new work) }
        ensures ok { (work : Work) → Walks self.old work → IfOk result (λ fresh. HasNone now work row.now × IsDrawn now work row.now self.new.draft fresh) }
        ensures taken { (work : Work) → Walks self.old work → T.taken sink.old work.ops → OnOk result (T.taken sink.new (work_in now work (Gives row.now)).ops) }
        ensures err { (work : Work) → Walks self.old work → IfErr result (λ fault. IsRowFault now work row.now fault) }
    {
        let moment = moment_of(row.stamp(), now);
        self.overlay.seek(row.table());
        let place = place_of(&self.overlay, &self.stamp, row.table());
        self.draft.draw(self.alloc, place.columns, row)?;
        if let Some(code) = code_of(place, row, &self.draft, moment, self.cells) {
            return Err(RowFault::Code(code));
        }
        let stamp = self.stamp.get(0);
        tell(
            self.alloc,
            sink,
            stamp,
            place,
            &self.draft,
            row,
            micros_of(moment),
        )?;
        Ok(place.fresh)
    }

    /// Makes the changes of a line that is drawn up to the tables.
    fn change(&mut self, row: &RowView<'_>, fresh: bool) -> Result<(), Memory>
        requires walks { (work : Work) × (now : ℕ) × Walks self.old work × IsDrawn now work row.now self.old.draft fresh }
        ensures walks { (work : Work) (now : ℕ) → Walks self.old work → HasNone now work row.now → IsDrawn now work row.now self.old.draft fresh →
            OnOk result (Walks self.new (work_in now work (Gives row.now))) }
    {
        let added = self.draft.added.as_slice();
        self.cells += self.draft.marks.len() as u64;
        if fresh {
            let schema = made(self.alloc, row.table(), added, self.stamp.get(0))?;
            return self.overlay.create(&schema);
        }
        if added.is_empty() {
            return Ok(());
        }
        let name = name_in(self.alloc, &self.overlay, row.table())?;
        widen(&mut self.overlay, name.bytes(), added)
    }
}

/// Gives the changes of a line without a code to a sink.
fn tell<T: OpSink>(
    alloc: Global,
    sink: &mut T,
    stamp: &Col,
    place: Place<'_>,
    draft: &Draft,
    row: &RowView<'_>,
    micros: u64,
) -> Result<(), Memory>
    requires usable { Usable place.columns }
    requires draws { Draws place.columns row.now.items draft.now }
    requires keeps { (cells : ℕ) × KeepsTo place draft.now cells }
    requires stamp { stamp.now ≡ stamp_column }
    ensures told { (schemas : List Schema) (now : ℕ) → IsPlaceOf schemas row.now place.entry → micros ≡ line.micros_of (line.moment_of now row.now.moment) →
        (ops : List Op) → T.taken sink.old ops → OnOk result (T.taken sink.new (fold joined ops (line_ops (schema_of schemas row.now.table) now row.now))) }
{
    open(alloc, sink, stamp, place, draft.added.as_slice())?;
    sink.begin_row(place.name)?;
    push_row(sink, place, draft, row, micros)?;
    sink.end_row()
}

/// Gives the changes of a line before its row to a sink: the table where the line makes it, else the columns that it adds.
fn open<T: OpSink>(
    alloc: Global,
    sink: &mut T,
    stamp: &Col,
    place: Place<'_>,
    added: &[Col],
) -> Result<(), Memory>
    requires few { length added.now ≤ MAX_COLUMNS }
    ensures opened { (ops : List Op) → T.taken sink.old ops → OnOk result (T.taken sink.new (opened place.entry.fresh place.entry.name.now added.now stamp.now ops)) }
{
    if place.fresh {
        let schema = made(alloc, place.name, added, stamp)?;
        return sink.create(&schema);
    }
    for col in added {
        sink.add_column(place.name, col)?;
    }
    Ok(())
}

/// Gives the moment of a row in microseconds since 1970, its stamp or else the given time; none where that is no timestamp.
fn moment_of(stamp: When, now: u64) -> Option<u64>
    ensures moment { moment_at result ≡ line.moment_of now (moment_in stamp) }
{
    match stamp {
        When::At(micros) => Some(micros),
        When::Outside => None,
        When::Missing if now <= MAX_TIME => Some(now),
        When::Missing => None,
    }
}

/// Gives a moment in microseconds since 1970; 0 for one that is no timestamp.
fn micros_of(moment: Option<u64>) -> u64
    ensures micros { result ≡ line.micros_of (moment_at moment) }
{
    match moment {
        Some(micros) => micros,
        None => 0,
    }
}

/// Finds what a line finds of its table, which was sought.
fn place_of<'p>(overlay: &'p Overlay<'_>, stamp: &'p ColList, table: &'p [u8]) -> Place<'p>
    requires stamp { stamp.now ≡ stamp_column ∷ [] }
    requires sought { (all : List Schema) → Covers overlay.now all → spotted overlay.now.own overlay.now.base.now overlay.now.recent ≡ schema_of all table.now }
    ensures place { (all : List Schema) (row : Row) → Covers overlay.now all → AreSchemas all → row.table ≡ table.now → IsPlaceOf all row result }
    ensures usable { (all : List Schema) → Covers overlay.now all → AreSchemas all → Usable result.columns }
    ensures named { (all : List Schema) → Covers overlay.now all → AreSchemas all → AreNamed result.columns }
{
    match overlay.sought() {
        Some(schema) => Place {
            columns: Columns {
                cols: &schema.cols,
                time: schema.time_col as usize,
            },
            name: schema.name.bytes(),
            fresh: false,
            tables: overlay.len(),
        },
        None => Place {
            columns: Columns {
                cols: stamp,
                time: 0,
            },
            name: table,
            fresh: true,
            tables: overlay.len(),
        },
    }
}

/// Makes the schema of a table that a line makes: its new columns, and the designated timestamp behind them; by day, without
/// keys.
fn made(alloc: Global, table: &[u8], added: &[Col], stamp: &Col) -> Result<Schema, Memory>
    requires few { length added.now ≤ MAX_COLUMNS }
    ensures schema { IfOk result (λ schema. schema ≡ schema_made table.now added.now stamp.now) }
{
    let mut cols = ColList::new(alloc);
    for col in added {
        cols.push(col.copy()?)?;
    }
    cols.push(stamp.copy()?)?;
    Ok(Schema {
        name: Txt::from_bytes(alloc, table)?,
        cols,
        time_col: added.len() as u32,
        unit: PartUnit::Day,
        keys: KeyList::new(alloc),
    })
}

/// Copies the name of the table of a name, as its schema spells it; without a table, the name itself.
fn name_in(alloc: Global, overlay: &Overlay<'_>, table: &[u8]) -> Result<Txt, Memory>
    ensures name { (all : List Schema) (s : Schema) → Covers overlay.now all → schema_of all table.now ≡ Some s → IfOk result (λ name. name ≡ s.name) }
{
    match overlay.find(table) {
        Some(schema) => schema.name.copy(),
        None => Txt::from_bytes(alloc, table),
    }
}

/// Adds columns behind the others of the table of a name.
fn widen(overlay: &mut Overlay<'_>, table: &[u8], added: &[Col]) -> Result<(), Memory>
    ensures overlay { (all : List Schema) → Covers overlay.old all → OnOk result (Covers overlay.new (fold schemas_step all (map (op.AddColumn table.now) added.now))) }
{
    for col in added {
        overlay.add_column(table, col)?;
    }
    Ok(())
}
