//! The least code of a line.
ghost use Rattle.std.specs.Prelude.{◌≡◌, ◌-◌, ◌≤◌, ◌&&◌, ℕ, List, length, nat_le, nat_lt, true, false, IfNone, IsTrue, ◌↔◌};
ghost use Rattle.qd_base.specs.declared.limits.TheConstants.{MAX_BATCH_CELLS, MAX_COLUMNS, MAX_TABLES};
ghost use Rattle.qd_base.specs.declared.schema.Schema.{Schema};
ghost use Rattle.qd_base.specs.Names.{IsTableName};
ghost use Rattle.qd_ilp.specs.Line.{Row};
ghost use Rattle.qd_ilp.specs.Transaction.{moment_of};
ghost use Rattle.qd_lines.specs.Codes.{first_of, moment_at, Finds, IsCodeOf, IsPlaceOf, KeepsTo};
ghost use Rattle.qd_lines.specs.Drafts.{Draws};

use crate::draft::{Columns, Draft};
use qd_base::{Code, MAX_BATCH_CELLS, MAX_COLUMNS, MAX_TABLES, table_name_ok};
use qd_ilp::RowView;

/// What a line finds of its table.
#[derive(Clone, Copy)]
pub(crate) struct Place<'a> {
    /// The columns of the table, or the one of each table that lines make.
    pub(crate) columns: Columns<'a>,
    /// The name of the table, as its schema spells it; of one that the line makes, as the line does.
    pub(crate) name: &'a [u8],
    /// Whether the line makes the table.
    pub(crate) fresh: bool,
    /// The number of tables before the line.
    pub(crate) tables: usize,
}

/// Which codes a line has.
#[derive(Clone, Copy)]
pub(crate) struct Found {
    pub(crate) float: bool,
    pub(crate) huge: bool,
    pub(crate) name: bool,
    pub(crate) clash: bool,
    pub(crate) time: bool,
    pub(crate) columns: bool,
    pub(crate) tables: bool,
    pub(crate) twice: bool,
    pub(crate) long: bool,
    pub(crate) cells: bool,
}

/// Gives the least code of a line, where it has one. The lines before it insert so many cells.
pub(crate) fn code_of(
    place: Place<'_>,
    row: &RowView<'_>,
    draft: &Draft,
    moment: Option<u64>,
    cells: u64,
) -> Option<Code>
    requires few { cells ≤ MAX_BATCH_CELLS }
    requires draws { Draws place.columns row.now.items draft.now }
    ensures code { (schemas : List Schema) (now : ℕ) → IsPlaceOf schemas row.now place.entry → moment_at moment ≡ moment_of now row.now.moment →
        IsCodeOf schemas cells now row.now result }
    ensures keeps { IfNone result (KeepsTo place.entry draft.now cells) }
{
    look(place, row, draft, moment, cells).first()
}

/// Finds which codes a line has.
fn look(
    place: Place<'_>,
    row: &RowView<'_>,
    draft: &Draft,
    moment: Option<u64>,
    cells: u64,
) -> Found
    requires few { cells ≤ MAX_BATCH_CELLS }
    requires draws { Draws place.columns row.now.items draft.now }
    ensures found { (schemas : List Schema) (now : ℕ) → IsPlaceOf schemas row.now place.entry → moment_at moment ≡ moment_of now row.now.moment →
        Finds schemas cells now row.now result }
    ensures limits { (result.columns ≡ nat_lt MAX_COLUMNS (length draft.now.marks.items)) × (result.cells ≡ nat_lt (MAX_BATCH_CELLS - cells) (length draft.now.marks.items))
        × (result.tables ≡ (place.entry.fresh && nat_le MAX_TABLES place.entry.tables)) × (result.twice ≡ draft.now.faults.twice) }
{
    let columns = draft.marks.len();
    let fair = is_fair(place, row.table());
    Found {
        float: draft.faults.float,
        huge: draft.faults.huge,
        name: draft.faults.name | !fair,
        clash: draft.faults.clash,
        time: moment.is_none(),
        columns: MAX_COLUMNS < columns,
        tables: place.fresh & (MAX_TABLES <= place.tables),
        twice: draft.faults.twice,
        long: draft.faults.long,
        cells: MAX_BATCH_CELLS - cells < columns as u64,
    }
}

/// Says whether a table may have the name that a line has for it. It costs little more than nothing where the table is there
/// and spelled like this.
fn is_fair(place: Place<'_>, table: &[u8]) -> bool
    ensures fair { (schemas : List Schema) (row : Row) → IsPlaceOf schemas row place.entry → row.table ≡ table.now → IsTrue result ↔ IsTableName row.table }
{
    if is_spelled(place, table) {
        return true;
    }
    table_name_ok(table)
}

/// Says whether the table is there and spelled so.
fn is_spelled(place: Place<'_>, table: &[u8]) -> bool
    ensures there { result ≡ true → place.entry.fresh ≡ false }
    ensures named { result ≡ true → place.entry.name.now ≡ table.now }
{
    if place.fresh {
        return false;
    }
    place.name == table
}

impl Found {
    /// Gives the first code that is found, in the order of their numbers.
    fn first(self) -> Option<Code>
        ensures first { result ≡ first_of self }
    {
        if self.float {
            Some(Code::FloatField)
        } else if self.huge {
            Some(Code::NumberRange)
        } else if self.name {
            Some(Code::Name)
        } else if self.clash {
            Some(Code::TypeClash)
        } else if self.time {
            Some(Code::TimeRange)
        } else if self.columns {
            Some(Code::Columns)
        } else if self.tables {
            Some(Code::Tables)
        } else if self.twice {
            Some(Code::DuplicateColumn)
        } else if self.long {
            Some(Code::TextTooLong)
        } else if self.cells {
            Some(Code::TooManyCells)
        } else {
            None
        }
    }
}
