//! What a table looks like.
ghost use Rattle.std.specs.Prelude.{◌≡◌};
ghost use Rattle.qd_base.specs.Database as database;

use crate::cell::Cell;
use crate::dedup::are_keys;
use crate::named::{Named, NamedList};
use crate::seq::{Duplicate, Memory, Seq};
use crate::txt::Txt;

/// The type of a column, by QuestDB's names.
#[derive(Clone, Copy, Debug, PartialEq, Eq)]
pub enum ColType {
    /// LONG: a signed 64-bit number or NULL.
    Long,
    /// BOOLEAN: true or false, never NULL.
    Bool,
    /// SYMBOL: a text or NULL, kept as a number in a dictionary.
    Symbol,
    /// VARCHAR: a text or NULL.
    Varchar,
    /// TIMESTAMP: microseconds since 1970-01-01T00:00Z, or NULL.
    Time,
}

impl ColType {
    /// Gives what a row holds in a column of this type that it lacks: false in a BOOLEAN column, else NULL.
    pub fn missing(self) -> Cell
        ensures cell { result ≡ database.missing self }
    {
        match self {
            ColType::Bool => Cell::Bool(false),
            _ => Cell::Null,
        }
    }
}

/// A column: its name and its type.
#[derive(Debug, Drop)]
pub struct Col {
    /// 1 to 127 bytes, as `column_name_ok` says.
    pub name: Txt,
    /// The type of its cells.
    pub kind: ColType,
}

impl Duplicate for Col {
    fn copy(&self) -> Result<Col, Memory> {
        Ok(Col {
            name: self.name.copy()?,
            kind: self.kind,
        })
    }
}

impl Named for Col {
    ghost name_of = { λ col. col.name };

    fn name(&self) -> &[u8] {
        self.name.bytes()
    }
}

/// Columns, in order.
pub type ColList = NamedList<Col>;

/// Numbers of columns, counted from 0: the deduplication keys of a table.
pub type KeyList = Seq<u32>;

/// The stretch of time that one partition of a table covers (`PARTITION BY`).
#[derive(Clone, Copy, Debug, PartialEq, Eq)]
pub enum PartUnit {
    /// An hour of the day.
    Hour,
    /// A day of the calendar.
    Day,
    /// A month of the calendar.
    Month,
    /// A year of the calendar.
    Year,
}

/// A table without its rows.
#[derive(Debug, Drop)]
pub struct Schema {
    /// 1 to 127 bytes, as `table_name_ok` says.
    pub name: Txt,
    /// At most 256 columns with distinct names.
    pub cols: ColList,
    /// The position in `cols` of the designated timestamp, a TIMESTAMP column.
    pub time_col: u32,
    /// How the rows are partitioned by time.
    pub unit: PartUnit,
    /// The deduplication keys, the designated column among them. Empty: all rows are kept.
    pub keys: KeyList,
}

impl Schema {
    ghost use Rattle.std.specs.Prelude.{IsTrue, ◌↔◌};
    ghost use Rattle.qd_base.specs.Schemas.{column_at, AreKeys};

    /// Gives the position of the column of a name, where there is one. ASCII case is ignored. It costs time logarithmic
    /// in the number of columns, and takes no memory.
    pub fn find_column(&self, name: &[u8]) -> Option<usize>
        ensures position { result ≡ column_at self.now.cols name.now }
    {
        self.cols.find(name)
    }

    /// Says whether the table may have these deduplication keys: none, or distinct columns with the designated one among
    /// them. Each key is compared with those before it, behind no more of them than there are columns; no memory is taken.
    pub fn takes_keys(&self, keys: &[u32]) -> bool
        ensures keys { IsTrue result ↔ AreKeys self.now.cols self.now.time_col keys.now }
    {
        are_keys(&self.cols, self.time_col, keys)
    }
}

impl Named for Schema {
    ghost name_of = { λ schema. schema.name };

    fn name(&self) -> &[u8] {
        self.name.bytes()
    }
}

impl Duplicate for Schema {
    fn copy(&self) -> Result<Schema, Memory> {
        Ok(Schema {
            name: self.name.copy()?,
            cols: self.cols.copy()?,
            time_col: self.time_col,
            unit: self.unit,
            keys: self.keys.copy()?,
        })
    }
}
