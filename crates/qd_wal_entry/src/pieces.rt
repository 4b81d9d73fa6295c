//! What an entry is read as, piece by piece.
ghost use Rattle.std.specs.Prelude.{◌≡◌};
ghost use Rattle.qd_fields.specs.Layout.{byte_at, coded};
ghost use Rattle.qd_fields.specs.Reading.{Gives};
ghost use Rattle.qd_wal_entry.specs.Layout.{cell_of_code, op_of_code};

use qd_base::{Col, KeyList, Schema, Txt};
use qd_fields::{Stop, byte_at, damage};

/// A cell as it stands in an entry: its text is a position among the entry's texts.
#[derive(Clone, Copy, Debug, PartialEq, Eq)]
pub enum EntryCell {
    /// NULL.
    Null,
    /// A number.
    Long(i64),
    /// A truth value.
    Bool(bool),
    /// The text at this position, counted from 0.
    Text(u64),
    /// Microseconds since 1970-01-01T00:00Z.
    Time(u64),
}

/// A change without the rows that it inserts.
#[derive(Debug, Drop)]
pub enum OpHead {
    /// Makes a table.
    Create {
        /// The new table.
        schema: Schema,
    },
    /// Adds a column.
    AddColumn {
        /// The name of the table.
        table: Txt,
        /// The new column.
        col: Col,
    },
    /// Puts rows into a table, whose cells follow row by row.
    Insert {
        /// The name of the table.
        table: Txt,
        /// The number of cells of each row.
        columns: u16,
        /// The number of rows.
        rows: u32,
    },
    /// Sets the deduplication keys of a table.
    SetKeys {
        /// The name of the table.
        table: Txt,
        /// The new keys.
        keys: KeyList,
    },
}

/// What a cell is.
#[derive(Clone, Copy, Debug, PartialEq, Eq)]
pub(crate) enum CellTag {
    Null,
    Long,
    False,
    True,
    Text,
    Time,
}

/// What a change is.
#[derive(Clone, Copy, Debug, PartialEq, Eq)]
pub(crate) enum OpTag {
    Create,
    AddColumn,
    Insert,
    SetKeys,
}

/// What the cell at the front is.
pub(crate) fn cell_tag_at(bytes: &[u8]) -> Result<(CellTag, &[u8]), Stop>
    ensures read { Gives (λ x. (x.0, x.1.now)) result (coded cell_of_code bytes.now (byte_at bytes.now)) }
{
    let (code, rest) = byte_at(bytes)?;
    match cell_tag_of(code) {
        Some(tag) => Ok((tag, rest)),
        None => Err(damage(bytes)),
    }
}

/// What the change at the front is.
pub(crate) fn op_tag_at(bytes: &[u8]) -> Result<(OpTag, &[u8]), Stop>
    ensures read { Gives (λ x. (x.0, x.1.now)) result (coded op_of_code bytes.now (byte_at bytes.now)) }
{
    let (code, rest) = byte_at(bytes)?;
    match op_tag_of(code) {
        Some(tag) => Ok((tag, rest)),
        None => Err(damage(bytes)),
    }
}

fn cell_tag_of(code: u8) -> Option<CellTag>
    ensures tag { result ≡ cell_of_code code }
{
    match code {
        0 => Some(CellTag::Null),
        1 => Some(CellTag::Long),
        2 => Some(CellTag::False),
        3 => Some(CellTag::True),
        4 => Some(CellTag::Text),
        5 => Some(CellTag::Time),
        _ => None,
    }
}

fn op_tag_of(code: u8) -> Option<OpTag>
    ensures tag { result ≡ op_of_code code }
{
    match code {
        1 => Some(OpTag::Create),
        2 => Some(OpTag::AddColumn),
        3 => Some(OpTag::Insert),
        4 => Some(OpTag::SetKeys),
        _ => None,
    }
}
