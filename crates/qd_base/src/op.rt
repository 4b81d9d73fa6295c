//! What a transaction does.
ghost use Rattle.std.specs.Prelude.{◌≡◌};
ghost use Rattle.qd_base.specs.Schemas.{sets_keys};

use crate::cell::RowList;
use crate::schema::{Col, KeyList, Schema};
use crate::seq::{Duplicate, Memory, Seq};
use crate::txt::Txt;

/// One change of the database.
#[derive(Debug, Drop)]
pub enum Op {
    /// Makes a table that has no row.
    Create {
        /// The new table.
        schema: Schema,
    },
    /// Adds a column behind the others of a table. Rows that are there hold NULL in it, or false.
    AddColumn {
        /// The name of the table.
        table: Txt,
        /// The new column.
        col: Col,
    },
    /// Puts rows into a table, in order.
    Insert {
        /// The name of the table.
        table: Txt,
        /// Rows with one cell for each column.
        rows: RowList,
    },
    /// Sets the deduplication keys of a table, for rows that come after. Rows that are there stay as they are.
    SetKeys {
        /// The name of the table.
        table: Txt,
        /// The new keys, the designated column among them. Empty: all rows that come after are kept.
        keys: KeyList,
    },
}

impl Op {
    /// Says whether the change sets keys, in constant time.
    pub fn sets_keys(&self) -> bool
        ensures keys { result ≡ sets_keys self.now }
    {
        matches!(self, Op::SetKeys { .. })
    }
}

impl Duplicate for Op {
    fn copy(&self) -> Result<Op, Memory> {
        Ok(match self {
            Op::Create { schema } => Op::Create {
                schema: schema.copy()?,
            },
            Op::AddColumn { table, col } => Op::AddColumn {
                table: table.copy()?,
                col: col.copy()?,
            },
            Op::Insert { table, rows } => Op::Insert {
                table: table.copy()?,
                rows: rows.copy()?,
            },
            Op::SetKeys { table, keys } => Op::SetKeys {
                table: table.copy()?,
                keys: keys.copy()?,
            },
        })
    }
}

/// Changes, in order.
pub type OpList = Seq<Op>;

/// One transaction: all of its changes are made, or none.
#[derive(Debug, Drop)]
pub struct Entry {
    /// The changes, in order. They may touch several tables.
    pub ops: OpList,
}

impl Duplicate for Entry {
    fn copy(&self) -> Result<Entry, Memory> {
        Ok(Entry {
            ops: self.ops.copy()?,
        })
    }
}
