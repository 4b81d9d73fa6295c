//! What is asked of a session, and what it answers.
use crate::cell::RowList;
use crate::schema::ColList;
use crate::seq::{Duplicate, Memory};
use crate::txt::Txt;

/// The result of a query: named columns, and rows with one cell for each.
#[derive(Debug, Drop)]
pub struct Table {
    /// The columns, in order.
    pub cols: ColList,
    /// The rows, in order.
    pub rows: RowList,
}

impl Duplicate for Table {
    fn copy(&self) -> Result<Table, Memory> {
        Ok(Table {
            cols: self.cols.copy()?,
            rows: self.rows.copy()?,
        })
    }
}

/// What a client asks.
#[derive(Debug, Drop)]
pub enum Request {
    /// A batch of line protocol, at most 16,777,216 bytes.
    Write(Txt),
    /// One statement, at most 65,536 bytes.
    Sql(Txt),
    /// Bring into the tables all that is sequenced now.
    Apply,
    /// End the session.
    End,
}

/// What a session answers.
#[derive(Debug, Drop)]
pub enum Reply {
    /// The write is transaction `n`, counted from 1.
    Done {
        /// The transaction's number.
        n: u64,
    },
    /// A query's rows over the first `n` transactions.
    Rows {
        /// The number of transactions.
        n: u64,
        /// The result.
        table: Table,
    },
    /// The first `n` transactions are applied.
    Applied {
        /// The number of transactions.
        n: u64,
    },
    /// A refusal that depends on no prefix. Nothing is changed.
    Refused {
        /// The code of the refusal.
        code: u8,
        /// Where: a line, an offset, or 0.
        place: u64,
    },
    /// A query refused over the first `n` transactions.
    QueryRefused {
        /// The number of transactions.
        n: u64,
        /// The code of the refusal.
        code: u8,
        /// Where: an offset in the statement.
        place: u64,
    },
    /// Stored bytes that break their layout were found.
    Damaged {
        /// The number of the file.
        file: u64,
        /// The offset of the first field that breaks it.
        at: u64,
    },
    /// The session ends as asked.
    Bye,
}

/// What a front gives next.
#[derive(Debug, Drop)]
pub enum Step {
    /// A request to answer.
    Ask(Request),
    /// Bytes to write as they are.
    Say(Txt),
    /// No whole request waits: feed it more, or finish.
    More,
    /// The input ended where a request ends.
    Clean,
    /// The bytes from this offset on are no request, however they go on, or the input ended inside one.
    Bad {
        /// The offset in the input.
        place: u64,
    },
}
