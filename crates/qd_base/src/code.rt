//! The codes of refusals.
ghost use Rattle.std.specs.Prelude.{◌≡◌};
ghost use Rattle.qd_base.specs.Codes.{number_of};

/// Why a request is refused.
///
/// The numbers are this project's own, and stand in the replies. Where a batch of lines or a statement could be refused
/// for several causes, the documents say which one is answered.
#[derive(Clone, Copy, Debug, PartialEq, Eq)]
pub enum Code {
    /// The bytes are no frame, or the input ends inside one.
    Frame,
    /// A line is outside the grammar of lines.
    LineSyntax,
    /// A bare value of a field is neither a truth word nor a whole number with its `i`.
    FloatField,
    /// A number is outside its range.
    NumberRange,
    /// A table or a column can't have this name.
    Name,
    /// A value isn't of its column's type.
    TypeClash,
    /// A line's time is outside the range of timestamps.
    TimeRange,
    /// The table would have too many columns.
    Columns,
    /// There would be too many tables.
    Tables,
    /// A column is named twice, or a line names the designated one.
    DuplicateColumn,
    /// A text is too long.
    TextTooLong,
    /// A batch has too many cells.
    TooManyCells,
    /// A text is no statement.
    SqlSyntax,
    /// No table has this name.
    UnknownTable,
    /// No column has this name.
    UnknownColumn,
    /// An expression's types don't fit.
    Types,
    /// The table that a statement makes is there.
    TableExists,
    /// The keys of a table aren't as keys may be.
    Keys,
    /// A sampled result would have too many rows.
    TooManyBuckets,
    /// A result would have too many bytes.
    ResultTooLarge,
    /// A text or a number is no time, or a row has none.
    TimeLiteral,
    /// A statement of SQL that is not built.
    NotBuilt,
    /// A column's name stands for two columns.
    Ambiguous,
    /// The clock failed for a batch that needs it.
    Clock,
    /// No session could be started for a connection.
    NoWorker,
    /// The history has as many transactions as it may have.
    Full,
    /// The volume failed.
    Volume,
    /// No row for a further version could be freed.
    NoRow,
    /// No memory was found.
    Memory,
}

impl Code {
    /// Gives the number that stands for the code in a reply.
    pub fn number(self) -> u8
        ensures number { result ≡ number_of self }
    {
        match self {
            Code::Frame => 1,
            Code::LineSyntax => 11,
            Code::FloatField => 12,
            Code::NumberRange => 13,
            Code::Name => 14,
            Code::TypeClash => 15,
            Code::TimeRange => 16,
            Code::Columns => 17,
            Code::Tables => 18,
            Code::DuplicateColumn => 19,
            Code::TextTooLong => 20,
            Code::TooManyCells => 21,
            Code::SqlSyntax => 31,
            Code::UnknownTable => 32,
            Code::UnknownColumn => 33,
            Code::Types => 34,
            Code::TableExists => 35,
            Code::Keys => 36,
            Code::TooManyBuckets => 37,
            Code::ResultTooLarge => 38,
            Code::TimeLiteral => 39,
            Code::NotBuilt => 40,
            Code::Ambiguous => 41,
            Code::Clock => 42,
            Code::NoWorker => 50,
            Code::Full => 51,
            Code::Volume => 52,
            Code::NoRow => 53,
            Code::Memory => 61,
        }
    }
}
