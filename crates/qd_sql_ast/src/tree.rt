//! The trees of statements: one type for each rule of the grammar, one field for each part. Offsets are in bytes from
//! the text's start.
use crate::range::{Magnitude, StrideCount};
use qd_base::{ColType, PartUnit, Seq, TimeUnit, Txt};
use sqlite_items::{Boxed, Items};

/// A name, without quotes.
#[derive(Drop)]
pub struct Name {
    /// Its offset.
    pub at: u64,
    /// Its bytes, as they are written.
    pub text: Txt,
}

/// A number without a sign.
#[derive(Drop)]
pub struct Number {
    /// Its offset.
    pub at: u64,
    /// Its value, from 0 to 9223372036854775807.
    pub value: Magnitude,
}

/// A text, without quotes around it and with one quote for each two inside.
#[derive(Drop)]
pub struct Text {
    /// Its offset.
    pub at: u64,
    /// Its bytes.
    pub text: Txt,
}

/// A literal of a list: `["-"] Number | Text | "TRUE" | "FALSE" | "NULL"`.
#[derive(Drop)]
pub enum Lit {
    /// A number.
    Number(Number),
    /// A number with the offset of its minus.
    Minus(u64, Number),
    /// A text.
    Text(Text),
    /// TRUE, with its offset.
    True(u64),
    /// FALSE, with its offset.
    False(u64),
    /// NULL, with its offset.
    Null(u64),
}

/// A column of CREATE: `name kind`.
#[derive(Drop)]
pub struct ColumnDef {
    /// The column's name.
    pub name: Name,
    /// Its type.
    pub kind: ColType,
}

/// `UPSERT KEYS (name, ..)`, behind DEDUP.
#[derive(Drop)]
pub struct Dedup {
    /// The offset of KEYS.
    pub at: u64,
    /// The keys.
    pub keys: Seq<Name>,
}

/// `CREATE TABLE name (name kind, ..) TIMESTAMP (name) PARTITION BY unit [WAL] [dedup]`
#[derive(Drop)]
pub struct Create {
    /// The table.
    pub table: Name,
    /// Its columns, one or more.
    pub columns: Seq<ColumnDef>,
    /// The name in TIMESTAMP(..).
    pub time: Name,
    /// The partitions' unit.
    pub unit: PartUnit,
    /// The offset of WAL, where it stands.
    pub wal: Option<u64>,
    /// The deduplication keys.
    pub dedup: Option<Dedup>,
}

/// What ALTER TABLE changes of a table.
#[derive(Drop)]
pub enum Change {
    /// `ADD COLUMN name kind`
    AddColumn(ColumnDef),
    /// `DEDUP ENABLE UPSERT KEYS (name, ..)`
    EnableDedup(Dedup),
    /// `DEDUP DISABLE`
    DisableDedup,
}

/// `ALTER TABLE name change`
#[derive(Drop)]
pub struct Alter {
    /// The table.
    pub table: Name,
    /// What is changed of it.
    pub change: Change,
}

/// A row of INSERT: `(lit, ..)`.
#[derive(Drop)]
pub struct Tuple {
    /// The offset of its bracket.
    pub at: u64,
    /// The literals, one or more.
    pub lits: Seq<Lit>,
}

/// `INSERT INTO name [(name, ..)] VALUES tuple, ..`
#[derive(Drop)]
pub struct Insert {
    /// The table.
    pub table: Name,
    /// The columns, where they are listed.
    pub columns: Option<Seq<Name>>,
    /// The rows, one or more.
    pub tuples: Seq<Tuple>,
}

/// `name ["." name]`
#[derive(Drop)]
pub struct Column {
    /// The first name: of a source where there is a second one, else of the column.
    pub first: Name,
    /// The column's name behind a dot.
    pub second: Option<Name>,
}

/// `+` or `-`
#[derive(Clone, Copy)]
pub enum AddOp {
    /// `+`
    Plus,
    /// `-`
    Minus,
}

/// `*`, `/` or `%`
#[derive(Clone, Copy)]
pub enum MulOp {
    /// `*`
    Times,
    /// `/`
    Divide,
    /// `%`
    Remainder,
}

/// A comparison.
#[derive(Clone, Copy)]
pub enum Cmp {
    /// `=`
    Equal,
    /// `!=` or `<>`
    NotEqual,
    /// `<`
    Less,
    /// `<=`
    LessEqual,
    /// `>`
    Greater,
    /// `>=`
    GreaterEqual,
}

/// An expression: `conj {"OR" conj}`. Its value groups to the left.
#[cycle(tree)]
#[derive(Drop)]
pub struct Expr {
    /// The first part.
    pub first: Conj,
    /// The parts behind an OR.
    pub more: Items<OrConj>,
}

/// `"OR" conj`
#[cycle(tree)]
#[derive(Drop)]
pub struct OrConj {
    /// The offset of OR.
    pub at: u64,
    /// What stands behind it.
    pub conj: Conj,
}

/// `neg {"AND" neg}`
#[cycle(tree)]
#[derive(Drop)]
pub struct Conj {
    /// The first part.
    pub first: Neg,
    /// The parts behind an AND.
    pub more: Items<AndNeg>,
}

/// `"AND" neg`
#[cycle(tree)]
#[derive(Drop)]
pub struct AndNeg {
    /// The offset of AND.
    pub at: u64,
    /// What stands behind it.
    pub neg: Neg,
}

/// `"NOT" neg | test`: each NOT in front of a test.
#[cycle(tree)]
#[derive(Drop)]
pub struct Neg {
    /// The offsets of the NOTs, from left to right.
    pub nots: Seq<u64>,
    /// What they stand before.
    pub test: Test,
}

/// `plus [cmp plus | "IN" .. | "IS" ..]`
#[cycle(tree)]
#[derive(Drop)]
pub struct Test {
    /// What is tested.
    pub left: Plus,
    /// The test, where there is one.
    pub check: Check,
}

/// What a test asks of its left side.
#[cycle(tree)]
#[derive(Drop)]
pub enum Check {
    /// Nothing.
    Nothing,
    /// A comparison, its offset and its right side.
    Compare(Cmp, u64, Boxed<Plus>),
    /// `IN (lit, ..)` and the offset of IN.
    InList(u64, Seq<Lit>),
    /// `IN Text` and the offset of IN.
    InText(u64, Text),
    /// `IS NULL` and the offset of IS.
    IsNull(u64),
    /// `IS NOT NULL` and the offset of IS.
    IsNotNull(u64),
}

/// `term {("+"|"-") term}`
#[cycle(tree)]
#[derive(Drop)]
pub struct Plus {
    /// The first part.
    pub first: Term,
    /// The parts behind a plus or minus.
    pub more: Items<AddTerm>,
}

/// `("+"|"-") term`
#[cycle(tree)]
#[derive(Drop)]
pub struct AddTerm {
    /// The operator.
    pub op: AddOp,
    /// Its offset.
    pub at: u64,
    /// What stands behind it.
    pub term: Term,
}

/// `sign {("*"|"/"|"%") sign}`
#[cycle(tree)]
#[derive(Drop)]
pub struct Term {
    /// The first part.
    pub first: Signed,
    /// The parts behind an operator.
    pub more: Items<MulSigned>,
}

/// `("*"|"/"|"%") sign`
#[cycle(tree)]
#[derive(Drop)]
pub struct MulSigned {
    /// The operator.
    pub op: MulOp,
    /// Its offset.
    pub at: u64,
    /// What stands behind it.
    pub signed: Signed,
}

/// `"-" sign | prime`: each minus in front of a prime.
#[cycle(tree)]
#[derive(Drop)]
pub struct Signed {
    /// The offsets of the minuses, from left to right.
    pub minuses: Seq<u64>,
    /// What they stand before.
    pub prime: Prime,
}

/// `Number | Text | "TRUE" | "FALSE" | "NULL" | column | "(" expr ")"`
#[cycle(tree)]
#[derive(Drop)]
pub enum Prime {
    /// A number.
    Number(Number),
    /// A text.
    Text(Text),
    /// TRUE, with its offset.
    True(u64),
    /// FALSE, with its offset.
    False(u64),
    /// NULL, with its offset.
    Null(u64),
    /// A column.
    Column(Boxed<Column>),
    /// An expression in brackets.
    Bracket(Boxed<Expr>),
}

/// A function that makes one value of many rows.
#[derive(Clone, Copy)]
pub enum AggOf {
    /// `sum`
    Sum,
    /// `min`
    Min,
    /// `max`
    Max,
    /// `first`
    First,
    /// `last`
    Last,
}

/// `agg | expr`
#[derive(Drop)]
pub enum Shown {
    /// `count()` or `count(*)`, with the offset of its word.
    Count(u64),
    /// Another aggregate, with the offset of its word.
    Agg(AggOf, u64, Expr),
    /// An expression.
    Expr(Expr),
}

/// `(agg | expr) ["AS" name]`
#[derive(Drop)]
pub struct Item {
    /// What is shown.
    pub shown: Shown,
    /// Its name, where one is given.
    pub alias: Option<Name>,
}

/// `"*" | item {"," item}`
#[derive(Drop)]
pub enum Selected {
    /// `*`, with its offset.
    All(u64),
    /// Items, one or more.
    Items(Seq<Item>),
}

/// `name [["AS"] name]`
#[derive(Drop)]
pub struct Source {
    /// The table.
    pub table: Name,
    /// Its name in the statement, where one is given.
    pub alias: Option<Name>,
}

/// Which rows a join takes.
#[derive(Clone, Copy)]
pub enum JoinOf {
    /// ASOF: at most the left row's time.
    Asof,
    /// LT: below the left row's time.
    Lt,
}

/// `("ASOF"|"LT") "JOIN" source ["ON" "(" name {"," name} ")"]`
#[derive(Drop)]
pub struct Join {
    /// Which one.
    pub of: JoinOf,
    /// The offset of its first word.
    pub at: u64,
    /// The right side.
    pub right: Source,
    /// The keys, where they stand.
    pub on: Option<Seq<Name>>,
}

/// `"WHERE" expr`
#[derive(Drop)]
pub struct Filter {
    /// The offset of WHERE.
    pub at: u64,
    /// What each row is tested for.
    pub test: Expr,
}

/// `"LATEST" "ON" column "PARTITION" "BY" column {"," column}`
#[derive(Drop)]
pub struct Latest {
    /// The offset of LATEST.
    pub at: u64,
    /// The column behind ON.
    pub on: Column,
    /// The keys, one or more.
    pub keys: Seq<Column>,
}

/// A count and a unit, as in `15m`.
#[derive(Drop)]
pub struct StrideOf {
    /// Its offset.
    pub at: u64,
    /// The count, from 1 to 1,000,000.
    pub count: StrideCount,
    /// The unit.
    pub unit: TimeUnit,
}

/// `"NONE" | "NULL" | "PREV" | ["-"] Number`, each with its offset.
#[derive(Drop)]
pub enum FillWith {
    /// NONE.
    Nothing(u64),
    /// NULL.
    Null(u64),
    /// PREV.
    Prev(u64),
    /// A number.
    Number(Number),
    /// A number with the offset of its minus.
    Minus(u64, Number),
}

/// `"FILL" "(" fill {"," fill} ")"`
#[derive(Drop)]
pub struct Fills {
    /// The offset of FILL.
    pub at: u64,
    /// The fills, one or more.
    pub fills: Seq<FillWith>,
}

/// `"CALENDAR" ["WITH" "OFFSET" Text] | "FIRST" "OBSERVATION"`
#[derive(Drop)]
pub enum AlignTo {
    /// The calendar, from an offset where there is one.
    Calendar(Option<Text>),
    /// The first observation.
    First,
}

/// `"SAMPLE" "BY" Stride [fills] ["ALIGN" "TO" align]`
#[derive(Drop)]
pub struct Sampled {
    /// The offset of SAMPLE.
    pub at: u64,
    /// How long a bucket is.
    pub stride: StrideOf,
    /// What stands for buckets without rows.
    pub fills: Option<Fills>,
    /// Where buckets begin.
    pub align: Option<AlignTo>,
}

/// `name ["ASC"|"DESC"]`
#[derive(Drop)]
pub struct OrderKey {
    /// The output column.
    pub name: Name,
    /// Whether the greatest comes first.
    pub is_descending: bool,
}

/// `"LIMIT" ("-" Number | Number ["," Number])`
#[derive(Drop)]
pub enum Limit {
    /// The first rows.
    First(Number),
    /// The last rows, with the offset of the minus.
    Last(u64, Number),
    /// The rows after the first number, up to the second.
    Between(Number, Number),
}

/// A query. Its parts stand in the order in which they are written.
#[derive(Drop)]
pub struct Query {
    /// `"SELECT" items "FROM"`, where they stand; else all columns are shown.
    pub selected: Option<Selected>,
    /// The table.
    pub source: Source,
    /// The join.
    pub join: Option<Join>,
    /// WHERE.
    pub filter: Option<Filter>,
    /// LATEST ON.
    pub latest: Option<Latest>,
    /// SAMPLE BY.
    pub sampled: Option<Sampled>,
    /// The keys of ORDER BY, one or more.
    pub order: Option<Seq<OrderKey>>,
    /// LIMIT.
    pub limit: Option<Limit>,
}

/// A statement.
#[derive(Drop)]
pub enum Stmt {
    /// A query.
    Query(Query),
    /// `SHOW PARTITIONS FROM name`: the table's name and its offset.
    Show(Txt, u64),
    /// CREATE TABLE.
    Create(Create),
    /// INSERT INTO.
    Insert(Insert),
    /// ALTER TABLE.
    Alter(Alter),
}
