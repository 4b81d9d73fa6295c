//! What one line does to the columns of its table, and what is wrong with it.
ghost use Rattle.std.specs.Prelude.{◌≡◌, ◌+◌, ◌^◌, ◌<◌, ◌≤◌, ◌++◌, ◌∷◌, ◌||◌, false, [], List, Some, None, length, take, set, is_some, slice_index_or, OnOk, All, IsTrue, ◌↔◌, true};
ghost use Rattle.std.specs.Option.{option_or};
ghost use Rattle.qd_base.specs.Names.{IsColumnName};
ghost use Rattle.qd_base.specs.Schemas.{column_at};
ghost use Rattle.qd_base.specs.declared.schema.Col.{Col};
ghost use Rattle.qd_ilp.specs.Line.{Item};
ghost use Rattle.qd_ilp.specs.View.{item_of};
ghost use Rattle.qd_lines.specs.Drafts.{AreNamed, Draws, ValuesSeen, NamesSeen, Usable, clashes_in, time_name, column_made};

use crate::names::is_name;
use crate::values::{is_float, is_huge, is_long_text, kind_of, suits};
use qd_base::{Col, ColList, MAX_COLUMNS, Memory, Txt, column_name_ok};
use qd_ilp::{ItemView, RowView};
use std::alloc::Global;

/// The columns of a table, and which of them is the designated timestamp.
#[derive(Clone, Copy)]
pub(crate) struct Columns<'a> {
    pub(crate) cols: &'a ColList,
    pub(crate) time: usize,
}

/// What is wrong with some tags and fields of a line.
#[derive(Clone, Copy)]
pub(crate) struct Faults {
    /// A value is of no kind that a column takes.
    pub(crate) float: bool,
    /// An integer is out of range.
    pub(crate) huge: bool,
    /// A name is none that a column may have.
    pub(crate) name: bool,
    /// A value isn't of its column's type.
    pub(crate) clash: bool,
    /// A column is named twice, or the designated one is.
    pub(crate) twice: bool,
    /// A text is too long.
    pub(crate) long: bool,
}

/// What a line does to the columns of its table. Its vectors are used again for the next line.
#[derive(Drop)]
pub(crate) struct Draft {
    /// The columns that the line adds.
    pub(crate) added: ColList,
    /// For each column of the table, and then for each that is added: the first tag or field that names it.
    pub(crate) marks: Vec<Option<usize>>,
    /// What is wrong with the line.
    pub(crate) faults: Faults,
    /// Where the next tag or field probably finds its column.
    next: usize,
    /// Where the tag or field of the same position found its column in a line before.
    places: Vec<usize>,
}

impl Draft {
    /// Begins without vectors in use.
    pub(crate) fn new(alloc: Global) -> Draft {
        Draft {
            added: ColList::new(alloc),
            marks: Vec::new(alloc),
            faults: Faults::none(),
            next: 0,
            places: Vec::new(alloc),
        }
    }

    /// Goes over the tags and fields of a line. It costs time linear in them and in the columns of the table; and where they
    /// don't come in the order of the columns, or add columns, for each time logarithmic in the number of columns.
    pub(crate) fn draw(
        &mut self,
        alloc: Global,
        columns: Columns<'_>,
        row: &RowView<'_>,
    ) -> Result<(), Memory>
        requires usable { Usable columns }
        requires named { AreNamed columns }
        ensures draws { OnOk result (Draws columns.entry row.now.items self.new) }
    {
        self.begin(alloc, columns)?;
        for at in 0..row.len() {
            self.take(alloc, columns, row, at)?;
        }
        Ok(())
    }

    /// Begins with a line of a table.
    fn begin(&mut self, alloc: Global, columns: Columns<'_>) -> Result<(), Memory>
        requires usable { Usable columns }
        ensures draws { OnOk result (Draws columns.entry [] self.new) }
    {
        self.added = ColList::new(alloc);
        self.marks.clear();
        for _ in columns.cols.as_slice() {
            self.marks.push(None)?;
        }
        self.faults = Faults::none();
        self.next = 0;
        Ok(())
    }

    /// Goes over one more tag or field.
    fn take(
        &mut self,
        alloc: Global,
        columns: Columns<'_>,
        row: &RowView<'_>,
        at: usize,
    ) -> Result<(), Memory>
        requires usable { Usable columns }
        requires named { AreNamed columns }
        requires there { at < length row.now.items }
        requires draws { Draws columns (take at row.now.items) self.old }
        ensures draws { OnOk result (Draws columns.entry (take (at + 1) row.now.items) self.new) }
    {
        let item = row.item(at);
        let drawn = self.marks.len();
        let before = place_before(self.places.as_slice(), at);
        let Seat { place, fair } = seat_of(columns, &self.added, item.name, before, self.next);
        self.faults.note(item, fair, clashes(columns, place, item));
        if MAX_COLUMNS < drawn {
            return Ok(());
        }
        match place {
            Some(place) => {
                let met = meet(&mut self.marks, place, at);
                self.faults.twice |= met | (place == columns.time);
                self.next = place + 1;
                keep(&mut self.places, at, place)?;
            }
            None => add(alloc, &mut self.added, &mut self.marks, item, at)?,
        }
        Ok(())
    }
}

impl Faults {
    /// Nothing is wrong.
    fn none() -> Faults
        ensures values { ValuesSeen [] result }
        ensures names { NamesSeen [] result.name }
        ensures others { (result.clash ≡ false) × (result.twice ≡ false) }
    {
        Faults {
            float: false,
            huge: false,
            name: false,
            clash: false,
            twice: false,
            long: false,
        }
    }

    /// Notes one more tag or field.
    fn note(&mut self, item: ItemView<'_>, fair: bool, clashes: bool)
        requires fair { IsTrue fair ↔ IsColumnName item.name.now }
        ensures values { (items : List Item) → ValuesSeen items self.old → ValuesSeen (items ++ item_of item.entry ∷ []) self.new }
        ensures names { (items : List Item) → NamesSeen items self.old.name → NamesSeen (items ++ item_of item.entry ∷ []) self.new.name }
        ensures clash { self.new.clash ≡ (self.old.clash || clashes) }
        ensures twice { self.new.twice ≡ self.old.twice }
    {
        self.float |= is_float(item.value);
        self.huge |= is_huge(item.value);
        self.long |= is_long_text(item.value);
        self.name |= !fair;
        self.clash |= clashes;
    }
}

/// Where a tag or a field of a position found its column in a line before; 0 where none is known.
fn place_before(places: &[usize], at: usize) -> usize {
    match places.get(at) {
        Some(place) => *place,
        None => 0,
    }
}

/// Keeps where a tag or a field of a position found its column.
fn keep(places: &mut Vec<usize>, at: usize, place: usize) -> Result<(), Memory> {
    if at < places.len() {
        places[at] = place;
    } else {
        places.push(place)?;
    }
    Ok(())
}

/// What a tag or a field finds of its column.
#[derive(Clone, Copy)]
struct Seat {
    /// The place of the column among those of the table, and then those that are added.
    place: Option<usize>,
    /// Whether a column may have the name.
    fair: bool,
}

/// Finds the column of a name. Where it stands at the first of two probable places and is spelled so, as it mostly is,
/// this costs little more than a comparison.
fn seat_of(columns: Columns<'_>, added: &ColList, name: &[u8], before: usize, next: usize) -> Seat
    requires usable { Usable columns }
    requires named { AreNamed columns }
    requires few { length columns.cols.now + length added.now < 2 ^ 64 }
    ensures place { result.place ≡ column_at (columns.entry.cols.now ++ added.now) name.now }
    ensures fair { IsTrue result.fair ↔ IsColumnName name.now }
{
    if is_spelled(columns, before, name) {
        return Seat {
            place: Some(before),
            fair: true,
        };
    }
    Seat {
        place: place_of(columns, added, name, before, next),
        fair: column_name_ok(name),
    }
}

/// Says whether a column is there at a place and spelled so.
fn is_spelled(columns: Columns<'_>, place: usize, name: &[u8]) -> bool
    requires usable { Usable columns }
    requires named { AreNamed columns }
    ensures found { result ≡ true → column_at columns.entry.cols.now name.now ≡ Some place }
    ensures fair { result ≡ true → IsColumnName name.now }
{
    let cols = columns.cols;
    if place < cols.len() {
        return cols.get(place).name.bytes() == name;
    }
    false
}

/// Gives the place of the column of a name among those of a table, and then those that are added. It costs constant time
/// where that is one of two places, else time logarithmic in the number of columns.
fn place_of(
    columns: Columns<'_>,
    added: &ColList,
    name: &[u8],
    before: usize,
    next: usize,
) -> Option<usize>
    requires usable { Usable columns }
    requires few { length columns.cols.now + length added.now < 2 ^ 64 }
    ensures place { result ≡ column_at (columns.entry.cols.now ++ added.now) name.now }
{
    if is_at(columns, before, name) {
        return Some(before);
    }
    if is_at(columns, next, name) {
        return Some(next);
    }
    match columns.cols.find(name) {
        Some(place) => Some(place),
        None => match added.find(name) {
            Some(place) => Some(columns.cols.len() + place),
            None => None,
        },
    }
}

/// Says whether a column is there at a place and has a name.
fn is_at(columns: Columns<'_>, place: usize, name: &[u8]) -> bool
    requires usable { Usable columns }
    ensures found { result ≡ true → column_at columns.entry.cols.now name.now ≡ Some place }
{
    let cols = columns.cols;
    if place < cols.len() {
        return is_name(cols.get(place).name.bytes(), name);
    }
    false
}

/// Says whether the value of a tag or a field doesn't fit its column, which has this place among those of the table and
/// those that are added.
fn clashes(columns: Columns<'_>, place: Option<usize>, item: ItemView<'_>) -> bool
    requires usable { Usable columns }
    requires place { (added : List Col) × (place ≡ column_at (columns.cols.now ++ added) item.name.now) }
    ensures clashes { result ≡ clashes_in columns.entry.cols.now (time_name columns.entry) (item_of item.entry) }
{
    match place {
        Some(place) if place < columns.cols.len() => {
            place != columns.time && !suits(columns.cols.get(place).kind, item.value)
        }
        _ => false,
    }
}

/// Marks the column that a tag or a field names, and says whether it was marked before.
fn meet(marks: &mut Vec<Option<usize>>, place: usize, at: usize) -> bool
    requires { place < length marks.old.items }
    ensures marks { marks.new.items ≡ set marks.old.items place (option_or (slice_index_or marks.old.items place None) (Some at)) }
    ensures met { result ≡ is_some (slice_index_or marks.old.items place None) }
{
    match marks[place] {
        Some(_) => true,
        None => {
            marks[place] = Some(at);
            false
        }
    }
}

/// Adds the column of a tag or a field.
fn add(
    alloc: Global,
    added: &mut ColList,
    marks: &mut Vec<Option<usize>>,
    item: ItemView<'_>,
    at: usize,
) -> Result<(), Memory>
    ensures added { OnOk result (added.new ≡ added.old ++ column_made (item_of item.entry) ∷ []) }
    ensures marks { OnOk result (marks.new.items ≡ marks.old.items ++ Some at ∷ []) }
{
    let name = Txt::from_bytes(alloc, item.name)?;
    let kind = kind_of(item.value);
    added.push(Col { name, kind })?;
    marks.push(Some(at))?;
    Ok(())
}
