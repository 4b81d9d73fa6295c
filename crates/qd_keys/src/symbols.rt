//! Rows by the numbers of one SYMBOL key: a text is compared once for each block that has it, and rows by ids alone.
ghost use Rattle.std.specs.Prelude.{◌≡◌, ◌+◌, ◌<◌, ◌++◌, IfOk, OnOk, Some, length, map, slice_index_or};
ghost use Rattle.std.specs.List.{flat_map};
ghost use Rattle.qd_base.specs.declared.cell.Cell.TheVariants as cell;
ghost use Rattle.qd_base.specs.declared.schema.ColType.TheVariants as kind;
ghost use Rattle.qd_base.specs.Rows.{cell_at};
ghost use Rattle.qd_block.specs.Blocks.{kinds_in};
ghost use Rattle.qd_expr.specs.Passing.{row_in};
ghost use Rattle.qd_group.specs.Grouping.{AreGroups};
ghost use Rattle.qd_group.specs.Keys.{lent};
ghost use Rattle.qd_keys.specs.Keys.{same_cells, same_in, Tells};
ghost use Rattle.qd_keys.specs.Symbols.{is_symbol as symbolic, names_at, number_of, AreNumbersOf, AreStarts, IsSymbols};
ghost use Rattle.qd_rows.specs.Sets.{block_at, rows_in};

use crate::numbers::Numbers;
use qd_base::{ColType, Dictionary, Memory, NULL_ID};
use qd_group::{Groups, Key, numbered};
use qd_rows::RowSet;
use std::alloc::Global;

/// The texts of a column over several blocks, and which of them are equal.
#[derive(Drop)]
struct Names<'a> {
    texts: Vec<Key<'a>>,
    groups: Groups,
}

/// Tells the rows of a set, and behind them those of another, apart by one SYMBOL column of each.
///
/// It costs time linear in the rows, and n log n comparisons for the texts of the blocks' dictionaries. It takes 8 bytes a
/// row, and some 80 a text.
pub(crate) fn symbol_numbers<'a, D: Dictionary>(
    alloc: Global,
    first: &'a RowSet<D>,
    first_at: usize,
    second: &'a RowSet<D>,
    second_at: usize,
) -> Result<Numbers, Memory>
    requires first_symbols { IsSymbols first.now.left first_at }
    requires second_symbols { IsSymbols second.now.left second_at }
    ensures tell { IfOk result (λ n. Tells (same_cells (first_at, second_at) (rows_in first.now) (rows_in second.now)) (length first.now.places + length second.now.places) n.bound n.numbers.items) }
{
    let mut texts = Vec::new(alloc);
    let first_starts = add_names(alloc, &mut texts, first, first_at)?;
    let second_starts = add_names(alloc, &mut texts, second, second_at)?;
    let groups = numbered(alloc, texts.as_slice())?;
    let names = Names { texts, groups };
    let mut numbers = numbers_of(alloc, first, first_at, first_starts.as_slice(), &names)?;
    let more = numbers_of(alloc, second, second_at, second_starts.as_slice(), &names)?;
    numbers.extend_from_slice(more.as_slice())?;
    Ok(Numbers {
        numbers,
        bound: names.groups.firsts.len() + 1,
    })
}

/// Whether a column of a set's left side holds symbols, in constant time.
pub(crate) fn has_symbols<D: Dictionary>(rows: &RowSet<D>, at: usize) -> bool
    ensures { result ≡ symbolic (slice_index_or (kinds_in rows.now.left) at kind.Time) }
{
    let cols = rows.left_cols().as_slice();
    if at >= cols.len() {
        return false;
    }
    is_symbol(cols[at].kind)
}

/// Whether cells of a kind are symbols.
fn is_symbol(kind: ColType) -> bool
    ensures { result ≡ symbolic kind }
{
    match kind {
        ColType::Symbol => true,
        _ => false,
    }
}

/// Adds the texts of the dictionaries of a set's blocks to others, and gives where those of each block begin.
fn add_names<'a, D: Dictionary>(
    alloc: Global,
    texts: &mut Vec<Key<'a>>,
    rows: &'a RowSet<D>,
    at: usize,
) -> Result<Vec<usize>, Memory>
    ensures kept { OnOk result (map lent texts.new.items ≡ map lent texts.old.items ++ flat_map (names_at at) rows.now.blocks) }
    ensures starts { IfOk result (λ starts. AreStarts (length rows.now.blocks) rows.now.blocks at (map lent texts.new.items) starts.items) }
{
    let mut starts = Vec::with_capacity(alloc, rows.blocks())?;
    for b in 0..rows.blocks() {
        starts.push(texts.len())?;
        add_block(texts, rows, b, at)?;
    }
    Ok(starts)
}

/// Adds the texts of a block's dictionary to others; there are none where its column holds no symbols.
fn add_block<'a, D: Dictionary>(
    texts: &mut Vec<Key<'a>>,
    rows: &'a RowSet<D>,
    b: usize,
    at: usize,
) -> Result<(), Memory>
    requires { b < length rows.now.blocks }
    ensures kept { OnOk result (map lent texts.new.items ≡ map lent texts.old.items ++ names_at at (block_at rows.now.blocks b)) }
{
    let block = rows.block(b);
    if at >= block.cols() as usize {
        return Ok(());
    }
    let column = block.column(at as u32);
    if !is_symbol(column.kind()) {
        return Ok(());
    }
    add_texts(texts, column.dictionary())
}

/// Adds the texts of a dictionary to others.
fn add_texts<'a, D: Dictionary>(texts: &mut Vec<Key<'a>>, dictionary: &'a D) -> Result<(), Memory>
    ensures kept { OnOk result (map lent texts.new.items ≡ map lent texts.old.items ++ map (λ t. cell.Text t) (D.texts dictionary.now)) }
{
    for id in 0..dictionary.len() {
        texts.push(Key::Text(dictionary.text_of(id)))?;
    }
    Ok(())
}

/// The numbers of a set's rows, by the texts of their symbols.
fn numbers_of<D: Dictionary>(
    alloc: Global,
    rows: &RowSet<D>,
    at: usize,
    starts: &[usize],
    names: &Names<'_>,
) -> Result<Vec<usize>, Memory>
    requires symbols { IsSymbols rows.now.left at }
    requires starts { AreStarts (length rows.now.blocks) rows.now.blocks at (map lent names.now.texts.items) starts.now }
    requires told { AreGroups (same_in (map lent names.now.texts.items)) (length names.now.texts.items) names.now.groups.numbers.items names.now.groups.firsts.items }
    ensures numbers { IfOk result (λ v. AreNumbersOf (map lent names.now.texts.items) names.now.groups.firsts.items (map (λ r. cell_at r at) (rows_in rows.now)) v.items) }
{
    let mut numbers = Vec::with_capacity(alloc, rows.len())?;
    for i in 0..rows.len() {
        numbers.push(number_at(rows, i, at, starts, names))?;
    }
    Ok(numbers)
}

/// The number of a row, by the text of its symbol; NULL has the number behind all texts.
fn number_at<D: Dictionary>(
    rows: &RowSet<D>,
    i: usize,
    at: usize,
    starts: &[usize],
    names: &Names<'_>,
) -> usize
    requires row { i < length rows.now.places }
    requires symbols { IsSymbols rows.now.left at }
    requires starts { AreStarts (length rows.now.blocks) rows.now.blocks at (map lent names.now.texts.items) starts.now }
    requires told { AreGroups (same_in (map lent names.now.texts.items)) (length names.now.texts.items) names.now.groups.numbers.items names.now.groups.firsts.items }
    ensures number { number_of (map lent names.now.texts.items) names.now.groups.firsts.items (cell_at (row_in rows.now i) at) ≡ Some result }
{
    let (place, _) = rows.places(i);
    let block = rows.block(place.0);
    block.is_whole();
    if at >= block.cols() as usize {
        return names.groups.firsts.len();
    }
    let id = block.column(at as u32).symbols()[place.1 as usize];
    if id == NULL_ID {
        return names.groups.firsts.len();
    }
    names.groups.numbers[starts[place.0] + id as usize]
}
