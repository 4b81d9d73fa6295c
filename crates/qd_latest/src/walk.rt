//! The walk from the last row of a set back, by chains.
ghost use Rattle.std.specs.Prelude.{◌≡◌, ◌+◌, ◌-◌, ◌<◌, ◌≤◌, ◌++◌, ◌∷◌, [], None, if◌then◌else◌, All, IfNone, IfOk, IfSome, OnOk, IsTrue, length, is_some};
ghost use Rattle.qd_base.specs.declared.limits.TheConstants.{MAX_TEXT_BYTES as most};
ghost use Rattle.qd_base.specs.Dictionary.{id_in, with_text};
ghost use Rattle.qd_base.specs.declared.schema.ColType.TheVariants as kind;
ghost use Rattle.qd_block.specs.Blocks.{column_in, IsWhole};
ghost use Rattle.qd_keys.specs.Symbols.{texts_at, IsSymbols};
ghost use Rattle.qd_latest.specs.Chains.{cells_of, texts_of, IsPart, LieInOneBlock};
ghost use Rattle.qd_latest.specs.Walks.{AreFirstMet, AreMet, AreOfTexts, Grows, HasWalked, HoldMet, KeepsTexts};
ghost use Rattle.qd_rows.specs.Sets.{block_at, IsPlaced};

use crate::linked::chains;
use crate::parts::{are_there, dictionary_of, last_part, symbols_of};
use qd_base::{ColType, Dictionary, Memory};
use qd_rows::{RowSet, Run};
use std::alloc::Global;

/// How many rows are linked together at most. It is small, so that few rows are linked in vain where all symbols stand
/// near the end, and large, so that a dictionary is gone over once for many rows.
const WINDOW: usize = 4_096;

/// How far the texts of a set's blocks are known to be met: all those of the blocks before one, and the first ones of that
/// block.
#[derive(Clone, Copy, Debug)]
struct Mark {
    block: usize,
    id: u64,
}

/// The rows at which the texts of a column of symbols stand last. There are none where more lists would be made than the
/// set has rows, as of short runs over large dictionaries.
///
/// It goes back from the last row, some thousand rows of a block at a time, until all texts of the blocks are met. It costs
/// some nanoseconds for each row that it comes to, and a look-up for each text of the blocks.
pub(crate) fn rows_of_texts<D: Dictionary>(
    alloc: Global,
    rows: &RowSet<D>,
    col: u32,
) -> Result<Option<Vec<usize>>, Memory>
    requires single { rows.now.right ≡ None }
    requires symbols { IsSymbols rows.now.left col }
    ensures { IfOk result (λ found. IfSome found (λ kept. KeepsTexts (cells_of rows.now col) kept.items)) }
{
    are_there(rows);
    let mut met = D::new(alloc)?;
    let mut kept = Vec::new(alloc);
    let mut mark = Mark { block: 0, id: 0 };
    let mut room = rows.len();
    let mut end = rows.len();
    while 0 < end {
        if room == 0 {
            return Ok(None);
        }
        let part = last_part(rows, end.saturating_sub(WINDOW), end);
        let lists = meet_part(alloc, &mut met, &mut kept, rows, part, end, col)?;
        room = room.saturating_sub(lists);
        end = next_end(rows, col, &met, &mut mark, part.before);
    }
    Ok(Some(kept))
}

/// Meets the rows of a part that ends where the walk has come to, and gives how many lists it made.
fn meet_part<D: Dictionary>(
    alloc: Global,
    met: &mut D,
    kept: &mut Vec<usize>,
    rows: &RowSet<D>,
    part: Run,
    to: usize,
    col: u32,
) -> Result<usize, Memory>
    requires single { rows.now.right ≡ None }
    requires part { IsPart rows.now part }
    requires ends { part.before + (part.to - part.from) ≡ to }
    requires symbols { IsSymbols rows.now.left col }
    requires walked { HasWalked (cells_of rows.now col) to (D.texts met.old) kept.old.items }
    ensures walked { OnOk result (HasWalked (cells_of rows.now col) part.before (D.texts met.new) kept.new.items) }
    ensures grows { OnOk result (Grows (D.texts met.old) (D.texts met.new)) }
{
    match symbols_of(rows, part, col as usize) {
        Some(column) => {
            let dictionary = dictionary_of(column);
            meet_chains(alloc, met, kept, rows, dictionary, part.before, to, col)?;
            Ok(dictionary.len() as usize)
        }
        None => Ok(0),
    }
}

/// Meets the rows of a block from one up to another: of each text that wasn't met, the front of its chain is kept.
fn meet_chains<D: Dictionary>(
    alloc: Global,
    met: &mut D,
    kept: &mut Vec<usize>,
    rows: &RowSet<D>,
    dictionary: &D,
    from: usize,
    to: usize,
    col: u32,
) -> Result<(), Memory>
    requires rows { LieInOneBlock rows.now from to col }
    requires texts { D.texts dictionary.now ≡ texts_of rows.now from col }
    requires short { All (λ t. length t ≤ most) (D.texts dictionary.now) }
    requires known { AreOfTexts (D.texts dictionary.now) (cells_of rows.now col) from to }
    requires walked { HasWalked (cells_of rows.now col) to (D.texts met.old) kept.old.items }
    ensures walked { OnOk result (HasWalked (cells_of rows.now col) from (D.texts met.new) kept.new.items) }
    ensures grows { OnOk result (Grows (D.texts met.old) (D.texts met.new)) }
{
    let links = chains(alloc, rows, from, to, col)?;
    for id in 0..dictionary.len() {
        match links.front(id as usize) {
            Some(node) => meet(met, kept, dictionary.text_of(id), from + node)?,
            None => {}
        }
    }
    Ok(())
}

/// Meets a text; where it wasn't met before, its row is kept.
fn meet<D: Dictionary>(
    met: &mut D,
    kept: &mut Vec<usize>,
    text: &[u8],
    row: usize,
) -> Result<(), Memory>
    requires short { length text.now ≤ most }
    ensures met { OnOk result (D.texts met.new ≡ with_text (D.texts met.old) text.now) }
    ensures kept { OnOk result (kept.new.items ≡ (if is_some (id_in (D.texts met.old) text.now) then kept.old.items else kept.old.items ++ row ∷ [])) }
{
    if met.id_of(text).is_none() {
        met.intern(text)?;
        kept.push(row)?;
    }
    Ok(())
}

/// Up to which row the walk has to go on: nothing is left where the texts of all blocks were met.
fn next_end<D: Dictionary>(
    rows: &RowSet<D>,
    col: u32,
    met: &D,
    mark: &mut Mark,
    end: usize,
) -> usize
    requires placed { All (IsPlaced rows.now) rows.now.places }
    requires symbols { IsSymbols rows.now.left col }
    requires some { end ≤ length rows.now.places }
    requires met { AreMet rows.now.blocks col (D.texts met.now) mark.old.block mark.old.id }
    ensures met { AreMet rows.now.blocks col (D.texts met.now) mark.new.block mark.new.id }
    ensures within { result ≤ end }
    ensures passed { HoldMet (cells_of rows.now col) result end (D.texts met.now) }
{
    if all_met(rows, col, met, mark) {
        0
    } else {
        end
    }
}

/// Whether all texts of a set's blocks are met. The mark is moved on as far as they are.
fn all_met<D: Dictionary>(rows: &RowSet<D>, col: u32, met: &D, mark: &mut Mark) -> bool
    requires { AreMet rows.now.blocks col (D.texts met.now) mark.old.block mark.old.id }
    ensures met { AreMet rows.now.blocks col (D.texts met.now) mark.new.block mark.new.id }
    ensures all { IsTrue result → length rows.now.blocks ≤ mark.new.block }
{
    while mark.block < rows.blocks() {
        if let Some(id) = unmet_of_block(rows, mark.block, col, met, mark.id) {
            mark.id = id;
            return false;
        }
        mark.block += 1;
        mark.id = 0;
    }
    true
}

/// The first text of a block, from an id on, that isn't met; none where all are, or where the block lacks the column.
fn unmet_of_block<D: Dictionary>(
    rows: &RowSet<D>,
    b: usize,
    col: u32,
    met: &D,
    from: u64,
) -> Option<u64>
    requires block { b < length rows.now.blocks }
    requires met { AreFirstMet (texts_at col (block_at rows.now.blocks b)) from (D.texts met.now) }
    ensures some { IfSome result (λ id. AreFirstMet (texts_at col (block_at rows.now.blocks b)) id (D.texts met.now)) }
    ensures none { IfNone result ((column_in (block_at rows.now.blocks b) col).kind ≡ kind.Symbol → HoldMet (column_in (block_at rows.now.blocks b) col).cells 0 (length (block_at rows.now.blocks b).rows) (D.texts met.now)) }
    ensures whole { IsWhole (block_at rows.now.blocks b) }
{
    let block = rows.block(b);
    block.is_whole();
    if block.cols() <= col {
        return None;
    }
    let column = block.column(col);
    match column.kind() {
        ColType::Symbol => unmet_of(dictionary_of(column), met, from),
        _ => None,
    }
}

/// The first text of a dictionary, from an id on, that isn't met; none where all are.
fn unmet_of<D: Dictionary>(dictionary: &D, met: &D, from: u64) -> Option<u64>
    requires { AreFirstMet (D.texts dictionary.now) from (D.texts met.now) }
    ensures some { IfSome result (λ id. AreFirstMet (D.texts dictionary.now) id (D.texts met.now)) }
    ensures none { IfNone result (AreFirstMet (D.texts dictionary.now) (length (D.texts dictionary.now)) (D.texts met.now)) }
{
    let mut id = from;
    while id < dictionary.len() {
        if met.id_of(dictionary.text_of(id)).is_none() {
            return Some(id);
        }
        id += 1;
    }
    None
}
