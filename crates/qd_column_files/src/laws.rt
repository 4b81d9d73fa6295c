//! The laws of the files of blocks, each of them the contract of a function that does nothing.
ghost use Rattle.qd_column_files.specs.Laws.{BlocksHaveFilesOfTheirOwn, FirstRowsAreHeld, OneBlockIsHeld, OtherFilesLeaveBlocks};

use qd_column_format::laws::{first_rows_are_spelled, one_column_is_spelled};

/// An image holds one block of a part, and no other.
pub fn one_block_is_held()
    ensures { OneBlockIsHeld }
{
    one_column_is_spelled();
}

/// Each file of a column of a block is a file of its own, and none that logs or other parts of a store have.
pub fn blocks_have_files_of_their_own()
    ensures { BlocksHaveFilesOfTheirOwn }
{}

/// A call that leaves the files of a block leaves the block, at every moment of it and behind it.
pub fn other_files_leave_blocks()
    ensures { OtherFilesLeaveBlocks }
{}

/// An image that holds a block holds its first rows.
pub fn first_rows_are_held()
    ensures { FirstRowsAreHeld }
{
    first_rows_are_spelled();
}
