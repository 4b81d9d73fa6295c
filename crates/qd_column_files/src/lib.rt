//! The column files of blocks on a volume: blocks put there and read back, with what a crash leaves of them at every
//! moment.
//!
//! Block b has the 2^10 files from 2^62 + b·2^10 on: 2·c is the main file of its column c, and 2·c + 1 the second
//! one, as `qd_column_format` spells them. A [`qd_base::Part`] says which rows and columns of a block are shown; what else
//! its files have is of no account.
#![tactic(auto)]

mod files;
mod growing;
pub mod laws;
mod putting;
mod reading;
mod removing;
mod rests;
mod times;

pub use files::{column_file, put_file};
pub use growing::{BlockTail, grow_block, read_tail};
pub use putting::put_block;
pub use reading::read_block;
pub use removing::remove_block;
pub use rests::{read_rest, read_times};
