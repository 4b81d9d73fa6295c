//! What a version shows.
ghost use Rattle.std.specs.Prelude.{◌≡◌, List, ℕ};

use qd_base::{Duplicate, Memory, Named, NamedList, PartList, Schema};

/// How many blocks a transaction may take at most: the number of its rows at most.
pub const BLOCKS_PER_TRANSACTION: u64 = 4_194_304;

/// A table of a version: what it looks like, and where its rows lie.
#[derive(Debug, Drop)]
pub struct TableParts {
    /// The table without its rows.
    pub schema: Schema,
    /// Its parts, in order of time.
    pub parts: PartList,
}

impl Named for TableParts {
    ghost name_of = { λ table. table.schema.name };

    fn name(&self) -> &[u8] {
        self.schema.name.bytes()
    }
}

impl Duplicate for TableParts {
    fn copy(&self) -> Result<TableParts, Memory> {
        Ok(TableParts {
            schema: self.schema.copy()?,
            parts: self.parts.copy()?,
        })
    }
}

/// The tables of a version, in order of creation, found by name.
pub type Shape = NamedList<TableParts>;

/// What a manifest says of a version.
#[derive(Debug, Drop)]
pub struct Manifest {
    /// A number above those of all blocks so far.
    pub next_block: u64,
    /// The tables.
    pub shape: Shape,
}
