//! Tables as the lines of a batch find them.
ghost use Rattle.std.specs.Prelude.{◌≡◌, ◌<◌, ℕ, List, None, Some, length, option_map, slice_get, IfSome, IsNone, OnOk};
ghost use Rattle.std.specs.Option.{option_or};
ghost use Rattle.qd_base.specs.declared.limits.TheConstants.{MAX_TABLES};
ghost use Rattle.qd_base.specs.declared.op.Op.TheVariants as op;
ghost use Rattle.qd_base.specs.declared.schema.Schema.{Schema};
ghost use Rattle.qd_base.specs.Schemas.{schema_of, schemas_step, table_at};
ghost use Rattle.qd_lines.specs.Overlays.{Covers, Overlays, spotted};

use crate::names::is_name;
use crate::own::Own;
use qd_base::{Col, Duplicate, Memory, Schema, Schemas};
use std::alloc::Global;

/// The tables that the lines of a batch find: those that were there before the batch, which are lent, and over them those
/// that lines have made or changed, which are copied when first changed.
#[derive(Drop)]
pub(crate) struct Overlay<'a> {
    base: &'a Schemas,
    own: Own,
    /// The number of tables: those of `base`, and those that lines have made.
    tables: usize,
    /// The table that was sought last, where none was made or changed since.
    recent: Option<Spot>,
    /// Tables that were sought, where none was made or changed since: each at the slot of the name that it was sought by.
    spots: [Option<Spot>; SLOTS],
}

/// How many tables are recalled at most.
const SLOTS: usize = 256;

/// Where a table is kept.
#[derive(Clone, Copy)]
enum Spot {
    /// At a position among those that lines have made or changed.
    Own(usize),
    /// At a position among those that were there before the batch.
    Base(usize),
}

impl<'a> Overlay<'a> {
    /// Begins with the tables that are there, in constant time.
    pub(crate) fn new(alloc: Global, base: &'a Schemas) -> Overlay<'a>
        ensures all { Covers result base.now }
    {
        Overlay {
            base,
            own: Own::new(alloc),
            tables: base.len(),
            recent: None,
            spots: [None; SLOTS],
        }
    }

    /// Gives the number of tables, in constant time.
    pub(crate) fn len(&self) -> usize
        ensures tables { result ≡ self.now.tables }
        ensures count { (all : List Schema) → Covers self.now all → result ≡ length all }
    {
        self.tables
    }

    /// Recalls the table of a name, so that `sought` gives it until another is sought, or one is made or changed. It costs
    /// time linear in the name where its table is recalled already, and else logarithmic in the number of tables.
    pub(crate) fn seek(&mut self, name: &[u8])
        ensures all { (all : List Schema) → Covers self.old all → Covers self.new all }
        ensures recent { (all : List Schema) → Covers self.new all →
            spotted self.new.own self.new.base.now self.new.recent ≡ schema_of all name.now }
    {
        let slot = slot_of(name);
        self.recent = self.spots[slot];
        if self.recalled(name).is_none() {
            self.recent = self.spot(name);
            self.spots[slot] = self.recent;
        }
    }

    /// Lends the schema of the table that was sought last, in constant time.
    pub(crate) fn sought(&self) -> Option<&Schema>
        ensures schema { option_map (λ s. s.now) result ≡ spotted self.now.own self.now.base.now self.now.recent }
    {
        self.at(self.recent)
    }

    /// Lends the schema of the table of a name, where there is one. ASCII case is ignored. It costs what `seek` does.
    pub(crate) fn find(&self, name: &[u8]) -> Option<&Schema>
        ensures schema { (all : List Schema) → Covers self.now all → option_map (λ s. s.now) result ≡ schema_of all name.now }
    {
        match self.recalled(name) {
            Some(schema) => Some(schema),
            None => self.at(self.spot(name)),
        }
    }

    /// Adds a new table, a copy of this one. It costs time linear in the schema.
    pub(crate) fn create(&mut self, schema: &Schema) -> Result<(), Memory>
        requires room { self.old.tables < MAX_TABLES }
        ensures ok { (all : List Schema) → Covers self.old all → IsNone (schema_of all schema.now.name) →
            OnOk result (Covers self.new (schemas_step all (op.Create schema.now))) }
    {
        self.recent = None;
        self.spots = [None; SLOTS];
        self.own.push(schema.copy()?)?;
        self.tables += 1;
        Ok(())
    }

    /// Adds a column, a copy of this one, behind the others of the table of a name, where there is one. It costs what
    /// `seek` does, time linear in the column, and the first time that a table is changed in its schema.
    pub(crate) fn add_column(&mut self, table: &[u8], col: &Col) -> Result<(), Memory>
        ensures ok { (all : List Schema) → Covers self.old all →
            OnOk result (Covers self.new (schemas_step all (op.AddColumn table.now col.now))) }
    {
        self.recent = None;
        self.spots = [None; SLOTS];
        let col = col.copy()?;
        match self.own_position(table) {
            Some(i) => self.own.add_column(i, col),
            None => widen(&mut self.own, self.base, table, col),
        }
    }

    /// Lends the table that is recalled, where it is the one of this name.
    fn recalled(&self, name: &[u8]) -> Option<&Schema>
        ensures recent { IfSome result (λ s. spotted self.now.own self.now.base.now self.now.recent ≡ Some s.now) }
        ensures schema { (all : List Schema) → Covers self.now all →
            IfSome result (λ s. schema_of all name.now ≡ Some s.now) }
    {
        match self.at(self.recent) {
            Some(schema) if is_name(schema.name.bytes(), name) => Some(schema),
            _ => None,
        }
    }

    /// Lends the table of a spot.
    fn at(&self, spot: Option<Spot>) -> Option<&Schema>
        ensures schema { option_map (λ s. s.now) result ≡ spotted self.now.own self.now.base.now spot }
    {
        match spot {
            None => None,
            Some(Spot::Own(i)) => self.own.get(i),
            Some(Spot::Base(i)) => schema_at(self.base, i),
        }
    }

    /// Says where the table of a name is kept, where there is one.
    fn spot(&self, name: &[u8]) -> Option<Spot>
        ensures schema { spotted self.now.own self.now.base.now result ≡
            option_or (schema_of self.now.own name.now) (schema_of self.now.base.now name.now) }
    {
        match self.own_position(name) {
            Some(i) => Some(Spot::Own(i)),
            None => match self.base.find(name) {
                Some(i) => Some(Spot::Base(i)),
                None => None,
            },
        }
    }

    /// Gives the position of the table of a name among those that lines have made or changed.
    fn own_position(&self, name: &[u8]) -> Option<usize>
        ensures position { result ≡ table_at self.now.own name.now }
    {
        self.own.find(name)
    }
}

/// Adds a column to a copy of the table of a name, which is put behind the others.
fn widen(own: &mut Own, base: &Schemas, table: &[u8], col: Col) -> Result<(), Memory>
    requires { table_at own.old table.now ≡ None }
    ensures ok { (all : List Schema) (tables : ℕ) → Overlays base.now own.old all tables →
        OnOk result (Overlays base.now own.new (schemas_step all (op.AddColumn table.now col)) tables) }
{
    if let Some(schema) = table_of(base, table) {
        let mut schema = schema.copy()?;
        schema.cols.push(col)?;
        own.push(schema)?;
    }
    Ok(())
}

/// Lends the schema at a position, where there is one.
fn schema_at(schemas: &Schemas, i: usize) -> Option<&Schema>
    ensures schema { option_map (λ s. s.now) result ≡ slice_get schemas.now i }
{
    if i < schemas.len() {
        return Some(schemas.get(i));
    }
    None
}

/// Gives the slot of a name.
fn slot_of(name: &[u8]) -> usize
    ensures within { result < SLOTS }
{
    let mut sum: u8 = 0;
    for byte in name {
        sum = sum.wrapping_mul(17).wrapping_add(*byte);
    }
    usize::from(sum)
}

/// Lends the schema of the table of a name, where there is one.
fn table_of<'s>(schemas: &'s Schemas, name: &[u8]) -> Option<&'s Schema>
    ensures schema { option_map (λ s. s.now) result ≡ schema_of schemas.now name.now }
{
    match schemas.find(name) {
        Some(i) => Some(schemas.get(i)),
        None => None,
    }
}
