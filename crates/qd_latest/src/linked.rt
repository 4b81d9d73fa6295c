//! Chains: some rows of a block by their symbols, latest first.
ghost use Rattle.std.specs.Prelude.{◌≡◌, ℕ, ◌+◌, ◌<◌, ◌≤◌, ◌==◌, [], ◌∷◌, ◌++◌, ◌⊎◌, All, IfOk, length};
ghost use Rattle.qd_base.specs.declared.limits.TheConstants.{NULL_ID as no_id};
ghost use Rattle.qd_latest.specs.Chains.{chains_of, latest_first, LieInOneBlock};
ghost use Rattle.qd_links.specs.Lists.{list_at, IsListed, StandOnce};

use crate::parts::{column_of, ids_of, last_part};
use qd_base::{Dictionary, Memory, NULL_ID};
use qd_links::Links;
use qd_rows::RowSet;
use std::alloc::Global;

/// Links the rows of a set from one up to another, which lie in one block, by the symbols that they hold in a column: the
/// list of each id has, latest first, the rows that hold its text, each by how far it stands behind the first of them. Rows
/// that hold NULL are in no list.
///
/// It costs time linear in the rows and in the texts of the block's dictionary, and takes 16 bytes for each of both.
pub fn chains<D: Dictionary>(
    alloc: Global,
    rows: &RowSet<D>,
    from: usize,
    to: usize,
    col: u32,
) -> Result<Links, Memory>
    requires { LieInOneBlock rows.now from to col }
    ensures chains { IfOk result (λ links. links ≡ chains_of rows.now from to col) }
    ensures once { IfOk result StandOnce }
{
    let column = column_of(rows, from, to, col);
    let mut links = Links::with_nodes(alloc, to - from, column.dictionary().len() as usize)?;
    let mut end = to;
    while from < end {
        let part = last_part(rows, from, end);
        let ids = ids_of(column, part.from, part.to);
        link_ids(&mut links, ids, part.before - from, end - from);
        end = part.before;
    }
    Ok(links)
}

/// Puts nodes behind those of the lists of their ids, the last one first; a node without an id is put into none.
fn link_ids(links: &mut Links, ids: &[u64], from: usize, to: usize)
    requires count { from + length ids.now ≡ to }
    requires within { to ≤ links.old.nodes }
    requires few { length links.old.lists ≤ no_id }
    requires each { All (λ id. (id ≡ no_id) ⊎ (id < length links.old.lists)) ids.now }
    requires above { (node : ℕ) → IsListed links.old node → to ≤ node }
    requires once { StandOnce links.old }
    ensures nodes { links.new.nodes ≡ links.old.nodes }
    ensures count { length links.new.lists ≡ length links.old.lists }
    ensures lists { (j : ℕ) → j < length links.old.lists → list_at links.new j ≡ list_at links.old j ++ latest_first (λ id. j == id) from ids.now }
    ensures above { (node : ℕ) → IsListed links.new node → from ≤ node }
    ensures once { StandOnce links.new }
{
    let mut i = ids.len();
    while 0 < i {
        i -= 1;
        link_id(links, ids[i], from + i);
    }
}

/// Puts a node behind those of the list of its id, if it has one.
fn link_id(links: &mut Links, id: u64, node: usize)
    requires within { node < links.old.nodes }
    requires few { length links.old.lists ≤ no_id }
    requires known { (id ≡ no_id) ⊎ (id < length links.old.lists) }
    requires above { (other : ℕ) → IsListed links.old other → node < other }
    requires once { StandOnce links.old }
    ensures nodes { links.new.nodes ≡ links.old.nodes }
    ensures count { length links.new.lists ≡ length links.old.lists }
    ensures lists { (j : ℕ) → j < length links.old.lists → list_at links.new j ≡ list_at links.old j ++ latest_first (λ x. j == x) node (id ∷ []) }
    ensures above { (other : ℕ) → IsListed links.new other → node ≤ other }
    ensures once { StandOnce links.new }
{
    if id != NULL_ID {
        links.push_back(id as usize, node);
    }
}
