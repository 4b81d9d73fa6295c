//! Laws of orders: each holds for all rows, and is the contract of a function that does nothing.
ghost use Rattle.qd_order.specs.Laws.{OrderedSorts};

/// ORDER BY sorts: its rows are the same ones, no row stands before an earlier one, and rows that tie stand as they stood
/// before.
pub fn ordered_sorts()
    ensures law { OrderedSorts }
{}
