//! Laws of the definitions: each holds for all texts, and is the contract of a function that does nothing.
ghost use Rattle.qd_sql.specs.Laws.{RefusalsHaveCauses, StatementsStand, TextsAreAnswered};

/// Each text is one statement, or is refused with one code at one place, or nests deeper than the stack allows; and never
/// two of these.
pub fn texts_are_answered()
    ensures law { TextsAreAnswered }
{}

/// A text is a statement exactly where it is built, its tokens are that statement and nothing behind it, and no number is
/// out of its range.
pub fn statements_stand()
    ensures law { StatementsStand }
{}

/// A text is refused exactly for its first cause: what is not built, then what is no statement, then a number out of its
/// range.
pub fn refusals_have_causes()
    ensures law { RefusalsHaveCauses }
{}
