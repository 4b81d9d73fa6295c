//! Laws of answers: each holds for all statements, and is the contract of a function that does nothing.
ghost use Rattle.qd_query.specs.Typed.{AnswersAreTyped};

use qd_meaning::{bindings_follow, refused_has_no_answer};

/// Each row of an answer over tables such as lawful transactions leave has one cell for each column of the answer, of the
/// column's type.
pub fn answers_are_typed()
    ensures law { AnswersAreTyped }
{
    bindings_follow();
    refused_has_no_answer();
}
