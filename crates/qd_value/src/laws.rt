//! Laws of values: each holds for all expressions and all rows, and is the contract of a function that does nothing.
ghost use Rattle.qd_value.specs.Laws.{ArithmeticIsExact, EqualityHasAnOpposite, InIsManyEquals, NotTurnsAndAndOr, OrderingsAreByClass, TestsAreTruths};

/// A row passes a test exactly where its value is true; where it is NULL, the row fails. AND, OR, NOT and IS NULL are never
/// NULL themselves.
pub fn tests_are_truths()
    ensures law { TestsAreTruths }
{}

/// `=` holds exactly where two values are one, and `!=` where it doesn't; two NULLs are one value.
pub fn equality_has_an_opposite()
    ensures law { EqualityHasAnOpposite }
{}

/// An ordering beside NULL is false; numbers and times are ordered by size, false is less than true, texts go byte by byte.
pub fn orderings_are_by_class()
    ensures law { OrderingsAreByClass }
{}

/// `x IN (a, b)` is `x = a OR x = b`, and `x IN` an interval is `x >= first AND x <= last`.
pub fn in_is_many_equals()
    ensures law { InIsManyEquals }
{}

/// NOT over AND is OR of NOTs, and NOT over OR is AND of NOTs; NOT of NULL is true.
pub fn not_turns_and_and_or()
    ensures law { NotTurnsAndAndOr }
{}

/// Sums, differences and products are exact or NULL; a quotient truncates towards zero and a remainder has the dividend's
/// sign; by zero, and beside NULL, each is NULL; operators group to the left.
pub fn arithmetic_is_exact()
    ensures law { ArithmeticIsExact }
{}
