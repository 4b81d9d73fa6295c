//! The least and the greatest of the numbers of LONG columns.
ghost use Rattle.std.specs.Prelude.{◌≡◌, fold};
ghost use Rattle.qd_group.specs.Tallies as spec;

use qd_base::NULL_LONG;

/// The least of a number and others, in one pass, as a LONG column keeps them: NULL is passed over.
pub(crate) fn least_of(first: i64, numbers: &[i64]) -> i64
    ensures { result ≡ fold spec.lesser first numbers.now }
{
    let mut best = first;
    for number in numbers {
        best = lesser(best, *number);
    }
    best
}

/// The greatest of a number and others, in one pass, as a LONG column keeps them: NULL is passed over.
pub(crate) fn greatest_of(first: i64, numbers: &[i64]) -> i64
    ensures { result ≡ fold spec.greater first numbers.now }
{
    let mut best = first;
    for number in numbers {
        best = greater(best, *number);
    }
    best
}

#[inline(always)]
fn lesser(best: i64, number: i64) -> i64
    ensures { result ≡ spec.lesser best number }
{
    if number == NULL_LONG {
        return best;
    }
    if best == NULL_LONG || number < best {
        number
    } else {
        best
    }
}

#[inline(always)]
fn greater(best: i64, number: i64) -> i64
    ensures { result ≡ spec.greater best number }
{
    if number == NULL_LONG {
        return best;
    }
    if best == NULL_LONG || best < number {
        number
    } else {
        best
    }
}
