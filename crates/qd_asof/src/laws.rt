//! What holds of joins of any rows.
ghost use Rattle.qd_asof.specs.Laws.{LastOfEqualTimes};

use qd_meaning::joins_take_the_last;

/// Without keys a left row is joined with the last right row that isn't later, also where others have that row's time;
/// in a strict join with the last one that is earlier, also where others have the left row's own time.
pub fn last_of_equal_times()
    ensures law { LastOfEqualTimes }
{
    joins_take_the_last();
}
