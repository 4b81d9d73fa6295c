//! Pins: a version that a seat counts on stays live.
ghost use Rattle.std.specs.Prelude.{◌≡◌, ◌≢◌, ℕ, ◌/◌, ◌%◌, ◌<◌, ◌≤◌, ◌⊎◌, false, IfOk, IfErr, Some};
ghost use Rattle.qd_score_model.specs.declared.limits.TheConstants.{ROWS};
ghost use Rattle.qd_score_model.specs.declared.view.Mode.TheVariants.{Keeper};
ghost use Rattle.qd_score_model.specs.declared.view.Place.{Place};
ghost use Rattle.qd_score_model.specs.declared.view.Phase.TheVariants.{Idle, Looked, Trying, Pinned};
ghost use Rattle.qd_score_model.specs.declared.view.Sight.{Sight};
ghost use Rattle.qd_score_model.specs.Machine.{looked, tries, confirmed, dropped, pinned_held, same_place};
ghost use Rattle.qd_score.specs.Rule.{with_view, place_of};
ghost use Rattle.qd_score.specs.Calls.{IsSeatOf, known_by, view_of};
ghost use Rattle.qd_score.specs.Pinning.{moved_on, pinned_by};

use crate::booked::Booked;
use crate::score::{FIRST_ROW, Hold, PLACE, Score, Seat};
use crate::table::{Confirm, HeldRaise, Look, Raise, Read, Release};
use qd_score_model::ROWS;

/// A version that its seat counts on. It stays live, with this number and in this row, until the pin is released.
pub struct Pin {
    n: u64,
    row: u8,
}

impl Pin {
    /// How many items the version stands for.
    pub fn n(&self) -> u64
        ensures { result ≡ self.now.n }
    {
        self.n
    }

    /// The row that the version stands in.
    pub fn row(&self) -> u8
        ensures { result ≡ self.now.row }
    {
        self.row
    }
}

/// A newer version was published while a pin was tried, and nothing is pinned.
#[derive(Clone, Copy, Debug)]
pub struct Moved {
    published: u64,
}

impl Moved {
    /// The number of the version that was current then.
    pub fn published(&self) -> u64
        ensures { result ≡ self.now.published }
    {
        self.published
    }
}

/// The pin of the place that a word shows.
fn pin_of(word: u64) -> Pin
    ensures n { result.n ≡ word / ROWS }
    ensures row { result.row ≡ word % ROWS }
{
    Pin {
        n: word / ROWS,
        row: (word % ROWS) as u8,
    }
}

impl<B: Booked> Score<B> {
    /// The word of the current place.
    fn look(&self, seat: &mut Seat<B>) -> u64
        requires seat { IsSeatOf B.blocks self.now.table.shared.table_id seat.old }
        requires idle { (view_of seat.old).phase ≡ Idle }
        requires kind { (view_of seat.old).mode ≢ Keeper }
        ensures seat { IsSeatOf B.blocks self.now.table.shared.table_id seat.new }
        ensures looked { known_by seat.new ≡ with_view (known_by seat.old) (looked (view_of seat.old) (place_of result)) }
        ensures newer { (view_of seat.old).known ≤ (place_of result).n }
    {
        self.table.shared.load::<Look>(seat, PLACE)
    }

    /// The row of a word that was looked at is counted on.
    fn raise(&self, seat: &mut Seat<B>, word: u64)
        requires seat { IsSeatOf B.blocks self.now.table.shared.table_id seat.old }
        requires looked { (view_of seat.old).phase ≡ Looked (place_of word) }
        ensures seat { IsSeatOf B.blocks self.now.table.shared.table_id seat.new }
        ensures tries { known_by seat.new ≡ with_view (known_by seat.old) (tries (view_of seat.old) (place_of word)) }
    {
        self.table
            .shared
            .fetch_add::<Raise>(seat, (word % ROWS) as usize + FIRST_ROW, 2);
    }

    /// The word of the current place, once the row of an earlier one is counted on.
    fn confirm(&self, seat: &mut Seat<B>, word: u64) -> u64
        requires seat { IsSeatOf B.blocks self.now.table.shared.table_id seat.old }
        requires tries { (view_of seat.old).phase ≡ Trying (place_of word) }
        ensures seat { IsSeatOf B.blocks self.now.table.shared.table_id seat.new }
        ensures confirmed { known_by seat.new ≡ with_view (known_by seat.old) (confirmed (view_of seat.old) (place_of result) (place_of word)) }
        ensures newer { same_place (place_of result) (place_of word) ≡ false → (place_of word).n < (place_of result).n }
    {
        self.table.shared.load::<Confirm>(seat, PLACE)
    }

    /// The row is no longer counted on.
    fn lower(&self, seat: &mut Seat<B>, row: usize)
        requires seat { IsSeatOf B.blocks self.now.table.shared.table_id seat.old }
        requires counts { (place : Place) × (((view_of seat.old).phase ≡ Trying place) ⊎ ((view_of seat.old).phase ≡ Pinned place)) × (place.row ≡ row) }
        requires is_row { row < ROWS }
        ensures seat { IsSeatOf B.blocks self.now.table.shared.table_id seat.new }
        ensures dropped { known_by seat.new ≡ with_view (known_by seat.old) (dropped (view_of seat.old)) }
    {
        self.table
            .shared
            .fetch_sub::<Release>(seat, row + FIRST_ROW, 2);
    }

    /// Pins the current version, without the lock and without a wait: four steps at most. The current place is read twice.
    /// `Moved` comes exactly where the second read finds another place than the first: a newer version was published
    /// meanwhile, the seat has no pin, and its caller may try again.
    pub fn pin(&self, seat: &mut Seat<B>) -> Result<Pin, Moved>
        requires seat { IsSeatOf B.blocks self.now.table.shared.table_id seat.old }
        requires idle { (view_of seat.old).phase ≡ Idle }
        requires kind { (view_of seat.old).mode ≢ Keeper }
        ensures seat { IsSeatOf B.blocks self.now.table.shared.table_id seat.new }
        ensures pinned { IfOk result (λ p. known_by seat.new ≡ with_view (known_by seat.old) (pinned_by (view_of seat.old) (record { n = p.n; row = p.row }))) }
        ensures fresh { IfOk result (λ p. (view_of seat.old).known ≤ p.n) }
        ensures moved { IfErr result (λ m. (first : Place) × (second : Place) × (first.n < second.n) × (second.n ≡ m.published) × (known_by seat.new ≡ with_view (known_by seat.old) (moved_on (view_of seat.old) first second))) }
        ensures newer { IfErr result (λ m. (view_of seat.old).known < m.published) }
    {
        let word = self.look(seat);
        self.raise(seat, word);
        let now = self.confirm(seat, word);
        if now == word {
            return Ok(pin_of(word));
        }
        self.lower(seat, (word % ROWS) as usize);
        Err(Moved {
            published: now / ROWS,
        })
    }

    /// The word of the current place, which the holder of the lock sees.
    fn read(&self, seat: &mut Seat<B>) -> u64
        requires seat { IsSeatOf B.blocks self.now.table.shared.table_id seat.old }
        requires held { (h : Sight B.Item B.Shape) × ((view_of seat.old).hold ≡ Some h) }
        ensures seat { IsSeatOf B.blocks self.now.table.shared.table_id seat.new }
        ensures same { known_by seat.new ≡ known_by seat.old }
        ensures current { (h : Sight B.Item B.Shape) × ((view_of seat.old).hold ≡ Some h) × (place_of result ≡ h.current) }
    {
        self.table.shared.load::<Read>(seat, PLACE)
    }

    /// The holder counts on the current row.
    fn raise_held(&self, seat: &mut Seat<B>, row: usize)
        requires seat { IsSeatOf B.blocks self.now.table.shared.table_id seat.old }
        requires held { (h : Sight B.Item B.Shape) × ((view_of seat.old).hold ≡ Some h) × (row ≡ h.current.row) }
        requires idle { (view_of seat.old).phase ≡ Idle }
        requires kind { (view_of seat.old).mode ≢ Keeper }
        requires is_row { row < ROWS }
        ensures seat { IsSeatOf B.blocks self.now.table.shared.table_id seat.new }
        ensures pinned { (h : Sight B.Item B.Shape) × ((view_of seat.old).hold ≡ Some h) × (known_by seat.new ≡ with_view (known_by seat.old) (pinned_held (view_of seat.old) h.current)) }
    {
        self.table
            .shared
            .fetch_add::<HeldRaise>(seat, row + FIRST_ROW, 2);
    }

    /// Pins the current version while the seat holds the lock, which always succeeds.
    pub fn pin_held(&self, seat: &mut Seat<B>, _hold: &Hold<B>) -> Pin
        requires seat { IsSeatOf B.blocks self.now.table.shared.table_id seat.old }
        requires held { (h : Sight B.Item B.Shape) × ((view_of seat.old).hold ≡ Some h) }
        requires idle { (view_of seat.old).phase ≡ Idle }
        requires kind { (view_of seat.old).mode ≢ Keeper }
        ensures seat { IsSeatOf B.blocks self.now.table.shared.table_id seat.new }
        ensures pinned { known_by seat.new ≡ with_view (known_by seat.old) (pinned_held (view_of seat.old) (record { n = result.n; row = result.row })) }
        ensures current { (h : Sight B.Item B.Shape) × ((view_of seat.old).hold ≡ Some h) × (record { n = result.n; row = result.row } ≡ h.current) }
    {
        let word = self.read(seat);
        self.raise_held(seat, (word % ROWS) as usize);
        pin_of(word)
    }

    /// Lets the pinned version go, in one step, without a wait. It may be retired from then on, unless others have it pinned.
    pub fn release(&self, seat: &mut Seat<B>, pin: Pin)
        requires seat { IsSeatOf B.blocks self.now.table.shared.table_id seat.old }
        requires pin { (view_of seat.old).phase ≡ Pinned (record { n = pin.n; row = pin.row }) }
        ensures seat { IsSeatOf B.blocks self.now.table.shared.table_id seat.new }
        ensures dropped { known_by seat.new ≡ with_view (known_by seat.old) (dropped (view_of seat.old)) }
    {
        let Pin { n: _, row } = pin;
        self.lower(seat, usize::from(row));
    }
}
