//! Versions go live, become the current one, and are retired, by the steps of the seat that holds the lock.
ghost use Rattle.std.specs.Prelude.{◌≡◌, ◌≢◌, ℕ, ◌<◌, ◌≤◌, Option, Some, None, IsOk, IfOk, IfErr};
ghost use Rattle.qd_score_model.specs.declared.limits.TheConstants.{ROWS};
ghost use Rattle.qd_score_model.specs.declared.view.Mode.TheVariants.{Sole};
ghost use Rattle.qd_score_model.specs.declared.view.Phase.TheVariants.{Idle};
ghost use Rattle.qd_score_model.specs.declared.view.Place.{Place};
ghost use Rattle.qd_score_model.specs.declared.view.Sight.{Sight};
ghost use Rattle.qd_score_model.specs.declared.view.Version.{Version};
ghost use Rattle.qd_score_model.specs.Machine.{version_at, sees, refuses};
ghost use Rattle.qd_score.specs.Rule.{with_view};
ghost use Rattle.qd_score.specs.Calls.{IsSeatOf, known_by, view_of};
ghost use Rattle.qd_score.specs.Publishing.{MayMakeLive, MayMakeCurrent, MayLetGo, with_live, with_current, without_row};

use crate::booked::Booked;
use crate::score::{BOOK, FIRST_ROW, Hold, PLACE, Score, Seat};
use crate::table::{GoLive, Retire, SetCurrent};
use qd_score_model::ROWS;

/// A row that couldn't be retired: it has a pin.
#[derive(Clone, Copy, Debug)]
pub struct Pinned {
    word: u64,
}

impl Pinned {
    /// The row's word: twice its pins, and one more.
    pub fn word(&self) -> u64
        ensures { result ≡ self.now.word }
    {
        self.word
    }
}

impl<B: Booked> Score<B> {
    /// Makes the version live that the book has in this row, and gives the hold back. Its number is greater than that of the
    /// current version, which is the newest that is live so far, and the history has as many items.
    pub fn go_live(&self, seat: &mut Seat<B>, hold: Hold<B>, row: u8) -> Hold<B>
        requires seat { IsSeatOf B.blocks self.now.table.shared.table_id seat.old }
        requires may { (h : Sight B.Item B.Shape) × ((view_of seat.old).hold ≡ Some h) × ((x : Version B.Shape) × (version_at (B.book hold.book).versions row ≡ Some x) × MayMakeLive h row x) }
        ensures seat { IsSeatOf B.blocks self.now.table.shared.table_id seat.new }
        ensures book { result.book ≡ hold.book }
        ensures live { (h : Sight B.Item B.Shape) × ((view_of seat.old).hold ≡ Some h) × ((x : Version B.Shape) × (version_at (B.book hold.book).versions row ≡ Some x) × (known_by seat.new ≡ with_view (known_by seat.old) (sees (view_of seat.old) (with_live h row x)))) }
    {
        let Hold { book } = hold;
        self.table.shared.exchange(seat, BOOK, Some(book));
        self.table
            .shared
            .fetch_add::<GoLive>(seat, row as usize + FIRST_ROW, 1);
        let book = self.lift(seat);
        Hold { book }
    }

    /// Makes the live version with this number, in this row, the current one. It is newer than the current one.
    pub fn set_current(&self, seat: &mut Seat<B>, _hold: &Hold<B>, n: u64, row: u8)
        requires seat { IsSeatOf B.blocks self.now.table.shared.table_id seat.old }
        requires may { (h : Sight B.Item B.Shape) × ((view_of seat.old).hold ≡ Some h) × MayMakeCurrent h (record { n = n; row = row }) }
        ensures seat { IsSeatOf B.blocks self.now.table.shared.table_id seat.new }
        ensures current { (h : Sight B.Item B.Shape) × ((view_of seat.old).hold ≡ Some h) × (known_by seat.new ≡ with_view (known_by seat.old) (sees (view_of seat.old) (with_current h (record { n = n; row = row })))) }
    {
        self.table
            .shared
            .store::<SetCurrent>(seat, PLACE, ROWS * n + row as u64);
    }

    /// The word of a row that isn't the current one, which is retired where that word was 1.
    fn try_retire(&self, seat: &mut Seat<B>, row: u8) -> u64
        requires seat { IsSeatOf B.blocks self.now.table.shared.table_id seat.old }
        requires may { (h : Sight B.Item B.Shape) × ((view_of seat.old).hold ≡ Some h) × MayLetGo h row }
        ensures seat { IsSeatOf B.blocks self.now.table.shared.table_id seat.new }
        ensures gone { result ≡ 1 → (h : Sight B.Item B.Shape) × ((view_of seat.old).hold ≡ Some h) × (known_by seat.new ≡ with_view (known_by seat.old) (sees (view_of seat.old) (without_row h row))) }
        ensures stays { result ≢ 1 → known_by seat.new ≡ with_view (known_by seat.old) (refuses (view_of seat.old) row result) }
        ensures pinned { result ≢ 1 → 3 ≤ result }
        ensures alone { (view_of seat.old).mode ≡ Sole → (view_of seat.old).phase ≡ Idle → result ≡ 1 }
    {
        self.table
            .shared
            .compare_exchange::<Retire>(seat, row as usize + FIRST_ROW, 1, 0)
    }

    /// Retires a live row that isn't the current one, unless a seat counts on it. At `Pinned` it stays live, and may be
    /// tried again. A Sole seat that has no pin itself never finds one.
    pub fn retire(&self, seat: &mut Seat<B>, _hold: &Hold<B>, row: u8) -> Result<(), Pinned>
        requires seat { IsSeatOf B.blocks self.now.table.shared.table_id seat.old }
        requires may { (h : Sight B.Item B.Shape) × ((view_of seat.old).hold ≡ Some h) × MayLetGo h row }
        ensures seat { IsSeatOf B.blocks self.now.table.shared.table_id seat.new }
        ensures gone { IfOk result (λ _. (h : Sight B.Item B.Shape) × ((view_of seat.old).hold ≡ Some h) × (known_by seat.new ≡ with_view (known_by seat.old) (sees (view_of seat.old) (without_row h row)))) }
        ensures stays { IfErr result (λ p. known_by seat.new ≡ with_view (known_by seat.old) (refuses (view_of seat.old) row p.word)) }
        ensures pinned { IfErr result (λ p. 3 ≤ p.word) }
        ensures alone { (view_of seat.old).mode ≡ Sole → (view_of seat.old).phase ≡ Idle → IsOk result }
    {
        let word = self.try_retire(seat, row);
        if word == 1 {
            Ok(())
        } else {
            Err(Pinned { word })
        }
    }
}
