//! The score, its seats and its lock.
ghost use Rattle.std.specs.Prelude.{◌≡◌, false, ℕ, ◌+◌, ◌*◌, ◌<◌, [], ◌∷◌, replicate, slice_set, Some, None, IsOk, IfOk, IfErr, IfSome, IfNone};
ghost use Rattle.qd_score_model.specs.declared.limits.TheConstants.{ROWS};
ghost use Rattle.qd_score.specs.declared.limits.TheConstants.{VERSIONS_END};
ghost use Rattle.qd_score_model.specs.declared.view.Mode.TheVariants.{Sole, Writer, Keeper};
ghost use Rattle.qd_score_model.specs.declared.view.Sight.{Sight};
ghost use Rattle.qd_score_model.specs.declared.view.Version.{Version};
ghost use Rattle.qd_score_model.specs.Machine.{MayOpen, MaySplit, took, gave, lent, newcomer, joined, shared};
ghost use Rattle.std.specs.Borrow.{sem, follows};
ghost use Rattle.qd_score.specs.Lending.{with_book};
ghost use Rattle.qd_score.specs.contracts.score.Hold.{the_row};
ghost use Rattle.qd_score.specs.Rule.{sight_of, IsInOrder, with_view, first_seat, HasAddedAll};
ghost use Rattle.qd_score.specs.Calls.{MaySit, IsSeatOf, IsLoose, HasSeenBoth, IsOfSeat, MayGiveBack, known_by, view_of};

use crate::booked::Booked;
use crate::table::{Give, KeeperOff, KnowsOf, Learn, Merge, Scored, Share, Take, WriterOff};
use atomic_table::{Refused, Table};
use qd_score_model::{Mode, ROWS};
use std::alloc::{AllocError, Global};
use std::snapshot::Snapshot;
use std::sync::Wait;

/// The words: the lock, the current place, and one for each row.
const LOCK: usize = 0;

pub(crate) const PLACE: usize = 1;

pub(crate) const FIRST_ROW: usize = 2;

const WORDS: usize = FIRST_ROW + ROWS as usize;

/// The slot with the book.
pub(crate) const BOOK: usize = 0;

/// The words of the scoreboard, and the book in its slot.
#[derive(Drop)]
pub struct Score<B: Booked> {
    pub(crate) table: Table<Option<B>, KnowsOf<B>, Snapshot<B>, Scored, Global>,
    ghost sized: { (table.shared.table_id.words ≡ ROWS + 2) × (table.shared.table_id.slots ≡ 1) },
}

/// What a thread steps with. It has no bytes.
pub type Seat<B> = atomic_table::Seat<Option<B>, KnowsOf<B>>;

/// The book, out of its slot, while its seat holds the lock.
pub struct Hold<B> {
    pub(crate) book: B,
}

impl<B> Hold<B> {
    /// The book, to read and to write. What is written there is the hold's.
    pub fn book(&mut self) -> &mut B
        ensures value { result.now ≡ self.old.book }
        ensures* writes_back { sem 𝓛 (follows (the_row B.row) B.row self.entry.ghost_name result.ghost_name (with_book self.old)) }
    {
        &mut self.book
    }

    /// The book, for good: the lock is never given back.
    pub fn into_book(self) -> B
        ensures { result ≡ self.book }
    {
        let Hold { book } = self;
        book
    }
}

/// The words over a book whose current version has this number, in row 0.
fn first_words(n: u64) -> [u64; WORDS]
    requires { n < VERSIONS_END }
    ensures { result ≡ slice_set (slice_set (replicate (ROWS + 2) 0) 1 (ROWS * n)) 2 1 }
{
    let mut words = [0; WORDS];
    words[PLACE] = ROWS * n;
    words[FIRST_ROW] = 1;
    words
}

/// The book that a table refused.
fn handed_back<B>(refused: Refused<Option<B>, Global>) -> B
    requires { (x : B) × (refused.slots.items ≡ Some x ∷ []) }
    ensures { refused.slots.items ≡ Some result ∷ [] }
{
    let Refused { mut slots } = refused;
    let book = slots.pop().unwrap().unwrap();
    slots.destroy_empty();
    book
}

impl<B: Booked> Score<B> {
    /// Opens a scoreboard over a book, of which row 0 is the one live row and the current one. The seat is Sole, and has room
    /// for [`MAX_SPLITS`](qd_score_model::MAX_SPLITS) splits. Where there is no memory the book comes back.
    pub fn start(alloc: Global, book: B) -> Result<(Score<B>, Seat<B>), B>
        requires opens { (first : Version B.Shape) × MayOpen B.blocks (B.book book) first }
        requires small { (B.book book).current.n < VERSIONS_END }
        ensures seat { IfOk result (λ r. IsSeatOf B.blocks r.0.table.shared.table_id r.1) }
        ensures first { IfOk result (λ r. known_by r.1 ≡ first_seat B.book B.sound B.fixed book) }
        ensures back { IfErr result (λ b. b ≡ book) }
    {
        let origin = Snapshot::of(&book);
        let words = first_words(book.version_n());
        let mut slots = Vec::new(alloc);
        if let Err(failed) = slots.push(Some(book)) {
            return Err(failed.value.unwrap());
        }
        match Table::new(alloc, &words, slots, &origin) {
            Ok((table, seat)) => Ok((Score { table }, seat)),
            Err(refused) => Err(handed_back(refused)),
        }
    }

    /// The book, out of the slot that the seat has.
    pub(crate) fn lift(&self, seat: &mut Seat<B>) -> B
        requires table { seat.old.table_id ≡ self.now.table.shared.table_id }
        requires slot { (x : B) × (seat.old.me.1 ≡ (0, Some x) ∷ []) }
        ensures book { seat.old.me.1 ≡ (0, Some result) ∷ [] }
        ensures seat { (seat.new.table_id ≡ seat.old.table_id) × (seat.new.me ≡ (seat.old.me.0, (0, None) ∷ [])) }
    {
        self.table.shared.exchange(seat, BOOK, None).unwrap()
    }

    /// One try for the lock.
    fn try_take(&self, seat: &mut Seat<B>) -> Option<Hold<B>>
        requires seat { IsSeatOf B.blocks self.now.table.shared.table_id seat.old }
        requires free { (view_of seat.old).hold ≡ None }
        ensures seat { IsSeatOf B.blocks self.now.table.shared.table_id seat.new }
        ensures took { IfSome result (λ h. known_by seat.new ≡ with_view (known_by seat.old) (took (view_of seat.old) (sight_of (B.book h.book)))) }
        ensures finds { IfSome result (λ h. IsInOrder B.blocks (sight_of (B.book h.book))) }
        ensures comes { IfSome result (λ h. IsOfSeat B.book B.sound B.fixed seat.old h.book) }
        ensures whole { IfSome result (λ h. HasAddedAll B.book B.sound B.fixed (known_by seat.old) h.book) }
        ensures same { IfNone result (known_by seat.new ≡ known_by seat.old) }
    {
        let found = self.table.shared.compare_exchange::<Take>(seat, LOCK, 0, 1);
        if found != 0 {
            return None;
        }
        let book = self.lift(seat);
        Some(Hold { book })
    }

    /// Takes the lock, and the book with it; waits while another seat holds it. The seat then sees the book as it is; where each other seat has gone into it, it has added all that came.
    pub fn take<R: Wait>(&self, rt: &R, seat: &mut Seat<B>) -> Hold<B>
        requires seat { IsSeatOf B.blocks self.now.table.shared.table_id seat.old }
        requires free { (view_of seat.old).hold ≡ None }
        ensures seat { IsSeatOf B.blocks self.now.table.shared.table_id seat.new }
        ensures took { known_by seat.new ≡ with_view (known_by seat.old) (took (view_of seat.old) (sight_of (B.book result.book))) }
        ensures finds { IsInOrder B.blocks (sight_of (B.book result.book)) }
        ensures comes { IsOfSeat B.book B.sound B.fixed seat.old result.book }
        ensures whole { HasAddedAll B.book B.sound B.fixed (known_by seat.old) result.book }
    {
        for _ in rt.forever() {
            if let Some(hold) = self.try_take(seat) {
                return hold;
            }
            self.table.shared.park(rt, LOCK, 1);
        }
        unreachable!()
    }

    /// Gives the book back, and the lock with it, and wakes one who waits.
    pub fn give(&self, seat: &mut Seat<B>, hold: Hold<B>)
        requires seat { IsSeatOf B.blocks self.now.table.shared.table_id seat.old }
        requires may { (h : Sight B.Item B.Shape) × ((view_of seat.old).hold ≡ Some h) × MayGiveBack B.blocks (view_of seat.old) h (B.book hold.book) }
        requires comes { IsOfSeat B.book B.sound B.fixed seat.old hold.book }
        ensures seat { IsSeatOf B.blocks self.now.table.shared.table_id seat.new }
        ensures gave { (h : Sight B.Item B.Shape) × ((view_of seat.old).hold ≡ Some h) × (known_by seat.new ≡ with_view (known_by seat.old) (gave (view_of seat.old) h (B.book hold.book))) }
    {
        let Hold { book } = hold;
        self.table.shared.exchange(seat, BOOK, Some(book));
        self.table.shared.store::<Give>(seat, LOCK, 0);
        self.table.shared.wake_one(LOCK);
    }

    /// The seat's view stands, as it is.
    fn stand(&self, seat: &mut Seat<B>)
        requires { MaySit self.now.table.shared.table_id seat.old }
        ensures seat { IsSeatOf B.blocks self.now.table.shared.table_id seat.new }
        ensures same { known_by seat.new ≡ known_by seat.old }
    {
        self.table.shared.load::<Learn>(seat, LOCK);
    }

    /// A Keeper is split off.
    fn keeper_off(&self, seat: &mut Seat<B>) -> Seat<B>
        requires seat { IsSeatOf B.blocks self.now.table.shared.table_id seat.old }
        requires may { MaySplit (view_of seat.old) Keeper }
        ensures seat { IsSeatOf B.blocks self.now.table.shared.table_id seat.new }
        ensures lent { known_by seat.new ≡ with_view (known_by seat.old) (lent (view_of seat.old)) }
        ensures part { IsSeatOf B.blocks self.now.table.shared.table_id result }
        ensures known { known_by result ≡ with_view (known_by seat.old) (newcomer (view_of seat.old) Keeper) }
    {
        let mut part = self.table.shared.split_seat::<KeeperOff>(seat);
        self.stand(seat);
        self.stand(&mut part);
        part
    }

    /// A Writer is split off a Writer.
    fn writer_off(&self, seat: &mut Seat<B>) -> Seat<B>
        requires seat { IsSeatOf B.blocks self.now.table.shared.table_id seat.old }
        requires may { MaySplit (view_of seat.old) Writer }
        ensures seat { IsSeatOf B.blocks self.now.table.shared.table_id seat.new }
        ensures lent { known_by seat.new ≡ with_view (known_by seat.old) (lent (view_of seat.old)) }
        ensures part { IsSeatOf B.blocks self.now.table.shared.table_id result }
        ensures known { known_by result ≡ with_view (known_by seat.old) (newcomer (view_of seat.old) Writer) }
    {
        let mut part = self.table.shared.split_seat::<WriterOff>(seat);
        self.stand(seat);
        self.stand(&mut part);
        part
    }

    /// Splits a seat off: a Keeper, or a Writer off a Writer. The new seat has seen what this one has, and has no room. It
    /// takes no memory, so `AllocError` never comes.
    pub fn split(
        &self,
        _alloc: Global,
        seat: &mut Seat<B>,
        mode: Mode,
    ) -> Result<Seat<B>, AllocError>
        requires seat { IsSeatOf B.blocks self.now.table.shared.table_id seat.old }
        requires may { MaySplit (view_of seat.old) mode }
        ensures seat { IsSeatOf B.blocks self.now.table.shared.table_id seat.new }
        ensures lent { known_by seat.new ≡ with_view (known_by seat.old) (lent (view_of seat.old)) }
        ensures made { IsOk result }
        ensures part { IfOk result (λ s. IsSeatOf B.blocks self.now.table.shared.table_id s) }
        ensures known { IfOk result (λ s. known_by s ≡ with_view (known_by seat.old) (newcomer (view_of seat.old) mode)) }
    {
        match mode {
            Mode::Keeper => Ok(self.keeper_off(seat)),
            Mode::Writer => Ok(self.writer_off(seat)),
            Mode::Sole => unreachable!(),
        }
    }

    /// A Sole seat is a Writer from now on, for good.
    pub fn share(&self, seat: &mut Seat<B>)
        requires seat { IsSeatOf B.blocks self.now.table.shared.table_id seat.old }
        requires sole { (view_of seat.old).mode ≡ Sole }
        ensures seat { IsSeatOf B.blocks self.now.table.shared.table_id seat.new }
        ensures shared { known_by seat.new ≡ with_view (known_by seat.old) (shared (view_of seat.old)) }
    {
        self.table.shared.load::<Share>(seat, LOCK);
    }

    /// A seat takes in another, which holds neither the lock nor a pin: the longer of what they have seen, the greater number
    /// known, both lists of positions, and the other's room and one more. Both had seen beginnings of the one history, so the
    /// longer of these goes on behind each.
    pub fn join(&self, seat: &mut Seat<B>, other: Seat<B>)
        requires seat { IsSeatOf B.blocks self.now.table.shared.table_id seat.old }
        requires other { IsSeatOf B.blocks self.now.table.shared.table_id other }
        requires loose { IsLoose (view_of other) }
        ensures seat { IsSeatOf B.blocks self.now.table.shared.table_id seat.new }
        ensures joined { known_by seat.new ≡ with_view (known_by seat.old) (joined (view_of seat.old) (view_of other)) }
        ensures seen { HasSeenBoth (view_of seat.old) (view_of other) (view_of seat.new) }
    {
        self.table.shared.join_seat::<Merge>(seat, other);
        self.stand(seat);
    }
}
