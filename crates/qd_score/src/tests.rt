//! A version stays live while a thread counts on it, and is retired once none does. Two threads, each with a seat of its own.
ghost use Rattle.std.specs.Prelude.{◌≡◌, true, ◌<◌, length, IfSome, Some, None};
ghost use Rattle.qd_score_model.specs.declared.view.Mode.TheVariants.{Writer};
ghost use Rattle.qd_score_model.specs.declared.view.Phase.TheVariants.{Idle};
ghost use Rattle.qd_score.specs.Rule.{sight_of};
ghost use Rattle.qd_score.specs.Calls.{IsSeatOf, view_of};
ghost use Rattle.qd_score.specs.Counted.{book_of, blocks_of, IsFirst, IsSecond, IsThird, AreBare};

use crate::counted::CountBook;
use crate::score::{Hold, Score, Seat};
use qd_score_model::Mode;
use std::alloc::Global;
use std::sync::Wait;
use std::sync::atomic::{AtomicU64, Ordering};
use std::test::Fail;
use std::thread;
use std::thread::Threads;

/// How often a thread looks at a flag before it gives up.
const TURNS: u64 = 20_000_000;

/// Whether the flag is set in time.
fn is_set(flag: &AtomicU64) -> bool {
    for _ in 0..TURNS {
        if flag.load(Ordering::SeqCst) == 1 {
            return true;
        }
        thread::yield_now();
    }
    false
}

/// Pins version 0, says so, and releases it once version 1 is published.
fn reads(
    score: &Score<CountBook>,
    mut seat: Seat<CountBook>,
    pinned: &AtomicU64,
    given: &AtomicU64,
) -> Option<Seat<CountBook>>
    requires seat { IsSeatOf blocks_of score.now.table.shared.table_id seat }
    requires kind { (view_of seat).mode ≡ Writer }
    requires idle { (view_of seat).phase ≡ Idle }
    requires free { (view_of seat).hold ≡ None }
    ensures seat { IfSome result (λ s. IsSeatOf blocks_of score.now.table.shared.table_id s) }
    ensures idle { IfSome result (λ s. (view_of s).phase ≡ Idle) }
    ensures free { IfSome result (λ s. (view_of s).hold ≡ None) }
{
    let Ok(pin) = score.pin(&mut seat) else {
        return None;
    };
    let first = pin.row() == 0 && pin.n() == 0;
    pinned.store(1, Ordering::SeqCst);
    let in_time = is_set(given);
    score.release(&mut seat, pin);
    if first && in_time { Some(seat) } else { None }
}

/// Makes version 1 live and the current one.
fn goes_on(
    alloc: Global,
    score: &Score<CountBook>,
    seat: &mut Seat<CountBook>,
    mut hold: Hold<CountBook>,
) -> Hold<CountBook>
    requires seat { IsSeatOf blocks_of score.now.table.shared.table_id seat.old }
    requires held { (view_of seat.old).hold ≡ Some (sight_of (book_of hold.book)) }
    requires first { IsFirst (book_of hold.book) }
    requires full { 0 < length (book_of hold.book).history }
    ensures seat { IsSeatOf blocks_of score.now.table.shared.table_id seat.new }
    ensures held { (view_of seat.new).hold ≡ Some (sight_of (book_of result.book)) }
    ensures second { IsSecond (book_of result.book) }
{
    hold.book().publish(alloc);
    let hold = score.go_live(seat, hold, 1);
    score.set_current(seat, &hold, 1, 1);
    hold
}

/// Whether version 0 has one pin, and so stays.
fn finds_one_pin(
    score: &Score<CountBook>,
    seat: &mut Seat<CountBook>,
    hold: &Hold<CountBook>,
) -> bool
    requires seat { IsSeatOf blocks_of score.now.table.shared.table_id seat.old }
    requires held { (view_of seat.old).hold ≡ Some (sight_of (book_of hold.now.book)) }
    requires second { IsSecond (book_of hold.now.book) }
    ensures seat { IsSeatOf blocks_of score.now.table.shared.table_id seat.new }
    ensures held { result ≡ true → (view_of seat.new).hold ≡ (view_of seat.old).hold }
{
    match score.retire(seat, hold, 0) {
        Ok(()) => false,
        Err(found) => found.word() == 3,
    }
}

/// Lets version 0 go.
fn lets_go(
    score: &Score<CountBook>,
    seat: &mut Seat<CountBook>,
    mut hold: Hold<CountBook>,
) -> Option<Hold<CountBook>>
    requires seat { IsSeatOf blocks_of score.now.table.shared.table_id seat.old }
    requires held { (view_of seat.old).hold ≡ Some (sight_of (book_of hold.book)) }
    requires second { IsSecond (book_of hold.book) }
    ensures seat { IfSome result (λ h. IsSeatOf blocks_of score.now.table.shared.table_id seat.new) }
    ensures held { IfSome result (λ h. (view_of seat.new).hold ≡ Some (sight_of (book_of h.book))) }
    ensures third { IfSome result (λ h. IsThird (book_of h.book)) }
{
    if score.retire(seat, &hold, 0).is_err() {
        drop(hold.into_book());
        return None;
    }
    hold.book().let_go();
    Some(hold)
}

/// Gives the book back.
fn gives(score: &Score<CountBook>, seat: &mut Seat<CountBook>, hold: Hold<CountBook>)
    requires seat { IsSeatOf blocks_of score.now.table.shared.table_id seat.old }
    requires held { (view_of seat.old).hold ≡ Some (sight_of (book_of hold.book)) }
    requires bare { AreBare (book_of hold.book) }
    ensures seat { IsSeatOf blocks_of score.now.table.shared.table_id seat.new }
    ensures free { (view_of seat.new).hold ≡ None }
{
    score.give(seat, hold);
}

/// Publishes version 1 in one hold, and finds version 0 pinned.
fn publishes<R: Wait>(
    rt: &R,
    alloc: Global,
    score: &Score<CountBook>,
    mut seat: Seat<CountBook>,
    pinned: &AtomicU64,
    given: &AtomicU64,
) -> Option<Seat<CountBook>>
    requires seat { IsSeatOf blocks_of score.now.table.shared.table_id seat }
    requires free { (view_of seat).hold ≡ None }
    ensures seat { IfSome result (λ s. IsSeatOf blocks_of score.now.table.shared.table_id s) }
    ensures free { IfSome result (λ s. (view_of s).hold ≡ None) }
{
    if !is_set(pinned) {
        return None;
    }
    let mut hold = score.take(rt, &mut seat);
    if !hold.book().is_first() || hold.book().len() == 0 {
        drop(hold.into_book());
        return None;
    }
    let hold = goes_on(alloc, score, &mut seat, hold);
    if !finds_one_pin(score, &mut seat, &hold) {
        drop(hold.into_book());
        return None;
    }
    gives(score, &mut seat, hold);
    given.store(1, Ordering::SeqCst);
    Some(seat)
}

/// Retires version 0, which nobody counts on any more.
fn retires<R: Wait>(rt: &R, score: &Score<CountBook>, seat: &mut Seat<CountBook>) -> bool
    requires seat { IsSeatOf blocks_of score.now.table.shared.table_id seat.old }
    requires free { (view_of seat.old).hold ≡ None }
{
    let mut hold = score.take(rt, seat);
    if !hold.book().is_second() {
        drop(hold.into_book());
        return false;
    }
    let Some(hold) = lets_go(score, seat, hold) else {
        return false;
    };
    gives(score, seat, hold);
    true
}

/// Both threads, and what is left to do once they are back.
fn both<R: Threads + Wait + Sync>(
    rt: &R,
    alloc: Global,
    score: &Score<CountBook>,
    one: Seat<CountBook>,
    two: Seat<CountBook>,
) -> bool
    requires one { IsSeatOf blocks_of score.now.table.shared.table_id one }
    requires kind { (view_of one).mode ≡ Writer }
    requires idle { (view_of one).phase ≡ Idle }
    requires free { (view_of one).hold ≡ None }
    requires two { IsSeatOf blocks_of score.now.table.shared.table_id two }
    requires other_free { (view_of two).hold ≡ None }
{
    let pinned = AtomicU64::new(0);
    let given = AtomicU64::new(0);
    let (read, published) = thread::join(
        rt,
        || -> Option<Seat<CountBook>>
            requires { IsSeatOf blocks_of score.now.table.shared.table_id one × ((view_of one).mode ≡ Writer) × ((view_of one).phase ≡ Idle) × ((view_of one).hold ≡ None) }
            ensures { IfSome result (λ s. IsSeatOf blocks_of score.entry.now.table.shared.table_id s × ((view_of s).phase ≡ Idle) × ((view_of s).hold ≡ None)) }
        { reads(score, one, &pinned, &given) },
        || -> Option<Seat<CountBook>>
            requires { IsSeatOf blocks_of score.now.table.shared.table_id two × ((view_of two).hold ≡ None) }
            ensures { IfSome result (λ s. IsSeatOf blocks_of score.entry.now.table.shared.table_id s × ((view_of s).hold ≡ None)) }
        { publishes(rt, alloc, score, two, &pinned, &given) },
    );
    let Some(one) = read else {
        return false;
    };
    let Some(mut two) = published else {
        return false;
    };
    score.join(&mut two, one);
    retires(rt, score, &mut two)
}

#[test]
fn a_pinned_version_stays_live(rt: HostRuntime) -> Result<(), Fail> {
    let book = CountBook::new(rt.alloc(), 5)?;
    let Ok((score, mut seat)) = Score::start(rt.alloc(), book) else {
        panic!(rt; "no memory")
    };
    score.share(&mut seat);
    let other = score.split(rt.alloc(), &mut seat, Mode::Writer)?;
    assert!(rt; both(&rt, rt.alloc(), &score, seat, other));
    Ok(())
}

/// How often each of two threads takes the lock.
const TURNS_EACH: u64 = 20_000;

/// Takes the lock, waiting while another has it, and gives the book back as it is.
fn has_a_turn<R: Wait>(rt: &R, score: &Score<CountBook>, seat: &mut Seat<CountBook>)
    requires seat { IsSeatOf blocks_of score.now.table.shared.table_id seat.old }
    requires free { (view_of seat.old).hold ≡ None }
    ensures seat { IsSeatOf blocks_of score.now.table.shared.table_id seat.new }
    ensures free { (view_of seat.new).hold ≡ None }
{
    let hold = score.take(rt, seat);
    score.give(seat, hold);
}

/// Has all of its turns.
fn has_turns<R: Wait>(
    rt: &R,
    score: &Score<CountBook>,
    mut seat: Seat<CountBook>,
) -> Seat<CountBook>
    requires seat { IsSeatOf blocks_of score.now.table.shared.table_id seat }
    requires free { (view_of seat).hold ≡ None }
    ensures seat { IsSeatOf blocks_of score.now.table.shared.table_id result }
    ensures free { (view_of result).hold ≡ None }
{
    for _ in 0..TURNS_EACH {
        has_a_turn(rt, score, &mut seat);
    }
    seat
}

/// Both threads have their turns, and then the first seat's has one more, which finds the book as it was.
fn take_turns<R: Threads + Wait + Sync>(
    rt: &R,
    score: &Score<CountBook>,
    one: Seat<CountBook>,
    two: Seat<CountBook>,
) -> bool
    requires one { IsSeatOf blocks_of score.now.table.shared.table_id one }
    requires free { (view_of one).hold ≡ None }
    requires two { IsSeatOf blocks_of score.now.table.shared.table_id two }
    requires other_free { (view_of two).hold ≡ None }
{
    let (mut one, _two) = thread::join(
        rt,
        || -> Seat<CountBook>
            requires { IsSeatOf blocks_of score.now.table.shared.table_id one × ((view_of one).hold ≡ None) }
            ensures { IsSeatOf blocks_of score.entry.now.table.shared.table_id result × ((view_of result).hold ≡ None) }
        { has_turns(rt, score, one) },
        || -> Seat<CountBook>
            requires { IsSeatOf blocks_of score.now.table.shared.table_id two × ((view_of two).hold ≡ None) }
            ensures { IsSeatOf blocks_of score.entry.now.table.shared.table_id result × ((view_of result).hold ≡ None) }
        { has_turns(rt, score, two) },
    );
    let book = score.take(rt, &mut one).into_book();
    book.is_first() && book.len() == 1
}

#[test]
fn one_who_waits_for_the_lock_is_woken(rt: HostRuntime) -> Result<(), Fail> {
    let book = CountBook::new(rt.alloc(), 5)?;
    let Ok((score, mut seat)) = Score::start(rt.alloc(), book) else {
        panic!(rt; "no memory")
    };
    let other = score.split(rt.alloc(), &mut seat, Mode::Keeper)?;
    assert!(rt; take_turns(&rt, &score, seat, other));
    Ok(())
}

#[test]
fn the_holder_pins_the_current_version(rt: HostRuntime) -> Result<(), Fail> {
    let book = CountBook::new(rt.alloc(), 5)?;
    let Ok((score, mut seat)) = Score::start(rt.alloc(), book) else {
        panic!(rt; "no memory")
    };
    let hold = score.take(&rt, &mut seat);
    let pin = score.pin_held(&mut seat, &hold);
    let place = (pin.n(), pin.row());
    score.release(&mut seat, pin);
    let book = hold.into_book();
    assert!(rt; place == (0, 0) && book.is_first() && book.len() == 1);
    Ok(())
}
