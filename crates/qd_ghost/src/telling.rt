//! A history that only proofs read. It takes no memory, and its methods do nothing at run time.
ghost use Rattle.std.specs.Prelude.{◌≡◌, List, Option, None};
ghost use Rattle.std.specs.Borrow.{ftrue};
ghost use Rattle.qd_base.specs.declared.op.Entry.{Entry};
ghost use Rattle.qd_ghost.specs.History.{grown};

use qd_base::{Duplicate, Memory};
use std::marker::{Model, PhantomData};

/// What may be known behind two values, as one before a step and one after it.
pub trait Turning<A, B> {
    /// Relates what was known before to what is known then.
    ghost turns: { A → B → Option (List Entry) → Option (List Entry) → Type 0 };
}

/// Which entries a value tells of.
pub trait Fitting<X> {
    /// Holds of each entry that the value tells of.
    ghost fits: { X → Entry → Type 0 };
}

/// What has been told so far, or that nothing is known of it.
#[derive(Debug, Drop)]
pub struct Telling {
    pub ghost history: { Option (List Entry) },
}

impl Model for Telling {
    ghost also_owns = { λ _. ftrue };
}

// It owns nothing.
unsafe impl Send for Telling {}

unsafe impl Sync for Telling {}

impl Telling {
    /// Begins at any history; the caller picks it, from what `from` is if it likes.
    pub fn of<X>(from: &X) -> Telling
        ghost start: { Option (List Entry) }
        ensures { result.history ≡ start }
    {
        let _ = from;
        Telling {}
    }

    /// Sets the history to one to which `before` and `after` lead.
    pub fn turn<A, B, F: Turning<A, B>>(&mut self, before: &A, after: &B)
        requires { (then : Option (List Entry)) × F.turns before.now after.now self.old.history then }
        ensures { F.turns before.now after.now self.old.history self.new.history }
    {
        let _ = before;
        let _ = after;
    }

    /// Puts behind the history an entry that fits `teller`.
    pub fn grow<X, F: Fitting<X>>(&mut self, teller: &X)
        requires { (e : Entry) × F.fits teller.now e }
        ensures { (e : Entry) × F.fits teller.now e × (self.new.history ≡ grown self.old.history e) }
    {
        self.turn::<(), X, Behind<F>>(&(), teller);
    }

    /// Lets the history go unknown.
    pub fn forget(&mut self)
        ensures { self.new.history ≡ None }
    {
        *self = Telling::of(&());
    }
}

impl Duplicate for Telling {
    fn copy(&self) -> Result<Telling, Memory> {
        Ok(Telling::of(self))
    }
}

/// One entry more.
struct Behind<F> {
    marker: PhantomData<F>,
}

impl<X, F: Fitting<X>> Turning<(), X> for Behind<F> {
    ghost turns = { λ nothing x before then. (e : Entry) × F.fits x e × (then ≡ grown before e) };
}
