//! What a value was, for proofs.
ghost use Rattle.std.specs.Prelude.{◌≡◌};
ghost use Rattle.std.specs.Borrow.{ftrue};

use std::marker::{Model, PhantomData};

/// A value as it was when it was seen. It takes no memory.
#[derive(Drop)]
pub struct Seen<X> {
    marker: PhantomData<X>,
    pub ghost was: { X },
}

impl<X> Model for Seen<X> {
    ghost also_owns = { λ _. ftrue };
}

impl<X> Seen<X> {
    /// Keeps what `x` is now.
    pub fn of(x: &X) -> Seen<X>
        ensures { result.was ≡ x.now }
    {
        let _ = x;
        Seen {
            marker: PhantomData,
        }
    }
}
