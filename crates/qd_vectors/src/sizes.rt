//! What the values take at run time: nothing.
use qd_base::Duplicate;
use qd_ghost::{Fitting, Seen, Telling, Turning};
use std::test::Fail;

/// A step of nothing.
struct Stays;

impl Turning<u64, u64> for Stays {
    ghost use Rattle.std.specs.Prelude.{◌≡◌};

    ghost turns = { λ a b before then. then ≡ then };
}

/// Every entry fits.
struct Any;

impl Fitting<u64> for Any {
    ghost use Rattle.std.specs.Prelude.{◌≡◌};

    ghost fits = { λ x e. e ≡ e };
}

#[test]
fn values_for_proofs_take_no_bytes(rt: HostRuntime) -> Result<(), Fail> {
    assert_eq!(rt; size_of::<Telling>(), 0);
    assert_eq!(rt; size_of::<Seen<u64>>(), 0);
    let mut told = Telling::of(&7u64);
    told.turn::<u64, u64, Stays>(&1, &2);
    told.grow::<u64, Any>(&3);
    let copied = told.copy()?;
    told.forget();
    let _seen = Seen::of(&copied);
    Ok(())
}
