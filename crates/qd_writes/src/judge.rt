//! How the refusals of two parts come together.
ghost use Rattle.std.specs.Prelude.{◌≡◌, ◌++◌, List};
ghost use Rattle.qd_meaning.specs.Refusals.{least};
ghost use Rattle.qd_meaning.specs.declared.refusal.Refusal.{Refusal};

use qd_meaning::{Refusal, least_is_answered, sooner};

/// Gives the refusal that is answered for two parts, of which the first stands before the second.
pub(crate) fn both(first: Option<Refusal>, second: Option<Refusal>) -> Option<Refusal>
    ensures least { (xs ys : List Refusal) → first ≡ least xs → second ≡ least ys → result ≡ least (xs ++ ys) }
{
    least_is_answered();
    sooner(first, second)
}
