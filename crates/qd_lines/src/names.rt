//! Names that are compared.
ghost use Rattle.std.specs.Prelude.{◌≡◌};
ghost use Rattle.qd_base.specs.Schemas.{same_name};

use qd_base::same_name;

/// Says whether two names are one: ASCII case is ignored. Names that are spelled alike, as most are, are compared by groups
/// of bytes.
pub(crate) fn is_name(a: &[u8], b: &[u8]) -> bool
    ensures same { result ≡ same_name a.now b.now }
{
    a == b || same_name(a, b)
}
