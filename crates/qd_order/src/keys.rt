//! Values that are lent, as keys that can be ordered.
ghost use Rattle.std.specs.Prelude.{◌≡◌, ◌==◌, true, IfSome};
ghost use Rattle.qd_base.specs.declared.cell.Cell.{Cell};
ghost use Rattle.qd_base.specs.Rows.{cell_eq};
ghost use Rattle.qd_meaning.specs.Ordered.{stands_before};
ghost use Rattle.qd_order.specs.Keys.{lent};
ghost use Rattle.qd_order.specs.Orders.{cell_cmp, class_of, goes_with};
ghost use Rattle.qd_value.specs.Scalars.{cell_of};

use qd_value::Scalar;
use std::cmp::Ordering;

/// A value that is lent, and can be ordered: NULL is least, and false less than true.
#[derive(Clone, Copy, PartialEq, Eq, PartialOrd, Ord)]
pub(crate) enum Key<'a> {
    /// NULL.
    Null,
    /// A number.
    Long(i64),
    /// A truth value.
    Truth(bool),
    /// The bytes of a text.
    Text(&'a [u8]),
    /// Microseconds since 1970-01-01T00:00Z.
    Time(u64),
}

impl<'a> Key<'a> {
    /// A value as a key.
    pub(crate) fn of(value: Scalar<'a>) -> Key<'a>
        ensures same { lent result ≡ cell_of value.entry }
    {
        match value {
            Scalar::Null => Key::Null,
            Scalar::Long(x) => Key::Long(x),
            Scalar::Bool(x) => Key::Truth(x),
            Scalar::Text(x) => Key::Text(x),
            Scalar::Time(x) => Key::Time(x),
        }
    }

    /// How two keys stand.
    #[tactic(auto, using(crate::proofs::Standing::keys_compared))]
    pub(crate) fn compare(self, other: Key<'a>) -> Ordering
        ensures order { result ≡ cell_cmp (lent self.entry) (lent other.entry) }
    {
        self.cmp(&other)
    }

    /// A value with which all keys go that went with this one, and another key too: NULL goes with each, and two values
    /// with each other where they are of one class. There is none where that key is of another class.
    #[tactic(auto, using(crate::proofs::Standing::null_goes, crate::proofs::Standing::alike_goes, crate::proofs::Standing::itself_goes))]
    pub(crate) fn joined(self, other: Key<'a>) -> Option<Key<'a>>
        ensures kept { IfSome result (λ lead. (c : Cell) → goes_with (lent self.entry) c ≡ true → goes_with (lent lead) c ≡ true) }
        ensures added { IfSome result (λ lead. goes_with (lent lead) (lent other.entry) ≡ true) }
    {
        match (self, other) {
            (lead, Key::Null) => Some(lead),
            (Key::Null, key) => Some(key),
            (lead, key) => { if lead.is_alike(key) { Some(lead) } else { None } }
        }
    }

    /// Whether two keys are both NULL, or values of one class.
    fn is_alike(self, other: Key<'a>) -> bool
        ensures { result ≡ (class_of (lent self.entry) == class_of (lent other.entry)) }
    {
        match (self, other) {
            (Key::Null, Key::Null) => true,
            (Key::Long(_), Key::Long(_)) => true,
            (Key::Truth(_), Key::Truth(_)) => true,
            (Key::Text(_), Key::Text(_)) => true,
            (Key::Time(_), Key::Time(_)) => true,
            _ => false,
        }
    }

    /// Whether a key is NULL beside a value, or less than another of its class.
    pub(crate) fn is_below(self, other: Key<'a>) -> bool
        ensures below { result ≡ stands_before (lent self.entry) (lent other.entry) }
    {
        match (self, other) {
            (Key::Null, Key::Null) => false,
            (Key::Null, _) => true,
            (Key::Long(x), Key::Long(y)) => x.cmp(&y).is_lt(),
            (Key::Truth(x), Key::Truth(y)) => x.cmp(&y).is_lt(),
            (Key::Text(x), Key::Text(y)) => x.cmp(y).is_lt(),
            (Key::Time(x), Key::Time(y)) => x.cmp(&y).is_lt(),
            _ => false,
        }
    }

    /// Whether two keys are one value; NULL is NULL.
    pub(crate) fn is_same(self, other: Key<'a>) -> bool
        ensures same { result ≡ cell_eq (lent self.entry) (lent other.entry) }
    {
        match (self, other) {
            (Key::Null, Key::Null) => true,
            (Key::Long(x), Key::Long(y)) => x == y,
            (Key::Truth(x), Key::Truth(y)) => x == y,
            (Key::Text(x), Key::Text(y)) => x == y,
            (Key::Time(x), Key::Time(y)) => x == y,
            _ => false,
        }
    }
}
