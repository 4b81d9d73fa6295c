//! Why a statement is refused, and which of several refusals is answered.
ghost use Rattle.std.specs.Prelude.{◌≡◌};
ghost use Rattle.qd_meaning.specs.Refusals as spec;

use qd_base::Code;

/// A refusal of a statement.
#[derive(Clone, Copy, Debug, PartialEq, Eq)]
pub struct Refusal {
    /// Why.
    pub code: Code,
    /// Where: an offset in the statement's bytes, or 0.
    pub place: u64,
}

/// The place of a code in the order in which refusals are answered; codes that no statement gets share the last one.
fn rank(code: Code) -> u8
    ensures { result ≡ spec.rank code }
{
    match code {
        Code::NotBuilt => 1,
        Code::SqlSyntax => 2,
        Code::NumberRange => 3,
        Code::Name => 4,
        Code::UnknownTable => 5,
        Code::TableExists => 6,
        Code::Tables => 7,
        Code::Columns => 8,
        Code::DuplicateColumn => 9,
        Code::UnknownColumn => 10,
        Code::Ambiguous => 11,
        Code::Keys => 12,
        Code::Types => 13,
        Code::TimeLiteral => 14,
        Code::TextTooLong => 15,
        Code::TooManyBuckets => 16,
        Code::ResultTooLarge => 17,
        _ => 18,
    }
}

impl Refusal {
    /// Whether this refusal is answered rather than another one: by the order of codes, then by place. Of two that are alike
    /// the first is.
    pub fn goes_first(self, other: Refusal) -> bool
        ensures first { result ≡ spec.goes_first self other }
    {
        let (mine, others) = (rank(self.code), rank(other.code));
        mine < others || (mine == others && self.place <= other.place)
    }
}

/// Of the refusals answered for two parts of a statement, gives the one that is answered for both. It takes constant time.
pub fn sooner(first: Option<Refusal>, second: Option<Refusal>) -> Option<Refusal>
    ensures least { result ≡ spec.sooner first second }
{
    match (first, second) {
        (None, other) => other,
        (Some(refusal), None) => Some(refusal),
        (Some(refusal), Some(other)) => Some(if refusal.goes_first(other) {
            refusal
        } else {
            other
        }),
    }
}
