//! The classes of values, by which operators take them.
ghost use Rattle.std.specs.Prelude.{◌≡◌, ◌&&◌, Option, Some};
ghost use Rattle.qd_value.specs.Cells as cells;
ghost use Rattle.qd_meaning.specs.Typing as typing;
ghost use Rattle.qd_bind.specs.Seen as seen;
ghost use Rattle.qd_bind.specs.Steps as steps;

use qd_base::ColType;

/// The class of an expression's values.
#[derive(Clone, Copy, Debug, PartialEq, Eq)]
pub enum Class {
    /// It goes with each class, as NULL does.
    Any,
    /// Numbers.
    Number,
    /// Truth values.
    Truth,
    /// Texts.
    Text,
    /// Times.
    Time,
}

impl Class {
    /// Gives the class of a column's values.
    pub fn of(kind: ColType) -> Class
        ensures class { result ≡ seen.class (Some (typing.class_of_kind kind)) }
    {
        match kind {
            ColType::Long => Class::Number,
            ColType::Bool => Class::Truth,
            ColType::Symbol | ColType::Varchar => Class::Text,
            ColType::Time => Class::Time,
        }
    }

    /// Says whether values of the two classes may be compared.
    #[tactic(auto, using(crate::proofs::StepLemmas::agrees_met))]
    pub fn agrees(self, other: Class) -> bool
        ensures agrees { result ≡ steps.agrees self other }
        ensures classes { (c d : Option cells.Class) → self ≡ seen.class c → other ≡ seen.class d → result ≡ typing.agree c d }
    {
        match (self, other) {
            (Class::Any, _) | (_, Class::Any) => true,
            (Class::Number, Class::Number) => true,
            (Class::Truth, Class::Truth) => true,
            (Class::Text, Class::Text) => true,
            (Class::Time, Class::Time) => true,
            _ => false,
        }
    }

    /// Says whether values of both classes may stand where this one is asked for.
    pub(crate) fn takes(self, x: Class, y: Class) -> bool
        ensures takes { result ≡ (steps.agrees self x && steps.agrees self y) }
    {
        self.agrees(x) && self.agrees(y)
    }

    /// Says whether of two values it may be told which is less.
    #[tactic(auto, using(crate::proofs::StepLemmas::order_met))]
    pub fn has_order(self) -> bool
        ensures order { result ≡ steps.has_order self }
        ensures classes { (c : Option cells.Class) → self ≡ seen.class c → result ≡ typing.has_order c }
    {
        matches!(self, Class::Any | Class::Number | Class::Time)
    }

    /// Gives the class that two have in common, where they agree.
    pub(crate) fn with(self, other: Class) -> Class
        ensures class { result ≡ steps.with self other }
    {
        match self {
            Class::Any => other,
            _ => self,
        }
    }
}
