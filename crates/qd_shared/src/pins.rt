//! Pins of the current version.
ghost use Rattle.std.specs.Prelude.{◌≡◌, ◌≢◌, ◌<◌, ◌≤◌, IfErr, IfOk};
ghost use Rattle.qd_score.specs.Pinning.{moved_on, pinned_by};
ghost use Rattle.qd_score_model.specs.declared.view.Mode.TheVariants.{Keeper};
ghost use Rattle.qd_score_model.specs.declared.view.Phase.TheVariants.{Idle, Pinned};
ghost use Rattle.qd_score_model.specs.declared.view.Place.{Place};
ghost use Rattle.qd_shared.specs.Passes.{view_of, Looks};
ghost use Rattle.qd_shared.specs.Snaps.{pinned_at, with_phase, IsPinned};

use crate::pass::Pass;
use crate::shared::Shared;
use qd_score::{Moved, Pin};
use qd_volume::Volume;
use std::sync::Wait;

impl<V: Volume + Drop> Shared<V> {
    /// Pins the current version, without the lock and without a wait. `Moved` comes exactly where a newer version was published
    /// meanwhile; then nothing is pinned.
    pub fn pin(&self, pass: &mut Pass<V>) -> Result<Pin, Moved>
        requires pass { pass.old.table ≡ self.now }
        requires idle { (view_of pass.old).phase ≡ Idle }
        requires kind { (view_of pass.old).mode ≢ Keeper }
        ensures table { pass.new.table ≡ pass.old.table }
        ensures origin { pass.new.knows.origin ≡ pass.old.knows.origin }
        ensures pinned { IfOk result (λ p. view_of pass.new ≡ pinned_by (view_of pass.old) (pinned_at p)) }
        ensures fresh { IfOk result (λ p. (view_of pass.old).known ≤ p.n) }
        ensures moved { IfErr result (λ m. (first : Place) × (second : Place) × (first.n < second.n) × (second.n ≡ m.published) × (view_of pass.new ≡ moved_on (view_of pass.old) first second)) }
        ensures newer { IfErr result (λ m. (view_of pass.old).known < m.published) }
    {
        self.score.pin(&mut pass.seat)
    }

    /// Pins the current version in one hold of the lock, where a pin without it found that a newer one was published.
    pub fn pin_held<R: Wait>(&self, rt: &R, pass: &mut Pass<V>, _moved: Moved) -> Pin
        requires pass { pass.old.table ≡ self.now }
        requires idle { (view_of pass.old).phase ≡ Idle }
        requires kind { (view_of pass.old).mode ≢ Keeper }
        ensures holds { Looks (with_phase pass.old (Pinned (pinned_at result))) pass.new }
        ensures current { (view_of pass.new).known ≡ result.n }
    {
        let hold = self.take(rt, &mut pass.seat);
        let pin = self.score.pin_held(&mut pass.seat, &hold);
        self.give(&mut pass.seat, hold);
        pin
    }

    /// Lets the pinned version go, without the lock and without a wait.
    pub fn release(&self, pass: &mut Pass<V>, pin: Pin)
        requires pass { pass.old.table ≡ self.now }
        requires pin { IsPinned pass.old (pinned_at pin) }
        ensures released { pass.new ≡ with_phase pass.old Idle }
    {
        self.score.release(&mut pass.seat, pin);
    }
}
