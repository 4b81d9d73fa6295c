//! What follows from the meaning of a host, for whoever stands on it.
ghost use Rattle.qd_host.specs.Hosts.{Supply, after_clock, after_listener, after_starts, after_volume};
ghost use Rattle.qd_io.specs.Ends.{HasRisen, last_count};
ghost use Rattle.qd_volume.specs.Calls.{Storage};
ghost use Rattle.std.specs.Prelude.{◌≡◌, ◌⊎◌, ◌+◌, ◌<◌, ◌≤◌, ℕ};

/// Where a clock, a volume or a listener had a fault since it was lent, the host's count has risen once it is back; and it
/// never falls. The count of refused starts rises by just so many as the host is told of, unless it stands at its greatest
/// number.
pub fn faults_come_back()
    ensures clock { (faults : ℕ) (supply : Supply) → 0 < faults → HasRisen supply.clock_faults (after_clock faults supply).clock_faults }
    ensures clock_never_falls { (faults : ℕ) (supply : Supply) → supply.clock_faults ≤ (after_clock faults supply).clock_faults }
    ensures volume { (storage : Storage) (supply : Supply) → HasRisen supply.lent_faults storage.faults → HasRisen supply.volume_faults (after_volume storage supply).volume_faults }
    ensures volume_never_falls { (storage : Storage) (supply : Supply) → supply.volume_faults ≤ (after_volume storage supply).volume_faults }
    ensures listener { (faults : ℕ) (supply : Supply) → 0 < faults → HasRisen supply.listener_faults (after_listener faults supply).listener_faults }
    ensures listener_never_falls { (faults : ℕ) (supply : Supply) → supply.listener_faults ≤ (after_listener faults supply).listener_faults }
    ensures starts { (refused : ℕ) (supply : Supply) → ((after_starts refused supply).starts_failed ≡ supply.starts_failed + refused) ⊎ (last_count ≤ (after_starts refused supply).starts_failed) }
{}
