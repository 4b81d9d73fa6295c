//! A shared store, kept by one pass.
ghost use Rattle.std.specs.Arc.{arc_value};
ghost use Rattle.std.specs.Prelude.{◌≡◌};
ghost use Rattle.qd_worker.specs.Worker.{GoesBeside};

use crate::rounds::Housekeep;
use qd_io::IoFault;
use qd_shared::{Pass, RoundFault, Shared};
use qd_volume::Volume;
use std::alloc::{AllocError, Global};
use std::marker::Model;
use std::snapshot::Snapshot;
use std::sync::{Arc, Wait};

/// A shared store, and the pass that rounds are made by.
///
/// Contracts see what the pass was when it came, and what it is.
#[derive(Drop)]
pub struct House<V: Volume + Drop> {
    shared: Arc<Shared<V>>,
    pass: Pass<V>,
    came: Snapshot<Pass<V>>,
}

impl<V: Volume + Drop> Model for House<V> {
    ghost use Rattle.std.specs.Arc.{arc_value};
    ghost use Rattle.std.specs.Prelude.{◌≡◌};
    ghost use Rattle.qd_worker.specs.Worker.{GoesBeside, House};

    ghost Value = { House };

    ghost view = { λ h. record { came = h.came.value; pass = h.pass } };

    ghost invariant = { λ h. (h.pass.table ≡ arc_value h.shared) × GoesBeside h.came.value h.pass };
}

impl<V: Volume + Drop> House<V> {
    /// A store that is kept by a pass of it.
    pub fn of(shared: Arc<Shared<V>>, pass: Pass<V>) -> House<V>
        requires pass { pass.table ≡ arc_value shared }
        ensures { result ≡ record { came = pass; pass = pass } }
    {
        House {
            came: Snapshot::of(&pass),
            shared,
            pass,
        }
    }

    /// The store, once more. It takes no memory; where it is shared too often already, there is an error.
    pub(crate) fn shared(&self) -> Result<Arc<Shared<V>>, AllocError> {
        Arc::try_clone(&self.shared)
    }

    /// Gives the pass back.
    pub fn end(self) -> Pass<V>
        ensures pass { result ≡ self.pass }
        ensures goes { GoesBeside self.came result }
    {
        let House {
            shared: _,
            pass,
            came: _,
        } = self;
        pass
    }
}

impl<V: Volume + Drop> Housekeep for House<V> {
    type Fixed = Pass<V>;

    ghost fixed = { λ h. h.came };

    /// Applies as [`Shared::catch_up`] does.
    fn catch_up<R: Wait>(&mut self, rt: &R, alloc: Global) -> Result<u64, RoundFault> {
        self.shared.catch_up(rt, alloc, &mut self.pass)
    }

    /// Purges as [`Shared::purge`] does.
    fn purge<R: Wait>(&mut self, rt: &R) -> Result<u64, IoFault> {
        self.shared.purge(rt, &mut self.pass)
    }
}
