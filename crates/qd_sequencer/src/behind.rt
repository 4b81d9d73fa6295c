//! The transactions behind a version, read for the schemas that they leave.
ghost use Rattle.qd_durable.specs.Faults.{CountsVol};
ghost use Rattle.qd_volume.specs.Disk.{reads_of};
ghost use Rattle.qd_base.specs.Lawful.{AreSchemas};
ghost use Rattle.qd_seq.specs.Layout.{AreInSegments};
ghost use Rattle.qd_wal.specs.Segments.{file_in};
ghost use Rattle.qd_sequencer.specs.Reading.{AreFollowed, IsNextRead};
ghost use Rattle.std.specs.Prelude.{◌≡◌, ◌^◌, ◌<◌, IfSome, OnOk};

use qd_base::{Schemas, WalRef};
use qd_durable::LogFault;
use qd_validate::follow;
use qd_volume::Volume;
use qd_wal::{read_entry, segment_file};
use std::alloc::Global;

/// Reads the transactions at these places, one behind another, and moves the schemas behind them.
pub(crate) fn follow_all<V: Volume>(
    alloc: Global,
    volume: &mut V,
    refs: &[WalRef],
    schemas: &mut Schemas,
) -> Result<(), LogFault>
    requires segments { AreInSegments refs.now }
    requires sound { AreSchemas schemas.old }
    ensures sound { OnOk result (AreSchemas schemas.new) }
    ensures told { IfSome (V.storage volume.old).disk (λ disk. AreFollowed result refs.now schemas.old schemas.new (reads_of disk)) }
    ensures stays { (V.storage volume.new).disk ≡ (V.storage volume.old).disk }
    ensures counted { CountsVol (V.storage volume.old).faults (V.storage volume.new).faults result }
{
    for at in refs {
        follow_next(alloc, volume, *at, schemas)?;
    }
    Ok(())
}

/// Reads the transaction at a place, and moves the schemas behind it.
fn follow_next<V: Volume>(
    alloc: Global,
    volume: &mut V,
    at: WalRef,
    schemas: &mut Schemas,
) -> Result<(), LogFault>
    requires segment { at.segment < 2 ^ 24 }
    requires sound { AreSchemas schemas.old }
    ensures sound { OnOk result (AreSchemas schemas.new) }
    ensures told { IfSome (V.storage volume.old).disk (λ disk. IsNextRead result at schemas.old schemas.new (reads_of disk (file_in at))) }
    ensures stays { (V.storage volume.new).disk ≡ (V.storage volume.old).disk }
    ensures counted { CountsVol (V.storage volume.old).faults (V.storage volume.new).faults result }
{
    let entry = read_entry(alloc, volume, at)?;
    if follow(schemas, &entry)? {
        return Ok(());
    }
    Err(LogFault::Damaged {
        file: segment_file(at.wal, at.segment),
        at: at.start,
    })
}
