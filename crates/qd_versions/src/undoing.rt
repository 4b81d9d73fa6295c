//! What a publication put that failed before its flip, removed again.
ghost use Rattle.qd_durable.specs.Moments.{Told};
ghost use Rattle.qd_io.specs.Ends.{Counts};
ghost use Rattle.qd_versions.specs.Faults.{CountsPublish, graver, together};
ghost use Rattle.qd_versions.specs.Publishing.{AreNumbered};
ghost use Rattle.qd_versions.specs.Writing.{GivesUp, IsLate, RemovesBlocks};
ghost use Rattle.std.specs.Prelude.{◌≡◌, ℕ, ◌+◌, ◌^◌, ◌≤◌, length, Err};

use crate::fault::PublishFault;
use crate::published::NewBlock;
use qd_column_files::remove_block;
use qd_io::IoFault;
use qd_volume::Volume;

/// The graver one of two faults: that of a volume.
fn graver(first: IoFault, second: IoFault) -> IoFault
    ensures graver { result ≡ graver first second }
{
    match first {
        IoFault::Failed => first,
        IoFault::Memory => second,
    }
}

/// What two calls answer together: the graver fault, where there is any.
fn together(first: Result<(), IoFault>, second: Result<(), IoFault>) -> Result<(), IoFault>
    ensures both { result ≡ together first second }
{
    match first {
        Ok(()) => second,
        Err(one) => match second {
            Ok(()) => Err(one),
            Err(other) => Err(graver(one, other)),
        },
    }
}

/// Removes the files of new blocks, which are numbered upwards: of each of them, also where that of another one
/// fails.
fn remove_blocks<V: Volume>(volume: &mut V, next: u64, blocks: &[NewBlock]) -> Result<(), IoFault>
    requires numbered { AreNumbered next blocks.now }
    requires small { next + length blocks.now ≤ 2 ^ 52 }
    ensures told { Told (V.storage volume.old).disk (V.storage volume.new).disk (RemovesBlocks result next blocks.now) }
    ensures counted { Counts (V.storage volume.old).faults (V.storage volume.new).faults result }
{
    let mut outcome = Ok(());
    for added in blocks {
        let removed = remove_block(volume, added.block);
        outcome = together(outcome, removed);
    }
    outcome
}

/// Removes the files of the new blocks of a publication that failed before its flip, and gives the fault of the
/// publication.
pub(crate) fn give_up<V: Volume>(
    volume: &mut V,
    next: u64,
    blocks: &[NewBlock],
    cause: IoFault,
) -> PublishFault
    requires numbered { AreNumbered next blocks.now }
    requires small { next + length blocks.now ≤ 2 ^ 52 }
    ensures late { IsLate result }
    ensures told { Told (V.storage volume.old).disk (V.storage volume.new).disk (GivesUp result next blocks.now) }
    ensures counted { (before : ℕ) → Counts {T = Unit {0}} before (V.storage volume.old).faults (Err cause) → CountsPublish {T = Unit {0}} before (V.storage volume.new).faults (Err result) }
{
    match remove_blocks(volume, next, blocks) {
        Ok(()) => PublishFault::from(cause),
        Err(fault) => PublishFault::Unremoved(graver(cause, fault)),
    }
}
