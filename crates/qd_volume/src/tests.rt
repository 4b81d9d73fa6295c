//! Each volume by the same calls, and what a crash leaves of one in memory, by a table.
ghost use Rattle.qd_io.specs.Ends.{Counts};
ghost use Rattle.qd_volume.specs.Disk.{Image, images_now, reads_of};
ghost use Rattle.std.specs.Prelude.{◌≡◌, IfSome, OnOk};

use super::*;
use qd_io::IoFault;
use std::alloc::Global;
use std::fs;
use std::process::Abort;
use std::test::Fail;

/// A call that changes file 7 of a volume.
#[derive(Clone, Copy)]
enum Step {
    Write(u64, &'static [u8]),
    Cut(u64),
    Sync,
    Remove,
}

fn take<V: Volume>(volume: &mut V, step: Step) -> Result<(), IoFault> {
    match step {
        Step::Write(at, bytes) => volume.write_at(7, at, bytes),
        Step::Cut(len) => volume.cut(7, len),
        Step::Sync => volume.sync(7),
        Step::Remove => volume.remove(7),
    }
}

/// Compares the bytes of file 7, of which there are fewer than 16.
fn holds<V: Volume>(rt: &impl Abort, volume: &mut V, wanted: &[u8]) -> Result<(), IoFault> {
    let mut buf = [0; 16];
    let n = volume.read(7, 0, &mut buf)?;
    assert_eq!(rt; &buf[..n.min(16)], wanted);
    Ok(())
}

use Step::{Cut, Remove, Sync, Write};

/// What is done to a file, and what it reads then.
const READS: [(Step, &[u8]); 8] = [
    (Sync, b""),
    (Write(2, b"llo"), b"\0\0llo"),
    (Write(0, b"he"), b"hello"),
    (Write(7, b"you"), b"hello\0\0you"),
    (Cut(9), b"hello\0\0yo"),
    (Cut(40), b"hello\0\0yo"),
    (Sync, b"hello\0\0yo"),
    (Write(90, b""), b"hello\0\0yo"),
];

/// Takes a volume through its calls: the file is there at the end.
fn goes<V: Volume>(rt: &impl Abort, volume: &mut V) -> Result<(), IoFault> {
    take(volume, Write(0, b"gone"))?;
    take(volume, Remove)?;
    take(volume, Remove)?;
    for (step, wanted) in READS {
        take(volume, step)?;
        holds(rt, volume, wanted)?;
    }
    assert_eq!(rt; volume.len(7), Ok(9));
    assert_eq!(rt; volume.len(8), Ok(0));
    let mut buf = [1; 4];
    assert_eq!(rt; volume.read(7, 7, &mut buf), Ok(2));
    assert_eq!(rt; buf, *b"yo\x01\x01");
    assert_eq!(rt; volume.read(7, u64::MAX, &mut buf), Ok(0));
    Ok(())
}

/// Writes and syncs a file, as a layer above does, over any volume.
fn put<V: Volume>(volume: &mut V, at: u64, bytes: &[u8]) -> Result<(), IoFault>
    ensures durable { OnOk result (IfSome (V.storage volume.new).disk (λ disk. (image : Image) → images_now disk image → image 7 ≡ reads_of disk 7)) }
{
    volume.write_at(7, at, bytes)?;
    volume.sync(7)
}

#[test]
fn volumes_in_memory(rt: HostRuntime) -> Result<(), Fail> {
    let mut record = MemVolume::new(rt.alloc(), &[])?;
    assert_eq!(rt; goes(&rt, &mut record), Ok(()));
    assert_eq!(rt; record.calls(), 23);
    assert_eq!(rt; goes(&rt, &mut FuseVolume::new(record, 23)), Ok(()));
    assert_eq!(rt; goes(&rt, &mut HeapVolume::new(rt.alloc())), Ok(()));
    Ok(())
}

const FOLDER: &str = "qd_volume_folder";

fn open_folder(rt: HostRuntime) -> Result<FolderVolume<HostRuntime>, IoFault> {
    match FolderVolume::open(rt, rt.alloc(), FOLDER.as_bytes()) {
        Ok(volume) => Ok(volume),
        Err(refusal) => Err(refusal.fault()),
    }
}

#[test]
fn a_volume_over_a_folder(rt: HostRuntime) -> Result<(), Fail> {
    let _ = fs::remove_dir_all(&rt, FOLDER);
    let mut volume = open_folder(rt)?;
    assert_eq!(rt; goes(&rt, &mut volume), Ok(()));
    assert_eq!(rt; put(&mut volume, 0, b"H"), Ok(()));
    assert!(rt; open_folder(rt).is_err());
    assert!(rt; volume.close().is_none());
    assert_eq!(rt;
        fs::read(&rt, "qd_volume_folder/0000000000000007")?.as_slice(),
        b"Hello\0\0yo".as_slice()
    );
    fs::remove_dir_all(&rt, FOLDER)?;
    Ok(())
}

/// What is done to a file, the numbers of the calls that fail, and what a crash leaves by the picks 0, 1 and 2.
const CRASHES: [(&[Step], &[u64], [&[u8]; 3]); 6] = [
    (&[Write(2, b"c")], &[], [b"", b"\0\0c", b"\xff\xff\xff"]),
    (
        &[Write(0, b"abcd"), Sync, Write(3, b"xyz")],
        &[],
        [b"abcd", b"abcxyz", b"abc\xff\xff\xff"],
    ),
    (
        &[Write(0, b"abcd"), Sync, Cut(2), Write(2, b"z")],
        &[],
        [b"abcd", b"abz", b"ab\xff"],
    ),
    (
        &[Write(0, b"abcd"), Sync, Remove, Sync],
        &[],
        [b"", b"", b""],
    ),
    (
        &[Write(0, b"abcd"), Sync, Write(1, b"xy")],
        &[2],
        [b"abcd", b"abcd", b"a\xff\xffd"],
    ),
    (
        &[Write(0, b"abcd"), Sync, Cut(3), Sync],
        &[2, 3],
        [b"abcd", b"abcd", b"abc\xff"],
    ),
];

/// Compares what a crash leaves of a volume behind the steps, but for those that fail.
fn leaves(
    rt: &impl Abort,
    alloc: Global,
    fails: &[u64],
    steps: &[Step],
    pick: u64,
    wanted: &[u8],
) -> Result<(), IoFault> {
    let mut volume = MemVolume::new(alloc, fails)?;
    for step in steps {
        let _outcome = take(&mut volume, *step);
    }
    holds(rt, &mut volume.crash(pick)?, wanted)
}

#[test]
fn crashes_of_a_volume_in_memory(rt: HostRuntime) -> Result<(), Fail> {
    for (steps, fails, left) in CRASHES {
        for (pick, wanted) in left.iter().enumerate() {
            leaves(&rt, rt.alloc(), fails, steps, pick as u64, wanted)?;
        }
    }
    Ok(())
}

#[test]
fn a_fuse_stops_a_volume(rt: HostRuntime) -> Result<(), Fail> {
    let mut volume = FuseVolume::new(MemVolume::new(rt.alloc(), &[])?, 3);
    assert_eq!(rt; put(&mut volume, 0, b"ab"), Ok(()));
    assert_eq!(rt; put(&mut volume, 1, b"xy"), Err(IoFault::Failed));
    assert_eq!(rt; volume.len(7), Err(IoFault::Failed));
    holds(&rt, &mut volume.into_inner().crash(2)?, b"a\xff\xff")?;
    Ok(())
}
