//! A record of two pieces that is stopped at each call.
use super::*;
use qd_io::IoFault;
use qd_volume::{FuseVolume, MemVolume, Volume};
use std::alloc::Global;
use std::test::Fail;

/// File 7 after `abcdef` was synced, two pieces were written over `bcd`, and a crash came behind some calls.
fn left_behind(alloc: Global, passes: u64, pick: u64) -> Result<(bool, [u8; 8], usize), IoFault> {
    let mut volume = MemVolume::new(alloc, &[])?;
    write_through(&mut volume, 7, 0, b"abcdef")?;
    let mut fuse = FuseVolume::new(volume, passes);
    let outcome = write_both(&mut fuse, 7, 1, b"xy", b"z");
    let mut left = fuse.into_inner().crash(pick)?;
    let mut buf = [0; 8];
    let n = left.read(7, 0, &mut buf)?;
    Ok((outcome.is_ok(), buf, n))
}

#[test]
fn pieces_stopped_at_each_call(rt: HostRuntime) -> Result<(), Fail> {
    // The number of calls that pass, and the file that is left by the picks 0, 1 and 2.
    let cases: [(u64, [&[u8]; 3]); 4] = [
        (0, [b"abcdef", b"abcdef", b"abcdef"]),
        (1, [b"abcdef", b"axydef", b"a\xff\xffdef"]),
        (2, [b"abcdef", b"axyzef", b"a\xff\xff\xffef"]),
        (3, [b"axyzef", b"axyzef", b"axyzef"]),
    ];
    for (passes, left) in cases {
        for pick in 0..3 {
            let (is_done, buf, n) = left_behind(rt.alloc(), passes, pick)?;
            let wanted = left[pick as usize];
            assert_eq!(rt; is_done, passes == 3);
            assert_eq!(rt; n, wanted.len());
            assert_eq!(rt; &buf[..n.min(8)], wanted);
        }
    }
    Ok(())
}
