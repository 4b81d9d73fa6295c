//! The generated input beside bytes made elsewhere from its description.
use qd_gen::gen_input;
use std::test::Fail;

/// Eight lines: a batch each, with empty ones between them, and the last line, which is late, one batch further on.
const EIGHT_LINES: &[u8] = b"\
W 39\ngen,sensor=s0 v=7i 1704067200000000000\nW 0\nW 0\nW 0\nW 0\nW 0\nW 0\nW 0\nW 0\nW 0\nW 0\nW 0\n\
W 40\ngen,sensor=s1 v=14i 1704067200000000000\nW 0\nW 0\nW 0\nW 0\nW 0\nW 0\nW 0\nW 0\nW 0\nW 0\nW 0\nW 0\n\
W 40\ngen,sensor=s2 v=21i 1704067200000000000\nW 0\nW 0\nW 0\nW 0\nW 0\nW 0\nW 0\nW 0\nW 0\nW 0\nW 0\n\
W 40\ngen,sensor=s0 v=28i 1704067230000000000\nW 0\nW 0\nW 0\nW 0\nW 0\nW 0\nW 0\nW 0\nW 0\nW 0\nW 0\nW 0\n\
W 40\ngen,sensor=s1 v=35i 1704067230000000000\nW 0\nW 0\nW 0\nW 0\nW 0\nW 0\nW 0\nW 0\nW 0\nW 0\nW 0\n\
W 40\ngen,sensor=s2 v=42i 1704067230000000000\nW 0\nW 0\nW 0\nW 0\nW 0\nW 0\nW 0\nW 0\nW 0\nW 0\nW 0\nW 0\n\
W 40\ngen,sensor=s0 v=49i 1704067260000000000\nW 0\nW 0\nW 0\nW 0\nW 0\nW 0\nW 0\nW 0\nW 0\nW 0\nW 0\nW 0\n\
W 40\ngen,sensor=s1 v=56i 1704067260000000000\nW 0\nW 0\nW 0\nW 0\nW 0\nW 0\nW 0\nW 0\nW 0\nW 0\nW 0\n\
A\nQ 47\nSELECT count(), sum(v), min(v), max(v) FROM gen\
Q 43\ngen LATEST ON timestamp PARTITION BY sensor\
Q 56\nSELECT timestamp, count(), last(v) FROM gen SAMPLE BY 6hX\n";

/// The 64-bit checksum FNV-1a of some bytes.
fn checksum(bytes: &[u8]) -> u64 {
    let mut sum: u64 = 0xcbf2_9ce4_8422_2325;
    for b in bytes {
        sum = (sum ^ u64::from(*b)).wrapping_mul(0x100_0000_01b3);
    }
    sum
}

#[test]
fn eight_lines(rt: HostRuntime) -> Result<(), Fail> {
    let input = gen_input(rt.alloc(), 7, 8)?;
    assert!(rt; input.bytes() == EIGHT_LINES);
    Ok(())
}

#[test]
fn lengths_and_checksums(rt: HostRuntime) -> Result<(), Fail> {
    let cases: [(u32, u32, usize, u64); 7] = [
        (0, 0, 565, 10_509_989_679_705_218_247),
        (5, 1, 605, 14_796_979_323_076_033_615),
        (7, 99, 4_696, 4_997_228_205_771_316_651),
        (1, 101, 4_777, 7_897_983_658_836_301_739),
        (1, 8_640, 354_147, 14_858_759_263_852_094_429),
        (u32::MAX, 1_000, 41_655, 10_112_233_067_960_247_525),
        (123_456_789, 10_007, 410_052, 12_212_150_670_197_925_676),
    ];
    for (number, lines, len, sum) in cases {
        let input = gen_input(rt.alloc(), number, lines)?;
        assert!(rt; input.bytes().len() == len && checksum(input.bytes()) == sum);
    }
    Ok(())
}
