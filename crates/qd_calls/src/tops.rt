//! The program over memory, where the cases of `tests/cases` can't see it: a clock, and calls of each device that fail.
ghost use Rattle.std.specs.Prelude.{◌<◌, ◌≤◌, length};

use qd_base::Txt;
use qd_ghost::Telling;
use qd_host::MemHost;
use qd_io::{MemClock, MemSink, MemSource};
use qd_top::top;
use qd_volume::MemVolume;
use std::alloc::{AllocError, Global};
use std::sync::Wait;
use std::test::Fail;
use std::thread;
use std::time::Clock;

const EXAMPLE: &[u8] = b"W 27\nt v=1i 1704067200000000000\nA\nQ 1\ntX\n";

const ANSWER: &[u8] = b"K 1\nA 1\nR 1 42\nv,timestamp\n1,2024-01-01T00:00:00.000000Z\nX\n";

/// Runs `run` over these, with a clock that gives these times and whose calls of these numbers fail, and gives its status
/// and the output.
fn served<R: thread::Threads + Wait + Clock + Copy + Send + Drop + 'static>(
    rt: &R,
    alloc: Global,
    mut input: MemSource,
    mut output: MemSink,
    times: &[u64],
    clock_fails: &[u64],
) -> Result<(u8, MemSink), AllocError>
    requires { 0 < length times.now }
{
    let mut host = MemHost::new(alloc, MemVolume::new(alloc, &[])?, &[])?;
    host.set_clock(MemClock::new(alloc, times, clock_fails)?);
    let status = run(rt, alloc, &mut host, &mut input, &mut output)?;
    Ok((status, output))
}

/// Runs `run` over these, on a host.
fn run<R: thread::Threads + Wait + Clock + Copy + Send + Drop + 'static>(
    rt: &R,
    alloc: Global,
    host: &mut MemHost,
    input: &mut MemSource,
    output: &mut MemSink,
) -> Result<u8, AllocError> {
    let words = [Txt::from_bytes(alloc, b"run")?];
    Ok(top(
        rt,
        alloc,
        &Telling::of(&()),
        words.as_slice(),
        input,
        output,
        host,
    ))
}

/// Runs `run` over an input on a host, and gives its status and the output.
fn answered<R: thread::Threads + Wait + Clock + Copy + Send + Drop + 'static>(
    rt: &R,
    alloc: Global,
    host: &mut MemHost,
    text: &[u8],
) -> Result<(u8, MemSink), AllocError> {
    let mut input = MemSource::new(alloc, text, 64, &[])?;
    let mut output = MemSink::new(alloc, 64, &[])?;
    let status = run(rt, alloc, host, &mut input, &mut output)?;
    Ok((status, output))
}

/// Runs the example in pieces of so many bytes, where the reads and the writes of these numbers fail.
fn example<R: thread::Threads + Wait + Clock + Copy + Send + Drop + 'static>(
    rt: &R,
    alloc: Global,
    piece: usize,
    reads: &[u64],
    writes: &[u64],
) -> Result<(u8, MemSink), AllocError>
    requires { 1 ≤ piece }
{
    let input = MemSource::new(alloc, EXAMPLE, piece, reads)?;
    let output = MemSink::new(alloc, piece, writes)?;
    served(rt, alloc, input, output, &[0], &[])
}

/// The clock is read for the two batches that lack a time, and fails for the second. A line with a stamp keeps it.
#[test]
fn times_of_the_clock(rt: HostRuntime) -> Result<(), Fail> {
    let alloc = rt.alloc();
    let text =
        b"W 28\nt v=7i 1000\nT v=1i\nlong v=1iW 8\nt v=2i 0W 6\nt v=3iW 9\nt v=4i\nt,A\nQ 1\nt";
    let input = MemSource::new(alloc, text, 64, &[])?;
    let output = MemSink::new(alloc, 64, &[])?;
    let (status, output) = served(&rt, alloc, input, output, &[1_000_000], &[1])?;
    assert_eq!(rt; status, 0);
    let answer = b"K 1\nK 2\nE 42 0\nE 11 2\nA 2\nR 2 102\nv,timestamp\n\
2,1970-01-01T00:00:00.000000Z\n\
7,1970-01-01T00:00:00.000001Z\n\
1,1970-01-01T00:00:01.000000Z\n";
    assert_eq!(rt; output.bytes(), answer.as_slice());
    Ok(())
}

#[test]
fn every_fault(rt: HostRuntime) -> Result<(), Fail> {
    for number in 0..16u64 {
        let (status, output) = example(&rt, rt.alloc(), 5, &[number], &[])?;
        assert_eq!(rt; status == 3, number < 9);
        assert!(rt; ANSWER.starts_with(output.bytes()));
        let (status, output) = example(&rt, rt.alloc(), 5, &[], &[number])?;
        assert_eq!(rt; status == 4, number < 13);
        assert!(rt; ANSWER.starts_with(output.bytes()));
    }
    Ok(())
}

/// A host with a volume whose calls of these numbers fail.
fn host_with(alloc: Global, fails: &[u64]) -> Result<MemHost, AllocError> {
    MemHost::new(alloc, MemVolume::new(alloc, fails)?, &[])
}

/// How many calls of its volume the example takes.
fn calls_of_example<R: thread::Threads + Wait + Clock + Copy + Send + Drop + 'static>(
    rt: &R,
    alloc: Global,
) -> Result<u64, AllocError> {
    let mut host = host_with(alloc, &[])?;
    answered(rt, alloc, &mut host, EXAMPLE)?;
    match host.shelf() {
        Some(volume) => Ok(volume.calls()),
        None => Ok(0),
    }
}

/// Each call of a volume fails once: the store isn't made, with status 5, or a reply says so. A later run has what was acknowledged,
/// and at most the transaction of the write that failed.
#[test]
fn each_call_of_a_volume_fails(rt: HostRuntime) -> Result<(), Fail> {
    let alloc = rt.alloc();
    for number in 0..calls_of_example(&rt, alloc)? {
        let mut host = host_with(alloc, &[number])?;
        let (status, output) = answered(&rt, alloc, &mut host, EXAMPLE)?;
        assert_eq!(rt; status, if output.bytes().is_empty() { 5 } else { 0 });
        let (again, later) = answered(&rt, alloc, &mut host, b"A\n")?;
        assert_eq!(rt; again, 0);
        let is_there = later.bytes() == b"A 1\n".as_slice();
        assert!(rt; is_there || later.bytes() == b"A 0\n".as_slice());
        assert!(rt; is_there || !output.bytes().starts_with(b"K 1\n"));
        assert!(rt; !is_there || status == 0);
    }
    Ok(())
}
