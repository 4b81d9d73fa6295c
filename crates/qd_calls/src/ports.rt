//! The program over connections in memory.
use qd_base::Txt;
use qd_ghost::Telling;
use qd_host::{MemHost, MemWire};
use qd_io::{Both, MemSink, MemSource};
use qd_net::MemDoor;
use qd_top::top;
use qd_volume::MemVolume;
use std::alloc::{AllocError, Global};
use std::collections::VecDeque;
use std::sync::Wait;
use std::test::Fail;
use std::thread;
use std::time::Clock;

/// Gives a host a listener whose connections send these, and whose calls of these numbers fail.
fn connect(
    alloc: Global,
    host: &mut MemHost,
    inputs: &[&[u8]],
    fails: &[u64],
) -> Result<(), AllocError> {
    let mut wires: VecDeque<MemWire> = VecDeque::new(alloc);
    for input in inputs {
        let source = MemSource::new(alloc, input, 64, &[])?;
        wires.push_back(Both::new(source, MemSink::new(alloc, 64, &[])?))?;
    }
    match MemDoor::new(alloc, wires, fails) {
        Ok(door) => host.set_door(door),
        Err(_) => Err(AllocError),
    }
}

/// Serves the connections of a host, and gives the status.
fn served<R: thread::Threads + Wait + Clock + Copy + Send + Drop + 'static>(
    rt: &R,
    alloc: Global,
    host: &mut MemHost,
) -> Result<u8, AllocError> {
    let words = [
        Txt::from_bytes(alloc, b"serve")?,
        Txt::from_bytes(alloc, b"80")?,
        Txt::from_bytes(alloc, b"--dir=d")?,
    ];
    let mut input = MemSource::new(alloc, b"", 1, &[])?;
    let mut output = MemSink::new(alloc, 1, &[])?;
    Ok(top(
        rt,
        alloc,
        &Telling::of(&()),
        words.as_slice(),
        &mut input,
        &mut output,
        host,
    ))
}

/// A host with an empty volume.
fn new_host(alloc: Global) -> Result<MemHost, AllocError> {
    MemHost::new(alloc, MemVolume::new(alloc, &[])?, &[])
}

/// What was written to the connection that came back as the one of this number.
fn written(host: &MemHost, number: usize) -> &[u8] {
    match host.wires().get(number) {
        Some(wire) => wire.sink.bytes(),
        None => b"",
    }
}

#[test]
fn a_connection_is_a_session(rt: HostRuntime) -> Result<(), Fail> {
    let alloc = rt.alloc();
    let mut host = new_host(alloc)?;
    connect(
        alloc,
        &mut host,
        &[b"W 11\nt v=1i 9000W 11\nt v=2i 3000A\nQ 1\ntX\n"],
        &[],
    )?;
    assert_eq!(rt; served(&rt, alloc, &mut host)?, 0);
    let answer = b"K 1\nK 2\nA 2\nR 2 72\nv,timestamp\n\
2,1970-01-01T00:00:00.000003Z\n\
1,1970-01-01T00:00:00.000009Z\nX\n";
    assert_eq!(rt; written(&host, 0), answer.as_slice());
    connect(alloc, &mut host, &[b"A\n", b"A\n"], &[])?;
    assert_eq!(rt; served(&rt, alloc, &mut host)?, 0);
    assert_eq!(rt;
        (written(&host, 1), written(&host, 2)),
        (b"A 2\n".as_slice(), b"A 2\n".as_slice())
    );
    Ok(())
}

#[test]
fn no_thread_can_be_started(rt: HostRuntime) -> Result<(), Fail> {
    let alloc = rt.alloc();
    let mut host = new_host(alloc)?;
    connect(alloc, &mut host, &[b"A\n", b"A\n"], &[])?;
    host.refuse_starts();
    assert_eq!(rt; served(&rt, alloc, &mut host)?, 0);
    assert_eq!(rt;
        (written(&host, 0), written(&host, 1)),
        (b"E 50 0\n".as_slice(), b"E 50 0\n".as_slice())
    );
    assert_eq!(rt; host.starts_failed(), 2);
    Ok(())
}

#[test]
fn a_listener_that_fails(rt: HostRuntime) -> Result<(), Fail> {
    let alloc = rt.alloc();
    let mut host = new_host(alloc)?;
    connect(alloc, &mut host, &[b"A\n", b"A\n"], &[1])?;
    assert_eq!(rt; served(&rt, alloc, &mut host)?, 8);
    assert_eq!(rt; host.wires().len(), 1);
    assert!(rt; host.shelf().is_some());
    Ok(())
}
