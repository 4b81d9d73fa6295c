//! Wires in memory that are served by threads, and one over a port of this machine.
use crate::{MOST, Maker, accept_all};
use qd_io::{Both, IoFault, MemSink, MemSource, Memory, Sink, Source, write_all};
use qd_net::{Listener, MemDoor, TcpDoor};
use qd_threads::{Job, Threads};
use std::alloc::{AllocError, Global};
use std::collections::VecDeque;
use std::io::{Read, Write};
use std::net::{Ipv4Addr, Net, TcpListener, TcpStream};
use std::sync::Wait;
use std::test::Fail;
use std::thread;

/// Reads one byte of a wire, and writes it back.
#[derive(Drop)]
struct Echo<W> {
    wire: W,
}

impl<W: Source + Sink + Send + Drop + 'static> Job for Echo<W> {
    type Out = u64;

    ghost gives = { λ _ _. Unit {0} };

    fn run<R: Wait>(self, rt: &R) -> u64 {
        let _ = rt;
        let Echo { mut wire } = self;
        let mut byte = [0; 1];
        match wire.read(&mut byte) {
            Ok(1) => {}
            _ => return 0,
        }
        match write_all(&mut wire, &byte) {
            Ok(()) => u64::from(byte[0]),
            Err(_) => 0,
        }
    }
}

/// Counts the works that it makes, and adds up what they give.
#[derive(Drop)]
struct Counting {
    made: u64,
    out: usize,
    greatest_out: usize,
    refused: u64,
    sum: u64,
}

impl Counting {
    /// It has made none yet.
    fn new() -> Counting {
        Counting {
            made: 0,
            out: 0,
            greatest_out: 0,
            refused: 0,
            sum: 0,
        }
    }
}

impl<W: Source + Sink + Send + Drop + 'static> Maker<W> for Counting {
    type Work = Echo<W>;

    type Fixed = ();

    ghost works = { λ _ _. Unit {0} };

    ghost fixed = { λ _. tt };

    fn make(&mut self, wire: W) -> Result<Echo<W>, Memory> {
        self.made = self.made.saturating_add(1);
        self.out = self.out.saturating_add(1);
        self.greatest_out = self.greatest_out.max(self.out);
        Ok(Echo { wire })
    }

    fn refused(&mut self, work: Echo<W>) {
        drop(work);
        self.out = self.out.saturating_sub(1);
        self.refused = self.refused.saturating_add(1);
    }

    fn done(&mut self, out: u64) {
        self.out = self.out.saturating_sub(1);
        self.sum = self.sum.saturating_add(out);
    }
}

/// A wire that has this byte to read.
fn wire(alloc: Global, byte: u8) -> Result<Both<MemSource, MemSink>, AllocError> {
    let source = MemSource::new(alloc, &[byte], 1, &[])?;
    let sink = MemSink::new(alloc, 1, &[])?;
    Ok(Both::new(source, sink))
}

/// So many wires, each with a byte of 1.
fn wires(alloc: Global, count: usize) -> Result<VecDeque<Both<MemSource, MemSink>>, Fail> {
    let mut wires = VecDeque::new(alloc);
    for _ in 0..count {
        wires.push_back(wire(alloc, 1)?)?;
    }
    Ok(wires)
}

/// A listener over so many wires.
fn door(
    alloc: Global,
    count: usize,
    fails: &[u64],
) -> Result<Option<MemDoor<Both<MemSource, MemSink>>>, Fail> {
    Ok(MemDoor::new(alloc, wires(alloc, count)?, fails).ok())
}

#[test]
fn each_wire_is_served(rt: HostRuntime) -> Result<(), Fail> {
    let Some(mut door) = door(rt.alloc(), 200, &[])? else {
        panic!(rt; "no memory")
    };
    let mut threads = Threads::new(rt, rt.alloc());
    let mut maker = Counting::new();
    let served = accept_all(&rt, rt.alloc(), &mut door, &mut threads, &mut maker, 0);
    assert_eq!(rt; served, Ok(200));
    assert_eq!(rt;
        (maker.made, maker.sum, maker.refused, maker.out),
        (200, 200, 0, 0)
    );
    assert_eq!(rt; threads.starts_failed(), 0);
    assert!(rt; maker.greatest_out <= MOST);
    Ok(())
}

#[test]
fn no_more_than_asked_for(rt: HostRuntime) -> Result<(), Fail> {
    let Some(mut door) = door(rt.alloc(), 5, &[])? else {
        panic!(rt; "no memory")
    };
    let mut threads = Threads::new(rt, rt.alloc());
    let mut maker = Counting::new();
    let served = accept_all(&rt, rt.alloc(), &mut door, &mut threads, &mut maker, 3);
    assert_eq!(rt; served, Ok(3));
    assert_eq!(rt; (maker.made, maker.out), (3, 0));
    assert!(rt; matches!(door.next_wire(), Ok(Some(_))));
    assert!(rt; matches!(door.next_wire(), Ok(Some(_))));
    assert!(rt; matches!(door.next_wire(), Ok(None)));
    Ok(())
}

#[test]
fn a_start_that_is_refused(rt: HostRuntime) -> Result<(), Fail> {
    let Some(mut door) = door(rt.alloc(), 100, &[])? else {
        panic!(rt; "no memory")
    };
    let mut threads = Threads::new(rt, rt.alloc());
    threads.set_refuses(true);
    let mut maker = Counting::new();
    let served = accept_all(&rt, rt.alloc(), &mut door, &mut threads, &mut maker, 0);
    assert_eq!(rt; served, Ok(100));
    assert_eq!(rt;
        (maker.made, maker.refused, maker.sum, maker.out),
        (100, 100, 0, 0)
    );
    assert_eq!(rt; threads.starts_failed(), 100);
    Ok(())
}

#[test]
fn a_listener_that_fails(rt: HostRuntime) -> Result<(), Fail> {
    let Some(mut door) = door(rt.alloc(), 5, &[2])? else {
        panic!(rt; "no memory")
    };
    let mut threads = Threads::new(rt, rt.alloc());
    let mut maker = Counting::new();
    let served = accept_all(&rt, rt.alloc(), &mut door, &mut threads, &mut maker, 0);
    assert_eq!(rt; served, Err(IoFault::Failed));
    assert_eq!(rt; (maker.made, maker.out), (2, 0));
    Ok(())
}

/// Whether the server of this port sends a byte back.
fn is_echoed<R: Net<Listener = TcpListener, Stream = TcpStream>>(
    rt: &R,
    port: u16,
    byte: u8,
) -> bool {
    let Ok(mut stream) = TcpStream::connect(rt, (Ipv4Addr::LOCALHOST, port)) else {
        return false;
    };
    let mut reply = [0; 1];
    stream.write_all(&[byte]).is_ok() && stream.read_exact(&mut reply).is_ok() && reply == [byte]
}

/// Whether each of three bytes comes back.
fn asks<R: Net<Listener = TcpListener, Stream = TcpStream>>(rt: &R, port: u16) -> bool {
    is_echoed(rt, port, 7) && is_echoed(rt, port, 8) && is_echoed(rt, port, 9)
}

#[test]
fn connections_over_a_port(rt: HostRuntime) -> Result<(), Fail> {
    let mut door = TcpDoor::open(&rt, 0)?;
    let port = door.port()?;
    let client = thread::spawn(&rt, move || asks(&rt, port))?;
    let mut threads = Threads::new(rt, rt.alloc());
    let mut maker = Counting::new();
    let served = accept_all(&rt, rt.alloc(), &mut door, &mut threads, &mut maker, 3);
    assert_eq!(rt; served, Ok(3));
    assert!(rt; client.join(&rt));
    assert_eq!(rt; (maker.made, maker.sum, maker.out), (3, 24, 0));
    Ok(())
}
