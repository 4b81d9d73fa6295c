//! Wires in memory, and a connection over a port of this machine.
use crate::{Listener, MemDoor, TcpDoor};
use qd_io::{Both, IoFault, MemSink, MemSource, Sink, Source, write_all};
use std::alloc::{AllocError, Global};
use std::collections::VecDeque;
use std::io::{Read, Write};
use std::net::{Shutdown, TcpStream};
use std::test::Fail;

/// A wire that has this byte to read.
fn wire(alloc: Global, byte: u8) -> Result<Both<MemSource, MemSink>, AllocError> {
    let source = MemSource::new(alloc, &[byte], 1, &[])?;
    let sink = MemSink::new(alloc, 1, &[])?;
    Ok(Both::new(source, sink))
}

#[test]
fn wires_in_memory(rt: HostRuntime) -> Result<(), Fail> {
    let mut wires = VecDeque::new(rt.alloc());
    wires.push_back(wire(rt.alloc(), 7)?)?;
    wires.push_back(wire(rt.alloc(), 8)?)?;
    let Ok(mut door) = MemDoor::new(rt.alloc(), wires, &[1]) else {
        panic!(rt; "no memory")
    };
    assert_eq!(rt; door.left(), 2);
    let mut byte = [0; 1];
    let Ok(Some(mut first)) = door.next_wire() else {
        panic!(rt; "no wire")
    };
    assert_eq!(rt; first.read(&mut byte), Ok(1));
    assert_eq!(rt; byte, [7]);
    assert!(rt; matches!(door.next_wire(), Err(IoFault::Failed)));
    let Ok(Some(mut second)) = door.next_wire() else {
        panic!(rt; "no wire")
    };
    assert_eq!(rt; second.read(&mut byte), Ok(1));
    assert_eq!(rt; byte, [8]);
    assert!(rt; matches!(door.next_wire(), Ok(None)));
    assert!(rt; matches!(door.next_wire(), Ok(None)));
    let mut nobody: MemDoor<Both<MemSource, MemSink>> = MemDoor::none(rt.alloc());
    assert!(rt; matches!(nobody.next_wire(), Ok(None)));
    Ok(())
}

#[test]
fn a_connection_over_a_port(rt: HostRuntime) -> Result<(), Fail> {
    let mut door = TcpDoor::open(&rt, 0)?;
    let address = (std::net::Ipv4Addr::LOCALHOST, door.port()?);
    let mut peer = TcpStream::connect(&rt, address)?;
    let Ok(Some(mut end)) = door.next_wire() else {
        panic!(rt; "no wire")
    };
    peer.write_all(b"hello")?;
    peer.shutdown(Shutdown::Write)?;
    let mut buf = [0; 8];
    for byte in 0..5 {
        assert_eq!(rt; end.read(&mut buf[byte..byte + 1]), Ok(1));
    }
    assert_eq!(rt; buf, *b"hello\0\0\0");
    assert_eq!(rt; end.read(&mut buf), Ok(0));
    assert_eq!(rt; write_all(&mut end, b"bye"), Ok(()));
    drop(end);
    let mut reply = [0; 3];
    peer.read_exact(&mut reply)?;
    assert_eq!(rt; reply, *b"bye");
    assert_eq!(rt; peer.read(&mut reply)?, 0);
    Ok(())
}

#[test]
fn a_peer_that_has_gone_fails_a_write(rt: HostRuntime) -> Result<(), Fail> {
    let mut door = TcpDoor::open(&rt, 0)?;
    let address = (std::net::Ipv4Addr::LOCALHOST, door.port()?);
    let peer = TcpStream::connect(&rt, address)?;
    let Ok(Some(mut end)) = door.next_wire() else {
        panic!(rt; "no wire")
    };
    drop(peer);
    let mut failed = false;
    for _ in 0..100_000 {
        if end.write(b"more") == Err(IoFault::Failed) {
            failed = true;
            break;
        }
    }
    assert!(rt; failed);
    Ok(())
}
