//! Hosts as a program uses them: clocks and volumes that are taken and given back, over memory and over the machine.
ghost use Rattle.qd_host.specs.Hosts.{ClocksStay};
ghost use Rattle.qd_io.specs.Clocks.{GivesTime, Times};
ghost use Rattle.qd_io.specs.Ends.{Counts, HasRisen};
ghost use Rattle.std.specs.Prelude.{◌≡◌, ◌⊎◌, ◌≤◌, Option};

use super::*;
use qd_io::{Both, Clock, IoFault, MemClock, MemSink, MemSource, Sink};
use qd_net::{Listener, MemDoor, TcpDoor};
use qd_volume::{MemVolume, Volume};
use std::alloc::{AllocError, Global};
use std::collections::VecDeque;
use std::fs;
use std::io::Read;
use std::net::{Ipv4Addr, TcpStream};
use std::test::Fail;

/// Reads the time by a clock of the host's, and gives the clock back: a fault is counted at the host then.
fn time_by<H: Host>(host: &mut H) -> Result<u64, IoFault>
    ensures told { (now : Option Times) × GivesTime (H.supply host.old).clock_times now result }
    ensures counted { Counts (H.supply host.old).clock_faults (H.supply host.new).clock_faults result }
    ensures shelf { (H.supply host.new).shelf ≡ (H.supply host.old).shelf }
{
    let mut clock = host.clock();
    let time = clock.now();
    host.clock_back(clock);
    time
}

#[test]
fn clocks_of_hosts(rt: HostRuntime) -> Result<(), Fail> {
    let mut host = MemHost::new(rt.alloc(), MemVolume::new(rt.alloc(), &[])?, &[])?;
    host.set_clock(MemClock::new(rt.alloc(), &[7, 8], &[])?);
    assert_eq!(rt; time_by(&mut host), Ok(7));
    assert_eq!(rt; time_by(&mut host), Ok(0));
    let time = time_by(&mut StdHost::new(rt, rt.alloc())).unwrap_or(0);
    assert!(rt; time > 1_704_067_200_000_000);
    Ok(())
}

/// Writes bytes behind those of file 7 of the host's volume, reads them all, and puts the volume back.
fn grows_by<H: Host>(
    host: &mut H,
    alloc: Global,
    dir: Option<&[u8]>,
    bytes: &[u8],
) -> Result<[u8; 4], IoFault>
    ensures clocks { ClocksStay (H.supply host.old) (H.supply host.new) }
{
    let mut volume = host.volume(alloc, dir)?;
    let outcome = grow(&mut volume, bytes);
    host.put_back(volume);
    outcome
}

fn grow<V: Volume>(volume: &mut V, bytes: &[u8]) -> Result<[u8; 4], IoFault> {
    let len = volume.len(7)?;
    volume.write_at(7, len, bytes)?;
    volume.sync(7)?;
    volume.cut(7, 4)?;
    volume.remove(8)?;
    let mut buf = [b'.'; 4];
    volume.read(7, 0, &mut buf)?;
    Ok(buf)
}

#[test]
fn volumes_of_a_host_in_memory(rt: HostRuntime) -> Result<(), Fail> {
    let alloc = rt.alloc();
    let mut host = MemHost::new(alloc, MemVolume::new(alloc, &[])?, &[])?;
    assert_eq!(rt; grows_by(&mut host, alloc, None, b"ab"), Ok(*b"ab.."));
    assert_eq!(rt;
        grows_by(&mut host, alloc, Some(b"any"), b"cd"),
        Ok(*b"abcd")
    );
    let volume = host.volume(alloc, None)?;
    assert!(rt; host.shelf().is_none());
    assert_eq!(rt; volume.faults(), 0);
    assert!(rt; grows_by(&mut host, alloc, None, b"x").is_err());
    Ok(())
}

const FOLDER: &str = "qd_host_folder";

#[test]
fn volumes_of_the_machine(rt: HostRuntime) -> Result<(), Fail> {
    let alloc = rt.alloc();
    let folder = Some(FOLDER.as_bytes());
    let _ = fs::remove_dir_all(&rt, FOLDER);
    let mut host = StdHost::new(rt, alloc);
    assert_eq!(rt; grows_by(&mut host, alloc, None, b"ab"), Ok(*b"ab.."));
    assert_eq!(rt; grows_by(&mut host, alloc, folder, b"x"), Ok(*b"x..."));
    // Each keeps its own.
    assert_eq!(rt; grows_by(&mut host, alloc, None, b"cd"), Ok(*b"abcd"));
    assert_eq!(rt; grows_by(&mut host, alloc, folder, b"y"), Ok(*b"xy.."));
    // A folder that is lent isn't lent again.
    let _lent = host.volume(alloc, folder)?;
    assert!(rt; grows_by(&mut host, alloc, folder, b"z").is_err());
    fs::remove_dir_all(&rt, FOLDER)?;
    Ok(())
}

/// Writes a byte to the next wire of a listener and gives it back to the host, and says whether there was one.
fn greet_next<H: Host>(host: &mut H, door: &mut H::Lst) -> Result<bool, IoFault>
    ensures clocks { ClocksStay (H.supply host.old) (H.supply host.new) }
    ensures starts { (H.supply host.new).starts_failed ≡ (H.supply host.old).starts_failed }
{
    let Some(mut wire) = door.next_wire()? else {
        return Ok(false);
    };
    let _written = wire.write(b"x");
    host.give_back(wire);
    Ok(true)
}

/// Asks a host for a listener and greets its wires, 100 at most, until the listener fails or none comes; then the listener goes
/// back, too. Gives the number of wires.
fn greets_by<H: Host>(host: &mut H, port: u16) -> Result<u64, IoFault> {
    let mut door = host.listener(port)?;
    let mut ended = Ok(100);
    for count in 0..100 {
        match greet_next(host, &mut door) {
            Ok(true) => {}
            Ok(false) => {
                ended = Ok(count);
                break;
            }
            Err(fault) => {
                ended = Err(fault);
                break;
            }
        }
    }
    host.listener_back(door);
    ended
}

/// A listener over so many wires, which fails at these calls.
fn door(
    alloc: Global,
    count: usize,
    fails: &[u64],
) -> Result<Option<MemDoor<MemWire>>, AllocError> {
    let mut wires = VecDeque::new(alloc);
    for _ in 0..count {
        let source = MemSource::new(alloc, b"", 1, &[])?;
        wires.push_back(Both::new(source, MemSink::new(alloc, 1, &[])?))?;
    }
    Ok(MemDoor::new(alloc, wires, fails).ok())
}

#[test]
fn listeners_of_a_host_in_memory(rt: HostRuntime) -> Result<(), Fail> {
    let alloc = rt.alloc();
    let mut host = MemHost::new(alloc, MemVolume::new(alloc, &[])?, &[])?;
    assert_eq!(rt; greets_by(&mut host, 1), Ok(0));
    let (Some(three), Some(failing)) = (door(alloc, 3, &[])?, door(alloc, 2, &[1])?) else {
        panic!(rt; "no memory")
    };
    host.set_door(three)?;
    assert_eq!(rt; greets_by(&mut host, 1), Ok(3));
    host.set_door(failing)?;
    assert_eq!(rt; greets_by(&mut host, 1), Err(IoFault::Failed));
    assert_eq!(rt; host.wires().len(), 4);
    for wire in host.wires() {
        assert_eq!(rt; wire.sink.bytes(), b"x".as_slice());
    }
    Ok(())
}

#[test]
fn starts_that_a_host_wants_refused(rt: HostRuntime) -> Result<(), Fail> {
    let alloc = rt.alloc();
    let mut host = MemHost::new(alloc, MemVolume::new(alloc, &[])?, &[])?;
    assert!(rt; !host.refuses_starts());
    host.refuse_starts();
    assert!(rt; host.refuses_starts());
    host.starts_back(2);
    host.starts_back(3);
    assert_eq!(rt; host.starts_failed(), 5);
    let mut machine = StdHost::new(rt, alloc);
    machine.starts_back(1);
    assert!(rt; !machine.refuses_starts());
    Ok(())
}

#[test]
fn ports_of_the_machine(rt: HostRuntime) -> Result<(), Fail> {
    let taken = TcpDoor::open(&rt, 0)?;
    let mut host = StdHost::new(rt, rt.alloc());
    let any = host.listener(0)?;
    host.listener_back(any);
    assert!(rt; host.trouble().is_none());
    assert!(rt; matches!(host.listener(taken.port()?), Err(IoFault::Failed)));
    assert!(rt; matches!(host.trouble(), Some(Trouble::Port(..))));
    Ok(())
}

#[test]
fn a_wire_of_the_machine(rt: HostRuntime) -> Result<(), Fail> {
    let mut door = TcpDoor::open(&rt, 0)?;
    let mut peer = TcpStream::connect(&rt, (Ipv4Addr::LOCALHOST, door.port()?))?;
    let mut host = StdHost::new(rt, rt.alloc());
    let Ok(Some(wire)) = door.next_wire() else {
        panic!(rt; "no wire")
    };
    host.give_back(wire);
    assert_eq!(rt; peer.read(&mut [0; 1])?, 0);
    Ok(())
}
