//! The devices over memory once each, what errors of std become, and the times of a clock of std at their ends.
ghost use Rattle.std.specs.Prelude.{◌≤◌, IfOk};

use super::*;
use std::io;
use std::io::{Error, ErrorKind, Read, Write};
use std::test::Fail;
use std::time::Duration;

#[test]
fn source_over_memory(rt: HostRuntime) -> Result<(), Fail> {
    let mut source = MemSource::new(rt.alloc(), b"hello", 2, &[1])?;
    let mut buf = [0; 4];
    assert_eq!(rt; source.read(&mut buf), Ok(2));
    assert_eq!(rt; buf, *b"he\0\0");
    assert_eq!(rt; source.read(&mut buf), Err(IoFault::Failed));
    assert_eq!(rt; source.read(&mut buf), Ok(2));
    assert_eq!(rt; buf, *b"ll\0\0");
    assert_eq!(rt; source.read(&mut []), Ok(0));
    assert_eq!(rt; source.read(&mut buf), Ok(1));
    assert_eq!(rt; buf, *b"ol\0\0");
    assert_eq!(rt; source.read(&mut buf), Ok(0));
    Ok(())
}

#[test]
fn sink_over_memory(rt: HostRuntime) -> Result<(), Fail> {
    let mut sink = MemSink::new(rt.alloc(), 2, &[1, 4])?;
    assert_eq!(rt; sink.write(b"hello"), Ok(2));
    assert_eq!(rt; sink.write(b"llo"), Err(IoFault::Failed));
    assert_eq!(rt; write_all(&mut sink, b"llo"), Ok(()));
    assert_eq!(rt; sink.bytes(), b"hello".as_slice());
    assert_eq!(rt; write_all(&mut sink, b", you"), Err(IoFault::Failed));
    assert_eq!(rt; write_all(&mut sink, b"!"), Ok(()));
    assert_eq!(rt; sink.bytes(), b"hello!".as_slice());
    Ok(())
}

/// A device of std that is interrupted, moves one byte, finds no memory, moves nothing, and then fails.
#[derive(Drop)]
struct Moody {
    calls: u8,
}

impl Moody {
    /// What the next call answers, where there is room for a byte.
    fn answer(&mut self) -> io::Result<usize>
        ensures { IfOk result (λ n. n ≤ 1) }
    {
        self.calls = self.calls.saturating_add(1);
        match self.calls {
            1 => Err(Error::from(ErrorKind::Interrupted)),
            2 => Ok(1),
            3 => Err(Error::from(ErrorKind::OutOfMemory)),
            4 => Ok(0),
            _ => Err(Error::from(ErrorKind::BrokenPipe)),
        }
    }
}

impl Read for Moody {
    fn read(&mut self, buf: &mut [u8]) -> io::Result<usize> {
        if buf.is_empty() {
            return Ok(0);
        }
        self.answer()
    }
}

impl Write for Moody {
    fn write(&mut self, buf: &[u8]) -> io::Result<usize> {
        if buf.is_empty() {
            return Ok(0);
        }
        self.answer()
    }

    fn flush(&mut self) -> io::Result<()> {
        Ok(())
    }
}

#[test]
fn faults_of_std(rt: HostRuntime) -> Result<(), Fail> {
    let mut source = StdSource::new(Moody { calls: 0 });
    let mut buf = [7; 2];
    assert_eq!(rt; source.read(&mut buf), Ok(1));
    assert_eq!(rt; source.read(&mut buf), Err(IoFault::Memory));
    assert_eq!(rt; source.read(&mut buf), Ok(0));
    assert_eq!(rt; source.read(&mut buf), Err(IoFault::Failed));

    let mut sink = StdSink::new(Moody { calls: 0 });
    assert_eq!(rt; sink.write(b"ab"), Ok(1));
    assert_eq!(rt; sink.write(b"ab"), Err(IoFault::Memory));
    assert_eq!(rt; sink.write(b"ab"), Err(IoFault::Failed));
    assert_eq!(rt; write_all(&mut sink, b"ab"), Err(IoFault::Failed));
    Ok(())
}

#[test]
fn clock_over_memory(rt: HostRuntime) -> Result<(), Fail> {
    let mut clock = MemClock::new(rt.alloc(), &[3, 1, 4], &[1, 5])?;
    assert_eq!(rt; clock.now(), Ok(3));
    assert_eq!(rt; clock.now(), Err(IoFault::Failed));
    assert_eq!(rt; clock.now(), Ok(1));
    assert_eq!(rt; clock.now(), Ok(4));
    assert_eq!(rt; clock.now(), Ok(4));
    assert_eq!(rt; clock.now(), Err(IoFault::Failed));
    assert_eq!(rt; clock.now(), Ok(4));
    Ok(())
}

/// A clock of std that reads so long since 1970, or fails with an error of this kind.
#[derive(Drop)]
struct Wall {
    reading: Result<Duration, ErrorKind>,
}

impl std::time::Clock for Wall {
    fn monotonic(&self) -> io::Result<Duration> {
        self.since_1970()
    }

    fn since_1970(&self) -> io::Result<Duration> {
        match self.reading {
            Ok(reading) => Ok(reading),
            Err(kind) => Err(Error::from(kind)),
        }
    }
}

#[test]
fn clock_over_std(rt: HostRuntime) -> Result<(), Fail> {
    for (reading, time) in [
        (
            Ok(Duration::new(1_704_067_200, 1_999)),
            Ok(1_704_067_200_000_001),
        ),
        (Ok(Duration::new(0, 999)), Ok(0)),
        (
            Ok(Duration::new(18_446_744_073_709, 551_615_999)),
            Ok(u64::MAX),
        ),
        (
            Ok(Duration::new(18_446_744_073_709, 551_616_000)),
            Err(IoFault::Failed),
        ),
        (Ok(Duration::new(u64::MAX, 0)), Err(IoFault::Failed)),
        (Err(ErrorKind::InvalidData), Err(IoFault::Failed)),
        (Err(ErrorKind::Interrupted), Err(IoFault::Failed)),
        (Err(ErrorKind::OutOfMemory), Err(IoFault::Memory)),
    ] {
        let mut clock = StdClock::new(Wall { reading });
        assert_eq!(rt; clock.now(), time);
    }
    Ok(())
}
