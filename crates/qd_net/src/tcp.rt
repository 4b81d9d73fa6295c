//! Connections over TCP.
ghost use Rattle.std.specs.Prelude.{◌≡◌, IfOk};

use crate::count::count_failure;
use crate::traits::{Listener, Wire};
use qd_io::{Ends, IoFault, Sink, Source, StdSink, StdSource};
use std::io;
use std::io::ErrorKind;
use std::net::{Ipv4Addr, Net, Shutdown, SocketAddr, SocketAddrV4, TcpListener, TcpStream};
use std::time::Duration;

/// How long a read waits for bytes, and a write for room, before it fails, in seconds.
pub const TIMEOUT_SECONDS: u64 = 60;

/// How long a read waits for what a peer still sends behind the last reply to it, in seconds.
pub const DRAIN_SECONDS: u64 = 1;

/// How often such a read is made at most, each of [`DRAINED_BYTES`] at most.
pub const MOST_DRAINED: u32 = 256;

/// How many bytes one such read takes at most.
pub const DRAINED_BYTES: usize = 65_536;

/// A connection over TCP. It counts the reads and the writes that fail.
///
/// It tells nothing of its bytes: a real device tells nothing.
#[derive(Drop)]
pub struct TcpEnd {
    stream: TcpStream,
    reads_failed: u64,
    writes_failed: u64,
}

impl TcpEnd {
    /// A connection with no failures so far, whose reads and writes wait at most [`TIMEOUT_SECONDS`], and whose bytes go out
    /// as they are written. It reads and writes nothing yet and takes no memory.
    pub fn new(stream: TcpStream) -> io::Result<TcpEnd>
        ensures reads { IfOk result (λ end. (⟦<TcpEnd as Ends>⟧.stream end).reads_failed ≡ 0) }
        ensures writes { IfOk result (λ end. (⟦<TcpEnd as Ends>⟧.stream end).writes_failed ≡ 0) }
    {
        let timeout = Some(Duration::from_secs(TIMEOUT_SECONDS));
        stream.set_read_timeout(timeout)?;
        stream.set_write_timeout(timeout)?;
        stream.set_nodelay(true)?;
        Ok(TcpEnd {
            stream,
            reads_failed: 0,
            writes_failed: 0,
        })
    }
}

impl Ends for TcpEnd {
    ghost use Rattle.std.specs.Prelude.{None, []};

    ghost stream = { λ end. record {
      input = None;
      output = None;
      reads_failed = end.reads_failed;
      writes_failed = end.writes_failed;
      input_lent = [];
      output_lent = [];
    } };
}

impl Source for TcpEnd {
    /// Reads once from the socket, and again where a signal interrupted it. Each error of the socket, one for bytes that
    /// didn't come in time among them, is [`IoFault::Failed`] and is counted, up to the greatest `u64`, but for want of
    /// memory, which is [`IoFault::Memory`].
    fn read(&mut self, buf: &mut [u8]) -> Result<usize, IoFault> {
        let read = StdSource::new(&self.stream).read(buf);
        count_failure(&mut self.reads_failed, &read);
        read
    }
}

impl Sink for TcpEnd {
    /// Writes once to the socket, and again where a signal interrupted it. Each error of the socket, one for a peer that
    /// has gone or that didn't take bytes in time among them, and a write that takes nothing of a piece that is not empty, is
    /// [`IoFault::Failed`] and is counted, up to the greatest `u64`, but for want of memory, which is [`IoFault::Memory`].
    fn write(&mut self, bytes: &[u8]) -> Result<usize, IoFault> {
        let written = StdSink::new(&self.stream).write(bytes);
        count_failure(&mut self.writes_failed, &written);
        written
    }
}

impl Wire for TcpEnd {
    /// Says that no more comes, and takes what the peer still sends, up to [`MOST_DRAINED`] reads, until it ends or sends nothing for
    /// [`DRAIN_SECONDS`]. Without that the system would drop replies that the peer hasn't read yet (RFC 9293, 3.6: a reset).
    fn hang_up(&mut self) {
        if self.stream.shutdown(Shutdown::Write).is_ok() {
            drain(&self.stream);
        }
    }
}

/// Takes what a peer still sends, and drops it.
fn drain(stream: &TcpStream) {
    let timeout = Some(Duration::from_secs(DRAIN_SECONDS));
    if stream.set_read_timeout(timeout).is_err() {
        return;
    }
    let mut piece = [0; DRAINED_BYTES];
    for _ in 0..MOST_DRAINED {
        match StdSource::new(stream).read(&mut piece) {
            Ok(0) | Err(_) => return,
            Ok(_) => {}
        }
    }
}

/// A port of this machine that listens, on 127.0.0.1 alone. It counts the calls that fail.
///
/// It tells nothing of who comes, and never answers that no one comes any more.
#[derive(Drop)]
pub struct TcpDoor {
    listener: TcpListener,
    faults: u64,
}

/// What an error of a listening socket means, or `None` where the next connection is to be waited for: a signal interrupted the
/// call (POSIX, EINTR), or the peer had gone before it was taken (ECONNABORTED).
fn fault_of(error: &io::Error) -> Option<IoFault> {
    match error.kind() {
        ErrorKind::Interrupted | ErrorKind::ConnectionAborted => None,
        ErrorKind::OutOfMemory => Some(IoFault::Memory),
        _ => Some(IoFault::Failed),
    }
}

impl TcpDoor {
    /// Listens on the port, or on one that the system picks where it is 0. 128 connections may wait to be taken. It has no
    /// failures so far.
    pub fn open<R: Net<Listener = TcpListener, Stream = TcpStream>>(
        rt: &R,
        port: u16,
    ) -> io::Result<TcpDoor>
        ensures { IfOk result (λ door. (⟦<TcpDoor as Listener>⟧.arrivals door).faults ≡ 0) }
    {
        let address = SocketAddr::V4(SocketAddrV4::new(Ipv4Addr::LOCALHOST, port));
        let listener = TcpListener::bind(rt, address)?;
        Ok(TcpDoor {
            listener,
            faults: 0,
        })
    }

    /// The port that it listens on.
    pub fn port(&self) -> io::Result<u16> {
        Ok(self.listener.local_addr()?.port())
    }

    /// Waits for the next connection. One that is gone before it is taken, or whose socket can't be set up, isn't given.
    fn accept(&self) -> Result<TcpEnd, IoFault> {
        for _ in 0..u64::MAX {
            match self.listener.accept() {
                Ok((stream, _)) => {
                    if let Ok(end) = TcpEnd::new(stream) {
                        return Ok(end);
                    }
                }
                Err(error) => {
                    if let Some(fault) = fault_of(&error) {
                        return Err(fault);
                    }
                }
            }
        }
        Err(IoFault::Failed)
    }
}

impl Listener for TcpDoor {
    type Wire = TcpEnd;

    ghost use Rattle.std.specs.Prelude.{None, false};

    ghost arrivals = { λ door. record { ahead = None; faults = door.faults; closed = false } };

    /// Waits for the next connection. Each error of the listening socket is [`IoFault::Failed`] and is counted, up to the
    /// greatest `u64`, but for want of memory, which is [`IoFault::Memory`].
    fn next_wire(&mut self) -> Result<Option<TcpEnd>, IoFault> {
        let end = self.accept();
        count_failure(&mut self.faults, &end);
        Ok(Some(end?))
    }
}
