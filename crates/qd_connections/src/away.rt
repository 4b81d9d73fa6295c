//! A connection is turned away.
ghost use Rattle.qd_connections.specs.Connections.{IsTurnedAway};

use qd_base::{Code, Front, Reply};
use qd_fronts::{AnyFront, FrontKind};
use qd_io::{Sink, Source, write_all};
use std::alloc::Global;

/// Writes the refusal of a connection for which no thread could be started, as its protocol prints it, as far as there is memory for
/// it and the wire takes it. Nothing is read.
pub(crate) fn turn_away<W: Source + Sink>(alloc: Global, kind: FrontKind, wire: &mut W)
    ensures turned { IsTurnedAway kind (W.Source.stream wire.old) (W.Source.stream wire.new) }
{
    let refusal = Reply::Refused {
        code: Code::NoWorker.number(),
        place: 0,
    };
    let mut front = AnyFront::new(alloc, kind);
    if let Ok(line) = front.reply(alloc, &refusal) {
        let _ = write_all(wire, line.bytes());
    }
}
