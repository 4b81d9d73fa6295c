//! A front of one protocol or another.
ghost use Rattle.std.specs.Prelude.{◌≡◌};
ghost use Rattle.qd_fronts.specs.Fronts.{begun};

use qd_base::{Front, Memory, Reply, Step, Txt};
use qd_frames::FrameFront;
use qd_http::HttpFront;
use qd_pgwire::PgFront;
use std::alloc::Global;

/// The protocol that a connection speaks.
#[derive(Clone, Copy, Debug, PartialEq, Eq)]
pub enum FrontKind {
    /// Frames, and replies as lines.
    Frames,
    /// HTTP/1.0 and 1.1, and replies as JSON.
    Http,
    /// PostgreSQL's protocol 3.0, with simple queries.
    Pg,
}

/// A front of the protocol that a connection speaks. Each call is that of the front inside, and costs as much.
#[derive(Drop)]
pub enum AnyFront {
    /// A front of frames.
    Frames(FrameFront),
    /// A front of HTTP.
    Http(HttpFront),
    /// A front of PostgreSQL's protocol.
    Pg(PgFront),
}

impl AnyFront {
    /// Makes a front of a protocol, to which nothing has been fed. It takes no memory until something is.
    pub fn new(alloc: Global, kind: FrontKind) -> AnyFront
        ensures begun { result ≡ begun kind }
    {
        match kind {
            FrontKind::Frames => AnyFront::Frames(FrameFront::new(alloc)),
            FrontKind::Http => AnyFront::Http(HttpFront::new(alloc)),
            FrontKind::Pg => AnyFront::Pg(PgFront::new(alloc)),
        }
    }
}

impl Front for AnyFront {
    ghost use Rattle.qd_fronts.specs.Fronts.{any_protocol};

    ghost protocol = { any_protocol };

    fn feed(&mut self, alloc: Global, piece: &[u8]) -> Result<(), Memory> {
        match self {
            AnyFront::Frames(front) => front.feed(alloc, piece),
            AnyFront::Http(front) => front.feed(alloc, piece),
            AnyFront::Pg(front) => front.feed(alloc, piece),
        }
    }

    fn next_step(&mut self, alloc: Global) -> Result<Step, Memory> {
        match self {
            AnyFront::Frames(front) => front.next_step(alloc),
            AnyFront::Http(front) => front.next_step(alloc),
            AnyFront::Pg(front) => front.next_step(alloc),
        }
    }

    fn finish(&mut self) -> Step {
        match self {
            AnyFront::Frames(front) => front.finish(),
            AnyFront::Http(front) => front.finish(),
            AnyFront::Pg(front) => front.finish(),
        }
    }

    fn reply(&mut self, alloc: Global, reply: &Reply) -> Result<Txt, Memory> {
        match self {
            AnyFront::Frames(front) => front.reply(alloc, reply),
            AnyFront::Http(front) => front.reply(alloc, reply),
            AnyFront::Pg(front) => front.reply(alloc, reply),
        }
    }

    fn one_script(&self) {
        match self {
            AnyFront::Frames(front) => front.one_script(),
            AnyFront::Http(front) => front.one_script(),
            AnyFront::Pg(front) => front.one_script(),
        }
    }
}
