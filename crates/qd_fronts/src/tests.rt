//! Each protocol, by its front.
use crate::{AnyFront, FrontKind};
use qd_base::{Front, Reply, Request, Step};
use std::alloc::Global;
use std::process::Abort;
use std::test::Fail;

/// Asks to apply by these bytes, and compares the reply.
fn applies(
    rt: &(impl Abort + AllocGlobal),
    kind: FrontKind,
    input: &[u8],
    wanted: &[u8],
) -> Result<(), Fail> {
    let alloc: Global = rt.alloc();
    let mut front = AnyFront::new(alloc, kind);
    front.feed(alloc, input)?;
    let step = front.next_step(alloc)?;
    assert!(rt; matches!(step, Step::Ask(Request::Apply)));
    let text = front.reply(alloc, &Reply::Applied { n: 1 })?;
    assert_eq!(rt; text.bytes(), wanted);
    assert!(rt; matches!(front.finish(), Step::Clean));
    Ok(())
}

#[test]
fn each_protocol(rt: HostRuntime) -> Result<(), Fail> {
    applies(&rt, FrontKind::Frames, b"A\n", b"A 1\n")?;
    let body =
        b"HTTP/1.1 200 OK\r\nContent-Type: application/json; charset=utf-8\r\nContent-Length: 9\r\n\r\n{\"txn\":1}";
    applies(
        &rt,
        FrontKind::Http,
        b"POST /apply HTTP/1.1\r\n\r\n",
        body.as_slice(),
    )
}

#[test]
fn protocol_of_postgresql(rt: HostRuntime) -> Result<(), Fail> {
    let alloc: Global = rt.alloc();
    let mut front = AnyFront::new(alloc, FrontKind::Pg);
    front.feed(alloc, b"\0\0\0\x08\0\x03\0\0X\0\0\0\x04")?;
    let Step::Say(text) = front.next_step(alloc)? else {
        return Err(Fail::from("nothing was said"));
    };
    assert_eq!(rt; text.bytes(), b"R\0\0\0\x08\0\0\0\0Z\0\0\0\x05I".as_slice());
    let step = front.next_step(alloc)?;
    assert!(rt; matches!(step, Step::Ask(Request::End)));
    assert!(rt; matches!(front.finish(), Step::Clean));
    Ok(())
}
