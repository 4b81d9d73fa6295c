//! Lines of words, and what they ask for, where no case of the built program says it.
use super::{Command, Spoken, read_words};
use qd_base::{Memory, Txt};
use std::alloc::Global;
use std::test::Fail;

/// What some words ask for.
fn asked(alloc: Global, words: &[&[u8]]) -> Result<Option<Command>, Memory> {
    let mut texts = Vec::new(alloc);
    for word in words {
        texts.push(Txt::from_bytes(alloc, word)?)?;
    }
    read_words(alloc, texts.as_slice())
}

/// Lines of words that ask for nothing.
const OTHERS: [&[&[u8]]; 46] = [
    &[b"run "],
    &[b"-"],
    &[b"--"],
    &[b"--", b"run"],
    &[b"--dir", b"run"],
    &[b"--dir=", b"run"],
    &[b"--dir", b"", b"run"],
    &[b"--dir", b"a", b"run", b"--dir", b"b"],
    &[b"--dir=a", b"run", b"run"],
    &[b"--dir", b"a", b"b", b"run"],
    &[b"run", b"--dir", b"-d"],
    &[b"run", b"--dir=-d"],
    &[b"--dir", b"--dir", b"d", b"run"],
    &[b"run", b"--dir", b"d", b"--"],
    &[b"run", b"--dird"],
    &[b"run", b"-dir=d"],
    &[b"run", b"--dir d"],
    &[b"run --dir=d"],
    &[b"--dir", b"d", b"gen", b"1", b"1"],
    &[b"gen", b"1", b"1e3"],
    &[b"gen", b"4294967296", b"1"],
    &[b"ru\xffn"],
    &[b"--dir=\xed\xa0\x80", b"run"],
    &[b"--dir", b"d\xc3", b"run"],
    &[b"serve", b"--dir", b"d"],
    &[b"serve", b"1"],
    &[b"serve", b"0", b"--dir", b"d"],
    &[b"serve", b"65536", b"--dir", b"d"],
    &[b"serve", b"080", b"--dir", b"d"],
    &[b"serve", b"1", b"2", b"--dir", b"d"],
    &[b"serve", b"1", b"--dir", b"--connections", b"2"],
    &[b"serve", b"1", b"--dir=d", b"--connections"],
    &[b"serve", b"1", b"--dir=d", b"--connections="],
    &[b"serve", b"1", b"--dir=d", b"--connections=0"],
    &[b"serve", b"1", b"--dir=d", b"--connections=1000001"],
    &[b"serve", b"1", b"--dir=d", b"--connections", b"+1"],
    &[
        b"serve",
        b"1",
        b"--dir=d",
        b"--connections=1",
        b"--connections=1",
    ],
    &[b"serve", b"1", b"--dir=d", b"--connection", b"1"],
    &[b"run", b"--dir=d", b"--connections=1"],
    &[b"gen", b"1", b"1", b"--connections=1"],
    &[b"serve", b"1", b"--dir=d", b"--front"],
    &[b"serve", b"1", b"--dir=d", b"--front="],
    &[b"serve", b"1", b"--dir=d", b"--front", b"HTTP"],
    &[b"serve", b"1", b"--dir=d", b"--front=http", b"--front=http"],
    &[b"run", b"--dir=d", b"--front=frames"],
    &[b"gen", b"1", b"1", b"--front", b"http"],
];

#[test]
fn other_words(rt: HostRuntime) -> Result<(), Fail> {
    for words in OTHERS {
        assert!(rt; asked(rt.alloc(), words)?.is_none());
    }
    Ok(())
}

/// Whether what was found is to serve so many lines of such a number.
fn generates(found: &Option<Command>, first: u32, count: u32) -> bool {
    match found {
        Some(Command::Gen { number, lines }) => *number == first && *lines == count,
        _ => false,
    }
}

#[test]
fn words_at_the_ends_of_numbers(rt: HostRuntime) -> Result<(), Fail> {
    let least = asked(rt.alloc(), &[b"gen", b"0", b"1"])?;
    assert!(rt; generates(&least, 0, 1));
    let greatest = asked(rt.alloc(), &[b"gen", b"4294967295", b"1000000"])?;
    assert!(rt; generates(&greatest, u32::MAX, 1_000_000));
    Ok(())
}

/// Whether what was found is to run over a folder of this name.
fn runs_in(found: &Option<Command>, name: &[u8]) -> bool {
    match found {
        Some(Command::Run { dir: Some(dir) }) => dir.bytes() == name,
        _ => false,
    }
}

/// Lines of words that name a folder, and its name.
const FOLDERS: [(&[&[u8]], &[u8]); 9] = [
    (&[b"run", b"--dir", b"d"], b"d"),
    (&[b"--dir=d", b"run"], b"d"),
    (&[b"--dir", b"run", b"run"], b"run"),
    (&[b"run", b"--dir=a=b"], b"a=b"),
    (&[b"--dir==d", b"run"], b"=d"),
    (&[b"run", b"--dir", b"dir=d"], b"dir=d"),
    (&[b"run", b"--dir=\td-"], b"\td-"),
    (&[b"--dir", b" a b ", b"run"], b" a b "),
    (&[b"run", b"--dir", b"M\xc3\xbchle"], b"M\xc3\xbchle"),
];

#[test]
fn words_that_name_a_folder(rt: HostRuntime) -> Result<(), Fail> {
    for (words, name) in FOLDERS {
        assert!(rt; runs_in(&asked(rt.alloc(), words)?, name));
    }
    Ok(())
}

/// Whether what was found is to serve connections at this port, over the folder `d`, so many of them, in frames.
fn serves(found: &Option<Command>, at: u16, most: Option<u32>) -> bool {
    match found {
        Some(
            Command::Serve {
                port,
                dir,
                connections,
                front: Spoken::Frames,
            },
        ) => *port == at && dir.bytes() == b"d".as_slice() && *connections == most,
        _ => false,
    }
}

/// Lines of words that are to serve connections at port 80, three or without end, in frames.
const SERVERS: [(&[&[u8]], Option<u32>); 10] = [
    (&[b"serve", b"80", b"--dir", b"d"], None),
    (&[b"--dir=d", b"serve", b"80"], None),
    (&[b"serve", b"--dir", b"d", b"80"], None),
    (
        &[b"serve", b"80", b"--dir", b"d", b"--connections", b"3"],
        Some(3),
    ),
    (
        &[b"serve", b"80", b"--connections=3", b"--dir", b"d"],
        Some(3),
    ),
    (
        &[b"--connections", b"3", b"--dir=d", b"serve", b"80"],
        Some(3),
    ),
    (&[b"--dir=d", b"--connections=3", b"serve", b"80"], Some(3)),
    (
        &[b"--dir", b"d", b"serve", b"80", b"--connections=3"],
        Some(3),
    ),
    (&[b"--connections=3", b"serve", b"80", b"--dir=d"], Some(3)),
    (&[b"serve", b"80", b"--dir=d", b"--front", b"frames"], None),
];

#[test]
fn words_to_serve_connections(rt: HostRuntime) -> Result<(), Fail> {
    for (words, most) in SERVERS {
        assert!(rt; serves(&asked(rt.alloc(), words)?, 80, most));
    }
    let least: [&[u8]; 3] = [b"serve", b"1", b"--dir=d"];
    assert!(rt; serves(&asked(rt.alloc(), &least)?, 1, None));
    let greatest: [&[u8]; 4] = [b"serve", b"65535", b"--dir=d", b"--connections=1000000"];
    assert!(rt; serves(&asked(rt.alloc(), &greatest)?, 65_535, Some(1_000_000)));
    Ok(())
}

/// Whether what was found is to serve connections in HTTP.
fn speaks_http(found: &Option<Command>) -> bool {
    match found {
        Some(
            Command::Serve {
                front: Spoken::Http,
                ..
            },
        ) => true,
        _ => false,
    }
}

/// Lines of words that are to serve connections in HTTP.
const SPEAKERS: [&[&[u8]]; 3] = [
    &[b"serve", b"80", b"--dir=d", b"--front", b"http"],
    &[b"--front=http", b"serve", b"80", b"--dir", b"d"],
    &[
        b"serve",
        b"--dir=d",
        b"--front=http",
        b"--connections=3",
        b"80",
    ],
];

#[test]
fn words_to_serve_http(rt: HostRuntime) -> Result<(), Fail> {
    for words in SPEAKERS {
        assert!(rt; speaks_http(&asked(rt.alloc(), words)?));
    }
    Ok(())
}

/// Whether what was found is to serve connections in PostgreSQL's protocol.
fn speaks_pg(found: &Option<Command>) -> bool {
    match found {
        Some(
            Command::Serve {
                front: Spoken::Pg,
                ..
            },
        ) => true,
        _ => false,
    }
}

/// Lines of words that are to serve connections in PostgreSQL's protocol.
const PG_SPEAKERS: [&[&[u8]]; 2] = [
    &[b"serve", b"80", b"--dir=d", b"--front", b"pg"],
    &[b"--front=pg", b"serve", b"80", b"--dir", b"d"],
];

#[test]
fn words_to_serve_pg(rt: HostRuntime) -> Result<(), Fail> {
    for words in PG_SPEAKERS {
        assert!(rt; speaks_pg(&asked(rt.alloc(), words)?));
    }
    Ok(())
}
