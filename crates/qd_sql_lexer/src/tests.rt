//! Tests of what no clause says: that texts are cut as they are meant to be.
use crate::cut::tokens;
use crate::token::{Kind, Token};
use std::process::Abort;
use std::test::Fail;

/// A text, and the kind, first offset and last offset of each of its tokens.
type Case = (&'static [u8], &'static [(Kind, u64, u64)]);

const CASES: [Case; 26] = [
    (b"", &[]),
    (b" \t\r\n-- only a comment", &[]),
    (b"trades", &[(Kind::Word, 0, 6)]),
    (b"a--b\n_c1", &[(Kind::Word, 0, 1), (Kind::Word, 5, 8)]),
    (b"x--", &[(Kind::Word, 0, 1)]),
    (
        b"a - - b",
        &[
            (Kind::Word, 0, 1),
            (Kind::Minus, 2, 3),
            (Kind::Minus, 4, 5),
            (Kind::Word, 6, 7),
        ],
    ),
    (
        b"\"a b\".c",
        &[(Kind::Quoted, 0, 5), (Kind::Dot, 5, 6), (Kind::Word, 6, 7)],
    ),
    (b"\"\"", &[(Kind::Bad, 0, 2)]),
    (b"\"a", &[(Kind::Bad, 0, 2)]),
    (b"\"\xff\" a", &[(Kind::Bad, 0, 5)]),
    (b"''", &[(Kind::Text, 0, 2)]),
    (b"'it''s'", &[(Kind::Text, 0, 7)]),
    (b"'a'''", &[(Kind::Text, 0, 5)]),
    (b"a 'b''", &[(Kind::Word, 0, 1), (Kind::Bad, 2, 6)]),
    (b"'\xc3' x", &[(Kind::Bad, 0, 5)]),
    (b"'\xc3\xa9'", &[(Kind::Text, 0, 4)]),
    (b"007", &[(Kind::Number, 0, 3)]),
    (b"15m 1y", &[(Kind::Stride, 0, 3), (Kind::Stride, 4, 6)]),
    (b"1 h", &[(Kind::Number, 0, 1), (Kind::Word, 2, 3)]),
    (b"1H", &[(Kind::Bad, 0, 2)]),
    (b"1hh", &[(Kind::Bad, 0, 3)]),
    (
        b"1.5",
        &[
            (Kind::Number, 0, 1),
            (Kind::Dot, 1, 2),
            (Kind::Number, 2, 3),
        ],
    ),
    (
        b"<=<><",
        &[
            (Kind::LessEqual, 0, 2),
            (Kind::NotEqual, 2, 4),
            (Kind::Less, 4, 5),
        ],
    ),
    (
        b">=!= !",
        &[
            (Kind::GreaterEqual, 0, 2),
            (Kind::NotEqual, 2, 4),
            (Kind::Bad, 5, 6),
        ],
    ),
    (b"a -- \xc3(\nb", &[(Kind::Word, 0, 1), (Kind::Bad, 5, 9)]),
    (b"a \xc3\xa9 b", &[(Kind::Word, 0, 1), (Kind::Bad, 2, 6)]),
];

/// Asserts that a token is of a kind, and lies between two offsets.
fn is_cut_so(rt: &impl Abort, token: &Token<'_>, wanted: (Kind, u64, u64)) {
    assert_eq!(rt; (token.kind, token.at, token.end), wanted);
}

#[test]
fn texts_are_cut(rt: HostRuntime) -> Result<(), Fail> {
    for (text, expected) in CASES {
        let found = tokens(rt.alloc(), text)?;
        assert_eq!(rt; found.len(), expected.len());
        for (token, wanted) in found.iter().zip(expected) {
            is_cut_so(&rt, token, *wanted);
        }
    }
    Ok(())
}
