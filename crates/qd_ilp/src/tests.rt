//! A test of what no clause says: how little a batch keeps of long texts. The cases in `tests/cases` show which lines the
//! program reads and refuses.
use crate::batch::{kept, parse_batch};
use std::alloc::{AllocError, Global};
use std::process::Abort;
use std::test::Fail;

/// A text of so many bytes, which begins so and then repeats a part.
fn repeated(alloc: Global, first: &[u8], part: &[u8], bytes: usize) -> Result<Vec<u8>, AllocError> {
    let mut text = Vec::with_capacity(alloc, bytes)?;
    text.extend_from_slice(first)?;
    for _ in 0..bytes {
        if text.len() >= bytes {
            break;
        }
        text.extend_from_slice(part)?;
    }
    Ok(text)
}

const LONG: usize = 65_536;

/// Asserts what a long text of one form gives: the line, the rows, and the bytes kept, at most twice those of the text.
fn is_read_so(
    rt: &impl Abort,
    alloc: Global,
    first: &[u8],
    part: &[u8],
    answer: (Option<u64>, usize),
) -> Result<(), AllocError> {
    let text = repeated(alloc, first, part, LONG)?;
    let batch = parse_batch(alloc, text.as_slice())?;
    let (rows, pairs, bytes) = kept(&batch);
    assert_eq!(rt; (batch.faulty_line(), rows), answer);
    assert!(rt; pairs <= text.len() / 4 && bytes <= 2 * text.len());
    Ok(())
}

#[test]
fn long_texts_of_one_form_keep_little(rt: HostRuntime) -> Result<(), Fail> {
    let cases: [(&[u8], &[u8], (Option<u64>, usize)); 17] = [
        (b"", b"\n", (None, 0)),
        (b"", b"\r\n", (None, 0)),
        (b"", b"#\n", (None, 0)),
        (b"", b" ", (None, 0)),
        (b"", b"#", (None, 0)),
        (b"", b",", (Some(1), 0)),
        (b"", b"=", (Some(1), 0)),
        (b"", b"n", (Some(1), 0)),
        (b"", b"\\", (Some(1), 0)),
        (b"", b"\r", (Some(1), 0)),
        (b"", b"\0", (Some(1), 0)),
        (b"t v=\"", b"x", (Some(1), 0)),
        (b"t v=\"", b"\\\"", (Some(1), 0)),
        (b"t v=\"", b"\n", (Some(1), 0)),
        (b"t v=1i", b" ", (None, 1)),
        (b"t v=", b"9", (None, 1)),
        (b"t v=1i ", b"9", (None, 1)),
    ];
    for (first, part, answer) in cases {
        is_read_so(&rt, rt.alloc(), first, part, answer)?;
    }
    Ok(())
}
