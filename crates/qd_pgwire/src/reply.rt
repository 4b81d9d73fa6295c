//! The messages of a reply.
ghost use Rattle.std.specs.Prelude.{◌≡◌, ℕ, ◌+◌, ◌≤◌, List, [], ◌∷◌, ◌++◌, decimal, length, IfOk, OnOk};
ghost use Rattle.qd_base.specs.declared.request.Reply.TheVariants as reply;
ghost use Rattle.qd_pgwire.specs.Replies as spec;
ghost use Rattle.qd_pgwire.specs.Replies.{complete, error, error_head, pg_reply, refusal_text};

use crate::message::{begin, end, push_string};
use crate::rows::push_rows;
use crate::said::push_ready;
use itoa::{Buffer, Integer};
use qd_base::{Memory, Reply, Txt};
use std::alloc::Global;

/// Prints a reply, in time linear in its bytes.
pub(crate) fn print(alloc: Global, given: &Reply) -> Result<Txt, Memory>
    ensures { IfOk result (λ bytes. bytes ≡ pg_reply given.now) }
{
    let mut out = Vec::new(alloc);
    push_reply(&mut out, given)?;
    Ok(Txt::from_vec(out))
}

// Appends a reply.
fn push_reply(out: &mut Vec<u8>, given: &Reply) -> Result<(), Memory>
    ensures { OnOk result (out.new.items ≡ out.old.items ++ pg_reply given.now) }
{
    match given {
        Reply::Done { n } | Reply::Applied { n } => push_done(out, *n),
        Reply::Rows { n, table } => push_rows(out, *n, table),
        Reply::Refused { code, place } => push_refused(out, *code, *place),
        Reply::QueryRefused { n, code, place } => push_query_refused(out, *n, *code, *place),
        Reply::Damaged { file, at } => push_damaged(out, *file, *at),
        Reply::Bye => Ok(()),
    }
}

/// Appends a number in decimal.
pub(crate) fn push_number<I: Integer>(out: &mut Vec<u8>, n: I) -> Result<(), Memory>
    ensures { OnOk result (out.new.items ≡ out.old.items ++ I.text n) }
{
    out.extend_from_slice(Buffer::new().format(n).as_bytes())
}

// Appends the answer to a write that is transaction `n`.
fn push_done(out: &mut Vec<u8>, n: u64) -> Result<(), Memory>
    ensures { OnOk result (out.new.items ≡ out.old.items ++ spec.done n) }
{
    push_complete(out, b"TXN ", n)?;
    push_ready(out)
}

/// Appends CommandComplete with a word and a number.
pub(crate) fn push_complete(out: &mut Vec<u8>, word: &[u8], n: u64) -> Result<(), Memory>
    ensures { OnOk result (out.new.items ≡ out.old.items ++ complete (word.now ++ decimal n)) }
{
    let at = begin(out, b'C')?;
    out.extend_from_slice(word)?;
    push_number(out, n)?;
    out.push(0)?;
    end(out, at)?;
    Ok(())
}

// Appends a refusal, and that the connection is ready, where it goes on.
fn push_refused(out: &mut Vec<u8>, code: u8, place: u64) -> Result<(), Memory>
    ensures { OnOk result (out.new.items ≡ out.old.items ++ spec.refused code place) }
{
    push_refusal(out, code, place)?;
    if code == 1 || code == 50 {
        Ok(())
    } else {
        push_ready(out)
    }
}

/// Appends the error of a refusal.
pub(crate) fn push_refusal(out: &mut Vec<u8>, code: u8, place: u64) -> Result<(), Memory>
    ensures { OnOk result (out.new.items ≡ out.old.items ++ error (refusal_text code place)) }
{
    let at = begin_error(out)?;
    push_place(out, code, place)?;
    end_error(out, at)?;
    Ok(())
}

// Appends the error of a refusal over the first `n` transactions.
fn push_query_refused(out: &mut Vec<u8>, n: u64, code: u8, place: u64) -> Result<(), Memory>
    ensures { OnOk result (out.new.items ≡ out.old.items ++ pg_reply (reply.QueryRefused n code place)) }
{
    let at = begin_error(out)?;
    push_place(out, code, place)?;
    out.extend_from_slice(b" txn ")?;
    push_number(out, n)?;
    end_error(out, at)?;
    push_ready(out)?;
    Ok(())
}

// Appends the error of stored bytes that break their layout.
fn push_damaged(out: &mut Vec<u8>, file: u64, at: u64) -> Result<(), Memory>
    ensures { OnOk result (out.new.items ≡ out.old.items ++ pg_reply (reply.Damaged file at)) }
{
    let begun = begin_error(out)?;
    out.extend_from_slice(b"damaged ")?;
    push_number(out, file)?;
    out.push(b' ')?;
    push_number(out, at)?;
    end_error(out, begun)?;
    push_ready(out)?;
    Ok(())
}

// Begins an error: its severity and its code, up to its text.
fn begin_error(out: &mut Vec<u8>) -> Result<usize, Memory>
    ensures bytes { OnOk result (out.new.items ≡ (out.old.items ++ 69 ∷ 0 ∷ 0 ∷ 0 ∷ 0 ∷ []) ++ error_head) }
    ensures place { IfOk result (λ at. at ≡ length out.old.items + 1) }
{
    let at = begin(out, b'E')?;
    out.extend_from_slice(b"SERROR\0CXX000\0M")?;
    Ok(at)
}

// Ends an error behind its text.
fn end_error(out: &mut Vec<u8>, at: usize) -> Result<(), Memory>
    requires { at + 4 ≤ length out.old.items }
    ensures { (before text : List ℕ) → at ≡ length before + 1
        → out.old.items ≡ (before ++ 69 ∷ 0 ∷ 0 ∷ 0 ∷ 0 ∷ []) ++ (error_head ++ text) → OnOk result (out.new.items ≡ before ++ error text) }
{
    out.extend_from_slice(b"\0\0")?;
    end(out, at)?;
    Ok(())
}

// Appends a code and a place.
fn push_place(out: &mut Vec<u8>, code: u8, place: u64) -> Result<(), Memory>
    ensures { OnOk result (out.new.items ≡ out.old.items ++ refusal_text code place) }
{
    out.extend_from_slice(b"code ")?;
    push_number(out, code)?;
    out.extend_from_slice(b" place ")?;
    push_number(out, place)
}
