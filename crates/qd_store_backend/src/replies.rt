//! How a commit and a question are answered.
ghost use Rattle.std.specs.Prelude.{◌≡◌, ℕ, Ok};
ghost use Rattle.qd_base.specs.Codes.{number_of};
ghost use Rattle.qd_base.specs.declared.request.Reply.TheVariants as reply;
ghost use Rattle.qd_store_backend.specs.Replies.{RepliesOver, RepliesTo};

use qd_base::{Code, Memory, Reply};
use qd_query::Answer;
use qd_scan::PartFault;
use qd_store::{CommitFault, Committed};
use std::alloc::AllocError;

/// The reply to a write.
pub fn reply_of(done: Result<Committed, CommitFault>) -> Result<Reply, Memory>
    ensures reply { RepliesTo done result }
    ensures undamaged { (file : ℕ) (at : ℕ) → result ≡ Ok (reply.Damaged file at) → ⊥ }
{
    match done {
        Ok(Committed { n, writer: _ }) => Ok(Reply::Done { n }),
        Err(CommitFault::Refused { code, place }) => Ok(refused(code, place)),
        Err(CommitFault::Full) => Ok(refused(Code::Full, 0)),
        Err(CommitFault::Vol) => Ok(refused(Code::Volume, 0)),
        Err(CommitFault::Memory) => Err(AllocError),
    }
}

/// The reply to a statement that asks, over the first `n` transactions.
pub fn reply_over(n: u64, answer: Result<Answer, PartFault>) -> Result<Reply, Memory>
    ensures reply { RepliesOver n answer result }
{
    match answer {
        Ok(Answer::Rows(table)) => Ok(Reply::Rows { n, table }),
        Ok(Answer::Refused { code, place }) => Ok(Reply::QueryRefused { n, code, place }),
        Err(PartFault::Vol) => Ok(refused(Code::Volume, 0)),
        Err(PartFault::Damaged { file, at }) => Ok(Reply::Damaged { file, at }),
        Err(PartFault::Memory) => Err(AllocError),
    }
}

/// The refusal with a code at a place.
pub fn refused(code: Code, place: u64) -> Reply
    ensures { result ≡ reply.Refused (number_of code) place }
{
    Reply::Refused {
        code: code.number(),
        place,
    }
}
