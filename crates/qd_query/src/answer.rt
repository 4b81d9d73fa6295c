//! What a query is answered.
ghost use Rattle.std.specs.Prelude.{◌≡◌};
ghost use Rattle.qd_base.specs.declared.code.Code.TheVariants as code;
ghost use Rattle.qd_base.specs.Codes.{number_of};
ghost use Rattle.qd_query.specs.declared.answer.Answer.TheVariants as answer;

use qd_base::{Code, Table};

/// What a query is answered.
#[derive(Debug, Drop)]
pub enum Answer {
    /// Its rows.
    Rows(Table),
    /// Why it has none.
    Refused {
        /// The number of the code.
        code: u8,
        /// Where: an offset in the statement, or 0.
        place: u64,
    },
}

impl Answer {
    /// The answer of a query whose rows have more bytes as CSV than a result may have.
    pub(crate) fn too_large() -> Answer
        ensures refused { result ≡ answer.Refused (number_of code.ResultTooLarge) 0 }
    {
        Answer::Refused {
            code: Code::ResultTooLarge.number(),
            place: 0,
        }
    }

    /// The answer of a query that has more sampled rows than a sample may have, at the place of SAMPLE.
    pub(crate) fn too_many(place: u64) -> Answer
        ensures refused { result ≡ answer.Refused (number_of code.TooManyBuckets) place }
    {
        Answer::Refused {
            code: Code::TooManyBuckets.number(),
            place,
        }
    }
}
