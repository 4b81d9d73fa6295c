//! What the request line of a request asks.
ghost use Rattle.std.specs.Prelude.{◌≡◌, codes, IfOk};
ghost use Rattle.qd_http.specs.Targets.{first_named, statement_with, wanted_of, write_with};

use crate::target::{first_named, split_target};
use qd_base::{Memory, Txt};
use std::alloc::Global;

/// Why a request is answered without being asked.
#[derive(Clone, Copy, Debug, PartialEq, Eq)]
pub(crate) enum Refusal {
    /// Nothing is at its path.
    Path,
    /// What is at its path is asked by another method.
    Method,
    /// Its query lacks a pair, or has a value that is not served.
    Query,
}

/// What a request line asks.
#[derive(Debug, Drop)]
pub(crate) enum Wanted {
    /// `POST /write`: its body is a batch of lines.
    Write,
    /// `GET /exec`: this statement.
    Statement(Txt),
    /// `POST /apply`.
    Apply,
    /// Nothing that is served.
    Refused(Refusal),
}

impl Wanted {
    /// Reads a method and a target, in time linear in the target.
    pub fn of(alloc: Global, method: &str, target: &str) -> Result<Wanted, Memory>
        ensures { IfOk result (λ asked. asked ≡ wanted_of method.now target.now) }
    {
        let (path, query) = split_target(target.as_bytes());
        if path == b"/write".as_slice() {
            if method == "POST" {
                write(alloc, query)
            } else {
                Ok(Wanted::Refused(Refusal::Method))
            }
        } else if path == b"/exec".as_slice() {
            if method == "GET" {
                statement(alloc, query)
            } else {
                Ok(Wanted::Refused(Refusal::Method))
            }
        } else if path == b"/apply".as_slice() {
            if method == "POST" {
                Ok(Wanted::Apply)
            } else {
                Ok(Wanted::Refused(Refusal::Method))
            }
        } else {
            Ok(Wanted::Refused(Refusal::Path))
        }
    }
}

// Reads the query of a write: times are in nanoseconds, and a pair may say so.
fn write(alloc: Global, query: &[u8]) -> Result<Wanted, Memory>
    ensures { IfOk result (λ asked. asked ≡ write_with (first_named (codes "precision") query.now)) }
{
    match first_named(alloc, query, "precision")? {
        None => Ok(Wanted::Write),
        Some(unit) if unit.as_str() == "n" || unit.as_str() == "ns" => Ok(Wanted::Write),
        Some(_) => Ok(Wanted::Refused(Refusal::Query)),
    }
}

// Reads the query of a statement.
fn statement(alloc: Global, query: &[u8]) -> Result<Wanted, Memory>
    ensures { IfOk result (λ asked. asked ≡ statement_with (first_named (codes "query") query.now)) }
{
    match first_named(alloc, query, "query")? {
        Some(text) => Ok(Wanted::Statement(Txt::from_bytes(alloc, text.as_bytes())?)),
        None => Ok(Wanted::Refused(Refusal::Query)),
    }
}
