//! The front of HTTP.
ghost use Rattle.std.specs.Prelude.{◌≡◌, ℕ, ◌+◌, List, length, false, true, IfOk, OnOk, OnErr};
ghost use Rattle.httparse.specs.Grammar.{RequestHead};
ghost use Rattle.qd_base.specs.declared.request.Request.TheVariants as Request;
ghost use Rattle.qd_base.specs.Script.{TakesStep, ends_with};
ghost use Rattle.qd_http.specs.Responses.{printed};
ghost use Rattle.qd_http.specs.Steps.{BeginsNone, BeginsRequest, IsUnfinished, StepIs, TakesHttp, first_https, https_protocol, turn_of};

use crate::reader::Reader;
use crate::reply::{Asked, print_answer};
use qd_base::{Front, Memory, Reply, Step, Txt};
use std::alloc::Global;
use std::marker::Model;

/// A front that reads requests of HTTP/1.0 and HTTP/1.1, and answers them with JSON.
///
/// `POST /write` is a batch of lines, `GET /exec?query=..` a statement, `POST /apply` asks to apply; what else is asked is
/// refused without being handed on. A head has at most 16,384 bytes and 64 fields, a body 16,777,216 bytes. The connection
/// ends behind a request of HTTP/1.0 and behind one with the field `Connection: close`.
///
/// Contracts see the bytes that were fed and not yet taken, the offset in the input of the first of them, whether the last
/// request was taken, and what the replies answer.
///
/// It takes amortised time linear in the bytes fed, however they are cut: the end of a head is looked for once over its
/// bytes, and its parts are read when it is there; a body is copied once into its text. It keeps room for the most bytes
/// that have waited, and the text of the statement that is answered.
#[derive(Drop)]
pub struct HttpFront {
    reader: Reader,
    asked: Asked,
}

impl Model for HttpFront {
    ghost use Rattle.qd_http.specs.Steps.{Https};
    ghost use Rattle.qd_http.specs.Reading.{https_of, IsSound};

    ghost Value = { Https };

    ghost view = { λ f. https_of f.reader f.asked };

    ghost invariant = { λ f. IsSound f.reader };
}

impl HttpFront {
    /// Makes a front to which nothing has been fed. It takes no memory until something is.
    pub fn new(alloc: Global) -> HttpFront
        ensures empty { result ≡ first_https }
    {
        HttpFront {
            reader: Reader::new(alloc),
            asked: Asked::Nothing,
        }
    }
}

impl Front for HttpFront {
    ghost protocol = { https_protocol };

    /// Takes the next piece of the input, in amortised time linear in the piece. Where no memory is found, or an offset
    /// would pass the last one, nothing is changed.
    fn feed(&mut self, alloc: Global, piece: &[u8]) -> Result<(), Memory> {
        self.reader.feed(piece)
    }

    /// Takes the next request, where it has come whole, and says by itself what is not served. `More` comes exactly where
    /// the bytes that wait are none or may be a request that has not come whole, `Bad` exactly where they are refused, with
    /// the offset of the first. Behind the last request of the connection comes the end. `Clean` never comes. Where no
    /// memory is found, nothing is changed.
    ///
    /// It takes amortised time linear in the bytes that it takes, and memory for the fields of a head and for the text.
    fn next_step(&mut self, alloc: Global) -> Result<Step, Memory>
        ensures exact { IfOk result (TakesHttp self.old self.new) }
        ensures whole { IfOk result (λ step. (head : RequestHead) (body rest : List ℕ) → self.old.closing ≡ false →
            BeginsRequest self.old.waiting head body rest → StepIs (turn_of head body) self.new.asked step) }
        ensures unfinished { IfOk result (λ step. self.old.closing ≡ false → IsUnfinished self.old.waiting → step ≡ Step.More) }
        ensures none { IfOk result (λ step. self.old.closing ≡ false → BeginsNone self.old.waiting → step ≡ Step.Bad self.old.start) }
        ensures end { IfOk result (λ step. self.old.closing ≡ true → step ≡ Step.Ask Request.End) }
        ensures total { OnOk result (self.new.start + length self.new.waiting ≡ self.old.start + length self.old.waiting) }
        ensures step { IfOk result (TakesStep (https_protocol self.old) (https_protocol self.new)) }
        ensures err { OnErr result (self.new ≡ self.old) }
    {
        let taken = self.reader.next_step(alloc)?;
        self.asked = taken.asked;
        Ok(taken.step)
    }

    /// Says how the input ended: `Clean` exactly where no byte waits, else `Bad` with the offset of the first that does.
    /// It changes nothing, takes constant time and no memory.
    fn finish(&mut self) -> Step
        ensures step { result ≡ ends_with (https_protocol self.old) }
        ensures same { self.new ≡ self.old }
    {
        if self.reader.is_empty() {
            Step::Clean
        } else {
            Step::Bad {
                place: self.reader.start,
            }
        }
    }

    /// Prints the response to a reply, in time and memory linear in it. It changes nothing.
    fn reply(&mut self, alloc: Global, reply: &Reply) -> Result<Txt, Memory>
        ensures bytes { IfOk result (λ text. text ≡ printed self.old.asked reply.now) }
        ensures same { self.new ≡ self.old }
    {
        print_answer(alloc, &self.asked, reply)
    }

    fn one_script(&self) {}
}
