//! Laws of what bytes spell and of what is printed. Each is the contract of a function that does nothing.
ghost use Rattle.std.specs.Prelude.{◌≡◌, ℕ, List, ◌∷◌, ◌++◌, Some, flat_map};
ghost use Rattle.json.specs.Text.{content, plain};
ghost use Rattle.qd_base.specs.declared.request.Reply.{Reply};
ghost use Rattle.qd_base.specs.Script.{Ending, Turn, Waiting};
ghost use Rattle.httparse.specs.Grammar.{RequestHead};
ghost use Rattle.qd_http.specs.Json.{escaped};
ghost use Rattle.qd_http.specs.Steps.{BeginsNone, BeginsRequest, HttpSteps, IsUnfinished};

use crate::HttpFront;

impl HttpFront {
    /// Law: a text spells one list of turns and ends in one way, so what a session is asked depends on its bytes alone.
    pub fn one_reading()
        ensures { (at : ℕ) (bytes : List ℕ) (ts us : List Turn) (e f : Ending) →
            HttpSteps at bytes ts e → HttpSteps at bytes us f → (ts ≡ us) × (e ≡ f) }
    {}

    /// Law: a text may be cut anywhere. What waits at the end of the first piece, with the second piece behind it, goes on
    /// with the turns of the whole text.
    pub fn cut_anywhere()
        ensures { (at place : ℕ) (a b rest : List ℕ) (how : Reply → List ℕ) (ts us : List Turn) (e : Ending) →
            HttpSteps at a ts (Waiting rest place how) → HttpSteps place (rest ++ b) us e → HttpSteps at (a ++ b) (ts ++ us) e }
    {}

    /// Law: every text spells some turns, and ends in some way.
    pub fn every_text_has_steps()
        ensures { (at : ℕ) (bytes : List ℕ) → (ts : List Turn) × (e : Ending) × HttpSteps at bytes ts e }
    {}

    /// Law: bytes that wait for more, bytes that are refused, and bytes that begin with a request are never the same.
    pub fn three_ways()
        ensures unfinished { (bytes : List ℕ) → IsUnfinished bytes → BeginsNone bytes → ⊥ }
        ensures whole { (bytes body rest : List ℕ) (head : RequestHead) → BeginsRequest bytes head body rest → IsUnfinished bytes → ⊥ }
        ensures none { (bytes body rest : List ℕ) (head : RequestHead) → BeginsRequest bytes head body rest → BeginsNone bytes → ⊥ }
    {}

    /// Law: bytes that are refused begin no request, however they go on.
    pub fn refusal_is_final()
        ensures { (bytes more body rest : List ℕ) (head : RequestHead) → BeginsNone bytes → BeginsRequest (bytes ++ more) head body rest → ⊥ }
    {}

    /// Law: what is printed of a text reads back as the text, by the grammar of strings of RFC 8259, whatever stands behind
    /// its quote.
    pub fn text_reads_back()
        ensures { (text rest : List ℕ) → content plain (flat_map escaped text ++ 34 ∷ rest) ≡ Some text }
    {}
}
