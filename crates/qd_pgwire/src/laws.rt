//! Laws of what bytes spell. Each is the contract of a function that does nothing.
ghost use Rattle.std.specs.Prelude.{◌≡◌, ℕ, ◌+◌, ◌≤◌, false, true, List, [], ◌∷◌, ◌==◌, ◌++◌, Some, length};
ghost use Rattle.std.specs.List.{list_any};
ghost use Rattle.qd_base.specs.declared.limits.TheConstants.{MAX_QUERY_BYTES};
ghost use Rattle.qd_base.specs.declared.request.Reply.{Reply};
ghost use Rattle.qd_base.specs.Script.{Ending, Turn, Waiting};
ghost use Rattle.qd_pgwire.specs.declared.found.Kind.{Kind};
ghost use Rattle.qd_pgwire.specs.declared.found.Kind.TheVariants as kind;
ghost use Rattle.qd_pgwire.specs.declared.found.Mode.{Mode};
ghost use Rattle.qd_pgwire.specs.declared.found.Mode.TheVariants as mode;
ghost use Rattle.qd_pgwire.specs.declared.found.Found.TheVariants as found;
ghost use Rattle.qd_pgwire.specs.Messages.{first, kind_of, message, named, startup, string, text_in, whole_of};
ghost use Rattle.qd_pgwire.specs.Steps.{PgSteps};

use crate::PgFront;

impl PgFront {
    /// Law: a text spells one list of turns and ends in one way, so what a session is asked depends on its bytes alone.
    pub fn one_reading()
        ensures { (m : Mode) (at : ℕ) (bytes : List ℕ) (ts us : List Turn) (e f : Ending) →
            PgSteps m at bytes ts e → PgSteps m at bytes us f → (ts ≡ us) × (e ≡ f) }
    {}

    /// Law: a text may be cut anywhere. The first piece leads to a state in which what waits at its end, with the second piece
    /// behind it, goes on with the turns of the whole text.
    pub fn cut_anywhere()
        ensures { (m : Mode) (at place : ℕ) (a rest : List ℕ) (how : Reply → List ℕ) (ts : List Turn) →
            PgSteps m at a ts (Waiting rest place how) → (n : Mode) × ((b : List ℕ) (us : List Turn) (e : Ending) →
            PgSteps n place (rest ++ b) us e → PgSteps m at (a ++ b) (ts ++ us) e) }
    {}

    /// Law: every text spells some turns, and ends in some way.
    pub fn every_text_has_steps()
        ensures { (m : Mode) (at : ℕ) (bytes : List ℕ) → (ts : List Turn) × (e : Ending) × PgSteps m at bytes ts e }
    {}

    /// Law: bytes that are no message are none however they go on, and a message stays what it is.
    pub fn finding_is_final()
        ensures wrong { (m : Mode) (bytes more : List ℕ) → first m bytes ≡ found.Wrong → first m (bytes ++ more) ≡ found.Wrong }
        ensures whole { (m : Mode) (bytes more : List ℕ) (k : Kind) (size : ℕ) →
            first m bytes ≡ found.Whole k size → first m (bytes ++ more) ≡ found.Whole k size }
    {}

    /// Law: a start that is not too long is found as it was written, whatever stands behind it. It names parameters just where
    /// its list of them has any.
    pub fn start_reads_back()
        ensures none { (rest : List ℕ) → first mode.Starting (startup [] ++ rest) ≡ found.Whole (kind.Start false) 9 }
        ensures some { (p : List ℕ × List ℕ) (ps : List (List ℕ × List ℕ)) (rest : List ℕ) → length (named (p ∷ ps)) ≤ 9992 →
            first mode.Starting (startup (p ∷ ps) ++ rest) ≡ found.Whole (kind.Start true) (8 + length (named (p ∷ ps))) }
    {}

    /// Law: a message that is not too long is found as it was written, whatever stands behind it.
    pub fn message_reads_back()
        ensures { (type : ℕ) (body rest : List ℕ) (k : Kind) → kind_of type ≡ Some k → length body ≤ 65537 →
            first mode.Ready (message type body ++ rest) ≡ whole_of k (5 + length body) body }
    {}

    /// Law: each text without a zero byte that is no longer than a statement may be is the text of a query.
    pub fn query_reads_back()
        ensures found { (text rest : List ℕ) → list_any (λ b. b == 0) text ≡ false → length text ≤ MAX_QUERY_BYTES →
            first mode.Ready (message 81 (string text) ++ rest) ≡ found.Whole kind.Query (6 + length text) }
        ensures text { (text rest : List ℕ) → text_in (6 + length text) (message 81 (string text) ++ rest) ≡ text }
    {}
}
