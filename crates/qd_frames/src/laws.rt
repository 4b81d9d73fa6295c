//! Laws of the frame grammar. Each is the contract of a function that does nothing.
ghost use Rattle.std.specs.Prelude.{◌≡◌, ℕ, List, ◌++◌};
ghost use Rattle.qd_base.specs.declared.request.Request.{Request};
ghost use Rattle.qd_base.specs.declared.request.Reply.{Reply};
ghost use Rattle.qd_base.specs.Script.{Ending, Waiting};
ghost use Rattle.qd_frames.specs.Frames.{BeginsFrame, BeginsNone, IsUnfinished, Steps};

use crate::FrameFront;

impl FrameFront {
    /// Law: a text spells one list of requests and ends in one way, so what a session is asked depends on its bytes
    /// alone.
    pub fn one_reading()
        ensures { (at : ℕ) (bytes : List ℕ) (rs qs : List Request) (e f : Ending) →
            Steps at bytes rs e → Steps at bytes qs f → (rs ≡ qs) × (e ≡ f) }
    {}

    /// Law: a text may be cut anywhere. What waits at the end of the first piece, with the second piece behind it, goes on
    /// with the requests of the whole text.
    pub fn cut_anywhere()
        ensures { (at place : ℕ) (a b rest : List ℕ) (printed : Reply → List ℕ) (rs qs : List Request) (e : Ending) →
            Steps at a rs (Waiting rest place printed) → Steps place (rest ++ b) qs e → Steps at (a ++ b) (rs ++ qs) e }
    {}

    /// Law: every text spells some requests, and ends in some way.
    pub fn every_text_has_steps()
        ensures { (at : ℕ) (bytes : List ℕ) → (rs : List Request) × (e : Ending) × Steps at bytes rs e }
    {}

    /// Law: bytes that are a proper prefix of a frame, bytes that begin no frame, and bytes that begin with one are never
    /// the same.
    pub fn three_ways()
        ensures unfinished { (bytes : List ℕ) → IsUnfinished bytes → BeginsNone bytes → ⊥ }
        ensures whole { (bytes : List ℕ) → BeginsFrame bytes → IsUnfinished bytes → ⊥ }
        ensures none { (bytes : List ℕ) → BeginsFrame bytes → BeginsNone bytes → ⊥ }
    {}
}
