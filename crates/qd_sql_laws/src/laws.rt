//! Laws of the grammar: each holds for all lists of tokens and all texts, and is the contract of a function that does
//! nothing.
ghost use Rattle.qd_sql_laws.specs.Laws.{GrammarDecides, InsertsAreShort, PlacesAreExact};

/// A list of tokens is one statement by the grammar or none, and a text is a statement exactly where its tokens are that
/// one; no text that is refused has one.
pub fn grammar_decides()
    ensures law { GrammarDecides }
{}

/// A text that is no statement is refused at the first token such that the tokens before it begin some statement, and with
/// it they begin none; at its length, where all its tokens do.
pub fn places_are_exact()
    ensures law { PlacesAreExact }
{}

/// An INSERT has no more rows than a quarter of its text's bytes.
pub fn inserts_are_short()
    ensures law { InsertsAreShort }
{}
