//! Laws of the definitions: each holds for all texts, and is the contract of a function that does nothing.
ghost use Rattle.qd_sql_lexer.specs.Tokens.{TextsHaveTokens, TokensAreTheOnlyOnes};

/// Every text is cut into pieces, and so has tokens.
pub fn texts_have_tokens()
    ensures law { TextsHaveTokens }
{}

/// No text has other tokens: wherever one may be cut into pieces, it is cut so.
pub fn tokens_are_the_only_ones()
    ensures law { TokensAreTheOnlyOnes }
{}
