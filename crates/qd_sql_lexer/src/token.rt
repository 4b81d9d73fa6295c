//! What the tokens of a text are.

/// What a token is.
#[derive(Clone, Copy, Debug, PartialEq, Eq)]
pub enum Kind {
    /// A letter or `_`, then letters, digits and `_`. ASCII case doesn't count.
    Word,
    /// A name between double quotes.
    Quoted,
    /// A text between single quotes.
    Text,
    /// Digits.
    Number,
    /// Digits and the letter of a unit, as in `15m`.
    Stride,
    /// `(`
    Open,
    /// `)`
    Close,
    /// `,`
    Comma,
    /// `;`
    Semicolon,
    /// `.`
    Dot,
    /// `*`
    Star,
    /// `+`
    Plus,
    /// `-`
    Minus,
    /// `/`
    Slash,
    /// `%`
    Percent,
    /// `=`
    Equal,
    /// `!=` or `<>`
    NotEqual,
    /// `<`
    Less,
    /// `<=`
    LessEqual,
    /// `>`
    Greater,
    /// `>=`
    GreaterEqual,
    /// Bytes that begin no token. It takes all that is left of the text.
    Bad,
}

/// A token of a text, which it borrows.
#[derive(Clone, Copy, Debug, PartialEq, Eq)]
pub struct Token<'a> {
    /// What it is.
    pub kind: Kind,
    /// The offset of its first byte.
    pub at: u64,
    /// The offset behind its last byte.
    pub end: u64,
    /// What it holds: its bytes, without the quotes around them. A `''` inside a text still stands as two.
    pub content: &'a [u8],
}
