//! Tokens.

use crate::token_text::TokenText;
use plain_types::count::Count;

/// What a token is (CSS Syntax 3, 4). Names, strings and addresses have their escapes resolved.
#[derive(Drop)]
pub enum TokenKind {
    /// Whitespace: one blank or more.
    Blank,
    /// An identifier.
    Word(TokenText),
    /// A name with `(` right after it; the bracket is part of the token.
    Function(TokenText),
    /// `@` and an identifier.
    AtKeyword(TokenText),
    /// `#` and a name, and whether that name is an identifier. The flag stands first so that it shares its room
    /// with the tag of the kind.
    Hash { identifier: bool, name: TokenText },
    /// A string between quotes.
    Chars(TokenText),
    /// A string that a line feed breaks; the line feed is no part of it.
    BadString,
    /// A number, and whether it has neither point nor exponent. The value of one that is not whole is 0.
    Number { whole: bool, value: Count },
    /// A number and `%`.
    Percentage,
    /// A number and an identifier.
    Dimension,
    /// `url(`, an address without quotes, and `)`.
    Url(TokenText),
    /// The same with something that may not stand there.
    BadUrl,
    /// `<!--`.
    CommentOpen,
    /// `-->`.
    CommentClose,
    /// Any other character by itself.
    Sign(char),
}

/// A token and its place in the text: its bytes from `start` on and before `end`. The places have 32 bits,
/// so that a token takes 24 bytes: a sheet may have a token for each of its bytes.
#[derive(Drop)]
pub struct Token {
    pub kind: TokenKind,
    pub start: u32,
    pub end: u32,
}

const _: () = prove!(size_of::<Token>() == 24);
