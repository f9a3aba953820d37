//! What ends a piece of tokens (CSS Syntax 3, 5.4.1 to 5.4.6).

ghost use Rattle.std.specs.Prelude.{◌≡◌, Bool};
ghost use Rattle.css_tokens.specs.declared.token.TokenKind.{TokenKind};
ghost use Rattle.css_reader.specs.Declarations.{is_exclamation};
ghost use Rattle.css_reader.specs.Rules.{is_semicolon, is_opening, is_closing, is_semicolon_or_opening};

use css_tokens::token::TokenKind;
use css_tokens::token_reading::is_sign;

/// What ends a piece, where it stands in no block of it.
pub(crate) trait PieceEnd {
    ghost ends: { TokenKind → Bool };

    fn is_end(kind: &TokenKind) -> bool
        ensures { result ≡ ends kind.now };
}

/// `;`
pub(crate) struct Semicolon;

impl PieceEnd for Semicolon {
    ghost ends = { is_semicolon };

    fn is_end(kind: &TokenKind) -> bool {
        is_sign(';', kind)
    }
}

/// `{`
pub(crate) struct OpeningBrace;

impl PieceEnd for OpeningBrace {
    ghost ends = { is_opening };

    fn is_end(kind: &TokenKind) -> bool {
        is_sign('{', kind)
    }
}

/// `}`
pub(crate) struct ClosingBrace;

impl PieceEnd for ClosingBrace {
    ghost ends = { is_closing };

    fn is_end(kind: &TokenKind) -> bool {
        is_sign('}', kind)
    }
}

/// `;` or `{`
pub(crate) struct SemicolonOrOpeningBrace;

impl PieceEnd for SemicolonOrOpeningBrace {
    ghost ends = { is_semicolon_or_opening };

    fn is_end(kind: &TokenKind) -> bool {
        is_sign(';', kind) || is_sign('{', kind)
    }
}

/// `!`
pub(crate) struct ExclamationMark;

impl PieceEnd for ExclamationMark {
    ghost ends = { is_exclamation };

    fn is_end(kind: &TokenKind) -> bool {
        is_sign('!', kind)
    }
}
