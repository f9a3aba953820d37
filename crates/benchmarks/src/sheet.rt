//! Work with style sheets.

use css_reader::sheet::read_sheet;
use css_tokens::lexer::tokens;
use css_tokens::sheet_text::prepare_text;
use css_tokens::token::{Token, TokenKind};
use plain_types::list::List;
use std::alloc::{AllocError, Global};
use std::fs;
use std::io::Read;

fn bytes_of(rt: &HostRuntime, file: &str) -> Option<Vec<u8>> {
    let mut bytes = Vec::new(rt.alloc());
    fs::open(rt, file).ok()?.read_to_end(&mut bytes).ok()?;
    Some(bytes)
}

/// The tokens of a style sheet in these bytes.
fn tokens_of(alloc: Global, bytes: &[u8]) -> Option<List<Token>> {
    let text = prepare_text(alloc, str::from_utf8(bytes).ok()?).ok()?;
    tokens(alloc, text.as_str()).ok()
}

/// How many tokens the file has.
pub fn count_tokens(rt: &HostRuntime, file: &str) -> Option<usize> {
    let alloc = rt.alloc();
    let bytes = bytes_of(rt, file)?;
    Some(tokens_of(alloc, bytes.as_slice())?.len())
}

/// The tokens of the style sheet on standard input.
pub(crate) fn tokens_of_input(rt: &HostRuntime) -> Option<List<Token>> {
    let mut bytes = Vec::new(rt.alloc());
    rt.reader().read_to_end(&mut bytes).ok()?;
    tokens_of(rt.alloc(), bytes.as_slice())
}

/// The word, and the numbers of the characters of the text.
pub(crate) fn with_numbers(alloc: Global, word: &str, text: &str) -> Result<String, AllocError> {
    let mut line = String::from_str(alloc, word)?;
    for character in text.chars() {
        let number = format!(in alloc; " {}", character as u32)?;
        line.push_str(number.as_str())?;
    }
    Ok(line)
}

/// The kind of a token, and its name or value: characters by their numbers.
fn line_of(alloc: Global, kind: &TokenKind) -> Result<String, AllocError> {
    match kind {
        TokenKind::Blank => format!(in alloc; "blank"),
        TokenKind::Word(name) => with_numbers(alloc, "word", name.as_str()),
        TokenKind::Function(name) => with_numbers(alloc, "function", name.as_str()),
        TokenKind::AtKeyword(name) => with_numbers(alloc, "at", name.as_str()),
        TokenKind::Hash { name, identifier } => with_numbers(
            alloc,
            if *identifier { "id" } else { "hash" },
            name.as_str(),
        ),
        TokenKind::Chars(value) => with_numbers(alloc, "string", value.as_str()),
        TokenKind::BadString => format!(in alloc; "bad-string"),
        TokenKind::Number { whole: true, value } => format!(in alloc; "integer {}", *value),
        TokenKind::Number { .. } => format!(in alloc; "number"),
        TokenKind::Percentage => format!(in alloc; "percentage"),
        TokenKind::Dimension => format!(in alloc; "dimension"),
        TokenKind::Url(value) => with_numbers(alloc, "url", value.as_str()),
        TokenKind::BadUrl => format!(in alloc; "bad-url"),
        TokenKind::CommentOpen => format!(in alloc; "open"),
        TokenKind::CommentClose => format!(in alloc; "close"),
        TokenKind::Sign(character) => format!(in alloc; "sign {}", *character as u32),
    }
}

/// Prints these tokens, one a line.
pub(crate) fn show_each(rt: &HostRuntime, tokens: &[Token]) -> Option<()> {
    let alloc = rt.alloc();
    for token in tokens {
        let line = line_of(alloc, &token.kind).ok()?;
        println!(rt; "{}", line.as_str()).ok()?;
    }
    Some(())
}

/// Prints the tokens of the style sheet on standard input, one a line, and answers how many there are.
pub fn show_tokens(rt: &HostRuntime) -> Option<usize> {
    let tokens = tokens_of_input(rt)?;
    show_each(rt, tokens.as_slice())?;
    Some(tokens.len())
}

/// How many style rules and counter styles the file has.
pub fn count_rules(rt: &HostRuntime, file: &str) -> Option<usize> {
    let bytes = bytes_of(rt, file)?;
    let sheet = read_sheet(rt.alloc(), str::from_utf8(bytes.as_slice()).ok()?).ok()?;
    Some(sheet.rules.len().saturating_add(sheet.styles.len()))
}
