//! What the words ask for.

ghost use Rattle.std.specs.Prelude.{◌≡◌, ◌≢◌, ◌<◌, ◌↔◌, ℤ, ℕ, ◌≤ℤ◌, IfNone, IfOk, IfSome, IsTrue, List, OnErr, codes, length};
ghost use Rattle.std.specs.Fmt.{decimal, signed_decimal};
ghost use Rattle.std.specs.List.{All, AllByRecursion, AllPairs};
ghost use Rattle.std.specs.Str.{chars};
ghost use Rattle.book_definitions.specs.Chapters.{IsChapterName};
ghost use Rattle.marker_cli.specs.Words.{AreDocumentNames, IsBookCommand, IsCommand, IsCount, IsDepth, IsForm, IsRun, IsSpan, IsTable, ReadsAsForm, form_of, read_form_of, word};
ghost use Rattle.marker_cli.specs.Words as forms;

use crate::aspect::Aspect;
use edit_script::path::path_of_word;
use edit_script::words::read_natural;
use itoa::Buffer;
use plain_types::count::Count;
use plain_types::memory::Memory;
use plain_types::text::Text;
use std::alloc::Global;

/// A form of words, with its operands.
#[derive(Drop)]
pub enum Form<'a> {
    /// `dump DOC SHEET`, `text DOC SHEET` or `why DOC SHEET PATH`
    Aspect {
        aspect: Aspect,
        document: &'a Text,
        sheet: &'a Text,
    },
    /// `bake DOC SHEET`
    Bake {
        document: &'a Text,
        sheet: &'a Text,
    },
    /// `edit DOC SHEET SCRIPT`, or with a depth `history DOC SHEET SCRIPT DEPTH`
    Script {
        document: &'a Text,
        sheet: &'a Text,
        script: &'a Text,
        depth: Option<u32>,
    },
    /// `book SHEET SCRIPT DOC...`
    Book {
        sheet: &'a Text,
        script: &'a Text,
        documents: &'a [Text],
    },
    /// `table SHEET STYLE FROM TO`
    Table {
        sheet: &'a Text,
        style: &'a Text,
        from: Count,
        to: Count,
    },
    /// `gen SEED COUNT`
    Gen {
        seed: u32,
        count: u32,
    },
}

/// Whether the word is this name.
pub(crate) fn is_word(word: &Text, name: &str) -> bool
    ensures same { IsTrue result ↔ (word.now ≡ chars name.now) }
{
    word.as_str() == name
}

/// Whether the words are this command with its operands, so many words in all.
fn is_command(name: &str, count: usize, words: &[Text]) -> bool
    requires { 0 < count }
    ensures same { IsTrue result ↔ IsCommand words.now count (chars name.now) }
{
    words.len() == count && is_word(&words[0], name)
}

/// The number that is written so: `0`, or digits that don't begin with `0`, maybe behind a `-`.
fn read_integer(text: &str) -> Option<Count>
    ensures found { IfSome result (λ number. text.now ≡ signed_decimal number) }
    ensures none { IfNone result ((number : ℤ) → IsCount number → text.now ≡ signed_decimal number → ⊥) }
{
    let Ok(number) = text.parse::<Count>() else {
        return None;
    };
    let mut buffer = Buffer::new();
    if buffer.format(number) == text {
        Some(number)
    } else {
        None
    }
}

/// Whether a table from the one number to the other has 1 to 10000 lines.
fn is_span(from: Count, to: Count) -> bool
    ensures { IsTrue result ↔ IsSpan from to }
{
    from <= to && i128::from(to) - i128::from(from) <= 9999
}

/// Whether these are a seed and a number of edits.
fn is_run(seed: u32, count: u32) -> bool
    ensures { IsTrue result ↔ IsRun seed count }
{
    seed <= 2147483647 && 1 <= count && count <= 100000
}

/// The values of a table, of its operands FROM and TO.
fn read_values(from: &Text, to: &Text) -> Option<(Count, Count)>
    ensures found { IfSome result (λ values. (from.now ≡ signed_decimal values.0) × (to.now ≡ signed_decimal values.1) × IsTable values.0 values.1) }
    ensures none { IfNone result ((first last : ℤ) → from.now ≡ signed_decimal first → to.now ≡ signed_decimal last → IsTable first last → ⊥) }
{
    let first = read_integer(from.as_str())?;
    let last = read_integer(to.as_str())?;
    if is_span(first, last) {
        Some((first, last))
    } else {
        None
    }
}

/// The numbers of a made-up run, of its operands SEED and COUNT.
fn read_run(seed: &Text, count: &Text) -> Option<(u32, u32)>
    ensures found { IfSome result (λ run. (seed.now ≡ decimal run.0) × (count.now ≡ decimal run.1) × IsRun run.0 run.1) }
    ensures none { IfNone result ((start edits : ℕ) → seed.now ≡ decimal start → count.now ≡ decimal edits → IsRun start edits → ⊥) }
{
    let start = read_natural(seed.as_str())?;
    let edits = read_natural(count.as_str())?;
    if is_run(start, edits) {
        Some((start, edits))
    } else {
        None
    }
}

/// Whether so many edits may be kept to be undone.
fn is_depth(depth: u32) -> bool
    ensures { IsTrue result ↔ IsDepth depth }
{
    1 <= depth && depth <= 1000
}

/// The number of edits that can be undone, of its operand DEPTH.
fn read_depth(text: &Text) -> Option<u32>
    ensures found { IfSome result (λ depth. (text.now ≡ decimal depth) × IsDepth depth) }
    ensures none { IfNone result ((depth : ℕ) → text.now ≡ decimal depth → IsDepth depth → ⊥) }
{
    let depth = read_natural(text.as_str())?;
    if is_depth(depth) { Some(depth) } else { None }
}

/// The form that asks for this aspect of the document and the sheet that the words name.
fn aspect_form(aspect: Aspect, words: &[Text]) -> Form<'_>
    requires { 2 < length words.now }
    ensures form { form_of result ≡ forms.aspect aspect (word words.now 1) (word words.now 2) }
{
    Form::Aspect {
        aspect,
        document: &words[1],
        sheet: &words[2],
    }
}

/// Whether this can be the name of a document of a book: a url can give it before its `#`.
fn is_document_name(name: &str) -> bool
    ensures same { IsTrue result ↔ IsChapterName (chars name.now) }
{
    !name.is_empty() && name.chars().all(|c| c != '#')
}

/// Whether none of the others is this name.
fn is_new(others: &[Text], name: &Text) -> bool
    ensures same { IsTrue result ↔ All (λ (other : List ℕ). other ≢ name.now) others.now }
{
    others.iter().all(|other| other.as_str() != name.as_str())
}

/// Whether no two of the names are the same.
fn are_distinct(names: &[Text]) -> bool
    ensures same { IsTrue result ↔ AllPairs (λ (name other : List ℕ). name ≢ other) names.now }
{
    for place in 0..names.len() {
        if !is_new(&names[..place], &names[place]) {
            return false;
        }
    }
    true
}

/// Whether each of these can be the name of a document of a book.
fn is_each_document_name(names: &[Text]) -> bool
    ensures same { IsTrue result ↔ AllByRecursion IsChapterName names.now }
{
    names.iter().all(|name| is_document_name(name.as_str()))
}

/// Whether the words can be the names of the documents of a book. It takes no memory, and time quadratic in their number,
/// which is 64 at most.
fn are_document_names(names: &[Text]) -> bool
    ensures same { IsTrue result ↔ AreDocumentNames names.now }
{
    !names.is_empty() && names.len() <= 64 && is_each_document_name(names) && are_distinct(names)
}

/// Whether the words are `book` and three others at least.
fn is_book_command(words: &[Text]) -> bool
    ensures same { IsTrue result ↔ IsBookCommand words.now }
{
    words.len() > 3 && is_word(&words[0], "book")
}

/// The form of words that begin with `book`, if their documents have names that tell them apart. It takes no memory.
fn read_book_form(words: &[Text]) -> Option<Form<'_>>
    requires command { IsBookCommand words.now }
    ensures form { ReadsAsForm words.now (read_form_of result) }
{
    let documents = &words[3..];
    if are_document_names(documents) {
        Some(Form::Book {
            sheet: &words[1],
            script: &words[2],
            documents,
        })
    } else {
        None
    }
}

/// The form that words are of which don't ask why and have no book, if they are of one. It takes no memory.
fn read_plain_form(words: &[Text]) -> Option<Form<'_>>
    requires other { ¬ (IsCommand words.now 4 (codes "why")) }
    requires no_book { ¬ (IsBookCommand words.now) }
    ensures form { ReadsAsForm words.now (read_form_of result) }
{
    if is_command("dump", 3, words) {
        Some(aspect_form(Aspect::Dump, words))
    } else if is_command("edit", 4, words) {
        Some(Form::Script {
            document: &words[1],
            sheet: &words[2],
            script: &words[3],
            depth: None,
        })
    } else if is_command("table", 5, words) {
        let (from, to) = read_values(&words[3], &words[4])?;
        Some(Form::Table {
            sheet: &words[1],
            style: &words[2],
            from,
            to,
        })
    } else if is_command("gen", 3, words) {
        let (seed, count) = read_run(&words[1], &words[2])?;
        Some(Form::Gen { seed, count })
    } else if is_command("history", 5, words) {
        let depth = read_depth(&words[4])?;
        Some(Form::Script {
            document: &words[1],
            sheet: &words[2],
            script: &words[3],
            depth: Some(depth),
        })
    } else if is_command("text", 3, words) {
        Some(aspect_form(Aspect::Text, words))
    } else if is_command("bake", 3, words) {
        Some(Form::Bake {
            document: &words[1],
            sheet: &words[2],
        })
    } else {
        None
    }
}

/// The form of words that ask why, if the last is a path. Whether it is one is told without memory.
fn read_why_form(alloc: Global, words: &[Text]) -> Result<Option<Form<'_>>, Memory>
    requires command { IsCommand words.now 4 (codes "why") }
    ensures form { IfOk result (λ form. ReadsAsForm words.now (read_form_of form)) }
    ensures memory { OnErr result ((form : forms.Form) × IsForm words.now form) }
{
    match path_of_word(alloc, words[3].as_str())? {
        Some(path) => Ok(Some(aspect_form(Aspect::Why(path), words))),
        None => Ok(None),
    }
}

/// The form that the words are of, if they are of one. Memory is taken for a path alone, once it is told that the words are
/// of a form.
pub fn read_form(alloc: Global, words: &[Text]) -> Result<Option<Form<'_>>, Memory>
    ensures form { IfOk result (λ form. ReadsAsForm words.now (read_form_of form)) }
    ensures memory { OnErr result ((form : forms.Form) × IsForm words.now form) }
{
    if is_command("why", 4, words) {
        return read_why_form(alloc, words);
    }
    if is_book_command(words) {
        return Ok(read_book_form(words));
    }
    Ok(read_plain_form(words))
}
