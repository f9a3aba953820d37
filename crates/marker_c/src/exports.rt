//! What C calls to open, close, edit, list, dump and count.

ghost use Rattle.std.specs.Prelude.{◌≡◌, ◌≢◌, ◌≤◌, ◌<◌, ◌⊎◌, None, IfErr, IfOk};
ghost use Rattle.std.specs.Str.{IsUtf8, chars};
ghost use Rattle.edit_script.specs.declared.action.Action.TheVariants.{Show};
ghost use Rattle.node_arena.specs.declared.place_fault.PlaceFault.TheVariants as place;
ghost use Rattle.xml_definitions.specs.Faults.{FailsAsDocument};
ghost use Rattle.marker_session.specs.Lines.{IsBadLine, IsLine, IsRefused};
ghost use Rattle.marker_session.specs.declared.listing.Listing.TheVariants.{Listed, Unlisted};
ghost use Rattle.marker_c.specs.Answers.{HasNoPlace, IsApplied, IsDumped, IsListed, IsNotUtf8, IsOpen, IsOpened, IsRestyled, StaysOpen, counts_in, counts_of};
ghost use Rattle.marker_c.specs.Codes as codes;

use crate::answer::{Answer, Counts, text_of};
use crate::codes::{
    BAD_DOCUMENT, BAD_LINE, IN_USE, INTO_ITSELF, MEMORY, NO_PLACE, NOT_AN_EDIT, NOT_OPEN, OK,
    UNLISTED,
};
use crate::handle::Handle;
use crate::slot::{put, take};
use marker_session::line_fault::LineFault;
use marker_session::listing::Listing;
use marker_session::session::Session;
use std::alloc::Global;
use std::marker::Brand;
use std::sync::ledger::{Blank, Ledger};
use steps::{CallFromC, Steps};
use xhtml_reader::fault::DocFault;

/// A session of two texts, or why there is none, under a count of steps of its own.
fn open<L: Ledger>(
    alloc: Global,
    xhtml: &[u8],
    css: &[u8],
    leave: CallFromC,
    blank: Blank,
) -> Result<Box<Session>, Answer>
    requires name { blank.name ≡ L.name }
    requires parts { blank.parts ≡ L.parts }
    requires some { 0 < L.parts }
    ensures opened { IfOk result (λ session. IsOpened (chars xhtml.now) (chars css.now) session.value) }
    ensures texts { IfOk result (λ _. IsUtf8 xhtml.now × IsUtf8 css.now) }
    ensures xhtml { IfErr result (λ answer. answer.code ≡ codes.not_utf8 → answer.line ≡ 0 → IsNotUtf8 0 xhtml.now answer) }
    ensures css { IfErr result (λ answer. answer.code ≡ codes.not_utf8 → answer.line ≢ 0 → IsUtf8 xhtml.now × IsNotUtf8 1 css.now answer) }
    ensures utf8 { IfErr result (λ answer. answer.code ≢ codes.not_utf8 → IsUtf8 xhtml.now × IsUtf8 css.now) }
    ensures bad_document { IfErr result (λ answer. answer.code ≡ codes.bad_document → FailsAsDocument (chars xhtml.now) answer.line answer.column) }
    ensures place { IfErr result (λ answer. answer.code ≢ codes.not_utf8 → answer.code ≢ codes.bad_document → HasNoPlace answer) }
    ensures codes { IfErr result (λ answer. (answer.code ≢ codes.ok) × (answer.code ≤ codes.bad_document) × (answer.code ≢ codes.not_open) × (answer.code ≢ codes.in_use)) }
{
    let xhtml = match text_of(xhtml, 0) {
        Ok(text) => text,
        Err(answer) => return Err(answer),
    };
    let css = match text_of(css, 1) {
        Ok(text) => text,
        Err(answer) => return Err(answer),
    };
    let mut steps = Steps::<L>::open_for_c(leave, blank);
    match Session::open(alloc, xhtml, css, &mut steps) {
        Ok(session) => match Box::new(alloc, session) {
            Ok(session) => Ok(session),
            Err(_) => Err(Answer::of(MEMORY)),
        },
        Err(DocFault::Malformed { line, column }) => Err(Answer {
            code: BAD_DOCUMENT,
            line,
            column,
        }),
        Err(DocFault::Memory) => Err(Answer::of(MEMORY)),
    }
}

/// Opens a closed document: reads the XHTML and the sheet, and evaluates them. All lines are listed then, and no dump is
/// kept. After a code other than OK the document is as before.
#[unsafe(no_mangle)]
pub extern "C" fn marker_open(
    alloc: Global,
    leave: CallFromC,
    document: &mut Handle,
    xhtml: &[u8],
    css: &[u8],
) -> Answer
    ensures ok { result.code ≡ codes.ok → IsOpen (IsOpened (chars xhtml.now) (chars css.now)) document.new.session }
    ensures in_use { document.old.session ≢ None → result.code ≡ codes.in_use }
    ensures closed { document.old.session ≡ None → result.code ≢ codes.in_use }
    ensures xhtml { result.code ≡ codes.not_utf8 → result.line ≡ 0 → IsNotUtf8 0 xhtml.now result }
    ensures css { result.code ≡ codes.not_utf8 → result.line ≢ 0 → IsUtf8 xhtml.now × IsNotUtf8 1 css.now result }
    ensures utf8 { result.code ≢ codes.not_utf8 → result.code ≢ codes.in_use → IsUtf8 xhtml.now × IsUtf8 css.now }
    ensures bad_document { result.code ≡ codes.bad_document → FailsAsDocument (chars xhtml.now) result.line result.column }
    ensures refused { result.code ≢ codes.ok → document.new.session ≡ document.old.session }
    ensures place { result.code ≢ codes.not_utf8 → result.code ≢ codes.bad_document → HasNoPlace result }
    ensures codes { (result.code ≤ codes.bad_document) × (result.code ≢ codes.not_open) }
{
    if let Some(session) = take(alloc, document) {
        put(alloc, document, session);
        return Answer::of(IN_USE);
    }
    match open::<Brand>(alloc, xhtml, css, leave, Blank::new(1)) {
        Ok(session) => {
            put(alloc, document, session);
            Answer::of(OK)
        }
        Err(answer) => answer,
    }
}

/// Closes a document and gives its memory back. A closed one stays as it is.
#[unsafe(no_mangle)]
pub extern "C" fn marker_close(alloc: Global, document: &mut Handle)
    ensures closed { document.new.session ≡ None }
{
    drop(take(alloc, document));
}

/// Does the edit of a line, under a count of steps of its own.
fn apply<L: Ledger>(
    alloc: Global,
    session: &mut Session,
    line: &[u8],
    leave: CallFromC,
    blank: Blank,
) -> Answer
    requires name { blank.name ≡ L.name }
    requires parts { blank.parts ≡ L.parts }
    requires some { 0 < L.parts }
    ensures ok { result.code ≡ codes.ok → IsApplied (chars line.now) Listed session.old session.new }
    ensures unlisted { result.code ≡ codes.unlisted → IsApplied (chars line.now) Unlisted session.old session.new }
    ensures not_utf8 { result.code ≡ codes.not_utf8 → IsNotUtf8 0 line.now result }
    ensures utf8 { result.code ≢ codes.not_utf8 → IsUtf8 line.now }
    ensures bad_line { result.code ≡ codes.bad_line → IsBadLine (chars line.now) }
    ensures not_an_edit { result.code ≡ codes.not_an_edit → IsLine (chars line.now) Show }
    ensures no_place { result.code ≡ codes.no_place → IsRefused (chars line.now) session.old.styled place.NoPlace }
    ensures into_itself { result.code ≡ codes.into_itself → IsRefused (chars line.now) session.old.styled place.IntoItself }
    ensures refused { result.code ≢ codes.ok → result.code ≢ codes.unlisted → session.new ≡ session.old }
    ensures place { result.code ≢ codes.not_utf8 → HasNoPlace result }
    ensures codes { (result.code ≤ codes.unlisted) × (result.code ≢ codes.not_open) × (result.code ≢ codes.in_use) × (result.code ≢ codes.bad_document) }
{
    let line = match text_of(line, 0) {
        Ok(line) => line,
        Err(answer) => return answer,
    };
    let mut steps = Steps::<L>::open_for_c(leave, blank);
    match session.apply(alloc, line, &mut steps) {
        Ok(Listing::Listed) => Answer::of(OK),
        Ok(Listing::Unlisted) => Answer::of(UNLISTED),
        Err(LineFault::BadLine) => Answer::of(BAD_LINE),
        Err(LineFault::NotAnEdit) => Answer::of(NOT_AN_EDIT),
        Err(LineFault::NoPlace) => Answer::of(NO_PLACE),
        Err(LineFault::IntoItself) => Answer::of(INTO_ITSELF),
        Err(LineFault::Memory) => Answer::of(MEMORY),
    }
}

/// Does one edit, written as a line of a script. Paths are those of the document before it. The lines that it changed are
/// listed then; where memory is wanting for these alone, the edit is done, none is listed, and the code is UNLISTED. After
/// another code than these two the document is as before.
#[unsafe(no_mangle)]
pub extern "C" fn marker_apply(
    alloc: Global,
    leave: CallFromC,
    document: &mut Handle,
    line: &[u8],
) -> Answer
    ensures ok { result.code ≡ codes.ok → StaysOpen (IsApplied (chars line.now) Listed) document.old.session document.new.session }
    ensures unlisted { result.code ≡ codes.unlisted → StaysOpen (IsApplied (chars line.now) Unlisted) document.old.session document.new.session }
    ensures closed { document.old.session ≡ None → result.code ≡ codes.not_open }
    ensures not_open { result.code ≡ codes.not_open → document.old.session ≡ None }
    ensures not_utf8 { result.code ≡ codes.not_utf8 → IsNotUtf8 0 line.now result }
    ensures utf8 { result.code ≢ codes.not_open → result.code ≢ codes.not_utf8 → IsUtf8 line.now }
    ensures bad_line { result.code ≡ codes.bad_line → IsBadLine (chars line.now) }
    ensures not_an_edit { result.code ≡ codes.not_an_edit → IsLine (chars line.now) Show }
    ensures no_place { result.code ≡ codes.no_place → IsOpen (λ old. IsRefused (chars line.now) old.styled place.NoPlace) document.old.session }
    ensures into_itself { result.code ≡ codes.into_itself → IsOpen (λ old. IsRefused (chars line.now) old.styled place.IntoItself) document.old.session }
    ensures refused { result.code ≢ codes.ok → result.code ≢ codes.unlisted → document.new.session ≡ document.old.session }
    ensures place { result.code ≢ codes.not_utf8 → HasNoPlace result }
    ensures codes { (result.code ≤ codes.unlisted) × (result.code ≢ codes.in_use) × (result.code ≢ codes.bad_document) }
{
    match take(alloc, document) {
        Some(mut session) => {
            let answer = apply::<Brand>(alloc, &mut session, line, leave, Blank::new(1));
            put(alloc, document, session);
            answer
        }
        None => Answer::of(NOT_OPEN),
    }
}

/// Replaces the sheet, under a count of steps of its own.
fn replace_sheet<L: Ledger>(
    alloc: Global,
    session: &mut Session,
    css: &[u8],
    leave: CallFromC,
    blank: Blank,
) -> Answer
    requires name { blank.name ≡ L.name }
    requires parts { blank.parts ≡ L.parts }
    requires some { 0 < L.parts }
    ensures ok { result.code ≡ codes.ok → IsRestyled (chars css.now) Listed session.old session.new }
    ensures unlisted { result.code ≡ codes.unlisted → IsRestyled (chars css.now) Unlisted session.old session.new }
    ensures not_utf8 { result.code ≡ codes.not_utf8 → IsNotUtf8 0 css.now result }
    ensures utf8 { result.code ≢ codes.not_utf8 → IsUtf8 css.now }
    ensures refused { result.code ≢ codes.ok → result.code ≢ codes.unlisted → session.new ≡ session.old }
    ensures place { result.code ≢ codes.not_utf8 → HasNoPlace result }
    ensures codes { (result.code ≡ codes.unlisted) ⊎ ((result.code ≤ codes.not_utf8) × (result.code ≢ codes.not_open) × (result.code ≢ codes.in_use)) }
{
    let css = match text_of(css, 0) {
        Ok(css) => css,
        Err(answer) => return answer,
    };
    let mut steps = Steps::<L>::open_for_c(leave, blank);
    match session.replace_sheet(alloc, css, &mut steps) {
        Ok(Listing::Listed) => Answer::of(OK),
        Ok(Listing::Unlisted) => Answer::of(UNLISTED),
        Err(_) => Answer::of(MEMORY),
    }
}

/// Replaces the sheet. The lines that this changed are listed then, as after an edit. After another code than OK and
/// UNLISTED the document is as before.
#[unsafe(no_mangle)]
pub extern "C" fn marker_replace_sheet(
    alloc: Global,
    leave: CallFromC,
    document: &mut Handle,
    css: &[u8],
) -> Answer
    ensures ok { result.code ≡ codes.ok → StaysOpen (IsRestyled (chars css.now) Listed) document.old.session document.new.session }
    ensures unlisted { result.code ≡ codes.unlisted → StaysOpen (IsRestyled (chars css.now) Unlisted) document.old.session document.new.session }
    ensures closed { document.old.session ≡ None → result.code ≡ codes.not_open }
    ensures not_open { result.code ≡ codes.not_open → document.old.session ≡ None }
    ensures not_utf8 { result.code ≡ codes.not_utf8 → IsNotUtf8 0 css.now result }
    ensures utf8 { result.code ≢ codes.not_open → result.code ≢ codes.not_utf8 → IsUtf8 css.now }
    ensures refused { result.code ≢ codes.ok → result.code ≢ codes.unlisted → document.new.session ≡ document.old.session }
    ensures place { result.code ≢ codes.not_utf8 → HasNoPlace result }
    ensures codes { (result.code ≡ codes.unlisted) ⊎ ((result.code ≤ codes.not_utf8) × (result.code ≢ codes.in_use)) }
{
    match take(alloc, document) {
        Some(mut session) => {
            let answer = replace_sheet::<Brand>(alloc, &mut session, css, leave, Blank::new(1));
            put(alloc, document, session);
            answer
        }
        None => Answer::of(NOT_OPEN),
    }
}

/// Lists all lines, under a count of steps of its own.
fn list_all<L: Ledger>(
    alloc: Global,
    session: &mut Session,
    leave: CallFromC,
    blank: Blank,
) -> Answer
    requires name { blank.name ≡ L.name }
    requires parts { blank.parts ≡ L.parts }
    requires some { 0 < L.parts }
    ensures ok { result.code ≡ codes.ok → IsListed session.old session.new }
    ensures refused { result.code ≢ codes.ok → session.new ≡ session.old }
    ensures place { HasNoPlace result }
    ensures codes { result.code ≤ codes.memory }
{
    let mut steps = Steps::<L>::open_for_c(leave, blank);
    match session.list_all(alloc, &mut steps) {
        Ok(()) => Answer::of(OK),
        Err(_) => Answer::of(MEMORY),
    }
}

/// Lists all lines of the document. After another code than OK the document is as before.
#[unsafe(no_mangle)]
pub extern "C" fn marker_list_all(alloc: Global, leave: CallFromC, document: &mut Handle) -> Answer
    ensures ok { result.code ≡ codes.ok → StaysOpen IsListed document.old.session document.new.session }
    ensures closed { document.old.session ≡ None → result.code ≡ codes.not_open }
    ensures not_open { result.code ≡ codes.not_open → document.old.session ≡ None }
    ensures refused { result.code ≢ codes.ok → document.new.session ≡ document.old.session }
    ensures place { HasNoPlace result }
    ensures codes { result.code ≤ codes.not_open }
{
    match take(alloc, document) {
        Some(mut session) => {
            let answer = list_all::<Brand>(alloc, &mut session, leave, Blank::new(1));
            put(alloc, document, session);
            answer
        }
        None => Answer::of(NOT_OPEN),
    }
}

/// Keeps the dump, under a count of steps of its own.
fn dump<L: Ledger>(alloc: Global, session: &mut Session, leave: CallFromC, blank: Blank) -> Answer
    requires name { blank.name ≡ L.name }
    requires parts { blank.parts ≡ L.parts }
    requires some { 0 < L.parts }
    ensures ok { result.code ≡ codes.ok → IsDumped session.old session.new }
    ensures refused { result.code ≢ codes.ok → session.new ≡ session.old }
    ensures place { HasNoPlace result }
    ensures codes { result.code ≤ codes.memory }
{
    let mut steps = Steps::<L>::open_for_c(leave, blank);
    match session.show(alloc, &mut steps) {
        Ok(()) => Answer::of(OK),
        Err(_) => Answer::of(MEMORY),
    }
}

/// Makes the dump of the document, and keeps it in place of the one that was kept; an edit does not change what is kept. After
/// another code than OK the document is as before.
#[unsafe(no_mangle)]
pub extern "C" fn marker_dump(alloc: Global, leave: CallFromC, document: &mut Handle) -> Answer
    ensures ok { result.code ≡ codes.ok → StaysOpen IsDumped document.old.session document.new.session }
    ensures closed { document.old.session ≡ None → result.code ≡ codes.not_open }
    ensures not_open { result.code ≡ codes.not_open → document.old.session ≡ None }
    ensures refused { result.code ≢ codes.ok → document.new.session ≡ document.old.session }
    ensures place { HasNoPlace result }
    ensures codes { result.code ≤ codes.not_open }
{
    match take(alloc, document) {
        Some(mut session) => {
            let answer = dump::<Brand>(alloc, &mut session, leave, Blank::new(1));
            put(alloc, document, session);
            answer
        }
        None => Answer::of(NOT_OPEN),
    }
}

/// How much there is of a session, under a count of steps of its own.
fn count<L: Ledger>(session: &Session, leave: CallFromC, blank: Blank) -> Counts
    requires name { blank.name ≡ L.name }
    requires parts { blank.parts ≡ L.parts }
    requires some { 0 < L.parts }
    ensures counts { result ≡ counts_of session.now }
{
    let mut steps = Steps::<L>::open_for_c(leave, blank);
    let census = session.census(&mut steps);
    Counts {
        elements: census.elements,
        boxes: census.boxes,
        lines: census.lines,
    }
}

/// How many elements the document has, how many boxes its evaluation, and how many lines its dump; a number that is too large
/// is the greatest that there is. A closed document has none.
#[unsafe(no_mangle)]
pub extern "C" fn marker_count(alloc: Global, leave: CallFromC, document: &mut Handle) -> Counts
    ensures counts { result ≡ counts_in document.old.session }
    ensures same { document.new.session ≡ document.old.session }
{
    match take(alloc, document) {
        Some(session) => {
            let counts = count::<Brand>(&session, leave, Blank::new(1));
            put(alloc, document, session);
            counts
        }
        None => Counts {
            elements: 0,
            boxes: 0,
            lines: 0,
        },
    }
}
