//! Lines, written as their texts and breaks come.

ghost use Rattle.std.specs.Prelude.{◌≡◌, ◌++◌, true, false, IfOk, OnOk, OnErr};
ghost use Rattle.std.specs.List.{list_all, list_any};
ghost use Rattle.ports.specs.Causes.{HasCause};
ghost use Rattle.ports.specs.Grown.{grown, GrowsByFront};
ghost use Rattle.text_view.specs.Lines.{is_blank};
ghost use Rattle.text_view.specs.Machinery.Writing.{behind_blank, behind_text, blank_ranges, is_word_end, line_end, shown, space_before};
ghost use Rattle.text_view.specs.declared.line_state.LineState.TheVariants as states;

use crate::line_state::LineState;
use lane_class::{ByteClass, first_in, first_not_in};
use ports::failed::Failed;
use ports::sink::{Sink, put_all};
use std::marker::Model;

/// A writer of lines. Contracts see where it stands.
#[derive(Drop)]
pub(crate) struct LineWriter {
    blanks: ByteClass,
    state: LineState,
}

impl Model for LineWriter {
    ghost use Rattle.std.specs.Prelude.{◌≡◌};
    ghost use Rattle.text_view.specs.Machinery.Writing.{blank_ranges};
    ghost use Rattle.text_view.specs.declared.line_state.LineState.{LineState};

    ghost Value = { LineState };

    ghost view = { λ writer. writer.state };

    ghost invariant = { λ writer. writer.blanks ≡ blank_ranges };
}

impl LineWriter {
    /// A writer at the start of a line. It takes no memory.
    pub(crate) fn new() -> LineWriter
        ensures start { result ≡ states.Start }
    {
        LineWriter {
            blanks: blanks(),
            state: LineState::Start,
        }
    }

    /// Puts a text behind what stands in the line: its words, with one space for the blanks before each. Blanks at its
    /// end wait for the next word. After `Failed` a front of its bytes went out. It takes no memory, and time linear in
    /// the text.
    pub(crate) fn put_text<O: Sink>(&mut self, text: &str, out: &mut O) -> Result<(), Failed>
        ensures ok { OnOk result (O.out out.new ≡ grown (O.out out.old) (shown self.old text.now)) }
        ensures state { OnOk result (self.new ≡ behind_text self.old text.now) }
        ensures failed { OnErr result (GrowsByFront (O.out out.old) (O.out out.new) (shown self.old text.now)) }
        ensures cause { HasCause (O.faults out.old) (O.faults out.new) result }
    {
        self.state = put_words(&self.blanks, self.state, text.as_bytes(), out)?;
        Ok(())
    }

    /// Ends the line, where something stands in it. It takes no memory, and constant time.
    pub(crate) fn put_break<O: Sink>(&mut self, out: &mut O) -> Result<(), Failed>
        ensures ok { OnOk result (O.out out.new ≡ grown (O.out out.old) (line_end self.old)) }
        ensures state { OnOk result (self.new ≡ states.Start) }
        ensures failed { OnErr result (GrowsByFront (O.out out.old) (O.out out.new) (line_end self.old)) }
        ensures cause { HasCause (O.faults out.old) (O.faults out.new) result }
    {
        put_line_end(self.state, out)?;
        self.state = LineState::Start;
        Ok(())
    }
}

/// The space, the tab, the line feed, the form feed and the carriage return. No byte of another character is one of them.
fn blanks() -> ByteClass
    ensures { result ≡ blank_ranges }
{
    ByteClass::of(&[(b'\t', b'\n'), (0x0c, b'\r'), (b' ', b' ')]).unwrap()
}

/// The bytes before the first blank, and those from it on.
fn split_word<'a>(blanks: &ByteClass, bytes: &'a [u8]) -> (&'a [u8], &'a [u8])
    requires blanks { blanks.now ≡ blank_ranges }
    ensures bytes { bytes.now ≡ result.0.now ++ result.1.now }
    ensures word { list_any is_blank result.0.now ≡ false }
    ensures stop { is_word_end result.1.now ≡ true }
{
    let place = first_in(bytes, blanks).unwrap_or(bytes.len());
    bytes.split_at(place)
}

/// The blanks at the beginning, and the bytes after them.
fn split_blanks<'a>(blanks: &ByteClass, bytes: &'a [u8]) -> (&'a [u8], &'a [u8])
    requires blanks { blanks.now ≡ blank_ranges }
    ensures bytes { bytes.now ≡ result.0.now ++ result.1.now }
    ensures blank { list_all is_blank result.0.now ≡ true }
{
    let place = first_not_in(bytes, blanks).unwrap_or(bytes.len());
    bytes.split_at(place)
}

/// Where a line stands once blanks came.
fn behind_blank(state: LineState) -> LineState
    ensures { result ≡ behind_blank state }
{
    match state {
        LineState::Start => LineState::Start,
        LineState::Word | LineState::Blank => LineState::Blank,
    }
}

/// What is put before the next word.
fn space_before(state: LineState) -> &'static [u8]
    ensures { result.now ≡ space_before state }
{
    match state {
        LineState::Start | LineState::Word => b"",
        LineState::Blank => b" ",
    }
}

fn put_line_end<O: Sink>(state: LineState, out: &mut O) -> Result<(), Failed>
    ensures ok { OnOk result (O.out out.new ≡ grown (O.out out.old) (line_end state)) }
    ensures failed { OnErr result (GrowsByFront (O.out out.old) (O.out out.new) (line_end state)) }
    ensures cause { HasCause (O.faults out.old) (O.faults out.new) result }
{
    match state {
        LineState::Start => Ok(()),
        LineState::Word | LineState::Blank => put_all(out, b"\n"),
    }
}

/// Puts bytes among which there is no blank, behind a space where blanks came before them in the line.
fn put_word<O: Sink>(state: LineState, word: &[u8], out: &mut O) -> Result<LineState, Failed>
    requires word { list_any is_blank word.now ≡ false }
    ensures ok { OnOk result (O.out out.new ≡ grown (O.out out.old) (shown state word.now)) }
    ensures state { IfOk result (λ next. next ≡ behind_text state word.now) }
    ensures failed { OnErr result (GrowsByFront (O.out out.old) (O.out out.new) (shown state word.now)) }
    ensures cause { HasCause (O.faults out.old) (O.faults out.new) result }
{
    if word.is_empty() {
        return Ok(state);
    }
    put_all(out, space_before(state))?;
    put_all(out, word)?;
    Ok(LineState::Word)
}

/// Puts the words of a text.
fn put_words<O: Sink>(
    blanks: &ByteClass,
    before: LineState,
    text: &[u8],
    out: &mut O,
) -> Result<LineState, Failed>
    requires blanks { blanks.now ≡ blank_ranges }
    ensures ok { OnOk result (O.out out.new ≡ grown (O.out out.old) (shown before text.now)) }
    ensures state { IfOk result (λ next. next ≡ behind_text before text.now) }
    ensures failed { OnErr result (GrowsByFront (O.out out.old) (O.out out.new) (shown before text.now)) }
    ensures cause { HasCause (O.faults out.old) (O.faults out.new) result }
{
    let mut state = before;
    let mut rest = text;
    'words: loop {
        let (word, after) = split_word(blanks, rest);
        let reached = put_word(state, word, out)?;
        if after.is_empty() {
            return Ok(reached);
        }
        state = behind_blank(reached);
        rest = split_blanks(blanks, &after[1..]).1;
    }
}
