//! Laws of silent sheets. The functions do nothing: each contract is a law, proved of every document.

ghost use Rattle.silent_sheets.specs.Laws.{SilencingTextIsSilent, SilentSheetsGiveNoDump, SilentSheetsGiveNoLines, StyleElementsKeepSilence};

/// Nothing is generated in a document where its author's sheets are silent together: it has no lines, and its dump is
/// empty.
pub fn silent_sheets_give_no_lines()
    ensures lines { SilentSheetsGiveNoLines }
    ensures dump { SilentSheetsGiveNoDump }
{}

/// The sheet of a text that is silent silences a document where each important `content` in the document's style elements
/// is `none`.
pub fn style_elements_keep_silence()
    ensures sheets { StyleElementsKeepSilence }
{}

/// The sheet `examples/baked.css` is silent, as it is read.
pub fn silencing_text_is_silent()
    ensures silent { SilencingTextIsSilent }
{}
