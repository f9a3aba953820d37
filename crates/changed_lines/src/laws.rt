//! Laws of changed lines. The functions do nothing: each contract is a law, proved of every document.

ghost use Rattle.changed_lines.specs.Laws.{AllLinesAreByElements, AllLinesAreInOrder, AllLinesAreOfTheDump, ChangedLinesReplay, DumpsReplay, LinesReplay, OthersHaveNoLines};

/// Who holds the texts of a document by their elements has those of the edited one once the changed lines are put in.
pub fn changed_lines_replay()
    ensures replay { ChangedLinesReplay }
{}

/// So has who holds the lines of the dump: once their paths are moved by the edit and the changed lines are put in, they give
/// each box of the edited document the text that its dump gives it. In the order of a dump they are the dump after the edit.
pub fn dumps_replay()
    ensures boxes { LinesReplay }
    ensures dump { DumpsReplay }
{}

/// Elements of which the same is kept have no changed lines, so only the others need be looked at.
pub fn others_have_no_lines()
    ensures others { OthersHaveNoLines }
{}

/// Who is told all lines of a document, of which nothing was shown before, is told its dump: each line once, in the order of the
/// dump but for the lines of after boxes. These stand at their element, where the dump has them behind its children.
pub fn all_lines_are_the_dump()
    ensures once { AllLinesAreOfTheDump }
    ensures order { AllLinesAreInOrder }
    ensures elements { AllLinesAreByElements }
{}
