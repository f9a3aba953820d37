//! Laws of open documents. The functions do nothing: each contract is a law, proved of every document.

ghost use Rattle.marker_session.specs.Laws.{AllLinesAreInOrder, AllLinesAreOfTheDump};

use changed_lines::laws::all_lines_are_the_dump;
use generated_texts::laws::keys_do_not_matter;

/// All lines that a session lists are those of the document's dump, each once, and in the order of the dump but for the lines
/// of after boxes. These stand at their element, where the dump has them behind its children.
pub fn listed_lines_are_the_dump()
    ensures once { AllLinesAreOfTheDump }
    ensures order { AllLinesAreInOrder }
{
    all_lines_are_the_dump();
    keys_do_not_matter();
}
