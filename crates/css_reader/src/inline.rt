//! The declarations of a `style` attribute (CSS Style Attributes, 3 "Syntax and Parsing").

ghost use Rattle.std.specs.Prelude.{◌≡◌, IfOk};
ghost use Rattle.std.specs.Str.{chars};
ghost use Rattle.css_reader.specs.Sheets.{inline_declarations};

use crate::declarations::declarations;
use css_tokens::lexer::tokens;
use css_tokens::sheet_text::prepare_text;
use plain_types::declaration::Declared;
use plain_types::list::List;
use plain_types::memory::Memory;
use std::alloc::Global;

/// The declarations of a `style` attribute with this value, in their order, without those that are not read
/// (CSS Style Attributes, 3 "Syntax and Parsing"; CSS Syntax 3, 5.3.3). Every text has them: it is read as the
/// content of a block, prepared and cut into tokens as a sheet is. No block is open around it, so a `}` that
/// closes nothing is a token like any other. `Memory` where memory is wanting. Time and memory are linear in
/// the length of the text.
#[tactic(auto, unfolding(crate::specs::Sheets::inline_declarations))]
pub fn read_inline(alloc: Global, text: &str) -> Result<List<Declared>, Memory>
    ensures declared { IfOk result (λ found. found ≡ inline_declarations (chars text.now)) }
{
    let text = prepare_text(alloc, text)?;
    let tokens = tokens(alloc, text.as_str())?;
    declarations(alloc, tokens.as_slice())
}
