//! Laws of representations. The functions do nothing: each contract is a law.

ghost use Rattle.std.specs.Prelude.{◌≡◌, ◌+◌, [], length};
ghost use Rattle.css_definitions.specs.Representation.{represented, represented_within};

use plain_types::count::Count;
use plain_types::counter_style::CounterStyle;
use plain_types::table::Table;

/// A chain of fallbacks ends: after one turn more than the table has styles, further turns change nothing.
/// So the bound that the definition has on them is none (CSS Counter Styles 3, 3.7, lets a chain be of any
/// length).
pub fn fallbacks_end(table: &Table, style: &CounterStyle, value: Count, more: usize)
    ensures turns { represented_within table.now (length table.now + 1 + more) [] style.now value ≡ represented table.now style.now value }
{}
