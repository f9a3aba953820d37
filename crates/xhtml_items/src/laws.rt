//! What is true of the items of all texts. No function here has anything to do: its contract is the law.

ghost use Rattle.std.specs.Prelude.{◌≡◌, ℕ, List};
ghost use Rattle.xml_definitions.specs.Items.{Item};
ghost use Rattle.xhtml_items.specs.FirstItem.{BeginsWith};

/// A text begins with one item at most: no item begins another one.
pub fn one_first_item()
    ensures { (text : List ℕ) (item other : Item) (rest after : List ℕ) → BeginsWith text item rest → BeginsWith text other after → (item ≡ other) × (rest ≡ after) }
{}
