//! Laws of generated texts. The functions do nothing: each contract is a law, proved of every document.

ghost use Rattle.generated_texts.specs.Laws.{EachElementHasItsBox, EachKeyingIsAnother, EntriesFollowKeys, EntriesHaveKeysOfElements, LinesAreThoseOfTheTree, LinesKeepNoKeys, RecordsFollowKeys, SheetsKeepNoKeys, StyleTextsByKeys};

/// Whichever distinct keys the nodes of a document have, its generated texts are the same. Each keying is that by
/// places in tree order under other keys, and under other keys the author's sheet is the same, and all that the
/// evaluation says of elements and all that is kept of them is the same but for the keys.
pub fn keys_do_not_matter()
    ensures keyings { EachKeyingIsAnother }
    ensures sheets { SheetsKeepNoKeys }
    ensures records { RecordsFollowKeys }
    ensures entries { EntriesFollowKeys }
    ensures lines { LinesKeepNoKeys }
    ensures tree { LinesAreThoseOfTheTree }
{}

/// The entries of a document have exactly the keys of its elements, where no two nodes have one key: each element has
/// an entry, and a text has none.
pub fn elements_have_entries()
    ensures keys { EntriesHaveKeysOfElements }
{}

/// Where no element's style is `display: none`, whatever its parent's is, each element has its box.
pub fn elements_have_boxes()
    ensures boxes { EachElementHasItsBox }
{}

/// The texts of a document's style elements are those that its nodes have one by one, in tree order, where no two nodes
/// have one key.
pub fn style_texts_are_in_order()
    ensures keys { StyleTextsByKeys }
{}
