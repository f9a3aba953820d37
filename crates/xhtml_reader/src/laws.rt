//! What is true of all documents, and of three texts that are none. No function here has anything to do:
//! its contract is the law.

ghost use Rattle.std.specs.Prelude.{◌≡◌, ℕ, List, Result, codes};
ghost use Rattle.forest.specs.Forest.{Forest};
ghost use Rattle.plain_types.specs.declared.node.Node.{Node};
ghost use Rattle.xml_definitions.specs.Faults.{FailsAsDocument};
ghost use Rattle.xml_definitions.specs.Items.{ArePieces, Item};
ghost use Rattle.xml_definitions.specs.Spelling.{Spells};
ghost use Rattle.xml_definitions.specs.Texts.{IsDocumentText};
ghost use Rattle.xhtml_reader.specs.Readings.{ReadsAsDocument, ReadsAsFragment};

/// A text has at most one list of items.
pub fn one_list_of_items()
    ensures { (characters : List ℕ) (items other : List Item) → ArePieces Spells characters items → ArePieces Spells characters other → items ≡ other }
{}

/// A text is a document of at most one tree.
pub fn one_document_tree()
    ensures { (text : List ℕ) (tree other : Forest Node) → IsDocumentText text tree → IsDocumentText text other → tree ≡ other }
{}

/// Each text has a reading as a document: a tree, or the place where it fails.
pub fn some_document_reading()
    ensures { (text : List ℕ) → (reading : Result (Forest Node) (ℕ × ℕ)) × ReadsAsDocument text reading }
{}

/// A text has one reading as a document at most: one tree or one place, and not both.
pub fn one_document_reading()
    ensures { (text : List ℕ) (reading other : Result (Forest Node) (ℕ × ℕ)) → ReadsAsDocument text reading → ReadsAsDocument text other → reading ≡ other }
{}

/// Each text has a reading as a fragment: a tree, or the place where it fails.
pub fn some_fragment_reading()
    ensures { (text : List ℕ) → (reading : Result (Forest Node) (ℕ × ℕ)) × ReadsAsFragment text reading }
{}

/// A text has one reading as a fragment at most: one tree or one place, and not both.
pub fn one_fragment_reading()
    ensures { (text : List ℕ) (reading other : Result (Forest Node) (ℕ × ℕ)) → ReadsAsFragment text reading → ReadsAsFragment text other → reading ≡ other }
{}

/// An end tag of another name is where this text fails.
pub fn other_end_tag_fails()
    ensures { FailsAsDocument (codes "<a></b>") 1 4 }
{}

/// A tag that has an attribute twice is none, and its first character is where this text fails.
pub fn attribute_twice_fails()
    ensures { FailsAsDocument (codes "<p a=\"\" a=\"\">") 1 1 }
{}

/// A reference to no character is where this text fails.
pub fn no_character_fails()
    ensures { FailsAsDocument (codes "<p>&#xD800;") 1 4 }
{}
