//! What is true of all baked texts. No function here has anything to do: its contract is the law.

ghost use Rattle.std.specs.Prelude.{◌≡◌, ℕ, ◌+◌, IsTrue, List, not};
ghost use Rattle.std.specs.List.{list_all};
ghost use Rattle.bake_definitions.specs.Baked.{Annotated, baked, is_bare, is_inserted, taken_out, without_insertions};
ghost use Rattle.bake_definitions.specs.Grown.{IsGrown};
ghost use Rattle.bake_definitions.specs.Places.{left_out, placed};
ghost use Rattle.bake_definitions.specs.Woven.{IsBaked};
ghost use Rattle.baked_text.specs.Shown.{characters_in, insertion_count, shown_characters};
ghost use Rattle.forest.specs.Forest.{Forest, labels};
ghost use Rattle.plain_types.specs.declared.node.Node.{Node};
ghost use Rattle.xml_definitions.specs.Texts.{IsDocumentText};

/// What a document bakes to is a document, and its tree is the baked tree.
pub fn reads_as_baked()
    ensures { (text output : List ℕ) (document : Forest Annotated) → IsDocumentText text (without_insertions document) → IsBaked text document output → IsDocumentText output (baked document) }
{}

/// Without the insertions the baked tree is the document's, where that has no element that could be one.
pub fn taken_out_again()
    ensures { (document : Forest Annotated) → IsTrue (list_all (λ (node : Node). not (is_inserted node)) (labels (without_insertions document)))
        → taken_out (baked document) ≡ without_insertions document }
{}

/// What the text of a document bakes to is that text, character for character, with insertions between its characters,
/// and with those empty-element tags opened that have some.
pub fn grows_only()
    ensures { (text output : List ℕ) (document : Forest Annotated) → IsDocumentText text (without_insertions document) → IsBaked text document output → IsGrown text output }
{}

/// The characters of the baked tree are those of the document, with each insertion's before or behind those of its
/// element.
pub fn keeps_order()
    ensures { (document : Forest Annotated) → characters_in (baked document) ≡ shown_characters document }
{}

/// The insertions that have a place and those that are left out are all that there are.
pub fn none_lost()
    ensures { (document : Forest Annotated) → insertion_count (placed document) + left_out document ≡ insertion_count document }
{}

/// Each document bakes to a text.
pub fn some_output()
    ensures { (text : List ℕ) (document : Forest Annotated) → IsDocumentText text (without_insertions document) → (output : List ℕ) × IsBaked text document output }
{}

/// A text bakes to one text at most.
pub fn one_output()
    ensures { (text output other : List ℕ) (document : Forest Annotated) → IsBaked text document output → IsBaked text document other → output ≡ other }
{}

/// Where nothing is put in, the text stays as it is.
pub fn bakes_to_itself()
    ensures { (text output : List ℕ) (document : Forest Annotated) → IsTrue (list_all is_bare (labels document)) → IsBaked text document output → output ≡ text }
{}
