//! What is true of all runs that are made up. No function here has anything to do: its contract is the law.

ghost use Rattle.std.specs.Prelude.{◌≡◌, ◌+◌, ℕ, length};
ghost use Rattle.document_walk.specs.Elements.{element_count};
ghost use Rattle.generated_texts.specs.Lines.{document_lines};
ghost use Rattle.marker_engine.specs.Census.{box_count};
ghost use Rattle.marker_cli.specs.Generated.{generated};

/// Each edit of such a run is accepted or refused.
pub fn each_edit_is_accepted_or_refused()
    ensures { (seed count : ℕ) → (generated seed count).accepted + (generated seed count).refused ≡ count }
{}

/// At the end of such a run the document has a box for each element, and one for each line of its dump: no sheet and no
/// attribute takes an element's box away.
pub fn each_element_and_line_has_a_box()
    ensures { (seed count : ℕ) → let source = (generated seed count).source in
        box_count source.sheet source.tree ≡ element_count source.tree + length (document_lines source.sheet source.tree) }
{}
