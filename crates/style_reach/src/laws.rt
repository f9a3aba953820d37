//! Laws of the reach. The functions do nothing: each contract is a law, proved of every document, edit and sheet.

ghost use Rattle.style_reach.specs.Laws.{DocumentStylesStay, IsWithinByChildren, SheetsStay, StylesStay};

/// An element that stands neither in the tree that an edit takes out, moves or addresses nor where the edit reaches
/// keeps its styles. Where an edit does not reach everywhere, the author's sheet is the same after it.
pub fn untouched_elements_keep_their_styles()
    ensures styles { StylesStay }
    ensures sheets { SheetsStay }
    ensures document { DocumentStylesStay }
{}

/// What stands in a node is that node, and what comes under it.
pub fn inclusive_descendants_are_under_a_node()
    ensures within { IsWithinByChildren }
{}
