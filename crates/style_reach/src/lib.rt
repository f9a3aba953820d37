//! The reach of an edit: where it can change the styles of elements.
//!
//! The floor above selectors, the cascade, and the definition of a document's sheets. An edit changes the styles of
//! the elements that it puts in, takes out, moves or addresses, and selectors may see it from others as well: from the
//! siblings of an element that changed, from a parent that is empty now, from all elements where a style element
//! changed. [`reach::reach`] tells from where, as an [`extent::Reach`]: nowhere else, one or two elements with all that
//! is in them, or everywhere. It is told by what the selectors of the sheets look at, [`reach::all_features`], and not
//! by what they match.
//!
//! | Edit | Selectors look at | Reach |
//! |---|---|---|
//! | one that touches a sheet | | everywhere |
//! | an attribute is set or unset | siblings | the element's parent |
//! | a child comes or goes | siblings and emptiness | the parent's parent, or the root |
//! | a child comes or goes | siblings, positions or emptiness | the parent |
//! | a child moves | one of these | both of the places, by these rows |
//! | any other | | the edited trees alone |
//!
//! An edit touches a sheet where it puts another in the sheet's place; where a style element comes, goes, moves or gets
//! another `type`; and where what stands in one changes.
//!
//! That this is enough is a law, [`laws::untouched_elements_keep_their_styles`]: outside of the edited trees and of
//! what is reached, each element has after the edit the styles that it had before. So what has to be styled anew after
//! an edit is in these trees.
//!
//! The layer above knows it by the words `reach features tree edit` (`specs/Reaches.antt`), `touches_sheet tree edit`
//! (`specs/TouchedSheets.antt`) and `IsUntouched features edit tree key` (`specs/Laws.antt`).
//!
//! ```text
//! let looks = all_features(&agent, &author);     // li:last-child {}
//! reach(&arena, looks, &edit)                    // an item is put at the end of a list: `Under` the list
//! ```
#![tactic(auto)]

pub mod extent;
pub mod laws;
pub mod reach;
mod style_elements;
