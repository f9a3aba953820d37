//! The cascade: which style an element and its pseudo-elements have (CSS Cascade 5, 4 to 7).
//!
//! The floor above selectors and their matching: [`style_of::style_of`] takes a document, as the `Siblings` of
//! `selector_match`, the sheets of the user agent and of the author, each as a [`rule_table::RuleTable`], an element,
//! what its `style` attribute declares and the own style of its parent, and gives the styles of the element and of its
//! `::marker`, `::before` and `::after`. [`agent_sheet::AGENT_SHEET`] is the text of the sheet that the user agent has,
//! [`hints::hints`] says what the attributes of HTML's lists mean as declarations, and
//! [`style_attributes::inline_declarations`] reads a `style` attribute.
//!
//! A table files the rules of its sheet by the ids, classes and names that the last compounds of their selectors ask for
//! (`slot`, `shelf`, `shelves`), so that an element looks at few of them. [`rule_table::table_misses_no_rule`] says that it
//! misses none.
//!
//! On the way there, the declarations that apply are put into lists, one for the element and one for each
//! pseudo-element, in the order in which they appear (`applicable`); of those of a property the greatest
//! holds (`candidate`, `rank`); and what it says, or that there is none, gives the value (`defaulting`,
//! `property`). Nothing here recurses.
//!
//! The layer above knows it by the words `element_style tree agent author key parent` (`specs/Styles.antt`:
//! cascaded and specified values, over the declarations that apply, `specs/Declarations.antt`), `hints_of tree
//! key` (`specs/Hints.antt`), `inline_of tree key` (`specs/StyleAttributes.antt`) and `candidates tree key rules`
//! (`specs/RuleTables.antt`).
//!
//! ```text
//! let author = RuleTable::new(alloc, sheet)?;
//! let root = arena.root();    // <ol start="3" style="list-style: none"/>
//! let inline = inline_declarations(alloc, &arena, root)?;
//! let mut siblings = Siblings::new(alloc, &arena);
//! let style = style_of(alloc, &mut siblings, &agent, &author, inline.as_slice(), None, root, &mut steps)?;
//! style.own.resets       // `list-item 2`
//! style.own.list_type    // `none`
//! ```
#![tactic(auto)]

pub mod agent_sheet;
mod applicable;
mod candidate;
mod defaulting;
pub mod hints;
mod property;
mod rank;
pub mod rule_table;
mod shelf;
mod shelves;
mod slot;
pub mod style_attributes;
pub mod style_of;
mod texts;
mod words;
