//! What the readers of sheets make of texts, as tables of tests.
//!
//! | Module | Its rows |
//! |---|---|
//! | `token_rows` | texts, and their tokens with their places |
//! | `declaration_rows` | properties and values, and what they say |
//! | `descriptor_rows` | descriptors of counter styles and values, and what they say |
//! | `selector_rows` | lists of selectors, and specificities |
//! | `rule_rows` | whole sheets, several as one, `style` attributes, and what selectors look at |
//!
//! A row has a text and what is told of its reading, in a short notation that `value_notes`, `selector_notes` and
//! `rule_notes` write; what has no reading is told as nothing, or as `bad`. What is expected is worked out by hand
//! from the standards. The rows stand here, above css_tokens, css_values, selectors and css_reader, so that those are
//! proved once.
#![tactic(auto)]

#[cfg(test)]
mod declaration_rows;
#[cfg(test)]
mod descriptor_rows;
#[cfg(test)]
mod pushing;
#[cfg(test)]
mod rule_notes;
#[cfg(test)]
mod rule_rows;
#[cfg(test)]
mod selector_notes;
#[cfg(test)]
mod selector_rows;
#[cfg(test)]
mod token_rows;
#[cfg(test)]
mod value_notes;
