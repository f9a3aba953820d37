//! What the texts of an element are made from again: the pieces of its boxes, where one of them has a url.
//!
//! A text that shows what another element has can change by an edit that does not touch its own element. Then it is made again
//! from the pieces of its box, which stay as they are. The url of a piece may name an element of the document by its id, or
//! nothing there: then it can still name one in another document of a volume. An element whose boxes have no url keeps no
//! pieces ([`BoxPieces::of`]): their texts are characters alone, and change only where it is evaluated anew.
//!
//! In its contracts stands `pieces_with_urls` of `specs/BoxPieces.antt`.
//!
//! [`BoxPieces::of`]: box_pieces::BoxPieces::of
#![tactic(auto)]

pub mod box_pieces;
mod same_pieces;
mod same_styles;
