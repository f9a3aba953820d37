//! Which rules define a style (CSS Counter Styles 3, 3 and 3.1).

ghost use Rattle.std.specs.Prelude.{◌≡◌};
ghost use Rattle.std.specs.List.{fold, list_any};
ghost use Rattle.std.specs.Str.{chars};
ghost use Rattle.css_definitions.specs.CounterStyles.{defines, gives_right_symbols, gives_symbols, may_be_defined};
ghost use Rattle.counter_style_table.specs.Counts.{symbol_count_after, tuple_count_after};

use crate::describe::{extended_name, named_system};
use plain_types::counter_style::{Descriptor, StyleDef};
use plain_types::style_name::first_equal;
use plain_types::style_ref::System;

/// Names that no style has (CSS Counter Styles 3, 3 and CSS Values 4, 4.2), and names of styles that no
/// rule replaces (CSS Counter Styles 3, 3).
static RESERVED: [&str; 14] = [
    "",
    "none",
    "inherit",
    "initial",
    "unset",
    "revert",
    "revert-layer",
    "default",
    "decimal",
    "disc",
    "square",
    "circle",
    "disclosure-open",
    "disclosure-closed",
];

/// Whether the rule defines a style.
pub fn defines(rule: &StyleDef) -> bool
    ensures test { result ≡ defines rule.now }
{
    may_be_defined(rule.name.as_str()) && gives_right_symbols(rule)
}

/// Whether a rule may define a style of this name.
fn may_be_defined(name: &str) -> bool
    ensures test { result ≡ may_be_defined (chars name.now) }
{
    first_equal(&RESERVED, name).is_none()
}

/// Whether the rule gives the symbols that its system asks for, and none where it extends another style.
fn gives_right_symbols(rule: &StyleDef) -> bool
    ensures test { result ≡ gives_right_symbols rule.now }
{
    let descriptors = rule.descriptors.as_slice();
    if extended_name(rule).is_some() {
        return !gives_symbols(descriptors);
    }
    let symbols = symbol_count(descriptors);
    let tuples = tuple_count(descriptors);
    match named_system(descriptors) {
        Some(system) => system.is_supplied(symbols, tuples),
        None => System::Symbolic.is_supplied(symbols, tuples),
    }
}

/// Whether one of these gives symbols or additive tuples.
fn gives_symbols(descriptors: &[Descriptor]) -> bool
    ensures test { result ≡ list_any gives_symbols descriptors.now }
{
    descriptors.iter().any(|descriptor| {
        matches!(descriptor, Descriptor::Symbols(_) | Descriptor::Additive(_))
    })
}

/// How many symbols are given last.
fn symbol_count(descriptors: &[Descriptor]) -> usize
    ensures count { result ≡ fold symbol_count_after 0 descriptors.now }
{
    let mut count = 0;
    for descriptor in descriptors {
        if let Descriptor::Symbols(symbols) = descriptor {
            count = symbols.len();
        }
    }
    count
}

/// How many additive tuples are given last.
fn tuple_count(descriptors: &[Descriptor]) -> usize
    ensures count { result ≡ fold tuple_count_after 0 descriptors.now }
{
    let mut count = 0;
    for descriptor in descriptors {
        if let Descriptor::Additive(weights) = descriptor {
            count = weights.len();
        }
    }
    count
}
