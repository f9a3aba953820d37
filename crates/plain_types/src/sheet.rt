//! Style sheets.

use crate::counter_style::StyleDef;
use crate::declaration::Declared;
use crate::list::List;
use crate::selector::Selector;

/// A style rule: its selectors and its declarations, in their order.
pub struct StyleRule {
    pub selectors: List<Selector>,
    pub declared: List<Declared>,
}

impl Drop for StyleRule {
    fn drop(self) {
        let StyleRule {
            selectors: _,
            declared: _,
        } = self;
    }
}

/// A style sheet: its style rules and its counter-style rules, each in their order.
pub struct Sheet {
    pub rules: List<StyleRule>,
    pub styles: List<StyleDef>,
}

impl Drop for Sheet {
    fn drop(self) {
        let Sheet {
            rules: _,
            styles: _,
        } = self;
    }
}

/// What the selectors of a sheet look at beside the element and its ancestors: siblings that stand before it
/// (`+`, `~`), its position among its siblings (`:nth-child()` and its kin), or whether it is empty (`:empty`).
#[derive(Clone, Copy, Debug, PartialEq, Eq)]
pub struct Features {
    pub siblings: bool,
    pub positions: bool,
    pub empties: bool,
}
