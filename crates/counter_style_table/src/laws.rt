//! Laws of finished styles. The functions do nothing: each contract is a law.

ghost use Rattle.std.specs.Prelude.{◌≡◌, ◌+◌, length};
ghost use Rattle.std.specs.Str.{chars};
ghost use Rattle.css_definitions.specs.CounterStyles.{finished, finished_within, is_on_cycle, leads_to};

use plain_types::counter_style::StyleDef;

/// A chain of `extends` ends: after as many steps as there are rules it has come back, or has come to a style
/// that extends no other, and further steps change nothing. So the bounds that the definitions have on them are
/// none (CSS Counter Styles 3, 3.1.7, lets a chain be of any length).
pub fn extends_ends(rules: &[StyleDef], name: &str, more: usize)
    ensures cycle { leads_to rules.now (length rules.now + more) (chars name.now) (chars name.now) ≡ is_on_cycle rules.now (chars name.now) }
    ensures styles { finished_within rules.now (length rules.now + more) (chars name.now) ≡ finished rules.now (chars name.now) }
{}
