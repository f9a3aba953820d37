//! The table of a style sheet's counter styles.

ghost use Rattle.std.specs.Prelude.{◌≡◌, [], IfOk, OnOk, filter};
ghost use Rattle.std.specs.List.{fold};
ghost use Rattle.css_definitions.specs.CounterStyles.{defines, finished_styles, rules_with};
ghost use Rattle.counter_style_table.specs.Rules.{with_rule};

use crate::defines::defines;
use crate::finish::finish;
use crate::predefined::predefined_rules;
use crate::rules::Rules;
use plain_types::counter_style::StyleDef;
use plain_types::duplicate::Duplicate;
use plain_types::list::List;
use plain_types::memory::Memory;
use plain_types::table::Table;
use std::alloc::Global;

/// The finished counter styles: the predefined ones, each replaced by the last of these rules that has its
/// name and defines a style, and the others that these rules define. A style that extends another has all
/// that it does not give from that one as finished; on a cycle of `extends` it has it from `decimal`.
///
/// The styles stand in the order in which their names first come, predefined names first; nothing rests
/// on the order. It takes time and memory linear in the rules and in the finished styles, where a style
/// that extends another has a copy of what it has from that one.
pub fn build(alloc: Global, styles: &List<StyleDef>) -> Result<Table, Memory>
    ensures styles { IfOk result (λ table. table ≡ finished_styles styles.now) }
{
    let rules = rules_with(alloc, styles.as_slice())?;
    Table::of(alloc, finish(alloc, &rules)?)
}

/// The predefined rules and these, as far as they define a style, the last one of each name.
fn rules_with(alloc: Global, styles: &[StyleDef]) -> Result<Rules, Memory>
    ensures rules { IfOk result (λ rules. rules ≡ fold with_rule [] (rules_with styles.now)) }
{
    let mut rules = Rules::new(alloc);
    put_all(alloc, &mut rules, predefined_rules(alloc)?.as_slice())?;
    put_defining(alloc, &mut rules, styles)?;
    Ok(rules)
}

/// Puts each of these rules.
fn put_all(alloc: Global, rules: &mut Rules, styles: &[StyleDef]) -> Result<(), Memory>
    ensures ok { OnOk result (rules.new ≡ fold with_rule rules.old styles.now) }
{
    for rule in styles {
        rules.put(alloc, rule.duplicate(alloc)?)?;
    }
    Ok(())
}

/// Puts each of these rules that defines a style.
fn put_defining(alloc: Global, rules: &mut Rules, styles: &[StyleDef]) -> Result<(), Memory>
    ensures ok { OnOk result (rules.new ≡ fold with_rule rules.old (filter defines styles.now)) }
{
    for rule in styles {
        if defines(rule) {
            rules.put(alloc, rule.duplicate(alloc)?)?;
        }
    }
    Ok(())
}
