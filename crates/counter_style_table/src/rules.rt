//! Rules by their names.

ghost use Rattle.std.specs.Prelude.{◌≡◌, ◌<◌, [], OnOk, OnErr, Some, length};
ghost use Rattle.std.specs.List.{position, slice_get};
ghost use Rattle.std.specs.Str.{chars};
ghost use Rattle.plain_types.specs.StyleNames.{style_name};
ghost use Rattle.counter_style_table.specs.Rules.{is_named, with_rule};

use indexmap::IndexMap;
use plain_types::counter_style::StyleDef;
use plain_types::memory::Memory;
use plain_types::style_name::style_name;
use std::alloc::Global;
use std::marker::Model;

/// Rules of which each has a name of its own. Contracts see the list of the rules.
#[derive(Drop)]
pub struct Rules {
    by_name: IndexMap<String, StyleDef>,
}

impl Model for Rules {
    ghost use Rattle.std.specs.Prelude.{◌≡◌, List, map};
    ghost use Rattle.std.specs.String.{string_bytes};
    ghost use Rattle.std.specs.Str.{chars};
    ghost use Rattle.indexmap.specs.IndexMap.{keys, values};
    ghost use Rattle.plain_types.specs.declared.counter_style.StyleDef.{StyleDef};
    ghost use Rattle.counter_style_table.specs.Rules.{name_of};

    ghost Value = { List StyleDef };

    ghost view = { λ rules. values rules.by_name };

    ghost invariant = { λ rules. map (λ key. chars (string_bytes key)) (keys rules.by_name) ≡ map name_of (values rules.by_name) };
}

impl Rules {
    /// No rules.
    pub fn new(alloc: Global) -> Rules
        ensures empty { result ≡ [] }
    {
        Rules {
            by_name: IndexMap::new(alloc),
        }
    }

    /// How many rules there are.
    pub fn len(&self) -> usize
        ensures length { result ≡ length self.now }
    {
        self.by_name.len()
    }

    /// Puts the rule in the place of the one with its name, or in the last place.
    pub fn put(&mut self, alloc: Global, rule: StyleDef) -> Result<(), Memory>
        ensures ok { OnOk result (self.new ≡ with_rule self.old rule) }
        ensures err { OnErr result (self.new ≡ self.old) }
    {
        let name = String::from_str(alloc, style_name(rule.name.as_str()))?;
        self.by_name.insert(name, rule)?;
        Ok(())
    }

    /// The place of the rule of this name.
    pub fn find(&self, name: &str) -> Option<usize>
        ensures place { result ≡ position (is_named (style_name (chars name.now))) self.now }
    {
        self.by_name.get_index_of(style_name(name))
    }

    /// The rule at a place.
    pub fn rule(&self, place: usize) -> &StyleDef
        requires within { place < length self.now }
        ensures rule { slice_get self.now place ≡ Some result.now }
    {
        &self.by_name[place]
    }
}
