//! Tables of finished counter styles.

ghost use Rattle.std.specs.Prelude.{◌≡◌, ◌≢◌, ◌<◌, IfOk, IsTrue, Some, length, map};
ghost use Rattle.std.specs.List.{AllPairs, slice_get};
ghost use Rattle.std.specs.Str.{chars};
ghost use Rattle.std.specs.String.{string_bytes};
ghost use Rattle.plain_types.specs.declared.counter_style.CounterStyle.{CounterStyle};

use crate::counter_style::CounterStyle;
use crate::list::List;
use crate::memory::Memory;
use crate::style_name::style_name;
use indexmap::IndexSet;
use std::alloc::Global;
use std::marker::Model;

/// The counter styles of a document, under distinct names. `decimal` is among them, and each has the
/// symbols that its system asks for. Contracts see the list of the styles.
pub struct Table {
    styles: List<CounterStyle>,
    /// The names of the styles, in their order.
    names: IndexSet<String>,
}

impl Drop for Table {
    fn drop(self) {
        let Table {
            styles: _,
            names: _,
        } = self;
    }
}

impl Model for Table {
    ghost use Rattle.std.specs.Prelude.{◌≡◌, List, map};
    ghost use Rattle.std.specs.Str.{chars};
    ghost use Rattle.std.specs.String.{string_bytes};
    ghost use Rattle.plain_types.specs.declared.counter_style.CounterStyle.{CounterStyle};
    ghost use Rattle.plain_types.specs.Table.{IsTable};

    ghost Value = { List CounterStyle };

    ghost view = { λ table. table.styles };

    ghost invariant = { λ table. IsTable table.styles × (map (λ key. chars (string_bytes key)) table.names.keys ≡ map (λ (style : CounterStyle). style.name) table.styles) };
}

impl Table {
    ghost use Rattle.plain_types.specs.Table.{IsTable, has_its_symbols, place_named};

    /// The table of these styles, in this order. Their names are distinct, the `decimal` of CSS is among them, and
    /// each has the symbols that its system asks for. It takes time and memory linear in their names.
    pub fn of(alloc: Global, styles: List<CounterStyle>) -> Result<Table, Memory>
        requires table { IsTable styles }
        ensures styles { IfOk result (λ table. table ≡ styles) }
    {
        let names = names_of(alloc, styles.as_slice())?;
        Ok(Table { styles, names })
    }

    /// How many styles there are. Constant time. What every table is, `IsTable` says: distinct names, the `decimal`
    /// of CSS, and the symbols that each system asks for.
    pub fn len(&self) -> usize
        ensures length { result ≡ length self.now }
        ensures table { IsTable self.now }
    {
        self.styles.len()
    }

    /// The place of the style of this name, predefined names in any ASCII case. It takes no memory, and
    /// time linear in the name, as long as few names of the table have one hash.
    pub fn find(&self, name: &str) -> Option<usize>
        ensures place { result ≡ place_named self.now (chars name.now) }
        ensures table { IsTable self.now }
    {
        self.names.get_index_of(style_name(name))
    }

    /// The style at this place.
    pub fn style(&self, place: usize) -> &CounterStyle
        requires within { place < length self.now }
        ensures style { slice_get self.now place ≡ Some result.now }
        ensures supplied { IsTrue (has_its_symbols result.now) }
    {
        &self.styles.as_slice()[place]
    }
}

/// The names of these styles, in their order.
fn names_of(alloc: Global, styles: &[CounterStyle]) -> Result<IndexSet<String>, Memory>
    requires distinct { AllPairs (λ (first second : CounterStyle). first.name ≢ second.name) styles.now }
    ensures names { IfOk result (λ names. map (λ key. chars (string_bytes key)) names.keys ≡ map (λ (style : CounterStyle). style.name) styles.now) }
{
    let mut names = IndexSet::new(alloc);
    for style in styles {
        names.insert(String::from_str(alloc, style.name.as_str())?)?;
    }
    Ok(names)
}
