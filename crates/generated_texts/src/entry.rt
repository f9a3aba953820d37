//! What is kept of an element once its document is evaluated.

ghost use Rattle.std.specs.Prelude.{◌≡◌, ◌↔◌, IsTrue, option_copied};

use counter_sets::counter_set::CounterSet;
use plain_types::text::Text;

/// The text of a marker, before or after box.
#[derive(Drop)]
pub struct BoxText {
    /// The text in which every `target-text()` of a before or after box is empty. This is what such references to
    /// the box itself write.
    pub flat: Text,
    /// The text that is shown: the flat texts of the targets' boxes stand in it.
    pub full: Text,
}

impl BoxText {
    /// Whether both have the same texts. It takes no memory, and time linear in them.
    pub fn is_same(&self, other: &BoxText) -> bool
        ensures test { IsTrue result ↔ (self.now ≡ other.now) }
    {
        is_same_text(&self.flat, &other.flat) && is_same_text(&self.full, &other.full)
    }
}

/// What is kept of an element. One without a box has empty sets, depths of 0 and no texts.
pub struct NodeEntry {
    pub has_box: bool,
    /// Its own box's counters.
    pub own: CounterSet,
    /// The counters of its last box in tree order, with which it is left.
    pub exit: CounterSet,
    /// The quote depth before its first box.
    pub depth_before: u64,
    /// The quote depth behind its last box.
    pub depth_after: u64,
    pub marker: Option<BoxText>,
    pub before: Option<BoxText>,
    pub after: Option<BoxText>,
}

impl Drop for NodeEntry {
    fn drop(self) {
        let NodeEntry {
            has_box: _,
            own: _,
            exit: _,
            depth_before: _,
            depth_after: _,
            marker: _,
            before: _,
            after: _,
        } = self;
    }
}

impl NodeEntry {
    /// Whether both keep the same of their elements. It takes no memory, and time linear in the texts and the sets.
    pub fn is_same(&self, other: &NodeEntry) -> bool
        ensures test { IsTrue result ↔ (self.now ≡ other.now) }
    {
        self.has_box == other.has_box
            && self.depth_before == other.depth_before
            && self.depth_after == other.depth_after
            && self.own.is_same(&other.own)
            && self.exit.is_same(&other.exit)
            && is_same_box(self.marker.as_ref(), other.marker.as_ref())
            && is_same_box(self.before.as_ref(), other.before.as_ref())
            && is_same_box(self.after.as_ref(), other.after.as_ref())
    }
}

/// Whether both boxes have the same texts, or neither is there.
fn is_same_box(first: Option<&BoxText>, second: Option<&BoxText>) -> bool
    ensures test { IsTrue result ↔ (option_copied first.entry ≡ option_copied second.entry) }
{
    match (first, second) {
        (Some(first), Some(second)) => first.is_same(second),
        (None, None) => true,
        _ => false,
    }
}

/// Whether both texts have the same characters.
fn is_same_text(first: &Text, second: &Text) -> bool
    ensures test { IsTrue result ↔ (first.now ≡ second.now) }
{
    first.as_str() == second.as_str()
}
