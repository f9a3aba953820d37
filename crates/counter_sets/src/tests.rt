//! Sets as documents have them.

use crate::by_name::{ByName, MANY};
use crate::counter_set::CounterSet;
use crate::counters::is_missing_in;
use crate::indexed_set::IndexedSet;
use plain_types::box_id::BoxId;
use plain_types::box_kind::BoxKind;
use plain_types::count::{COUNT_HIGH, COUNT_LOW, Count};
use plain_types::counter::Counter;
use plain_types::memory::Memory;
use plain_types::shared_text::SharedText;
use plain_types::text::Text;
use std::alloc::Global;
use std::test::Fail;

fn element(key: usize) -> BoxId {
    BoxId {
        key,
        kind: BoxKind::Element,
    }
}

/// The set after `counter-reset: NAME` on an element of this key, which has no counter yet.
fn reset(
    alloc: Global,
    set: CounterSet,
    parent: &CounterSet,
    name: &str,
    key: usize,
) -> Result<CounterSet, Memory> {
    let counter = Counter {
        name: SharedText::from_str(alloc, name)?,
        creator: element(key),
        reversed: false,
        value: 0,
    };
    if is_missing_in(set.as_slice(), 0, &counter) {
        return set.instantiate(alloc, parent, counter);
    }
    Ok(set)
}

/// Whether the set has counters with these creators and values, in this order.
fn has(set: &CounterSet, want: &[(usize, Count)]) -> bool {
    let counters = set.as_slice();
    counters.len() == want.len()
        && counters.iter().zip(want).all(|(counter, want)| counter.creator.key == want.0
            && counter.value == want.1)
}

// <body><h1/><h2/><h2/><h1/><h2/></body> with h1{counter-reset:s} and h2{counter-increment:s}
#[test]
fn a_later_sibling_starts_anew(rt: HostRuntime) -> Result<(), Fail> {
    let alloc = rt.alloc();
    let s = Text::from_str(alloc, "s")?;
    let body = CounterSet::empty(alloc)?;
    let first = CounterSet::inherit(alloc, &body, None, Some(&body))?;
    let first = reset(alloc, first, &body, "s", 1)?;
    assert!(rt; has(&first, &[(1, 0)]));
    let second = CounterSet::inherit(alloc, &body, Some(&first), Some(&first))?;
    let second = second.increment(alloc, &body, &s, 1, element(2))?;
    assert!(rt; has(&second, &[(1, 1)]));
    let third = CounterSet::inherit(alloc, &body, Some(&second), Some(&second))?;
    let third = third.increment(alloc, &body, &s, 1, element(3))?;
    assert!(rt; has(&third, &[(1, 2)]));
    let fourth = CounterSet::inherit(alloc, &body, Some(&third), Some(&third))?;
    let fourth = reset(alloc, fourth, &body, "s", 4)?;
    assert!(rt; has(&fourth, &[(4, 0)]));
    let innermost = fourth.innermost("s").ok_or("the counter of the second h1")?;
    assert!(rt; innermost.creator == element(4));
    assert!(rt; fourth.innermost("t").is_none());
    Ok(())
}

// <ol><li>a<ol><li>b</li><li>c</li></ol></li><li>d</li></ol>, where each ol resets n and each li increments it
#[test]
fn a_child_keeps_the_counter_of_its_parent(rt: HostRuntime) -> Result<(), Fail> {
    let alloc = rt.alloc();
    let n = Text::from_str(alloc, "n")?;
    let root = CounterSet::empty(alloc)?;
    let outer = reset(alloc, root.share(alloc)?, &root, "n", 0)?;
    let a = CounterSet::inherit(alloc, &outer, None, Some(&outer))?;
    let a = a.increment(alloc, &outer, &n, 1, element(1))?;
    let inner = CounterSet::inherit(alloc, &a, None, Some(&a))?;
    let inner = reset(alloc, inner, &a, "n", 2)?;
    assert!(rt; has(&inner, &[(0, 1), (2, 0)]));
    let b = CounterSet::inherit(alloc, &inner, None, Some(&inner))?;
    let b = b.increment(alloc, &inner, &n, 1, element(3))?;
    let c = CounterSet::inherit(alloc, &inner, Some(&b), Some(&b))?;
    let c = c.increment(alloc, &inner, &n, 1, element(4))?;
    assert!(rt; has(&c, &[(0, 1), (2, 2)]));
    let d = CounterSet::inherit(alloc, &outer, Some(&a), Some(&c))?;
    let d = d.increment(alloc, &outer, &n, 1, element(5))?;
    assert!(rt; has(&d, &[(0, 2)]));
    Ok(())
}

#[test]
fn values_end_at_the_ends_of_counts(rt: HostRuntime) -> Result<(), Fail> {
    let alloc = rt.alloc();
    let n = Text::from_str(alloc, "n")?;
    let root = CounterSet::empty(alloc)?;
    for (value, by, want) in [
        (COUNT_HIGH, 1, COUNT_HIGH),
        (COUNT_HIGH - 1, 1, COUNT_HIGH),
        (COUNT_LOW, -1, COUNT_LOW),
        (COUNT_LOW, COUNT_HIGH, -1),
    ] {
        let set = root
            .share(alloc)?
            .assign(alloc, &root, &n, value, element(7))?;
        let set = set.increment(alloc, &root, &n, by, element(8))?;
        assert!(rt; has(&set, &[(7, want)]), "{value} and {by}");
    }
    let set = root
        .share(alloc)?
        .increment(alloc, &root, &n, COUNT_LOW, element(7))?;
    assert!(rt; has(&set, &[(7, COUNT_LOW)]));
    Ok(())
}

#[test]
fn a_shared_set_is_the_same(rt: HostRuntime) -> Result<(), Fail> {
    let alloc = rt.alloc();
    let root = CounterSet::empty(alloc)?;
    let n = Text::from_str(alloc, "n")?;
    let set = reset(alloc, root.share(alloc)?, &root, "n", 3)?;
    let shared = set.share(alloc)?;
    assert!(rt; shared.shares_with(&set) && shared.is_same(&set));
    let changed = shared
        .share(alloc)?
        .assign(alloc, &root, &n, 5, element(4))?;
    assert!(rt; has(&set, &[(3, 0)]) && has(&shared, &[(3, 0)]) && has(&changed, &[(3, 5)]));
    assert!(rt; !changed.shares_with(&set) && !changed.is_same(&set));
    let again = reset(alloc, root.share(alloc)?, &root, "n", 3)?;
    assert!(rt; !again.shares_with(&set) && again.is_same(&set));
    Ok(())
}

// which of the sets that a box inherits from lends its list
#[test]
fn inherited_lists_are_shared(rt: HostRuntime) -> Result<(), Fail> {
    let alloc = rt.alloc();
    let n = Text::from_str(alloc, "n")?;
    let root = CounterSet::empty(alloc)?;
    let parent = reset(alloc, root.share(alloc)?, &root, "n", 0)?;
    let sibling = parent
        .share(alloc)?
        .increment(alloc, &root, &n, 1, element(1))?;
    let nested = sibling
        .share(alloc)?
        .increment(alloc, &root, &n, 1, element(2))?;
    let deeper = reset(alloc, nested.share(alloc)?, &nested, "n", 3)?;
    for (row, (own, before, preceding, lends)) in [
        (&root, None, None, &root),
        (&parent, None, None, &parent),
        (&parent, None, Some(&parent), &parent),
        (&parent, Some(&parent), Some(&parent), &parent),
        (&parent, Some(&sibling), Some(&sibling), &sibling),
        (&parent, Some(&sibling), Some(&nested), &nested),
        (&root, Some(&sibling), None, &sibling),
    ]
    .into_iter()
    .enumerate()
    {
        let set = CounterSet::inherit(alloc, own, before, preceding)?;
        assert!(rt; set.shares_with(lends), "row {row}");
    }
    let set = CounterSet::inherit(alloc, &parent, Some(&sibling), Some(&deeper))?;
    assert!(rt; has(&set, &[(0, 2)]) && has(&parent, &[(0, 0)]) && has(&sibling, &[(0, 1)]));
    Ok(())
}

// what is added to the counter `n`, or which value it takes, and whether the list is shared then
#[test]
fn lists_without_a_change_are_shared(rt: HostRuntime) -> Result<(), Fail> {
    let alloc = rt.alloc();
    let n = Text::from_str(alloc, "n")?;
    let root = CounterSet::empty(alloc)?;
    for (value, by, shared) in [(4, 0, true), (4, 1, false), (COUNT_HIGH, 1, true)] {
        let set = root
            .share(alloc)?
            .assign(alloc, &root, &n, value, element(7))?;
        let after = set
            .share(alloc)?
            .increment(alloc, &root, &n, by, element(8))?;
        assert!(rt; after.shares_with(&set) == shared, "{value} and {by}");
        let after = set
            .share(alloc)?
            .assign(alloc, &root, &n, value, element(8))?;
        assert!(rt; after.shares_with(&set), "{value}");
    }
    Ok(())
}

#[test]
fn names_keep_their_values(rt: HostRuntime) -> Result<(), Fail> {
    let alloc = rt.alloc();
    let mut values = ByName::new(alloc);
    values.put_first(alloc, "a", 1)?;
    values.put_first(alloc, "a", 2)?;
    values.put(alloc, "b", 3)?;
    values.put(alloc, "b", 4)?;
    for (name, want) in [("a", Some(1)), ("b", Some(4)), ("A", None), ("", None)] {
        assert!(rt; values.get(name) == want, "{name}");
    }
    Ok(())
}

// for how many names a set is asked: with a look-up or without, it says the same
#[test]
fn a_look_up_changes_no_answer(rt: HostRuntime) -> Result<(), Fail> {
    let alloc = rt.alloc();
    let n = Text::from_str(alloc, "n")?;
    let m = Text::from_str(alloc, "m")?;
    let root = CounterSet::empty(alloc)?;
    let outer = reset(alloc, root.share(alloc)?, &root, "n", 1)?;
    let both = reset(alloc, outer.share(alloc)?, &outer, "n", 2)?;
    for asked in [0, MANY - 1, MANY] {
        let set = IndexedSet::of(alloc, both.share(alloc)?, asked)?;
        let set = set.increment(alloc, &root, &m, 2, element(3))?;
        let set = set.increment(alloc, &root, &m, 3, element(4))?;
        let set = set.assign(alloc, &root, &n, 7, element(5))?;
        let innermost = set.innermost("n").ok_or("the inner counter")?;
        assert!(rt; innermost.creator == element(2), "{asked}");
        assert!(rt; set.innermost("o").is_none(), "{asked}");
        assert!(rt; has(&set.into_set(), &[(1, 0), (2, 7), (3, 5)]), "{asked}");
    }
    Ok(())
}
