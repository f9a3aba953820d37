//! What is handed on, by sets with one counter.

use crate::surroundings::{Surroundings, is_handed_the_same, share_handed};
use crate::walked::Walked;
use box_eval::entry::{Closing, Entry};
use box_eval::made::Made;
use counter_sets::counter_set::CounterSet;
use plain_types::box_id::BoxId;
use plain_types::box_kind::BoxKind;
use plain_types::count::Count;
use plain_types::list::List;
use plain_types::memory::Memory;
use plain_types::text::Text;
use std::alloc::Global;
use std::test::Fail;

/// A set with one counter, which has this value.
fn counting(alloc: Global, value: Count) -> Result<CounterSet, Memory> {
    let creator = BoxId {
        key: 1,
        kind: BoxKind::Element,
    };
    let none = CounterSet::empty(alloc)?;
    let name = Text::from_str(alloc, "n")?;
    none.share(alloc)?
        .assign(alloc, &none, &name, value, creator)
}

fn made(alloc: Global, value: Count) -> Result<Made, Memory> {
    Ok(Made {
        set: counting(alloc, value)?,
        pieces: List::new(alloc),
        changes: List::new(alloc),
    })
}

/// The values of the counters of a set, where there is one, are these.
fn has(set: Option<&CounterSet>, want: &[Count]) -> bool {
    match set {
        Some(set) => {
            let counters = set.as_slice();
            counters.len() == want.len()
                && counters
                    .iter()
                    .zip(want)
                    .all(|(counter, want)| counter.value == *want)
        }
        None => false,
    }
}

// an element of value 1 with a marker of value 2, whose last child leaves 3, after an element of value 0
#[test]
fn an_element_hands_on_its_sets(rt: HostRuntime) -> Result<(), Fail> {
    let alloc = rt.alloc();
    let root = Surroundings::of_root(alloc)?;
    assert!(rt; has(Some(&root.parent), &[]) && root.sibling.is_none() && root.preceding.is_none());
    let entry = Entry {
        own: counting(alloc, 1)?,
        changes: List::new(alloc),
        marker: Some(made(alloc, 2)?),
        before: None,
        depth: 4,
    };
    let inside = Surroundings::inside(alloc, &entry)?;
    assert!(rt; has(Some(&inside.parent), &[1]) && has(inside.sibling.as_ref(), &[2]));
    assert!(rt; has(inside.preceding.as_ref(), &[2]) && inside.depth == 4);
    let closing = Closing {
        after: None,
        exit: counting(alloc, 3)?,
        depth: 5,
    };
    let behind = root.behind(alloc, &entry.own, &closing)?;
    assert!(rt; has(Some(&behind.parent), &[]) && has(behind.sibling.as_ref(), &[1]));
    assert!(rt; has(behind.preceding.as_ref(), &[3]) && behind.depth == 5);
    let inputs = behind.inputs(alloc, 7, List::new(alloc))?;
    assert!(rt; inputs.key == 7 && inputs.depth == 5 && has(inputs.sibling.as_ref(), &[1]));
    Ok(())
}

#[test]
fn what_is_shared_is_the_same(rt: HostRuntime) -> Result<(), Fail> {
    let alloc = rt.alloc();
    let root = Surroundings::of_root(alloc)?;
    let entry = Entry {
        own: counting(alloc, 1)?,
        changes: List::new(alloc),
        marker: None,
        before: Some(made(alloc, 2)?),
        depth: 0,
    };
    let inside = Surroundings::inside(alloc, &entry)?;
    let shared = inside.share(alloc)?;
    assert!(rt; inside.is_same(&shared) && !inside.is_same(&root));
    let again = share_handed(alloc, Some(&root))?;
    assert!(rt; is_handed_the_same(again.as_ref(), Some(&root)));
    assert!(rt; is_handed_the_same(None, None) && !is_handed_the_same(None, Some(&root)));
    let walked = Walked {
        handed: Some(inside),
        behind: None,
    };
    let same = walked.share(alloc)?;
    let other = Walked {
        handed: Some(shared),
        behind: again,
    };
    assert!(rt; walked.is_same(&same) && !walked.is_same(&other));
    Ok(())
}
