//! The plain types: each call once, and a copy of each kind of value.

use plain_types::attr::Attr;
use plain_types::duplicate::Duplicate;
use plain_types::edit::Edit;
use plain_types::list::List;
use plain_types::memory::Memory;
use plain_types::node::NodeView;
use plain_types::path::Path;
use plain_types::text::Text;
use plain_types::tree::Tree;
use plain_types::tree_builder::TreeBuilder;
use std::alloc::Global;
use std::test::Fail;

/// The tree of `<ol id="a">x<li/></ol>`, or of less where a call finds that it may not come now.
fn tree(alloc: Global) -> Result<Option<Tree>, Memory> {
    let mut attrs = List::new(alloc);
    attrs.push(Attr {
        name: Text::from_str(alloc, "id")?,
        value: Text::from_str(alloc, "a")?,
    })?;
    let mut builder = TreeBuilder::new(alloc);
    if builder.accepts_node() {
        builder.start(Text::from_str(alloc, "ol")?, attrs)?;
    }
    if builder.accepts_node() {
        builder.text(Text::from_str(alloc, "x")?)?;
    }
    if builder.accepts_node() {
        builder.start(Text::from_str(alloc, "li")?, List::new(alloc))?;
    }
    for _ in 0..2 {
        if builder.is_inside() {
            builder.end();
        }
    }
    if builder.is_whole() {
        Ok(Some(builder.finish()))
    } else {
        Ok(None)
    }
}

#[test]
fn texts_lists_and_paths(rt: HostRuntime) -> Result<(), Fail> {
    let alloc = rt.alloc();
    let mut text = Text::new(alloc);
    text.push_str("é")?;
    text.push('x')?;
    assert_eq!(rt; text.duplicate(alloc)?.as_str(), "éx");
    let mut list = List::new(alloc);
    assert!(rt; list.is_empty());
    list.push(text)?;
    assert_eq!(rt; list.duplicate(alloc)?.len(), 1);
    let mut bytes = List::new(alloc);
    bytes.extend(b"ab")?;
    assert_eq!(rt; bytes.as_slice(), b"ab".as_slice());
    let path = Path::of(alloc, &[0, 12])?.duplicate(alloc)?;
    assert_eq!(rt; path.as_slice(), [0, 12].as_slice());
    assert_eq!(rt; format!(in alloc; "{Memory}")?.as_str(), "out of memory");
    Ok(())
}

#[test]
fn trees(rt: HostRuntime) -> Result<(), Fail> {
    let alloc = rt.alloc();
    let tree = tree(alloc)?.ok_or("a tree")?.duplicate(alloc)?;
    assert_eq!(rt; tree.len(), 3);
    assert_eq!(rt; tree.depth(2), 1);
    match tree.node(0) {
        NodeView::Element { name, attrs } => {
            assert_eq!(rt; name, "ol");
            assert_eq!(rt; attrs.len(), 1);
        }
        NodeView::Text { characters: _ } => assert!(rt; false),
    }
    let edit = Edit::Insert {
        parent: Path::of(alloc, &[])?,
        index: 0,
        fragment: tree,
    };
    match edit.duplicate(alloc)? {
        Edit::Insert { fragment, .. } => assert_eq!(rt; fragment.len(), 3),
        _ => assert!(rt; false),
    }
    Ok(())
}
