//! The limits of the document tree.

use doc_tree::{MAX_CLASSES, MAX_DEPTH, MAX_ELEMENTS, MAX_STYLE_BYTES, Tree, TreeFault};
use std::test::Fail;

#[test]
fn limits_are_these(rt: HostRuntime) {
    assert!(rt; MAX_ELEMENTS == 65_536);
    assert!(rt; MAX_DEPTH == 256);
    assert!(rt; MAX_CLASSES == 16);
    assert!(rt; MAX_STYLE_BYTES == 67_108_864);
}

#[test]
fn stops_at_the_greatest_depth(rt: HostRuntime) -> Result<(), Fail> {
    let mut tree = Tree::new(rt.alloc())?;
    let mut parent = None;
    for n in 1..=256 {
        assert!(rt; tree.add(n, parent, "a") == Ok(()));
        parent = Some(n);
    }
    assert!(rt; tree.add(257, parent, "a") == Err(TreeFault::BoundDepth));
    assert!(rt; tree.insert(257, 256, "a") == Ok(()));
    assert!(rt; tree.depth(257) == Some(256));
    assert!(rt; tree.position(257) == Some(255));
    Ok(())
}

#[test]
fn stops_at_the_most_elements(rt: HostRuntime) -> Result<(), Fail> {
    let mut tree = Tree::new(rt.alloc())?;
    assert!(rt; tree.add(1, None, "a") == Ok(()));
    for n in 2..=65_536 {
        assert!(rt; tree.add(n, Some(n / 2), "a") == Ok(()));
    }
    assert!(rt; tree.len() == 65_536);
    assert!(rt; tree.add(65_537, Some(1), "a") == Err(TreeFault::BoundNodes));
    assert!(rt; tree.insert(65_537, 2, "a") == Err(TreeFault::BoundNodes));
    assert!(rt; tree.remove(65_536).is_ok());
    assert!(rt; tree.add(65_536, Some(1), "a") == Err(TreeFault::NodeTaken));
    assert!(rt; tree.add(65_537, Some(1), "a") == Ok(()));
    assert!(rt; tree.position(65_537) == Some(65_535));
    Ok(())
}

fn class_count(tree: &Tree, n: u32) -> usize {
    match tree.element(n) {
        None => 0,
        Some(element) => element.classes().len(),
    }
}

#[test]
fn stops_at_the_most_classes(rt: HostRuntime) -> Result<(), Fail> {
    let names = [
        "a", "b", "c", "d", "e", "f", "g", "h", "i", "j", "k", "l", "m", "n", "o", "p", "a", "b",
    ];
    let mut tree = Tree::new(rt.alloc())?;
    assert!(rt; tree.add(1, None, "a") == Ok(()));
    assert!(rt; tree.set_class(1, &names) == Ok(()));
    assert!(rt; class_count(&tree, 1) == 16);
    let more = [
        "a", "b", "c", "d", "e", "f", "g", "h", "i", "j", "k", "l", "m", "n", "o", "p", "a", "q",
    ];
    assert!(rt; tree.set_class(1, &more) == Err(TreeFault::BoundClasses));
    assert!(rt; tree.set_class(2, &more) == Err(TreeFault::UnknownNode));
    assert!(rt; class_count(&tree, 1) == 16);
    assert!(rt; tree.set_class(1, &["y", "x", "y", "x"]) == Ok(()));
    let element = tree.element(1).expect(&rt, "it is there");
    let classes = element.classes();
    assert!(rt; classes.len() == 2);
    assert!(rt; classes[0].as_str() == "y");
    assert!(rt; classes[1].as_str() == "x");
    assert!(rt; tree.set_class(1, &[]) == Ok(()));
    assert!(rt; class_count(&tree, 1) == 0);
    Ok(())
}
