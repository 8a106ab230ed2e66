//! Edits and readers of the document tree.

use doc_tree::{Tree, TreeFault};
use std::process::Abort;
use std::test::Fail;

fn add(tree: &mut Tree, rt: &impl Abort, adds: &[(u32, Option<u32>, Result<(), TreeFault>)]) {
    for (n, parent, want) in adds {
        assert!(rt; tree.add(*n, *parent, "a") == *want);
    }
}

fn check_order(tree: &Tree, rt: &impl Abort, order: &[u32]) {
    assert!(rt; tree.len() == order.len());
    for (at, n) in order.iter().enumerate() {
        assert!(rt; tree.position(*n) == Some(at as u32));
        assert!(rt; number_at(tree, at) == Some(*n));
    }
}

fn number_at(tree: &Tree, at: usize) -> Option<u32> {
    tree.at(at).map(|element| element.number())
}

#[test]
fn adds_in_tree_order(rt: HostRuntime) -> Result<(), Fail> {
    let mut tree = Tree::new(rt.alloc())?;
    assert!(rt; tree.is_empty());
    add(
        &mut tree,
        &rt,
        &[
            (2, Some(1), Err(TreeFault::UnknownNode)),
            (10, None, Ok(())),
            (2, Some(10), Ok(())),
            (3, Some(10), Ok(())),
            (4, Some(2), Ok(())),
            (5, Some(4), Ok(())),
            (6, Some(2), Ok(())),
            (3, Some(99), Err(TreeFault::UnknownNode)),
            (3, Some(2), Err(TreeFault::NodeTaken)),
            (10, None, Err(TreeFault::NodeTaken)),
            (7, None, Err(TreeFault::BoundRoot)),
            (7, Some(10), Ok(())),
        ],
    );
    check_order(&tree, &rt, &[10, 2, 4, 5, 6, 3, 7]);
    tree.renumber();
    check_order(&tree, &rt, &[10, 2, 4, 5, 6, 3, 7]);
    assert!(rt; tree.subtree_end(2) == Some(5));
    assert!(rt; tree.subtree_end(10) == Some(7));
    assert!(rt; tree.depth(5) == Some(4));
    assert!(rt; tree.parent(6) == Some(2));
    assert!(rt; tree.parent(10) == None);
    assert!(rt; tree.position(8) == None);
    assert!(rt; number_at(&tree, 7) == None);
    Ok(())
}

#[test]
fn inserts_before_siblings(rt: HostRuntime) -> Result<(), Fail> {
    let mut tree = Tree::new(rt.alloc())?;
    add(
        &mut tree,
        &rt,
        &[
            (1, None, Ok(())),
            (2, Some(1), Ok(())),
            (3, Some(2), Ok(())),
        ],
    );
    assert!(rt; tree.insert(4, 2, "b") == Ok(()));
    assert!(rt; tree.insert(5, 3, "b") == Ok(()));
    assert!(rt; tree.insert(6, 9, "b") == Err(TreeFault::UnknownNode));
    assert!(rt; tree.insert(5, 2, "b") == Err(TreeFault::NodeTaken));
    assert!(rt; tree.insert(6, 1, "b") == Err(TreeFault::BoundRoot));
    assert!(rt; tree.insert(6, 2, "b") == Ok(()));
    check_order(&tree, &rt, &[1, 4, 6, 2, 5, 3]);
    assert!(rt; tree.parent(4) == Some(1));
    assert!(rt; tree.parent(5) == Some(2));
    Ok(())
}

#[test]
fn removes_with_all_below(rt: HostRuntime) -> Result<(), Fail> {
    let mut tree = Tree::new(rt.alloc())?;
    add(&mut tree, &rt, &[(1, None, Ok(())), (2, Some(1), Ok(()))]);
    assert!(rt; tree.insert(3, 2, "p") == Ok(()));
    let removed = tree.remove(1)?;
    assert!(rt; removed.as_slice() == [1, 3, 2].as_slice());
    assert!(rt; tree.is_empty());
    assert!(rt; tree.contains(3) == false);
    assert!(rt; tree.remove(1).is_err());
    add(
        &mut tree,
        &rt,
        &[
            (1, None, Err(TreeFault::NodeTaken)),
            (3, None, Err(TreeFault::NodeTaken)),
            (4, None, Ok(())),
            (5, Some(4), Ok(())),
            (6, Some(5), Ok(())),
            (7, Some(4), Ok(())),
        ],
    );
    let removed = tree.remove(5)?;
    assert!(rt; removed.as_slice() == [5, 6].as_slice());
    check_order(&tree, &rt, &[4, 7]);
    Ok(())
}

#[test]
fn goes_over_children(rt: HostRuntime) -> Result<(), Fail> {
    let mut tree = Tree::new(rt.alloc())?;
    assert!(rt; tree.first_child(1) == None);
    add(
        &mut tree,
        &rt,
        &[
            (1, None, Ok(())),
            (2, Some(1), Ok(())),
            (3, Some(2), Ok(())),
            (4, Some(3), Ok(())),
            (5, Some(2), Ok(())),
            (6, Some(1), Ok(())),
            (7, Some(1), Ok(())),
        ],
    );
    assert!(rt; tree.insert(8, 2, "b") == Ok(()));
    assert!(rt; tree.insert(9, 7, "b") == Ok(()));
    let removed = tree.remove(6)?;
    assert!(rt; removed.as_slice() == [6].as_slice());
    for (n, child, sibling) in &[
        (1, Some(8), None),
        (8, None, Some(2)),
        (2, Some(3), Some(9)),
        (3, Some(4), Some(5)),
        (4, None, None),
        (5, None, None),
        (9, None, Some(7)),
        (7, None, None),
        (6, None, None),
        (10, None, None),
    ] {
        assert!(rt; tree.first_child(*n) == *child);
        assert!(rt; tree.next_sibling(*n) == *sibling);
    }
    Ok(())
}

#[test]
fn keeps_texts(rt: HostRuntime) -> Result<(), Fail> {
    let mut tree = Tree::new(rt.alloc())?;
    add(&mut tree, &rt, &[(1, None, Ok(())), (2, Some(1), Ok(()))]);
    assert!(rt; tree.style(2) == Some(""));
    assert!(rt; tree.set_style(2, "color: red") == Ok(()));
    assert!(rt; tree.set_style(3, "color: red") == Err(TreeFault::UnknownNode));
    assert!(rt; tree.style(1) == Some(""));
    assert!(rt; tree.style(2) == Some("color: red"));
    assert!(rt; tree.style(3) == None);
    assert!(rt; tree.set_id(2, Some("x")) == Ok(()));
    assert!(rt; tree.set_id(3, Some("x")) == Err(TreeFault::UnknownNode));
    let element = tree.element(2).expect(&rt, "it is there");
    assert!(rt; element.id() == Some("x"));
    assert!(rt; element.tag() == "a");
    assert!(rt; tree.set_id(2, None) == Ok(()));
    let element = tree.element(2).expect(&rt, "it is there");
    assert!(rt; element.id() == None);
    Ok(())
}
