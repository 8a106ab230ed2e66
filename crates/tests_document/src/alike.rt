//! Siblings that nothing tells apart.

use cascade_sort::are_alike;
use doc_tree::{Tree, TreeFault};
use std::alloc::Global;
use std::test::Fail;

/// Each element's number, parent, type, id, classes and style text.
const ELEMENTS: [(u32, Option<u32>, &str, Option<&str>, &[&str], &str); 12] = [
    (1, None, "main", None, &[], ""),
    (2, Some(1), "p", None, &["a"], ""),
    (3, Some(1), "p", None, &["a"], ""),
    (4, Some(1), "p", None, &["b"], ""),
    (5, Some(1), "p", None, &["a", "b"], ""),
    (6, Some(2), "p", None, &["a"], ""),
    (7, Some(1), "a", None, &["a"], ""),
    (8, Some(1), "p", None, &["a"], "top: 0"),
    (9, Some(1), "p", None, &["a"], "top: 1"),
    (10, Some(1), "p", None, &["a"], "top: 0"),
    (11, Some(1), "p", Some("x"), &["a"], ""),
    (12, Some(1), "p", Some("y"), &["a"], ""),
];

/// Two elements, and whether they are siblings alike.
const ROWS: [(u32, u32, bool); 15] = [
    (2, 3, true),
    (3, 2, true),
    (1, 1, true),
    (11, 11, true),
    (8, 10, true),
    // Other classes, one class more.
    (2, 4, false),
    (2, 5, false),
    // Another parent, another type.
    (2, 6, false),
    (2, 7, false),
    // A style text, another style text.
    (2, 8, false),
    (8, 9, false),
    // An id, another id.
    (2, 11, false),
    (11, 12, false),
    // One isn't in the tree.
    (2, 13, false),
    (13, 2, false),
];

fn page(alloc: Global) -> Result<Tree, TreeFault> {
    let Ok(mut tree) = Tree::new(alloc) else {
        return Err(TreeFault::NoMemory);
    };
    for (n, parent, tag, id, classes, style) in ELEMENTS.iter() {
        tree.add(*n, *parent, tag)?;
        tree.set_id(*n, *id)?;
        tree.set_class(*n, classes)?;
        if style.len() < 100 {
            tree.set_style(*n, style)?;
        }
    }
    Ok(tree)
}

#[test]
fn siblings_of_one_kind_are_alike(rt: HostRuntime) -> Result<(), Fail> {
    let tree = page(rt.alloc())?;
    for (n, m, alike) in ROWS.iter() {
        assert!(rt; are_alike(&tree, *n, *m) == *alike);
    }
    Ok(())
}
