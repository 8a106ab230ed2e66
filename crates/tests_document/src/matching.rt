//! Selectors on one small tree.

use css_token::tokens;
use doc_tree::{Tree, TreeFault};
use selectors_mini::{Selector, matches, matches_any, read_selectors};
use std::alloc::Global;
use std::process::Abort;
use std::test::Fail;

/// Each element's number, parent, type, id and classes: below 1, `.a > .b` stands at 2 and a second `.b` below it.
const ELEMENTS: [(u32, Option<u32>, &str, Option<&str>, &[&str]); 6] = [
    (1, None, "main", Some("top"), &["a"]),
    (2, Some(1), "div", None, &["b"]),
    (3, Some(2), "div", None, &["b"]),
    (4, Some(3), "p", Some("end"), &["c", "ab"]),
    (5, Some(1), "p", None, &[]),
    (6, Some(5), "em", None, &["c"]),
];

/// Which elements each list of selectors matches.
const ROWS: [(&str, &[u32]); 20] = [
    ("*", &[1, 2, 3, 4, 5, 6]),
    ("p", &[4, 5]),
    ("P", &[]),
    (".c", &[4, 6]),
    ("p.c.ab", &[4]),
    ("p.ab.c#end", &[4]),
    (".a", &[1]),
    (".abc", &[]),
    ("#top", &[1]),
    ("#to", &[]),
    ("main p", &[4, 5]),
    ("main > p", &[5]),
    ("div > div", &[3]),
    ("div p", &[4]),
    (".a > .b .c", &[4]),
    (".a > .b > .c", &[]),
    (".a .b .b .c", &[4]),
    (".a .b .b .b .c", &[]),
    ("* > * > * > *", &[4]),
    ("em, #top, div div", &[1, 3, 6]),
];

fn read(alloc: Global, text: &str) -> Option<Vec<Selector>> {
    if text.len() > 100 {
        return None;
    }
    let Ok(tokens) = tokens(alloc, text) else {
        return None;
    };
    read_selectors(alloc, text, tokens.as_slice()).ok()
}

fn small_tree(alloc: Global) -> Result<Tree, TreeFault> {
    let Ok(mut tree) = Tree::new(alloc) else {
        return Err(TreeFault::NoMemory);
    };
    for (n, parent, tag, id, classes) in ELEMENTS.iter() {
        tree.add(*n, *parent, tag)?;
        tree.set_id(*n, *id)?;
        tree.set_class(*n, classes)?;
    }
    Ok(tree)
}

fn check_row(rt: &impl Abort, tree: &Tree, selectors: &[Selector], wanted: &[u32]) {
    for n in 1..=6 {
        assert!(rt; tree.contains(n));
        assert!(rt; matches_any(selectors, tree, n) == wanted.contains(&n));
    }
}

#[test]
fn each_list_matches_its_elements(rt: HostRuntime) -> Result<(), Fail> {
    let tree = small_tree(rt.alloc())?;
    for (text, wanted) in ROWS.iter() {
        let selectors = read(rt.alloc(), text).ok_or("a list")?;
        check_row(&rt, &tree, selectors.as_slice(), wanted);
    }
    Ok(())
}

#[test]
fn an_id_that_is_set_matches(rt: HostRuntime) -> Result<(), Fail> {
    let mut tree = Tree::new(rt.alloc())?;
    tree.add(1, None, "div")?;
    assert!(rt; tree.set_id(1, Some("b")) == Ok(()));
    assert!(rt; tree.contains(1));
    for (text, wanted) in [("#b", true), ("#c", false)] {
        let selectors = read(rt.alloc(), text).ok_or("a list")?;
        assert!(rt; selectors.len() == 1);
        assert!(rt; matches(&selectors[0], &tree, 1) == wanted);
    }
    Ok(())
}
