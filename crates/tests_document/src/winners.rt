//! Winners of the cascade on small pages.

use cascade_sort::declared;
use computed_style::{DeclaredSet, Winners};
use doc_tree::{Tree, TreeFault};
use fix_num::Fix;
use sheet_rules::{Sheet, Sheets, read_sheet};
use std::alloc::Global;
use std::process::Abort;
use std::test::Fail;
use value_types::{Declared, ListName, PropertyId, Size, Unit};

/// Each element's number, parent, type, id and classes.
const ELEMENTS: [(u32, Option<u32>, &str, Option<&str>, &[&str]); 3] = [
    (1, None, "main", Some("top"), &["a"]),
    (2, Some(1), "p", Some("end"), &["b", "c"]),
    (3, Some(1), "p", None, &[]),
];

/// Two sheets, the style text of element 2, and the winners of its `z-index`: an important one and a normal one.
const ROWS: [(&str, &str, &str, Option<i32>, Option<i32>); 24] = [
    ("", "", "", None, None),
    ("p { z-index: 1 }", "", "", None, Some(1)),
    ("em { z-index: 1 }", "#top { z-index: 2 }", "", None, None),
    // Order of appearance: sheets, rules, declarations.
    ("p { z-index: 1 }", "p { z-index: 2 }", "", None, Some(2)),
    ("p { z-index: 1 } p { z-index: 2 }", "", "", None, Some(2)),
    ("p { z-index: 1; z-index: 2 }", "", "", None, Some(2)),
    (
        "p { z-index: 1; all: initial; z-index: 2 }",
        "",
        "",
        None,
        Some(2),
    ),
    // Specificity before order.
    (".b { z-index: 1 }", "p { z-index: 2 }", "", None, Some(1)),
    (
        "#end { z-index: 1 } .b.c { z-index: 2 }",
        "",
        "",
        None,
        Some(1),
    ),
    (
        ".b.c { z-index: 1 } .c { z-index: 2 }",
        "",
        "",
        None,
        Some(1),
    ),
    (
        "main p { z-index: 1 } p { z-index: 2 }",
        "* { z-index: 3 }",
        "",
        None,
        Some(1),
    ),
    ("* { z-index: 1 }", "", "", None, Some(1)),
    ("* { z-index: 1 } * { z-index: 2 }", "", "", None, Some(2)),
    // The greatest of the selectors that match, and no other.
    (
        "p, #end, * { z-index: 1 } .b.c { z-index: 2 }",
        "",
        "",
        None,
        Some(1),
    ),
    (
        "p, #top { z-index: 1 } .b { z-index: 2 }",
        "",
        "",
        None,
        Some(2),
    ),
    (
        "* > p, em .b { z-index: 1 } .c { z-index: 2 }",
        "",
        "",
        None,
        Some(2),
    ),
    // The style attribute before specificity.
    (
        "#end { z-index: 1 }",
        "#end { z-index: 2 }",
        "z-index: 3",
        None,
        Some(3),
    ),
    (
        "p { z-index: 1 }",
        "",
        "z-index: 2; z-index: 3",
        None,
        Some(3),
    ),
    // One with a fault has no declaration.
    (
        "p { z-index: 1 }",
        "",
        "z-index: 2; width: 5vh",
        None,
        Some(1),
    ),
    // Importance.
    (
        "p { z-index: 1 !important }",
        "",
        "z-index: 2",
        Some(1),
        Some(2),
    ),
    (
        "p { z-index: 1 !important }",
        "",
        "z-index: 2 !important",
        Some(2),
        None,
    ),
    (
        "p { z-index: 1 !important } .b { z-index: 2 !important; z-index: 3 }",
        "#end { z-index: 4 }",
        "",
        Some(2),
        Some(4),
    ),
    (
        "#end { z-index: 1 } p { z-index: 2 !important }",
        "",
        "",
        Some(2),
        Some(1),
    ),
    // Rules between keyframes.
    (
        "@keyframes k { } p { z-index: 1 } @keyframes k { } p { z-index: 2 }",
        "",
        "",
        None,
        Some(2),
    ),
];

fn page(
    alloc: Global,
    elements: &[(u32, Option<u32>, &str, Option<&str>, &[&str])],
) -> Result<Tree, TreeFault> {
    let Ok(mut tree) = Tree::new(alloc) else {
        return Err(TreeFault::NoMemory);
    };
    for (n, parent, tag, id, classes) in elements {
        tree.add(*n, *parent, tag)?;
        tree.set_id(*n, *id)?;
        tree.set_class(*n, classes)?;
    }
    Ok(tree)
}

fn sheet(alloc: Global, text: &str) -> Option<Sheet> {
    if text.len() > 10_000 {
        return None;
    }
    read_sheet(alloc, text).ok()
}

/// What wins on an element; `None` where it isn't in the tree.
fn winners_on(alloc: Global, sheets: &Sheets, tree: &Tree, n: u32) -> Option<DeclaredSet> {
    if !tree.contains(n) {
        return None;
    }
    declared(alloc, sheets, tree, n).ok()
}

/// The winners of a property.
fn winners_of(
    alloc: Global,
    sheets: &Sheets,
    tree: &Tree,
    n: u32,
    p: PropertyId,
) -> Option<Winners> {
    match winners_on(alloc, sheets, tree, n) {
        None => None,
        Some(found) => Some(found.winners(p)),
    }
}

/// Whether something wins of a timing list, important or not.
fn has_list(
    alloc: Global,
    sheets: &Sheets,
    tree: &Tree,
    n: u32,
    name: ListName,
    important: bool,
) -> bool {
    match winners_on(alloc, sheets, tree, n) {
        None => false,
        Some(found) => found.list(name, important).is_some(),
    }
}

/// The winners of a row's `z-index` on element 2 of the tree.
fn row_winners(alloc: Global, tree: &Tree, first: &str, second: &str) -> Option<Winners> {
    let mut sheets = Sheets::empty();
    sheets.put(3, sheet(alloc, first));
    sheets.put(9, sheet(alloc, second));
    winners_of(alloc, &sheets, tree, 2, PropertyId::ZIndex)
}

fn has_style(tree: &mut Tree, style: &str) -> bool {
    style.len() < 100 && tree.set_style(2, style).is_ok()
}

#[test]
fn each_row_has_its_winners(rt: HostRuntime) -> Result<(), Fail> {
    let mut tree = page(rt.alloc(), &ELEMENTS)?;
    for (first, second, style, important, normal) in ROWS.iter() {
        assert!(rt; has_style(&mut tree, style));
        let wanted = Winners {
            important: important.map(Declared::Int),
            normal: normal.map(Declared::Int),
        };
        assert!(rt; row_winners(rt.alloc(), &tree, first, second) == Some(wanted));
    }
    Ok(())
}

/// A sheet of the kind that pages share.
const SHARED: &str = "
* { margin: 0; padding: 0 }
body { font-size: 16px; color: #212529; background-color: #fff }
h1, h2, h3 { margin-top: 0; margin-bottom: 8px }
h1 { font-size: 40px }
h2 { font-size: 32px }
h3 { font-size: 28px }
p { margin-top: 0; margin-bottom: 16px }
a { color: #0d6efd }
button { margin: 0; font-size: 1em }
.container { width: 100%; padding-right: 12px; padding-left: 12px; margin-right: auto; margin-left: auto }
.row { margin-right: -12px; margin-left: -12px }
.row > * { width: 100%; padding-right: 12px; padding-left: 12px }
.col { width: 50% }
.navbar { padding: 8px 16px; background-color: #f8f9fa }
.navbar .nav-link { padding-right: 8px; padding-left: 8px; color: #333 }
.nav-link { padding: 8px 16px; transition: color .15s ease-in-out, background-color .15s ease-in-out }
.navbar .nav-link.active { color: #000 }
.card { background-color: #fff; margin-bottom: 24px }
.card > .card-title { margin-bottom: 8px; font-size: 20px }
.btn { padding: 6px 12px; font-size: 16px; opacity: 1; transition: opacity .15s ease-in-out }
.btn-primary { color: #fff; background-color: #0d6efd }
.btn-outline { color: #6c757d; background-color: transparent }
.btn-lg { padding: 8px 16px; font-size: 20px }
.btn.disabled { opacity: .65 }
.lead { font-size: 20px }
.small { font-size: 14px }
.text-muted { color: #6c757d !important }
.d-none { display: none !important }
.m-0 { margin: 0 !important }
.mt-3 { margin-top: 16px !important }
.w-50 { width: 50% !important }
.position-top { top: 0; left: 0; z-index: 1030 }
.visible { visibility: visible !important }
.invisible { visibility: hidden !important }
#buy { z-index: 2 }
#buy.btn { padding-top: 10px }
main #buy { padding-left: 40px }
main .btn { padding-left: 30px }
body > main .lead { letter-spacing: 1px }
div .card .lead { letter-spacing: 2px }
@keyframes fade { from { opacity: 0 } to { opacity: 1 } }
.fade { animation: fade .5s linear }
";

const PAGE: [(u32, Option<u32>, &str, Option<&str>, &[&str]); 10] = [
    (1, None, "body", None, &[]),
    (2, Some(1), "div", Some("nav"), &["navbar", "position-top"]),
    (3, Some(2), "a", None, &["nav-link", "active"]),
    (4, Some(1), "main", None, &["container", "m-0"]),
    (5, Some(4), "div", None, &["row"]),
    (6, Some(5), "div", None, &["col", "card", "fade"]),
    (7, Some(6), "h2", None, &["card-title"]),
    (
        8,
        Some(6),
        "button",
        None,
        &["btn", "btn-primary", "btn-lg"],
    ),
    (
        9,
        Some(6),
        "button",
        Some("buy"),
        &["btn", "btn-outline", "disabled"],
    ),
    (10, Some(6), "p", None, &["lead", "text-muted", "mt-3"]),
];

/// The normal winners of some elements' lengths, in pixels.
const LENGTHS: [(u32, PropertyId, Option<i64>); 26] = [
    (1, PropertyId::FontSize, Some(16)),
    (1, PropertyId::Width, None),
    (2, PropertyId::PaddingTop, Some(8)),
    (2, PropertyId::PaddingLeft, Some(16)),
    (2, PropertyId::Top, Some(0)),
    (3, PropertyId::PaddingTop, Some(8)),
    (3, PropertyId::PaddingLeft, Some(8)),
    (3, PropertyId::MarginTop, Some(0)),
    (4, PropertyId::PaddingLeft, Some(12)),
    (4, PropertyId::PaddingTop, Some(0)),
    (5, PropertyId::MarginLeft, Some(-12)),
    (6, PropertyId::PaddingLeft, Some(12)),
    (6, PropertyId::MarginBottom, Some(24)),
    (7, PropertyId::MarginBottom, Some(8)),
    (7, PropertyId::FontSize, Some(20)),
    (8, PropertyId::FontSize, Some(20)),
    (8, PropertyId::PaddingTop, Some(8)),
    (8, PropertyId::PaddingLeft, Some(30)),
    (8, PropertyId::PaddingRight, Some(16)),
    (9, PropertyId::FontSize, Some(16)),
    (9, PropertyId::PaddingTop, Some(10)),
    (9, PropertyId::PaddingLeft, Some(40)),
    (9, PropertyId::PaddingRight, Some(12)),
    (10, PropertyId::FontSize, Some(20)),
    (10, PropertyId::MarginBottom, Some(16)),
    (10, PropertyId::LetterSpacing, Some(2)),
];

fn pixels(px: i64) -> Option<Declared> {
    Some(Declared::Length(Size {
        amount: Fix(px.checked_mul(1_000_000)?),
        unit: Unit::Px,
    }))
}

fn shared(alloc: Global) -> Option<Sheets> {
    let mut sheets = Sheets::empty();
    sheets.put(1, Some(sheet(alloc, SHARED)?));
    Some(sheets)
}

/// Elements, whether something wins of the durations of their transitions, and of their animations.
const LISTS: [(u32, bool, bool); 4] = [
    (1, false, false),
    (3, true, false),
    (6, false, true),
    (8, true, false),
];

fn check_lengths(rt: &impl Abort, alloc: Global, sheets: &Sheets, tree: &Tree) {
    for (n, p, px) in LENGTHS.iter() {
        let normal = winners_of(alloc, sheets, tree, *n, *p).and_then(|winners| winners.normal);
        assert!(rt; normal == px.and_then(pixels));
    }
}

fn check_lists(rt: &impl Abort, alloc: Global, sheets: &Sheets, tree: &Tree) {
    for (n, transitions, animations) in LISTS.iter() {
        assert!(rt;
            has_list(alloc, sheets, tree, *n, ListName::TransitionDuration, false) == *transitions
        );
        assert!(rt;
            has_list(alloc, sheets, tree, *n, ListName::AnimationDuration, false) == *animations
        );
        assert!(rt; !has_list(alloc, sheets, tree, *n, ListName::AnimationDuration, true));
    }
}

#[test]
fn a_shared_sheet_gives_its_winners(rt: HostRuntime) -> Result<(), Fail> {
    let tree = page(rt.alloc(), &PAGE)?;
    let sheets = shared(rt.alloc()).ok_or("a sheet")?;
    check_lengths(&rt, rt.alloc(), &sheets, &tree);
    check_lists(&rt, rt.alloc(), &sheets, &tree);
    Ok(())
}
