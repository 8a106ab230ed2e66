//! Selector lists from their texts.

ghost use Rattle.std.specs.Prelude.{◌≤◌, length};

use css_token::tokens;
use selectors_mini::{Selector, SelectorFault, read_selectors, specificity};
use std::alloc::Global;
use std::test::Fail;

/// The specificity of each selector of a list.
const LISTS: [(&str, &[(u32, u32, u32)]); 11] = [
    ("div.a > #b", &[(1, 1, 1)]),
    (" a , .b\t,\n#c ", &[(0, 0, 1), (0, 1, 0), (1, 0, 0)]),
    ("*", &[(0, 0, 0)]),
    ("*.a#b.c", &[(1, 2, 0)]),
    ("a b>c >d", &[(0, 0, 4)]),
    ("div/**/.a", &[(0, 1, 1)]),
    ("./**/a", &[(0, 1, 0)]),
    ("a /**/ b", &[(0, 0, 2)]),
    ("#-a#--1", &[(2, 0, 0)]),
    ("a b c d e f g h i j k l m n o p", &[(0, 0, 16)]),
    (
        "*,*,*,*,*,*,*,*,*,*,*,*,*,*,*,*,*,*,*,*,*,*,*,*,*,*,*,*,*,*,*,*",
        &[(0, 0, 0); 32],
    ),
];

const FAULTS: [(&str, SelectorFault); 23] = [
    ("", SelectorFault::Unsupported),
    (" ", SelectorFault::Unsupported),
    ("a:hover", SelectorFault::Unsupported),
    ("a/**/b", SelectorFault::Unsupported),
    ("a*", SelectorFault::Unsupported),
    ("*a", SelectorFault::Unsupported),
    (".", SelectorFault::Unsupported),
    (". a", SelectorFault::Unsupported),
    ("..a", SelectorFault::Unsupported),
    (".1", SelectorFault::Unsupported),
    ("#1", SelectorFault::Unsupported),
    ("# a", SelectorFault::Unsupported),
    ("> a", SelectorFault::Unsupported),
    ("a >", SelectorFault::Unsupported),
    ("a > > b", SelectorFault::Unsupported),
    ("a + b", SelectorFault::Unsupported),
    ("a[b]", SelectorFault::Unsupported),
    ("a,", SelectorFault::Unsupported),
    (",a", SelectorFault::Unsupported),
    ("a,,b", SelectorFault::Unsupported),
    (
        "a b c d e f g h i j k l m n o p q",
        SelectorFault::BoundCompounds,
    ),
    (
        "a b c d e f g h i j k l m n o p q,*,*,*,*,*,*,*,*,*,*,*,*,*,*,*,*,*,*,*,*,*,*,*,*,*,*,*,*,*,*,*,*",
        SelectorFault::BoundSelectors,
    ),
    (
        "a b c d e f g h i j k l m n o p q,*,*,*,*,*,*,*,*,*,*,*,*,*,*,*,*,*,*,*,*,*,*,*,*,*,*,*,*,*,*,*,*:",
        SelectorFault::Unsupported,
    ),
];

fn read(alloc: Global, text: &str) -> Result<Vec<Selector>, SelectorFault>
    requires { length text.now ≤ 67108864 }
{
    let Ok(tokens) = tokens(alloc, text) else {
        return Err(SelectorFault::NoMemory);
    };
    read_selectors(alloc, text, tokens.as_slice())
}

#[test]
fn each_list_has_its_specificities(rt: HostRuntime) -> Result<(), Fail> {
    for (text, wanted) in LISTS.iter() {
        assert!(rt; text.len() < 200);
        let selectors = read(rt.alloc(), text)?;
        assert!(rt; selectors.len() == wanted.len());
        for (selector, one) in selectors.iter().zip(wanted.iter()) {
            assert!(rt; specificity(selector) == *one);
            assert!(rt; specificity(&selector.copy(rt.alloc())?) == *one);
        }
    }
    Ok(())
}

#[test]
fn each_fault_is_the_first(rt: HostRuntime) {
    for (text, fault) in FAULTS.iter() {
        assert!(rt; text.len() < 200);
        assert!(rt; read(rt.alloc(), text).err() == Some(*fault));
    }
}
