//! Tests of `token_parts`.

use css_token::tokens;
use std::test::Fail;
use token_parts::{Part, is_keyword, look_up, parts};

#[test]
fn parts_of_each_sort(rt: HostRuntime) -> Result<(), Fail> {
    let text = "#0a F(1px, 2%) Red 3 !";
    let Ok(list) = tokens(rt.alloc(), text) else {
        return Err("tokens".into());
    };
    let Ok(found) = parts(rt.alloc(), text.as_bytes(), list.as_slice()) else {
        return Err("parts".into());
    };
    let wanted = [
        Part::Hash(b"0a"),
        Part::Function(b"F"),
        Part::Dimension {
            number: b"1",
            unit: b"px",
        },
        Part::Comma,
        Part::Percent(b"2"),
        Part::Close,
        Part::Ident(b"Red"),
        Part::Number(b"3"),
        Part::Other,
    ];
    assert!(rt; found.as_slice() == wanted.as_slice());
    Ok(())
}

#[test]
fn keywords(rt: HostRuntime) {
    let rows = [("red", 1), ("green", 2)];
    assert!(rt; look_up(&rows, b"GREEN") == Some(2));
    assert!(rt; look_up(&rows, b"blue") == None);
    assert!(rt; is_keyword(b"AUTO", b"auto"));
}
