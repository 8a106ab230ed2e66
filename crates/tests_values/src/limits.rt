//! Limits and units, typed from the product's tables.

use timing_types::limits::{MAX_ITEMS, MAX_ORDINATE, MAX_STEPS};
use value_types::{Display, ValueRange, Visibility};

#[test]
fn limits(rt: HostRuntime) {
    assert!(rt; MAX_ITEMS == 32);
    assert!(rt; MAX_STEPS == 1_000_000);
    assert!(rt; MAX_ORDINATE == 10 * 1000);
}

#[test]
fn ranges(rt: HostRuntime) {
    for (range, lowest, highest) in [
        (ValueRange::All, -1_000_000_000_000, 1_000_000_000_000),
        (ValueRange::NotNegative, 0, 1_000_000_000_000),
        (ValueRange::ZeroToOne, 0, 1_000_000),
        (ValueRange::Nothing, -1_000_000_000_000, 1_000_000_000_000),
    ] {
        assert!(rt; range.lowest() == lowest);
        assert!(rt; range.highest() == highest);
    }
}

#[test]
fn keywords(rt: HostRuntime) {
    for (v, keyword) in [
        (Visibility::Visible, "visible"),
        (Visibility::Hidden, "hidden"),
        (Visibility::Collapse, "collapse"),
    ] {
        assert!(rt; v.keyword() == keyword);
        assert!(rt; Visibility::by_keyword(keyword.as_bytes()) == Some(v));
    }
    for (d, keyword) in [
        (Display::Nothing, "none"),
        (Display::Block, "block"),
        (Display::Inline, "inline"),
        (Display::InlineBlock, "inline-block"),
        (Display::FlowRoot, "flow-root"),
        (Display::ListItem, "list-item"),
        (Display::Flex, "flex"),
        (Display::InlineFlex, "inline-flex"),
        (Display::Grid, "grid"),
        (Display::InlineGrid, "inline-grid"),
        (Display::Table, "table"),
        (Display::Contents, "contents"),
    ] {
        assert!(rt; d.keyword() == keyword);
        assert!(rt; Display::by_keyword(keyword.as_bytes()) == Some(d));
    }
}
