//! Command lines and what they ask for.

use command_words::{MAX_DIGITS, MAX_WORKERS, WordsFault, read_words};
use std::alloc::{AllocError, Global};
use std::test::Fail;

/// Words, and the workers and the demo that they ask for.
const TAKEN: [(&[&str], u32, Option<u64>); 12] = [
    (&[], 1, None),
    (&["--workers", "4"], 4, None),
    (&["--workers=004"], 4, None),
    (&["--workers", "1"], 1, None),
    (&["--workers=64"], 64, None),
    (&["--workers", "00000000000000000064"], 64, None),
    (&["--demo", "7"], 1, Some(7)),
    (&["--demo=0"], 1, Some(0)),
    (
        &["--demo=18446744073709551615"],
        1,
        Some(18446744073709551615),
    ),
    (&["--demo=7", "--workers", "64"], 64, Some(7)),
    (&["--workers=2", "--demo", "8"], 2, Some(8)),
    (&["--workers", "2", "--demo", "8"], 2, Some(8)),
];

/// Words that are refused.
const REFUSED: [&[&str]; 35] = [
    &["--workers", "0"],
    &["--workers", "65"],
    &["--workers=65"],
    &["--workers"],
    &["--workers="],
    &["--workers", ""],
    &["--workers", "+4"],
    &["--workers=+4"],
    &["--workers= 4"],
    &["--workers=4=4"],
    &["--workers=four"],
    &["--workers=٤"],
    &["--workers", "000000000000000000004"],
    &["--workers", "4", "--workers=4"],
    &["--workers=4", "--workers=4"],
    &["--workers", "4", "5"],
    &["--workers", "--demo", "7"],
    &["--workers", "--demo=7"],
    &["--worker", "4"],
    &["--Workers", "4"],
    &["-w4"],
    &["--demo"],
    &["--demo", "-1"],
    &["--demo=-1"],
    &["--demo=18446744073709551616"],
    &["--demo", "1", "--workers", "1", "--demo", "1"],
    &["--"],
    &["--", "--workers", "4"],
    &["--workers", "--", "4"],
    &["x"],
    &["-"],
    &[""],
    &["--help"],
    &["--version"],
    &["--whole"],
];

fn owned(alloc: Global, words: &[&str]) -> Result<Vec<String>, AllocError> {
    let mut list = Vec::new(alloc);
    for word in words {
        list.push(String::from_str(alloc, word)?)?;
    }
    Ok(list)
}

#[test]
fn words_of_the_form_are_taken(rt: HostRuntime) -> Result<(), Fail> {
    for (words, workers, demo) in TAKEN {
        let read = read_words(rt.alloc(), &owned(rt.alloc(), words)?)?;
        assert!(rt; read.workers == workers);
        assert!(rt; read.demo == demo);
    }
    Ok(())
}

#[test]
fn other_words_are_refused(rt: HostRuntime) -> Result<(), Fail> {
    for words in REFUSED {
        let read = read_words(rt.alloc(), &owned(rt.alloc(), words)?);
        assert!(rt; read == Err(WordsFault::Usage));
    }
    Ok(())
}

#[test]
fn limits_are_those_of_the_form(rt: HostRuntime) {
    assert!(rt; MAX_DIGITS == 20);
    assert!(rt; MAX_WORKERS == 64);
}
