//! Scripts of some seeds against another program's, and their lines as their definition gives them by hand.
use script_gen::script_of;
use sha2::{Digest, Sha256};
use std::test::Fail;

/// The length of a seed's script and its SHA-256 digest, from another program.
const SCRIPTS: [(u64, usize, [u8; 32]); 3] = [
    (
        0,
        63_265,
        [
            0x90, 0x58, 0xcc, 0x1e, 0x07, 0x21, 0x41, 0x0a, 0x04, 0x2a, 0xc6, 0x1f, 0x90, 0x3c,
            0xa3, 0xe0, 0xd9, 0x37, 0x68, 0xe1, 0x79, 0x62, 0x33, 0xa6, 0x9a, 0xc2, 0x20, 0x39,
            0x54, 0x0f, 0xf4, 0x2d,
        ],
    ),
    (
        7,
        63_282,
        [
            0x7d, 0xc2, 0xcc, 0x12, 0xdf, 0x53, 0x6e, 0xc2, 0xc0, 0x51, 0xa0, 0x99, 0xfa, 0x15,
            0x89, 0x28, 0x37, 0x75, 0x18, 0xa4, 0x5b, 0x6b, 0x6c, 0x27, 0x1e, 0xc8, 0x74, 0x8f,
            0xac, 0xd7, 0xa6, 0x72,
        ],
    ),
    (
        u64::MAX,
        63_277,
        [
            0x1d, 0x8a, 0x02, 0xef, 0xd8, 0x1f, 0x67, 0x05, 0x63, 0xd3, 0xb2, 0x89, 0xd2, 0xae,
            0x9d, 0xee, 0xc4, 0x56, 0x1e, 0x5e, 0x4b, 0x7f, 0xbe, 0xe2, 0x25, 0xcd, 0x57, 0x5a,
            0x9d, 0x89, 0x82, 0x38,
        ],
    ),
];

#[test]
fn scripts_of_another_program(rt: HostRuntime) -> Result<(), Fail> {
    let alloc = rt.alloc();
    for (seed, len, digest) in SCRIPTS {
        let script = script_of(alloc, seed)?;
        assert!(rt; script.len() == len);
        assert!(rt; Sha256::digest(script.as_slice()) == digest);
    }
    Ok(())
}

#[test]
fn lines_by_hand(rt: HostRuntime) -> Result<(), Fail> {
    let alloc = rt.alloc();
    let sheet =
        "sheet 1 p { opacity: 1; width: 10px; color: rgb(0, 0, 0); transition: all 1s linear } .a { opacity: 0 } .b { width: 90px } .c { color: rgb(200, 100, 50) }\n";
    let rows = [
        (
            0,
            "add 1 - div\nadd 2 1 p\nadd 3 1 p\nadd 4 2 p\nadd 5 1 p\nadd 6 1 p\nadd 7 6 p\n",
        ),
        (
            7,
            "add 1 - div\nadd 2 1 p\nadd 3 2 p\nadd 4 1 p\nadd 5 2 p\nadd 6 1 p\nadd 7 6 p\n",
        ),
    ];
    for (seed, adds) in rows {
        let script = script_of(alloc, seed)?;
        let mut front = Vec::from_slice(alloc, sheet.as_bytes())?;
        front.extend_from_slice(adds.as_bytes())?;
        assert!(rt; script.starts_with(front.as_slice()));
        assert!(rt; script.ends_with(b"\nat 12000\nframe\nat 20000\nframe\n"));
    }
    Ok(())
}
