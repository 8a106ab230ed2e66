//! A sink that grows.
ghost use Rattle.std.specs.Prelude.{◌≡◌, [], Some};

use std::alloc::Global;
use text_io::{Failed, Sink};

/// A sink in memory that has room as long as memory lasts.
#[derive(Drop)]
pub(crate) struct Growing {
    pub(crate) bytes: Vec<u8>,
    /// How often it couldn't grow, as far as 64 bits count.
    pub(crate) refused: u64,
}

impl Growing {
    pub(crate) fn new(alloc: Global) -> Growing
        ensures bytes { result.bytes.items ≡ [] }
        ensures refused { result.refused ≡ 0 }
    {
        Growing {
            bytes: Vec::new(alloc),
            refused: 0,
        }
    }
}

impl Sink for Growing {
    ghost held = { λ s. Some s.bytes.items };

    // A call that can't grow is a fault, and one that takes no byte where the count is full.
    ghost faults = { λ s. s.refused };

    ghost empty_writes = { λ s. s.refused };

    fn write(&mut self, bytes: &[u8]) -> Result<usize, Failed> {
        match self.bytes.extend_from_slice(bytes) {
            Ok(()) => Ok(bytes.len()),
            Err(_) => {
                if self.refused == u64::MAX {
                    return Ok(0);
                }
                self.refused += 1;
                Err(Failed)
            }
        }
    }
}
