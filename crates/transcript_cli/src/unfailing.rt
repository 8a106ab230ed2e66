//! A source that never fails.
ghost use Rattle.std.specs.Prelude.{◌≡◌, [], Some};

use std::alloc::Global;
use text_io::{Failed, MemSource, Source};

/// Bytes in memory, no read of which fails.
#[derive(Drop)]
pub(crate) struct Unfailing {
    source: MemSource,
    ghost unfailing: { source.failing ≡ [] },
}

impl Unfailing {
    pub(crate) fn new(alloc: Global, bytes: Vec<u8>) -> Unfailing
        ensures { result.source.left ≡ bytes.items }
    {
        Unfailing {
            source: MemSource::new(bytes, usize::MAX, Vec::new(alloc)),
        }
    }
}

impl Source for Unfailing {
    ghost left = { λ s. Some s.source.left };

    // So no read answers that it failed.
    ghost faults = { λ _. 0 };

    fn read(&mut self, buf: &mut [u8]) -> Result<usize, Failed> {
        self.source.read(buf)
    }
}
