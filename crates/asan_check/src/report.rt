//! What is reported of a bad event.

/// What kind of memory a bad access met, by the state of the first byte of its granule, or of the
/// next granule if some byte of that granule is addressable.
#[derive(Clone, Copy, Debug, PartialEq, Eq)]
pub enum Class {
    HeapBufferOverflow,
    HeapUseAfterFree,
    UseAfterPoison,
    StackBufferOverflow,
    GlobalBufferOverflow,
    UnknownCrash,
}

/// What is wrong with an event.
#[derive(Clone, Copy, Debug, PartialEq, Eq)]
pub enum Fault {
    /// A load, or a store, of `width` bytes at the address `at`.
    Access {
        store: bool,
        width: u8,
        at: u64,
        /// The address of its first byte, within the granule of `at`, that is not addressable.
        bad: u64,
        class: Class,
        /// The shadow byte of the granule of `at`.
        shadow: u8,
    },
    /// A free of a block that was freed before and is still in quarantine.
    DoubleFree {
        at: u64,
    },
    /// A free at an address where no live block and no block in quarantine starts.
    BadFree {
        at: u64,
    },
    /// A malloc that can't be: it isn't aligned, it has no room for its redzones, or its span meets
    /// that of another block.
    BadMalloc {
        at: u64,
        size: u64,
    },
}

/// One bad event of a process.
#[derive(Clone, Copy, Debug, PartialEq, Eq)]
pub struct Report {
    /// The number of the event among those of its process, from 1.
    pub number: u64,
    pub fault: Fault,
}
