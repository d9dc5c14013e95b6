//! The reader of a pool's text of either version (`thin_restore`).

ghost use Rattle.std.specs.Prelude.{◌≡◌, List};
ghost use Rattle.pd_grammar.specs.ThinText.{Line, pool_format};

use crate::reader::TextReader;
use crate::thin_state::ThinState;
use pd_value::Details;

/// The text of a pool, of either version, read line by line.
pub type ThinText = TextReader<ThinState>;

impl TextReader<ThinState> {
    ghost use Rattle.pd_texts.specs.Reader.{ReadsOn};
    ghost use Rattle.pd_texts.specs.ThinState.{ThinStands, version_after};

    /// The text's version, 1 or 2, once a call of `next` has answered a line, and 0 before.
    pub fn version(&self) -> u32
        ensures { (before : List Line) → ReadsOn pool_format ThinStands before self.now → result ≡ version_after before }
    {
        self.state().version()
    }
}

// The lines of a pool's text (`thin_dump`, `thin_restore`).

/// Mappings of a device whose virtual blocks follow each other, and whose data blocks do.
#[derive(Clone, Copy, Debug, PartialEq, Eq)]
pub struct Run2 {
    /// The first virtual block.
    pub virt: u64,
    /// The data block that it is mapped to.
    pub target: u64,
    /// How many blocks are mapped.
    pub length: u64,
    /// The pool's time when they were.
    pub time: u32,
}

/// A line of the text of a pool that isn't the first or the last one.
#[derive(Clone, Copy, Debug, PartialEq, Eq)]
pub enum ThinLine {
    /// The pool, which is line 2.
    Pool {
        uuid: [u8; 16],
        /// The pool's snapshot count.
        time: u32,
        transaction: u64,
        /// The size of a data block in sectors of 512 bytes.
        block_size: u32,
        /// The number of data blocks.
        blocks: u64,
    },
    /// A leaf that devices share, whose map lines follow; of version 2.
    Leaf {
        /// How many leaves were before it.
        number: u64,
        /// How many mappings it is of, from 1 to 252.
        entries: u64,
    },
    /// A device, whose map lines follow; in version 2, also the leaves that it uses.
    Device {
        id: u64,
        details: Details,
    },
    /// The device before uses the leaf of this number; of version 2.
    UseLeaf {
        number: u64,
    },
    /// A run of the leaf or the device before.
    Map(Run2),
}
