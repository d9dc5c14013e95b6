//! A device that tells nothing of what it holds.

use pd_image::{Device, Failed};
use pd_kinds::Block;

/// What a device gives in place of what it holds.
#[derive(Drop)]
pub enum Shown {
    /// Block 1 with one bit of byte 100 changed, and all others as they are.
    Damaged,
    /// These blocks.
    Blocks(Vec<Block>),
}

impl Shown {
    /// What is given in place of block b, which holds this.
    fn in_place_of(&self, b: u64, kept: Block) -> Block {
        match self {
            Shown::Damaged => {
                let mut block = kept;
                if b == 1 {
                    block.0[100] ^= 1;
                }
                block
            }
            Shown::Blocks(blocks) => match blocks.get(b as usize) {
                Some(block) => *block,
                None => kept,
            },
        }
    }
}

/// A device that keeps every write. It gives back what was written, and from a call on what it shows. Calls are
/// numbered from 0, which is that of `attach`.
#[derive(Drop)]
pub struct Hidden {
    blocks: Vec<Block>,
    shown: Shown,
    shows_from: u64,
    calls: u64,
    access: u8,
    reads: u64,
    faults: u64,
}

impl Hidden {
    ghost use Rattle.std.specs.Prelude.{◌≡◌};
    ghost use Rattle.pd_tests_pools.specs.Hidden.{hidden_state};

    /// A device of these blocks, which shows something else from this call on.
    pub fn new(blocks: Vec<Block>, shows_from: u64, shown: Shown) -> Hidden
        ensures access { (hidden_state result).access ≡ 0 }
        ensures faults { (hidden_state result).faults ≡ 0 }
    {
        Hidden {
            blocks,
            shown,
            shows_from,
            calls: 0,
            access: 0,
            reads: 0,
            faults: 0,
        }
    }

    /// The blocks that it holds.
    pub fn held(&self) -> &[Block] {
        self.blocks.as_slice()
    }

    /// The number of the call that begins.
    fn begin_call(&mut self) -> u64
        ensures { hidden_state self.new ≡ hidden_state self.old }
    {
        let call = self.calls;
        self.calls = call.saturating_add(1);
        call
    }
}

impl Device for Hidden {
    ghost use Rattle.std.specs.Prelude.{refl};
    ghost use Rattle.pd_tests_pools.specs.Hidden.{hidden_state};

    ghost state = { hidden_state };

    ghost unnamed = { λ _ _. refl };

    ghost unwritten = { λ _ _. tt };

    ghost measured = { λ _. tt };

    ghost whole = { λ _. tt };

    ghost bytes = { λ _. tt };

    fn attach(&mut self, _path: &str, write: bool) -> Result<(), Failed> {
        self.begin_call();
        self.access = if write { 2 } else { 1 };
        Ok(())
    }

    fn blocks(&self) -> u64 {
        self.blocks.len() as u64
    }

    fn read(&mut self, b: u64, into: &mut Block) -> Result<(), Failed> {
        let call = self.begin_call();
        self.reads = self.reads.saturating_add(1);
        let kept = match self.blocks.get(b as usize) {
            Some(block) => *block,
            None => {
                self.faults = self.faults.saturating_add(1);
                return Err(Failed);
            }
        };
        *into = if call < self.shows_from {
            kept
        } else {
            self.shown.in_place_of(b, kept)
        };
        Ok(())
    }

    fn write(&mut self, b: u64, from: &Block) -> Result<(), Failed> {
        self.begin_call();
        let place = b as usize;
        if place < self.blocks.len() {
            self.blocks[place] = *from;
            Ok(())
        } else {
            self.faults = self.faults.saturating_add(1);
            Err(Failed)
        }
    }

    fn sync(&mut self) -> Result<(), Failed> {
        self.begin_call();
        Ok(())
    }
}
