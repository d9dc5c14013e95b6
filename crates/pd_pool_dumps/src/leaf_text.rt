//! The text of a leaf of mappings, made once for all devices that have the leaf (`thin_dump`).

ghost use Rattle.std.specs.Prelude.{◌≤◌};
ghost use Rattle.std.specs.Vec.{vec_len};

use crate::counts::DumpCounts;
use crate::leaf_lines::lines_of_leaf;
use pd_kinds::Block;
use pd_meaning_thin::Joined;
use std::alloc::Global;

/// What follows the first run of a leaf.
#[derive(Drop)]
pub(crate) struct LaterRuns {
    /// The lines of the runs before the last one: at most 16384 bytes.
    pub(crate) lines: Vec<u8>,
    /// What these lines count.
    pub(crate) counts: DumpCounts,
    /// The last run, which the mappings of the next leaf may join.
    pub(crate) last: Joined,
    ghost short: { vec_len lines ≤ 16384 },
}

/// The text of a leaf. Its first and its last run may be joined by the mappings of other leaves, so they have no lines yet.
#[derive(Drop)]
pub(crate) struct LeafText {
    /// The metadata block of the leaf.
    pub(crate) block: u64,
    /// The first run, or none of a leaf without mappings.
    pub(crate) first: Joined,
    /// What follows, where the leaf has two runs or more.
    pub(crate) later: Option<LaterRuns>,
}

impl LeafText {
    ghost use Rattle.std.specs.Prelude.{◌≡◌, false, IfSome};
    ghost use Rattle.pd_kinds.specs.Node.{is_inner_node};
    ghost use Rattle.pd_pool_dumps.specs.LeafText.{IsTextOf, leaf_mappings};

    /// The text of the leaf in a block. It is `None` where its lines have more than 16384 bytes, or where memory wasn't found.
    pub(crate) fn of(alloc: Global, b: u64, block: &Block) -> Option<LeafText>
        requires { is_inner_node block.now.0 ≡ false }
        ensures block { IfSome result (λ text. text.block ≡ b) }
        ensures text { IfSome result (λ text. IsTextOf (leaf_mappings block.now.0) text.first text.later) }
    {
        let lines = lines_of_leaf(block)?;
        let Some(first) = lines.first else {
            return Some(LeafText {
                block: b,
                first: lines.joined,
                later: None,
            });
        };
        match Vec::from_slice(alloc, lines.text.as_bytes()) {
            Ok(bytes) => Some(LeafText {
                block: b,
                first,
                later: Some(LaterRuns {
                    lines: bytes,
                    counts: lines.counts,
                    last: lines.joined,
                }),
            }),
            Err(_) => None,
        }
    }

    /// How many bytes its lines have.
    pub(crate) fn len(&self) -> usize {
        match &self.later {
            Some(later) => later.lines.len(),
            None => 0,
        }
    }
}
