//! A cursor over what stands in a tree of mappings from left to right, which doesn't look into shared leaves.
//! Serves `thin_dump --shared`.

ghost use Rattle.std.specs.Prelude.{◌≡◌};
ghost use Rattle.std.specs.Option.{ForSome};

use crate::find::SharedLeaves;
use crate::part_search::{go_to, next_part};
use pd_image::{Device, Failed};
use pd_tree::Stack;
use pd_value::BlockTime;
use std::alloc::{AllocError, Global};

/// What stands in a tree of mappings.
#[derive(Clone, Copy)]
pub(crate) enum Found {
    /// A mapping of a leaf that isn't shared: its virtual block, and its data block and time.
    Mapping(u64, BlockTime),
    /// A shared leaf, by its number.
    SharedLeaf(u64),
}

/// The mappings of a tree, by ascending virtual block, and its shared leaves in their places.
#[derive(Drop)]
pub(crate) struct TreeParts {
    stack: Stack,
    /// The root, until it was looked at.
    root: Option<u64>,
    ghost fresh: { ForSome root (λ _. stack.depth ≡ 0) },
}

impl TreeParts {
    ghost use Rattle.std.specs.Prelude.{◌≡◌, ◌+◌, ◌<◌, ◌≤◌, ℕ, List, length, IfOk, IfSome, OnOk};
    ghost use Rattle.pd_kinds.specs.Objects.{CountsFault};
    ghost use Rattle.pd_image.specs.Device.{IsAttached, OnlyReads};
    ghost use Rattle.pd_meaning_thin.specs.Walk.{shared_blocks};
    ghost use Rattle.pd_meaning_thin.specs.Pieces.{IsNextPart, parts_below, parts_left, parts_number, parts_reads, read_below};

    /// A cursor before the first part of the tree with this root.
    pub(crate) fn start(alloc: Global, root: u64) -> Result<TreeParts, AllocError>
        ensures parts { (shared : List ℕ) (image : List (List ℕ))
            → IfOk result (λ parts. parts_left shared image parts ≡ parts_below shared image 63 root) }
        ensures reads { (shared : List ℕ) (image : List (List ℕ))
            → IfOk result (λ parts. parts_reads shared image parts ≡ length (read_below shared image 63 root)) }
    {
        let stack = Stack::new(alloc)?;
        Ok(TreeParts {
            stack,
            root: Some(root),
        })
    }

    /// Goes before the first part of the tree with this root, in the memory that it has.
    pub(crate) fn restart(&mut self, root: u64)
        ensures parts { (shared : List ℕ) (image : List (List ℕ)) → parts_left shared image self.new ≡ parts_below shared image 63 root }
        ensures reads { (shared : List ℕ) (image : List (List ℕ))
            → parts_reads shared image self.new ≡ length (read_below shared image 63 root) }
    {
        self.stack.clear();
        self.root = Some(root);
    }

    /// The next part, or `None` after the last one. It takes no memory.
    ///
    /// Fails with `Failed` where a read failed.
    pub(crate) fn next<D: Device>(
        &mut self,
        shared: &SharedLeaves,
        dev: &mut D,
    ) -> Result<Option<Found>, Failed>
        requires attached { IsAttached (D.state dev.old) }
        ensures next { IfOk result (λ part. IfSome (D.state dev.old).held (λ image.
            IsNextPart part (parts_left (shared_blocks shared.now) image self.old)
            (parts_left (shared_blocks shared.now) image self.new))) }
        ensures reads { IfSome (D.state dev.old).held (λ image. OnOk result (
            (D.state dev.new).reads + parts_reads (shared_blocks shared.now) image self.new
            ≤ (D.state dev.old).reads + parts_reads (shared_blocks shared.now) image self.old)) }
        ensures reads_failed { IfSome (D.state dev.old).held (λ image.
            (D.state dev.new).reads ≤ (D.state dev.old).reads + parts_reads (shared_blocks shared.now) image self.old) }
        ensures number { IfOk result (λ part. IfSome part (λ _. parts_number self.new < parts_number self.old)) }
        ensures number_kept { OnOk result (parts_number self.new ≤ parts_number self.old) }
        ensures kept { OnlyReads (D.state dev.old) (D.state dev.new) }
        ensures faults { CountsFault result (D.state dev.old).faults (D.state dev.new).faults }
    {
        if let Some(root) = self.root.take() {
            if let Some(number) = go_to(&mut self.stack, shared, dev, root)? {
                return Ok(Some(Found::SharedLeaf(number)));
            }
        }
        next_part(&mut self.stack, shared, dev)
    }
}
