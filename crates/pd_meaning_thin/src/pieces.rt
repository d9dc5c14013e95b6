//! The pieces of a device's mappings (`thin_dump --shared`).

ghost use Rattle.std.specs.Prelude.{◌≡◌, ◌+◌, ◌<◌, ◌≤◌, ℕ, List, [], ◌++◌, None, length, IfOk, IfSome, OnOk};
ghost use Rattle.pd_kinds.specs.Objects.{CountsFault};
ghost use Rattle.pd_kinds.specs.declared.kind.Kind.TheVariants.{Thin};
ghost use Rattle.pd_kinds.specs.declared.kind.Stage.TheVariants.{Whole};
ghost use Rattle.pd_kinds.specs.Stages.{faults};
ghost use Rattle.pd_image.specs.Device.{IsAttached, OnlyReads};
ghost use Rattle.pd_tree.specs.Stack.{IsNext};
ghost use Rattle.pd_meaning_thin.specs.Runs.{begun_mappings};
ghost use Rattle.pd_meaning_thin.specs.Walk.{shared_blocks};
ghost use Rattle.pd_meaning_thin.specs.Pieces.{Part, met_leaf, read_below, joined_pieces, pieces_below};
ghost use Rattle.pd_meaning_thin.specs.Pieces.{pieces_left, pieces_number, pieces_reads, GivesShape};

use crate::find::SharedLeaves;
use crate::joined::{Joined, Run};
use crate::laws::{leaves_are_below_roots, rows_are_the_devices};
use crate::parts::{Found, TreeParts};
use pd_image::{Device, Failed};
use std::alloc::{AllocError, Global};

/// A piece of a device's mappings.
#[derive(Clone, Copy, Debug, PartialEq, Eq)]
pub enum Piece {
    /// A run of the device's own mappings.
    Run(Run),
    /// All mappings of a shared leaf, by its number.
    SharedLeaf(u64),
}

/// The pieces of a device's mappings, from left to right: its own mappings in runs as long as can be, and shared leaves,
/// which aren't read.
#[derive(Drop)]
pub struct PieceRuns {
    parts: TreeParts,
    joined: Joined,
    /// The number of a shared leaf that stands behind the begun run.
    waiting: Option<u64>,
}

impl PieceRuns {
    /// A cursor before the first piece of the device whose mappings have this root. It reserves all memory that the
    /// cursor needs: 64 places of 4104 bytes, which are used as far as the tree is deep.
    ///
    /// Fails with `AllocError` where that memory wasn't found.
    pub fn start(alloc: Global, root: u64) -> Result<PieceRuns, AllocError>
        ensures pieces { (shared : List ℕ) (image : List (List ℕ))
            → IfOk result (λ pieces. pieces_left shared image pieces ≡ pieces_below shared image root) }
        ensures reads { (shared : List ℕ) (image : List (List ℕ))
            → IfOk result (λ pieces. pieces_reads shared image pieces ≡ length (read_below shared image 63 root)) }
    {
        let parts = TreeParts::start(alloc, root)?;
        Ok(PieceRuns {
            parts,
            joined: Joined::new(),
            waiting: None,
        })
    }

    /// Begins again, before the first piece of the device whose mappings have this root, with the memory that it has.
    pub fn restart(&mut self, root: u64)
        ensures pieces { (shared : List ℕ) (image : List (List ℕ)) → pieces_left shared image self.new ≡ pieces_below shared image root }
        ensures reads { (shared : List ℕ) (image : List (List ℕ))
            → pieces_reads shared image self.new ≡ length (read_below shared image 63 root) }
    {
        self.parts.restart(root);
        self.joined = Joined::new();
        self.waiting = None;
    }

    /// The next piece, or `None` after the last one. It takes no memory.
    ///
    /// Each node that is left is read at most once, and no shared leaf is. Over any device and tree the cursor's number falls
    /// with each piece.
    ///
    /// Fails with `Failed` where a read failed; then nothing is said of what is left.
    pub fn next<D: Device>(
        &mut self,
        shared: &SharedLeaves,
        dev: &mut D,
    ) -> Result<Option<Piece>, Failed>
        requires attached { IsAttached (D.state dev.old) }
        ensures next { IfOk result (λ piece. IfSome (D.state dev.old).held (λ image.
            IsNext piece (pieces_left (shared_blocks shared.now) image self.old) (pieces_left (shared_blocks shared.now) image self.new))) }
        ensures reads { IfSome (D.state dev.old).held (λ image. OnOk result (
            (D.state dev.new).reads + pieces_reads (shared_blocks shared.now) image self.new
            ≤ (D.state dev.old).reads + pieces_reads (shared_blocks shared.now) image self.old)) }
        ensures reads_failed { IfSome (D.state dev.old).held (λ image.
            (D.state dev.new).reads ≤ (D.state dev.old).reads + pieces_reads (shared_blocks shared.now) image self.old) }
        ensures number { IfOk result (λ piece. IfSome piece (λ _. pieces_number self.new < pieces_number self.old)) }
        ensures kept { OnlyReads (D.state dev.old) (D.state dev.new) }
        ensures faults { CountsFault result (D.state dev.old).faults (D.state dev.new).faults }
    {
        while self.waiting.is_none() {
            match self.parts.next(shared, dev)? {
                Some(Found::Mapping(virt, mapping)) => {
                    if let Some(run) = self.joined.take(virt, mapping) {
                        return Ok(Some(Piece::Run(run)));
                    }
                }
                Some(Found::SharedLeaf(number)) => self.waiting = Some(number),
                None => return Ok(self.take_waiting()),
            }
        }
        Ok(self.take_waiting())
    }

    /// Gives the begun run, or else the leaf that waits behind it.
    fn take_waiting(&mut self) -> Option<Piece>
        ensures next { (parts : List Part) → (self.old.waiting ≡ None → parts ≡ [])
            → IsNext result (joined_pieces (begun_mappings self.old.joined.begun) (met_leaf self.old.waiting ++ parts))
            (joined_pieces (begun_mappings self.new.joined.begun) (met_leaf self.new.waiting ++ parts)) }
        ensures parts { self.new.parts ≡ self.old.parts }
        ensures number { IfSome result (λ _. pieces_number self.new < pieces_number self.old) }
    {
        if let Some(run) = self.joined.end() {
            return Some(Piece::Run(run));
        }
        match self.waiting.take() {
            Some(number) => Some(Piece::SharedLeaf(number)),
            None => None,
        }
    }
}

// What the pieces over bytes come to for a pool without faults: those of its shape.

/// In a pool without faults up to the stage Whole the pieces below the root of each device are those of its shape, with
/// its shared leaves, and what is below the block of a shared leaf are its mappings.
pub fn pieces_are_those_of_the_shape()
    ensures { (image : List (List ℕ)) → faults Thin Whole image ≡ [] → GivesShape image }
{
    rows_are_the_devices();
    leaves_are_below_roots();
}
