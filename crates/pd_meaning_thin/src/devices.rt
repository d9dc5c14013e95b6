//! A cursor over the thin devices of a pool (`thin_dump`, `thin_ls`, `thin_rmap`).

ghost use Rattle.std.specs.Prelude.{◌≡◌, ℕ, ◌+◌, ◌<◌, ◌≤◌, List, length, IfOk, IfSome, OnOk};
ghost use Rattle.pd_kinds.specs.Objects.{CountsFault};
ghost use Rattle.pd_image.specs.Device.{IsAttached, OnlyReads};
ghost use Rattle.pd_tree.specs.Below.{nodes_below};
ghost use Rattle.pd_tree.specs.Stack.{IsNext};
ghost use Rattle.pd_meaning_thin.specs.Runs.{rows_below, rows_left, rows_number, rows_reads, runs_below};
ghost use Rattle.pd_meaning_thin.specs.Runs.{runs_left, runs_number, runs_reads};

use crate::joined::{Joined, Run};
use pd_image::{Device, Failed};
use pd_kinds::ThinSuper;
use pd_tree::Cursor;
use pd_value::{BlockTime, Details, Root};
use std::alloc::{AllocError, Global};

/// A thin device of a pool.
#[derive(Clone, Copy, Debug, PartialEq, Eq)]
pub struct DeviceRow {
    /// The number of the device.
    pub id: u64,
    /// The root of the tree of its mappings: the number of a metadata block.
    pub root: u64,
    /// Its details.
    pub details: Details,
}

/// The thin devices of a pool, by ascending id.
///
/// It is two cursors side by side, over the tree of mapping trees and over the tree of details. Each row is an
/// entry of the one beside the entry of the other in the same place. In a pool without faults these have one key.
#[derive(Drop)]
pub struct ThinDevices {
    tops: Cursor<Root>,
    details: Cursor<Details>,
}

impl ThinDevices {
    /// A cursor before the first device of the pool with this superblock. It takes all memory that the cursor
    /// needs: that of two cursors over trees.
    ///
    /// Fails with `AllocError` where that memory wasn't found.
    pub fn start(alloc: Global, s: &ThinSuper) -> Result<ThinDevices, AllocError>
        ensures rows { (image : List (List ℕ)) → IfOk result
            (λ devices. rows_left image devices ≡ rows_below image s.now.mapping_root s.now.details_root) }
        ensures reads { (image : List (List ℕ)) → IfOk result (λ devices. rows_reads image devices
            ≡ length (nodes_below 8 image 63 s.now.mapping_root) + length (nodes_below 24 image 63 s.now.details_root)) }
    {
        let tops = Cursor::start(alloc, s.mapping_root)?;
        let details = Cursor::start(alloc, s.details_root)?;
        Ok(ThinDevices { tops, details })
    }

    /// The next device, or `None` after the last one. It takes no memory.
    ///
    /// Each node of the two trees that is left is read at most once. Over any device and pool the cursor's number
    /// falls with each row.
    ///
    /// Fails with `Failed` where a read failed; then nothing is said of what is left.
    pub fn next<D: Device>(&mut self, dev: &mut D) -> Result<Option<DeviceRow>, Failed>
        requires attached { IsAttached (D.state dev.old) }
        ensures next { IfOk result (λ row. IfSome (D.state dev.old).held
            (λ image. IsNext row (rows_left image self.old) (rows_left image self.new))) }
        ensures reads { IfSome (D.state dev.old).held (λ image. OnOk result (
            (D.state dev.new).reads + rows_reads image self.new ≤ (D.state dev.old).reads + rows_reads image self.old)) }
        ensures reads_failed { IfSome (D.state dev.old).held (λ image.
            (D.state dev.new).reads ≤ (D.state dev.old).reads + rows_reads image self.old) }
        ensures number { IfOk result (λ row. IfSome row (λ _. rows_number self.new < rows_number self.old)) }
        ensures kept { OnlyReads (D.state dev.old) (D.state dev.new) }
        ensures faults { CountsFault result (D.state dev.old).faults (D.state dev.new).faults }
    {
        let Some((id, root)) = self.tops.next(dev)? else {
            return Ok(None);
        };
        match self.details.next(dev)? {
            Some((_, details)) => Ok(Some(DeviceRow {
                id,
                root: root.0,
                details,
            })),
            None => Ok(None),
        }
    }
}

// A cursor over the mappings of a thin device, joined to runs (`thin_dump --shared`).

/// The mappings of a thin device, by ascending virtual block, in runs as long as can be.
#[derive(Drop)]
pub struct MapRuns {
    mappings: Cursor<BlockTime>,
    joined: Joined,
    /// Whether the last mapping was taken.
    ended: bool,
}

impl MapRuns {
    /// A cursor before the first run of the device whose mappings have this root. It takes all memory that the
    /// cursor needs: that of a cursor over a tree.
    ///
    /// Fails with `AllocError` where that memory wasn't found.
    pub fn start(alloc: Global, root: u64) -> Result<MapRuns, AllocError>
        ensures runs { (image : List (List ℕ)) → IfOk result (λ runs. runs_left image runs ≡ runs_below image root) }
        ensures reads { (image : List (List ℕ)) → IfOk result (λ runs. runs_reads image runs ≡ length (nodes_below 8 image 63 root)) }
    {
        let mappings = Cursor::start(alloc, root)?;
        Ok(MapRuns {
            mappings,
            joined: Joined::new(),
            ended: false,
        })
    }

    /// Begins again, before the first run of the device whose mappings have this root, with the memory that it has.
    pub fn restart(&mut self, root: u64)
        ensures runs { (image : List (List ℕ)) → runs_left image self.new ≡ runs_below image root }
        ensures reads { (image : List (List ℕ)) → runs_reads image self.new ≡ length (nodes_below 8 image 63 root) }
    {
        self.mappings.restart(root);
        self.joined = Joined::new();
        self.ended = false;
    }

    /// The next run, or `None` after the last one. It takes no memory.
    ///
    /// Each node that is left is read at most once. Over any device and tree the cursor's number falls with each run.
    ///
    /// Fails with `Failed` where a read failed; then nothing is said of what is left.
    pub fn next<D: Device>(&mut self, dev: &mut D) -> Result<Option<Run>, Failed>
        requires attached { IsAttached (D.state dev.old) }
        ensures next { IfOk result (λ run. IfSome (D.state dev.old).held
            (λ image. IsNext run (runs_left image self.old) (runs_left image self.new))) }
        ensures reads { IfSome (D.state dev.old).held (λ image. OnOk result (
            (D.state dev.new).reads + runs_reads image self.new ≤ (D.state dev.old).reads + runs_reads image self.old)) }
        ensures reads_failed { IfSome (D.state dev.old).held (λ image.
            (D.state dev.new).reads ≤ (D.state dev.old).reads + runs_reads image self.old) }
        ensures number { IfOk result (λ run. IfSome run (λ _. runs_number self.new < runs_number self.old)) }
        ensures kept { OnlyReads (D.state dev.old) (D.state dev.new) }
        ensures faults { CountsFault result (D.state dev.old).faults (D.state dev.new).faults }
    {
        while !self.ended {
            match self.mappings.next(dev)? {
                Some((virt, mapping)) => {
                    let run = self.joined.take(virt, mapping);
                    if run.is_some() {
                        return Ok(run);
                    }
                }
                None => self.ended = true,
            }
        }
        Ok(self.joined.end())
    }
}
