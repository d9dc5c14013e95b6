//! The best roots of a pool without its superblock (`thin_repair`).

ghost use Rattle.std.specs.Prelude.{◌≡◌, ℕ, ◌≤◌, min, IfOk, IfSome};
ghost use Rattle.pd_kinds.specs.declared.limits.TheConstants.{MAX_META_BLOCKS};
ghost use Rattle.pd_kinds.specs.CheckFault.{CountsCheckFault};
ghost use Rattle.pd_kinds.specs.Layout.{graph_of};
ghost use Rattle.pd_kinds.specs.ThinFormat.{thin_layout};
ghost use Rattle.pd_laid.specs.FoundRoots.{IsFound, lost_graph};
ghost use Rattle.pd_image.specs.Device.{IsAttached, OnlyReads};
ghost use Rattle.pd_scan.specs.Lost.{IsPool};
ghost use Rattle.pd_scan.specs.Pairs.{AreInside, found_of, lost_fields, roots_of};

use crate::fitting::choose;
use crate::trees::measure_lost;
use pd_graph::Format;
use pd_image::Device;
use pd_kinds::{CheckFault, MAX_META_BLOCKS, SmRoot, ThinSuper};
use pd_thin::ThinFormat;
use std::alloc::Global;

/// The roots of a mapping tree and of a details tree that fit each other, and what stands below them.
#[derive(Clone, Copy, Debug, PartialEq, Eq)]
pub struct Roots {
    /// The block of the root of the mapping tree.
    pub top: u64,
    /// The block of the root of the details tree.
    pub details: u64,
    /// How many mappings the devices have.
    pub mappings: u64,
    /// The latest time: of a mapping, and at which a device was made or last shared.
    pub time: u32,
    /// The latest transaction of a device.
    pub transaction: u64,
    /// The sum of the times of the mappings.
    pub times: u128,
}

impl Roots {
    ghost use Rattle.std.specs.Prelude.{◌≡◌};
    ghost use Rattle.pd_laid.specs.FoundRoots.{is_better};
    ghost use Rattle.pd_scan.specs.Pairs.{roots_of};

    /// Whether these roots are better than others: the latest time is later. Of the same time it is the later transaction,
    /// then the greater sum of the mappings' times, then the greater number of mappings, the higher first root, and the
    /// higher second one.
    #[tactic(auto, unfolding(pd_laid::specs::FoundRoots::is_better), using(std::proofs::lemmas::Bool::Decides::nat_tests))]
    pub fn is_better(&self, other: &Roots) -> bool
        ensures { result ≡ is_better (roots_of self.now) (roots_of other.now) }
    {
        if self.time != other.time {
            return self.time > other.time;
        }
        if self.transaction != other.transaction {
            return self.transaction > other.transaction;
        }
        if self.times != other.times {
            return self.times > other.times;
        }
        if self.mappings != other.mappings {
            return self.mappings > other.mappings;
        }
        if self.top != other.top {
            return self.top > other.top;
        }
        self.details > other.details
    }
}

/// A space map of so many blocks, of which nothing else is known.
fn unknown_map(blocks: u64) -> SmRoot
    ensures { result ≡ record { blocks = blocks; allocated = 0; bitmap_root = 0; overflow_root = 0 } }
{
    SmRoot {
        blocks,
        allocated: 0,
        bitmap_root: 0,
        overflow_root: 0,
    }
}

/// The superblock of a pool with these roots: its identifier is zeros, its time is the latest one below the roots, and all
/// that isn't given is 0.
pub fn lost_super(
    roots: &Roots,
    transaction: u64,
    block_size: u32,
    meta_blocks: u64,
    data_blocks: u64,
) -> ThinSuper
    ensures { result ≡ lost_fields (roots_of roots.now) transaction block_size meta_blocks data_blocks }
{
    ThinSuper {
        flags: 0,
        uuid: [0; 16],
        version: 2,
        time: roots.time,
        transaction,
        held_root: 0,
        data_map: unknown_map(data_blocks),
        meta_map: unknown_map(meta_blocks),
        mapping_root: roots.top,
        details_root: roots.details,
        block_size,
        meta_block_size: 0,
        meta_blocks: 0,
        compat: 0,
        compat_ro: 0,
        incompat: 0,
    }
}

/// The format of a pool with so many metadata blocks, from 1 to `MAX_META_BLOCKS`, and data blocks. It depends on no root.
pub fn lost_format(nr: u64, data_blocks: u64) -> ThinFormat
    requires some { 1 ≤ nr }
    requires few { nr ≤ MAX_META_BLOCKS }
    ensures { ⟦<ThinFormat as Format>⟧.graph result ≡ graph_of 11 nr data_blocks (thin_layout nr data_blocks) }
{
    let none = Roots {
        top: 0,
        details: 0,
        mappings: 0,
        time: 0,
        transaction: 0,
        times: 0,
    };
    ThinFormat::of(&lost_super(&none, 0, 0, nr, data_blocks))
}

/// Finds the best roots of a pool of this format.
///
/// Fails with `CheckFault::Memory` where memory wasn't found, and with `CheckFault::Device` where a read failed.
fn find_roots_in<F: Format, D: Device>(
    alloc: Global,
    format: &F,
    dev: &mut D,
) -> Result<Option<Roots>, CheckFault>
    requires pool { IsPool F.ROLES (F.graph format.now) }
    requires attached { IsAttached (D.state dev.old) }
    requires within { (F.graph format.now).nr ≤ (D.state dev.old).blocks }
    ensures found { IfOk result (λ found. IfSome (D.state dev.old).held
        (λ image. (data_blocks : ℕ) → F.graph format.now ≡ lost_graph image data_blocks
        → IsFound (lost_graph image data_blocks) image (found_of found))) }
    ensures inside { IfOk result (λ found. IfSome found (AreInside (F.graph format.now).nr)) }
    ensures kept { OnlyReads (D.state dev.old) (D.state dev.new) }
    ensures faults { CountsCheckFault result (D.state dev.old).faults (D.state dev.new).faults }
{
    let trees = measure_lost(alloc, format, dev)?;
    choose(alloc, trees, dev)
}

/// Finds the best roots of a pool with so many data blocks, whatever its block 0 holds: of all mapping trees and details
/// trees on the device that are sound and fit each other, those with the latest time; of the same time, those with the
/// latest transaction of a device; of the same, those with the greatest sum of the mappings' times, and then with the most
/// mappings; and where all these are equal, those whose mapping tree, and then whose details tree, has the highest block.
/// `None` says that no two trees fit.
///
/// The device is only read. It takes 240 bytes and a set of roles for each of its blocks, of which it looks at no more than
/// `MAX_META_BLOCKS`, and then memory for each different list of devices that a details tree has: 16 bytes a device too, where
/// the lists of two trees differ that have one number of mappings and one fingerprint.
///
/// Fails with `CheckFault::Memory` where memory wasn't found, and with `CheckFault::Device` where a read failed.
pub fn find_roots<D: Device>(
    alloc: Global,
    dev: &mut D,
    data_blocks: u64,
) -> Result<Option<Roots>, CheckFault>
    requires attached { IsAttached (D.state dev.old) }
    ensures found { IfOk result (λ found. IfSome (D.state dev.old).held
        (λ image. IsFound (lost_graph image data_blocks) image (found_of found))) }
    ensures inside { IfOk result (λ found. IfSome found (AreInside (min (D.state dev.old).blocks MAX_META_BLOCKS))) }
    ensures kept { OnlyReads (D.state dev.old) (D.state dev.new) }
    ensures faults { CountsCheckFault result (D.state dev.old).faults (D.state dev.new).faults }
{
    let nr = dev.blocks().min(MAX_META_BLOCKS);
    if nr == 0 {
        return Ok(None);
    }
    find_roots_in(alloc, &lost_format(nr, data_blocks), dev)
}
