//! The counts of 3 and more, taken from the overflow tree side by side with the bitmaps.

ghost use Rattle.std.specs.Prelude.{◌≡◌, ◌+◌, ◌<◌, ◌≤◌, IfOk, IfSome};
ghost use Rattle.pd_kinds.specs.declared.limits.TheConstants.{MAX_META_BLOCKS};
ghost use Rattle.pd_kinds.specs.Objects.{CountsFault};
ghost use Rattle.pd_kinds.specs.Trees.{stored_meta_in, value_of_key};
ghost use Rattle.pd_image.specs.Device.{IsAttached, OnlyReads};
ghost use Rattle.pd_smap.specs.Overflow.{IsOverflow, overflow_of};

use crate::bitmaps::read_bitmap;
use pd_bitmap::{index_entry, two_bits};
use pd_image::{Device, Failed};
use pd_kinds::{BITMAP_COUNTS, Block, CheckFault, SmRoot};
use pd_tree::{Cursor, find};
use pd_value::Count;
use std::alloc::Global;

/// The entries of an overflow tree that are ahead: the first one, and a cursor over the rest.
#[derive(Drop)]
pub struct Overflow {
    entry: Option<(u64, Count)>,
    rest: Cursor<Count>,
}

impl Overflow {
    ghost use Rattle.std.specs.Prelude.{◌≡◌, ℕ, ◌+◌, ◌<◌, ◌≤◌, true, Option, false, IfOk, IfSome, OnOk, List, length};
    ghost use Rattle.pd_kinds.specs.Objects.{CountsFault};
    ghost use Rattle.pd_kinds.specs.CheckFault.{CountsCheckFault};
    ghost use Rattle.pd_image.specs.Device.{IsAttached, OnlyReads};
    ghost use Rattle.pd_tree.specs.Below.{items_below, nodes_below};
    ghost use Rattle.pd_smap.specs.Overflow.{count_from};
    ghost use Rattle.pd_smap.specs.Steps.{IsAhead};
    ghost use Rattle.pd_smap.specs.Overflow.{overflow_items, overflow_number, overflow_reads, is_behind};

    /// The entries of the tree with this root. It takes the memory of a cursor, and reads the way to the first entry.
    pub fn start<D: Device>(alloc: Global, dev: &mut D, root: u64) -> Result<Overflow, CheckFault>
        requires attached { IsAttached (D.state dev.old) }
        ensures items { IfOk result (λ overflow. IfSome (D.state dev.old).held
            (λ image. overflow_items overflow image ≡ items_below 4 count_from image 63 root)) }
        ensures reads { IfOk result (λ overflow. IfSome (D.state dev.old).held (λ image.
            (D.state dev.new).reads + overflow_reads overflow image ≤ (D.state dev.old).reads + length (nodes_below 4 image 63 root))) }
        ensures reads_failed { IfSome (D.state dev.old).held
            (λ image. (D.state dev.new).reads ≤ (D.state dev.old).reads + length (nodes_below 4 image 63 root)) }
        ensures kept { OnlyReads (D.state dev.old) (D.state dev.new) }
        ensures faults { CountsCheckFault result (D.state dev.old).faults (D.state dev.new).faults }
    {
        let mut rest = Cursor::start(alloc, root)?;
        let entry = rest.next(dev)?;
        Ok(Overflow { entry, rest })
    }

    /// The count of block `b`, where later blocks alone are asked for afterwards.
    pub fn count<D: Device>(&mut self, dev: &mut D, b: u64) -> Result<Option<u32>, Failed>
        requires { IsAttached (D.state dev.old) }
        ensures count { IfOk result (λ count. IfSome (D.state dev.old).held (λ image. (over : ℕ → Option ℕ)
            → IsAhead b over (overflow_items self.old image) → count ≡ over b)) }
        ensures ahead { OnOk result (IfSome (D.state dev.old).held (λ image. (over : ℕ → Option ℕ)
            → IsAhead b over (overflow_items self.old image) → IsAhead b over (overflow_items self.new image))) }
        ensures reads { OnOk result (IfSome (D.state dev.old).held (λ image.
            (D.state dev.new).reads + overflow_reads self.new image ≤ (D.state dev.old).reads + overflow_reads self.old image)) }
        ensures reads_failed { IfSome (D.state dev.old).held
            (λ image. (D.state dev.new).reads ≤ (D.state dev.old).reads + overflow_reads self.old image) }
        ensures kept { OnlyReads (D.state dev.old) (D.state dev.new) }
        ensures faults { CountsFault result (D.state dev.old).faults (D.state dev.new).faults }
    {
        while self.is_behind(b) {
            self.pass(dev)?;
        }
        Ok(self.first_count(b))
    }

    /// Whether the first entry is that of a block before `b`.
    fn is_behind(&self, b: u64) -> bool
        ensures { result ≡ is_behind b self.now }
    {
        match self.entry {
            Some((key, _)) => key < b,
            None => false,
        }
    }

    /// The count of the first entry, where it is that of block `b`.
    fn first_count(&self, b: u64) -> Option<u32>
        ensures { is_behind b self.now ≡ false → (image : List (List ℕ)) (over : ℕ → Option ℕ)
            → IsAhead b over (overflow_items self.now image) → result ≡ over b }
    {
        match self.entry {
            Some((key, count)) => { if key == b { Some(count.0) } else { None } }
            None => None,
        }
    }

    /// Takes the next entry in place of the first one, which is that of a block before `b`.
    fn pass<D: Device>(&mut self, dev: &mut D) -> Result<(), Failed>
        requires { IsAttached (D.state dev.old) }
        ensures ahead { OnOk result (IfSome (D.state dev.old).held (λ image. (b : ℕ) (over : ℕ → Option ℕ) → is_behind b self.old ≡ true
            → IsAhead b over (overflow_items self.old image) → IsAhead b over (overflow_items self.new image))) }
        ensures number { OnOk result ((b : ℕ) → is_behind b self.old ≡ true → overflow_number self.new < overflow_number self.old) }
        ensures reads { OnOk result (IfSome (D.state dev.old).held (λ image.
            (D.state dev.new).reads + overflow_reads self.new image ≤ (D.state dev.old).reads + overflow_reads self.old image)) }
        ensures reads_failed { IfSome (D.state dev.old).held
            (λ image. (D.state dev.new).reads ≤ (D.state dev.old).reads + overflow_reads self.old image) }
        ensures kept { OnlyReads (D.state dev.old) (D.state dev.new) }
        ensures faults { CountsFault result (D.state dev.old).faults (D.state dev.new).faults }
    {
        self.entry = self.rest.next(dev)?;
        Ok(())
    }
}

// The stored count of one metadata block.

/// The count that a metadata block's space map stores of block `b`, or `None` where its two bits are 3 and the
/// overflow tree has no entry for it.
///
/// It reads the index block, a bitmap and one node a level of the overflow tree, 66 blocks at the most, and takes no
/// memory. What it answers is said over the bytes of any image whose overflow tree can be searched. Over any device it
/// is safe and returns; a bitmap outside of the device counts as zeros.
///
/// Fails with `Failed` where a read failed.
pub fn stored_meta<D: Device>(dev: &mut D, root: &SmRoot, b: u64) -> Result<Option<u32>, Failed>
    requires attached { IsAttached (D.state dev.old) }
    requires within { b < root.now.blocks }
    requires few { root.now.blocks ≤ MAX_META_BLOCKS }
    requires index { root.now.bitmap_root < (D.state dev.old).blocks }
    requires overflow { root.now.overflow_root < (D.state dev.old).blocks }
    ensures stored { IfOk result (λ stored. IfSome (D.state dev.old).held (λ image. IsOverflow image root.now.overflow_root
        → stored ≡ stored_meta_in image root.now.bitmap_root (overflow_of image root.now.overflow_root) b)) }
    ensures reads { (D.state dev.new).reads ≤ (D.state dev.old).reads + 66 }
    ensures kept { OnlyReads (D.state dev.old) (D.state dev.new) }
    ensures faults { CountsFault result (D.state dev.old).faults (D.state dev.new).faults }
{
    let mut block = Block::zeros();
    dev.read(root.bitmap_root, &mut block)?;
    let bitmap = index_entry(&block, (b / BITMAP_COUNTS) as usize);
    read_bitmap(dev, bitmap.block, &mut block)?;
    let bits = two_bits(&block, (b % BITMAP_COUNTS) as usize);
    if bits < 3 {
        Ok(Some(u32::from(bits)))
    } else {
        overflow_count(dev, root.overflow_root, b)
    }
}

/// The count of a block in an overflow tree.
fn overflow_count<D: Device>(dev: &mut D, root: u64, b: u64) -> Result<Option<u32>, Failed>
    requires attached { IsAttached (D.state dev.old) }
    requires within { root < (D.state dev.old).blocks }
    ensures count { IfOk result (λ count. IfSome (D.state dev.old).held
        (λ image. IsOverflow image root → count ≡ value_of_key (overflow_of image root) b)) }
    ensures reads { (D.state dev.new).reads ≤ (D.state dev.old).reads + 64 }
    ensures kept { OnlyReads (D.state dev.old) (D.state dev.new) }
    ensures faults { CountsFault result (D.state dev.old).faults (D.state dev.new).faults }
{
    match find::<Count, D>(dev, root, b)? {
        Some(count) => Ok(Some(count.0)),
        None => Ok(None),
    }
}
