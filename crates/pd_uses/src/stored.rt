//! The stored counts of a pool's data blocks, read in their order (`thin_trim`).

ghost use Rattle.std.specs.Prelude.{◌≡◌, ℕ, ◌/◌, ◌%◌, ◌<◌, Option, [], List, IfOk, IfSome, OnOk};
ghost use Rattle.pd_kinds.specs.declared.kind.Kind.TheVariants.{Thin};
ghost use Rattle.pd_kinds.specs.declared.kind.Stage.TheVariants.{Counts, Whole};
ghost use Rattle.pd_kinds.specs.Bitmap.{two_bits_of};
ghost use Rattle.pd_kinds.specs.Graph.{block_at};
ghost use Rattle.pd_kinds.specs.Objects.{CountsFault};
ghost use Rattle.pd_kinds.specs.Stages.{faults};
ghost use Rattle.pd_kinds.specs.ThinFormat.{thin_fields, thin_graph};
ghost use Rattle.pd_answers.specs.QueryLines.{is_unused};
ghost use Rattle.pd_bitmap.specs.Counts.{AreAll};
ghost use Rattle.pd_image.specs.Device.{IsAttached, OnlyReads};
ghost use Rattle.pd_smap.specs.Overflow.{IsOverflow, overflow_items};
ghost use Rattle.pd_smap.specs.Steps.{IsAhead, stored_by};
ghost use Rattle.pd_uses.specs.Stored.{is_free, is_zero};

use pd_bitmap::{one_number, two_bits};
use pd_image::{Device, Failed};
use pd_kinds::{
    BITMAP_COUNTS, Block, CheckFault, SmRoot, faults_are_none_where_clean, leaks_alone_lose_nothing,
};
use pd_smap::{
    Overflow, index_trees_name_bitmaps, next_place, overflow_trees_hold_counts, read_bitmap,
};
use pd_tree::{
    Cursor, formats_have_trees, reached_trees_are_sound, superblocks_lead_to_reached_roots,
};
use pd_value::IndexEntry;
use std::alloc::Global;

/// How many counts are looked at together where they are equal.
const GROUP_COUNTS: u64 = 32;

/// Neighbouring data blocks that are alike.
#[derive(Clone, Copy)]
pub(crate) struct Stretch {
    /// The first of them.
    pub(crate) first: u64,
    /// How many they are.
    pub(crate) length: u64,
    /// Whether the stored count of each is 0, or of none.
    pub(crate) unused: bool,
}

/// The data blocks whose stored counts are still to be read.
#[derive(Drop)]
pub struct StoredCounts {
    /// The first of them.
    pub(crate) at: u64,
    /// The number of the pool's data blocks.
    pub(crate) end: u64,
    /// The entries of the index that name the bitmaps ahead.
    index: Cursor<IndexEntry>,
    /// The counts of 3 and more that are ahead.
    overflow: Overflow,
}

impl StoredCounts {
    ghost use Rattle.std.specs.Prelude.{◌≡◌, ◌+◌, ◌/◌, ◌<◌, ◌≤◌, List, ℕ, IfOk, IfSome, OnOk};
    ghost use Rattle.pd_kinds.specs.Bitmap.{bitmaps_for};
    ghost use Rattle.pd_kinds.specs.CheckFault.{CountsCheckFault};
    ghost use Rattle.pd_kinds.specs.Objects.{CountsFault};
    ghost use Rattle.pd_kinds.specs.declared.superblocks.SmRoot.{SmRoot as Map};
    ghost use Rattle.pd_image.specs.Device.{IsAttached, OnlyReads};
    ghost use Rattle.pd_smap.specs.Overflow.{IsOverflow};
    ghost use Rattle.pd_uses.specs.Stored.{AreLeftAfter, AreReadUpTo, ComesNext, Follows, IsTold, TellsNext};

    /// All data blocks of the map with this root, before the first one. It takes the memory of two cursors, and reads the way
    /// to the first entry of the overflow tree.
    pub(crate) fn start<D: Device>(
        alloc: Global,
        dev: &mut D,
        map: &SmRoot,
    ) -> Result<StoredCounts, CheckFault>
        requires { IsAttached (D.state dev.old) }
        ensures at { IfOk result (λ counts. counts.at ≡ 0) }
        ensures end { IfOk result (λ counts. counts.end ≡ map.now.blocks) }
        ensures left { IfOk result (λ counts. IfSome (D.state dev.old).held (λ image. IsOverflow image map.now.overflow_root
            → (bitmap : List ℕ) → AreReadUpTo image map.now bitmap counts)) }
        ensures kept { OnlyReads (D.state dev.old) (D.state dev.new) }
        ensures faults { CountsCheckFault result (D.state dev.old).faults (D.state dev.new).faults }
    {
        let index = Cursor::start(alloc, map.bitmap_root)?;
        let overflow = Overflow::start(alloc, dev, map.overflow_root)?;
        Ok(StoredCounts {
            at: 0,
            end: map.blocks,
            index,
            overflow,
        })
    }

    /// The next blocks that are alike, or `None` where no block is left. The bitmap is the one that was read last.
    ///
    /// Fails with `Failed` where a read failed.
    pub(crate) fn next<D: Device>(
        &mut self,
        dev: &mut D,
        bitmap: &mut Block,
    ) -> Result<Option<Stretch>, Failed>
        requires { IsAttached (D.state dev.old) }
        ensures follows { IfOk result (λ next. Follows next self.old self.new) }
        ensures told { IfOk result (λ next. IfSome (D.state dev.old).held (λ image. (map : Map)
            → AreReadUpTo image map bitmap.old.0 self.old → TellsNext image map next bitmap.new.0 self.new)) }
        ensures kept { OnlyReads (D.state dev.old) (D.state dev.new) }
        ensures faults { CountsFault result (D.state dev.old).faults (D.state dev.new).faults }
    {
        if self.at >= self.end {
            return Ok(None);
        }
        self.turn(dev, bitmap)?;
        let stretch = self.look(dev, bitmap)?;
        self.at += stretch.length;
        Ok(Some(stretch))
    }

    /// Reads the next bitmap, where the next block is the first one of it.
    fn turn<D: Device>(&mut self, dev: &mut D, bitmap: &mut Block) -> Result<(), Failed>
        requires { IsAttached (D.state dev.old) }
        ensures at { self.new.at ≡ self.old.at }
        ensures end { self.new.end ≡ self.old.end }
        ensures left { OnOk result (IfSome (D.state dev.old).held (λ image. (map : Map)
            → AreReadUpTo image map bitmap.old.0 self.old → AreLeftAfter image map (self.old.at / 16320 + 1) bitmap.new.0 self.new)) }
        ensures kept { OnlyReads (D.state dev.old) (D.state dev.new) }
        ensures faults { CountsFault result (D.state dev.old).faults (D.state dev.new).faults }
    {
        if self.at % BITMAP_COUNTS != 0 {
            return Ok(());
        }
        let place = next_place(dev, &mut self.index)?;
        read_bitmap(dev, place, bitmap)
    }

    /// What comes next, by the bitmap that has its counts. Where a group of them are equal they are looked at together.
    fn look<D: Device>(&mut self, dev: &mut D, bitmap: &Block) -> Result<Stretch, Failed>
        requires attached { IsAttached (D.state dev.old) }
        requires some { self.old.at < self.old.end }
        ensures next { IfOk result (λ stretch. ComesNext stretch self.old.at self.old.end) }
        ensures at { self.new.at ≡ self.old.at }
        ensures end { self.new.end ≡ self.old.end }
        ensures told { IfOk result (λ stretch. IfSome (D.state dev.old).held (λ image. (map : Map)
            → AreLeftAfter image map (self.old.at / 16320 + 1) bitmap.now.0 self.old → IsTold image map stretch)) }
        ensures left { IfOk result (λ stretch. IfSome (D.state dev.old).held (λ image. (map : Map)
            → AreLeftAfter image map (self.old.at / 16320 + 1) bitmap.now.0 self.old
            → AreLeftAfter image map (bitmaps_for (self.old.at + stretch.length)) bitmap.now.0 self.new)) }
        ensures kept { OnlyReads (D.state dev.old) (D.state dev.new) }
        ensures faults { CountsFault result (D.state dev.old).faults (D.state dev.new).faults }
    {
        let first = self.at;
        let e = (first % BITMAP_COUNTS) as usize;
        if let Some(number) = group_number(bitmap, e) {
            return Ok(Stretch {
                first,
                length: (self.end - first).min(GROUP_COUNTS),
                unused: number == 0,
            });
        }
        let unused = is_unused(dev, bitmap, e, first, &mut self.overflow)?;
        Ok(Stretch {
            first,
            length: 1,
            unused,
        })
    }
}

/// The number that all 32 counts from an entry of the bitmap on are, where they are a group of it and that is seen.
fn group_number(bitmap: &Block, entry: usize) -> Option<u32>
    requires { entry < 16320 }
    ensures { IfSome result (λ number. (entry % 32 ≡ 0) × AreAll bitmap.now.0 (entry / 32) number) }
{
    if entry % GROUP_COUNTS as usize == 0 {
        one_number(&bitmap.0, entry / GROUP_COUNTS as usize)
    } else {
        None
    }
}

/// Whether the stored count of block `b`, which is entry `e` of the bitmap, is 0.
fn is_unused<D: Device>(
    dev: &mut D,
    bitmap: &Block,
    e: usize,
    b: u64,
    overflow: &mut Overflow,
) -> Result<bool, Failed>
    requires attached { IsAttached (D.state dev.old) }
    requires entry { e < 16320 }
    ensures unused { IfOk result (λ unused. IfSome (D.state dev.old).held
        (λ image. (over : ℕ → Option ℕ) → IsAhead b over (overflow_items overflow.old image)
        → unused ≡ is_zero (stored_by (two_bits_of bitmap.now.0 e) (over b)))) }
    ensures ahead { OnOk result (IfSome (D.state dev.old).held
        (λ image. (over : ℕ → Option ℕ) → IsAhead b over (overflow_items overflow.old image)
        → IsAhead b over (overflow_items overflow.new image))) }
    ensures kept { OnlyReads (D.state dev.old) (D.state dev.new) }
    ensures faults { CountsFault result (D.state dev.old).faults (D.state dev.new).faults }
{
    let bits = two_bits(bitmap, e);
    if bits < 3 {
        return Ok(bits == 0);
    }
    match overflow.count(dev, b)? {
        Some(count) => Ok(count == 0),
        None => Ok(false),
    }
}

/// In a pool without faults the overflow tree of its data blocks can be searched, and the stored count of a data block is 0
/// where no mapping leads to it.
pub(crate) fn stored_counts_are_references()
    ensures whole { (image : List (List ℕ)) → faults Thin Counts image ≡ [] → faults Thin Whole image ≡ [] }
    ensures overflow { (image : List (List ℕ)) → faults Thin Counts image ≡ []
        → IsOverflow image (thin_fields (block_at image 0)).data_map.overflow_root }
    ensures unused { (image : List (List ℕ)) (b : ℕ) → faults Thin Counts image ≡ [] → b < (thin_fields (block_at image 0)).data_map.blocks
        → is_free image (thin_fields (block_at image 0)).data_map b ≡ is_unused (thin_graph (block_at image 0)) image b }
{
    leaks_alone_lose_nothing();
    faults_are_none_where_clean();
    formats_have_trees();
    reached_trees_are_sound();
    superblocks_lead_to_reached_roots();
    index_trees_name_bitmaps();
    overflow_trees_hold_counts();
}
