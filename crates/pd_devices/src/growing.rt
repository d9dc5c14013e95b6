//! The device whose tree is being written (`thin_restore`, `thin_repair`, `thin_shrink`).

ghost use Rattle.std.specs.Prelude.{◌≡◌, ℕ, ◌+◌, ◌<◌, ◌≤◌, ◌^◌, List, [], ◌∷◌, length, OnOk, IfOk, IfErr, slice_get, ◌-◌, min};
ghost use Rattle.std.specs.Option.{unwrap_or};
ghost use Rattle.pd_kinds.specs.Node.{Entry, leaf_block};
ghost use Rattle.pd_grammar.specs.Need.{nodes_for};
ghost use Rattle.pd_laid.specs.LaidThin.{device_root};
ghost use Rattle.pd_laid.specs.Shape.{ShapeDevice, shared};
ghost use Rattle.pd_laid.specs.Laid.{first_key};
ghost use Rattle.pd_laid.specs.PoolText.{mappings_of_runs};
ghost use Rattle.pd_image.specs.Device.{IsWritable};
ghost use Rattle.pd_draft.specs.Closed.{IsClosed, StaysClosed, DraftState, Wrote};
ghost use Rattle.pd_draft.specs.DraftState.{draft_state};
ghost use Rattle.pd_build.specs.Building.{CountsBuildFault};
ghost use Rattle.pd_devices.specs.SharedGrowth.{CanFinish, Grown, grown_need, CanBeLaid, held_runs, AreHeld, need_begun, need_ended};
ghost use Rattle.pd_devices.specs.Told.{own_piece, with_pieces};
ghost use Rattle.pd_devices.specs.SharedGathered.{need_of_parts};
ghost use Rattle.pd_laws_laid.specs.Shared.{device_tree};

use crate::piece::{Held, add_head, write_piece};
use pd_build::{BuildFault, UpperBuilder, need_tree, need_upper, put_block};
use pd_draft::Draft;
use pd_image::Device;
use pd_kinds::bitmaps_for;
use pd_node::{max_entries_of, write_leaf};
use pd_value::BlockTime;
use std::alloc::Global;

/// The device whose tree is being written: the row of its leaves so far.
#[derive(Drop)]
pub struct Growing {
    pub(crate) id: u64,
    pub(crate) row: UpperBuilder,
    /// How many leaves of its own are written.
    pub(crate) own: u64,
    /// How many shared leaves it uses.
    pub(crate) uses: u64,
}

impl Growing {
    /// A device without leaves.
    pub(crate) fn new(alloc: Global, id: u64) -> Growing
        ensures { (leaves : List (List Entry)) (d : ShapeDevice) (now : DraftState)
            → d.id ≡ id → d.pieces ≡ [] → IsClosed now.device → Grown leaves d 0 result now now }
    {
        Growing {
            id,
            row: UpperBuilder::new(alloc),
            own: 0,
            uses: 0,
        }
    }

    /// Writes the leaves of a piece of its own that is over, where there is one.
    pub(crate) fn end_piece<D: Device>(
        &mut self,
        alloc: Global,
        draft: &mut Draft<'_, D>,
        held: &Held,
    ) -> Result<(), BuildFault>
        requires can { CanBeLaid (held_runs held.now) 0 }
        requires number { held.now.number ≡ length (mappings_of_runs (held_runs held.now)) }
        requires few { self.old.own + nodes_for 252 held.now.number + self.old.uses ≤ 2 ^ 61 }
        requires writable { IsWritable (draft_state draft.old).device }
        requires room { draft.old.next + nodes_for 252 held.now.number ≤ (draft_state draft.old).device.blocks }
        requires closed { IsClosed (draft_state draft.old).device }
        ensures same_reference { draft.new.dev.ghost_name ≡ draft.old.dev.ghost_name }
        ensures grown { (leaves : List (List Entry)) (d : ShapeDevice) (blocks low end : ℕ) (from : DraftState)
            → Grown leaves d low self.old from (draft_state draft.old) → AreHeld blocks low end (held_runs held.now)
            → OnOk result (Grown leaves (with_pieces (own_piece (held_runs held.now)) d) end self.new from (draft_state draft.new)) }
        ensures id { OnOk result (self.new.id ≡ self.old.id) }
        ensures own { OnOk result (self.new.own ≡ self.old.own + nodes_for 252 held.now.number) }
        ensures uses { OnOk result (self.new.uses ≡ self.old.uses) }
        ensures moved { OnOk result (draft.new.next ≡ draft.old.next + nodes_for 252 held.now.number) }
        ensures closed { StaysClosed (draft_state draft.old).device (draft_state draft.new).device }
        ensures faults { CountsBuildFault result (draft_state draft.old).device.faults (draft_state draft.new).device.faults }
    {
        if held.number == 0 {
            return Ok(());
        }
        write_piece(alloc, draft, held, &mut self.row)?;
        self.own += leaves_for(held.number);
        Ok(())
    }

    /// Adds the use of a shared leaf, by its least key and its number.
    pub(crate) fn use_leaf(&mut self, least: u64, number: u64) -> Result<(), BuildFault>
        requires few { self.old.own + self.old.uses + 1 ≤ 2 ^ 61 }
        requires number { number + 1 < 2 ^ 64 }
        ensures grown { (leaves : List (List Entry)) (d : ShapeDevice) (low end : ℕ) (from now : DraftState)
            → Grown leaves d low self.old from now → low ≤ least → least < end
            → least ≡ first_key (unwrap_or (slice_get leaves number) [])
            → OnOk result (Grown leaves (with_pieces (shared number ∷ []) d) end self.new from now) }
        ensures fault { IfErr result (λ fault. fault ≡ BuildFault.Memory) }
    {
        add_head(&mut self.row, least, number + 1)?;
        self.uses += 1;
        Ok(())
    }

    /// How many blocks its tree has so far, besides the shared leaves, where the piece that isn't over has so many mappings.
    pub(crate) fn need(&self, number: u64) -> u64
        ensures { result ≡ grown_need self.now.own self.now.uses number }
    {
        let most: u64 = 1 << 61;
        let leaves = leaves_for(number);
        tree_begun(self.own.min(most) + leaves, self.uses.min(most))
    }

    /// Writes the levels above the leaves, and answers the place of the root. A device without leaves has an empty one.
    pub(crate) fn finish<D: Device>(self, draft: &mut Draft<'_, D>) -> Result<u64, BuildFault>
        requires can { CanFinish self (draft_state draft.old) }
        requires writable { IsWritable (draft_state draft.old).device }
        requires closed { IsClosed (draft_state draft.old).device }
        ensures same_reference { draft.new.dev.ghost_name ≡ draft.old.dev.ghost_name }
        ensures wrote { (leaves : List (List Entry)) (d : ShapeDevice) (low : ℕ) (from : DraftState)
            → Grown leaves d low self from (draft_state draft.old)
            → OnOk result (Wrote (device_tree leaves from.place d) from (draft_state draft.new)) }
        ensures root { (leaves : List (List Entry)) (d : ShapeDevice) (low : ℕ) (from : DraftState)
            → Grown leaves d low self from (draft_state draft.old)
            → IfOk result (λ root. root ≡ device_root leaves from.place d) }
        ensures closed { StaysClosed (draft_state draft.old).device (draft_state draft.new).device }
        ensures faults { CountsBuildFault result (draft_state draft.old).device.faults (draft_state draft.new).device.faults }
    {
        if self.row.is_empty() {
            return write_empty(draft);
        }
        self.row.finish(draft)
    }
}

/// Writes an empty leaf, and answers its place.
fn write_empty<D: Device>(draft: &mut Draft<'_, D>) -> Result<u64, BuildFault>
    requires writable { IsWritable (draft_state draft.old).device }
    requires room { draft.old.next < (draft_state draft.old).device.blocks }
    requires closed { IsClosed (draft_state draft.old).device }
    ensures same_reference { draft.new.dev.ghost_name ≡ draft.old.dev.ghost_name }
    ensures wrote { OnOk result (Wrote (leaf_block 8 draft.old.next [] ∷ []) (draft_state draft.old) (draft_state draft.new)) }
    ensures place { IfOk result (λ place. place ≡ draft.old.next) }
    ensures closed { StaysClosed (draft_state draft.old).device (draft_state draft.new).device }
    ensures faults { CountsBuildFault result (draft_state draft.old).device.faults (draft_state draft.new).device.faults }
{
    let place = draft.next();
    let empty: [(u64, BlockTime); 0] = [];
    let block = write_leaf::<BlockTime>(place, &empty);
    put_block(draft, &block)?;
    Ok(place)
}

// How many blocks a pool with shared leaves needs (`thin_restore`, `thin_repair`, `thin_shrink`).

/// How many leaves so many mappings take.
pub fn leaves_for(number: u64) -> u64
    ensures { result ≡ nodes_for 252 number }
{
    if number == 0 {
        return 0;
    }
    (number - 1) / 252 + 1
}

/// How many blocks the tree of a device has so far, besides the shared leaves: so many leaves of its own, and the levels
/// above these and so many uses.
pub(crate) fn tree_begun(own: u64, uses: u64) -> u64
    requires { own + uses ≤ 2 ^ 63 }
    ensures { result ≡ need_begun own uses }
{
    let leaves = own + uses;
    if leaves == 0 {
        return 0;
    }
    own + need_upper(leaves)
}

/// The same of a device that is over: one without leaves has an empty one.
pub fn tree_ended(own: u64, uses: u64) -> u64
    requires { own + uses ≤ 2 ^ 63 }
    ensures { result ≡ need_ended own uses }
{
    if own + uses == 0 {
        return 1;
    }
    tree_begun(own, uses)
}

/// What a pool's need goes by.
#[derive(Clone, Copy)]
pub struct NeedCounts {
    /// How many shared leaves there are.
    pub leaves: u64,
    /// How many of them are used three times or more.
    pub often: u64,
    /// The blocks of the trees of the devices that are over, without the shared leaves.
    pub trees: u64,
    /// Those of the open device so far.
    pub begun: u64,
    /// How many devices there are.
    pub devices: u64,
    /// How many data blocks there are.
    pub blocks: u64,
    /// How many of them stand three times or more in the leaves.
    pub over: u64,
}

/// How many blocks it needs, where there are so many for metadata. It stays at 2^64 - 1 where it would pass that.
pub fn need_of(parts: NeedCounts, room: u64) -> u64
    ensures { result ≡ min (need_of_parts parts room) (2 ^ 64 - 1) }
{
    let bitmaps = bitmaps_for(parts.blocks);
    let tops = need_tree(parts.devices, max_entries_of(8) as u64);
    let details = need_tree(parts.devices, max_entries_of(24) as u64);
    let index = need_tree(bitmaps, max_entries_of(16) as u64);
    let overflow = need_tree(parts.over, max_entries_of(4) as u64);
    let often = need_tree(parts.often, max_entries_of(4) as u64);
    let trees = parts.leaves as u128 + parts.trees as u128 + parts.begun as u128;
    let maps = bitmaps as u128 + index as u128 + overflow as u128;
    let meta = 1 + bitmaps_for(room) as u128 + often as u128;
    capped(1 + trees + tops as u128 + details as u128 + maps + meta)
}

/// A number, or 2^64 - 1 where it is above that.
fn capped(number: u128) -> u64
    ensures { result ≡ min number (2 ^ 64 - 1) }
{
    if number < u64::MAX as u128 {
        number as u64
    } else {
        u64::MAX
    }
}
