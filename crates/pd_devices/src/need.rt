//! How many blocks a pool needs (`thin_restore`, `thin_repair`, `thin_shrink`).

ghost use Rattle.std.specs.Prelude.{◌≡◌, ◌+◌, ◌-◌, ◌^◌, min};
ghost use Rattle.pd_grammar.specs.Need.{need_tree, need_of_devices};
ghost use Rattle.pd_devices.specs.Gathered.{need_of_trees};

use pd_build::need_tree;
use pd_kinds::bitmaps_for;
use pd_node::max_entries_of;

/// How many blocks a pool needs whose devices have these mapped numbers, with so many data blocks, of which so many are
/// mapped three times or more, where there are `nr` blocks for metadata. It stays at 2^64 - 1 where it would pass that.
/// It takes no memory.
pub fn need_thin(devices: &[u64], blocks: u64, over: u64, nr: u64) -> u64
    ensures { result ≡ min (need_of_devices devices.now blocks over nr) (2 ^ 64 - 1) }
{
    let mut trees = 0;
    for mapped in devices {
        trees = add_tree(trees, *mapped);
    }
    need_of(trees, devices.len() as u64, blocks, over, nr)
}

/// So many nodes, and those of the tree of one device more. It stays at 2^64 - 1 where it would pass that.
pub(crate) fn add_tree(trees: u64, mapped: u64) -> u64
    ensures { result ≡ min (trees + need_tree 8 mapped) (2 ^ 64 - 1) }
{
    trees.saturating_add(need_tree(mapped, max_entries_of(8) as u64))
}

/// The same need by the nodes of all devices' trees, and the number of devices.
pub(crate) fn need_of(trees: u64, devices: u64, blocks: u64, over: u64, nr: u64) -> u64
    ensures { result ≡ min (need_of_trees trees devices blocks over nr) (2 ^ 64 - 1) }
{
    let bitmaps = bitmaps_for(blocks);
    let tops = need_tree(devices, max_entries_of(8) as u64);
    let details = need_tree(devices, max_entries_of(24) as u64);
    let index = need_tree(bitmaps, max_entries_of(16) as u64);
    let overflow = need_tree(over, max_entries_of(4) as u64);
    let empty = need_tree(0, max_entries_of(4) as u64);
    let maps = bitmaps as u128 + index as u128 + overflow as u128;
    let meta = 1 + bitmaps_for(nr) as u128 + empty as u128;
    capped(1 + trees as u128 + tops as u128 + details as u128 + maps + meta)
}

/// A number, or 2^64 - 1 where it is above that.
fn capped(number: u128) -> u64
    ensures { result ≡ min number (2 ^ 64 - 1) }
{
    if number < u64::MAX as u128 {
        number as u64
    } else {
        u64::MAX
    }
}
