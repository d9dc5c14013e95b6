//! The list of devices.

ghost use Rattle.std.specs.Prelude.{◌<◌, ◌≤◌};

use crate::asked::{expect_lines, expect_put};
use crate::shared_dump_tests::{
    ABOVE, BESIDE, BOTH, EMPTY, FIRST, SECOND, Top, of_three, with_held_trees,
};
use crate::whole_tests::superblock;
use pd_kinds::Block;
use pd_samples::pool::{SHARED, TWICE, held_copy};
use pd_samples::runs::restored;
use pd_supers::write_thin_super;
use std::alloc::{AllocError, Global};
use std::process::Abort;
use std::test::Fail;

const LIST: &[&str] = &["thin_ls", "thin.img"];

/// The text of a pool, and its list.
type Row = (&'static str, &'static str);

/// A leaf that two devices share, one of which has its first data block in a leaf of its own too.
const LEAF_AND_BLOCK: &str =
    "thin 2\npool 00000000-0000-0000-0000-000000000000 0 0 128 9\nleaf 0 2\nmap 0 3 2 0\ndevice 1 3 0 0 0\nuse 0\nmap 9 3 1 0\n\
     device 2 3 0 0 0\nuse 0\nmap 5 8 1 0\nend\n";

/// A leaf of one device that has two of its data blocks twice, beside one that three devices share.
const TWICE_IN_A_LEAF: &str =
    "thin 2\npool 00000000-0000-0000-0000-000000000000 0 0 128 9\nleaf 0 1\nmap 20 1 1 0\ndevice 1 6 0 0 0\nmap 0 3 2 0\n\
     map 5 3 3 0\nuse 0\ndevice 2 1 0 0 0\nuse 0\ndevice 3 1 0 0 0\nuse 0\nend\n";

const ROWS: &[Row] = &[
    (
        SHARED,
        "device 1 mapped 1 exclusive 0 shared 1 transaction 0 created 0 snapped 0\n\
         device 2 mapped 1 exclusive 0 shared 1 transaction 0 created 0 snapped 0\n",
    ),
    (
        TWICE,
        "device 3 mapped 3 exclusive 1 shared 2 transaction 4 created 0 snapped 1\n\
         device 7 mapped 3 exclusive 3 shared 0 transaction 8 created 2 snapped 3\n\
         device 9 mapped 0 exclusive 0 shared 0 transaction 5 created 1 snapped 1\n",
    ),
    (
        LEAF_AND_BLOCK,
        "device 1 mapped 3 exclusive 0 shared 3 transaction 0 created 0 snapped 0\n\
         device 2 mapped 3 exclusive 1 shared 2 transaction 0 created 0 snapped 0\n",
    ),
    (
        TWICE_IN_A_LEAF,
        "device 1 mapped 6 exclusive 1 shared 5 transaction 0 created 0 snapped 0\n\
         device 2 mapped 1 exclusive 0 shared 1 transaction 0 created 0 snapped 0\n\
         device 3 mapped 1 exclusive 0 shared 1 transaction 0 created 0 snapped 0\n",
    ),
];

#[test]
fn devices_are_listed(rt: HostRuntime) -> Result<(), Fail> {
    for row in ROWS {
        expect_lines(&rt, rt.alloc(), row.0, LIST, "", row.1)?;
    }
    Ok(())
}

/// Three roots, and how many blocks each of the devices alone uses.
type Tree = (Top, Top, Top, (u64, u64, u64));

/// Pools whose devices share roots, inner nodes and leaves, in each order.
const TREES: &[Tree] = &[
    (FIRST, SECOND, EMPTY, (1, 1, 0)),
    (FIRST, FIRST, SECOND, (0, 0, 1)),
    (SECOND, FIRST, FIRST, (1, 0, 0)),
    (BOTH, FIRST, EMPTY, (1, 0, 0)),
    (FIRST, EMPTY, BOTH, (0, 0, 1)),
    (BOTH, BOTH, EMPTY, (0, 0, 0)),
    (BOTH, SECOND, FIRST, (0, 0, 0)),
    (BOTH, BOTH, BOTH, (0, 0, 0)),
    (ABOVE, BESIDE, SECOND, (0, 0, 1)),
    (ABOVE, SECOND, EMPTY, (1, 1, 0)),
    (ABOVE, ABOVE, BESIDE, (0, 0, 0)),
    (ABOVE, BESIDE, BOTH, (0, 0, 1)),
    (EMPTY, EMPTY, EMPTY, (0, 0, 0)),
];

/// Writes the line of a device with so many mappings.
fn write_line(text: &mut String, id: u32, mapped: u64, exclusive: u64) -> Result<(), Fail> {
    let shared = mapped.saturating_sub(exclusive);
    writeln!(
        text,
        "device {id} mapped {mapped} exclusive {exclusive} shared {shared} transaction 0 created 0 snapped 0"
    )?;
    Ok(())
}

/// Lists the devices of an image, which has these trees.
fn expect_list(rt: &impl Abort, alloc: Global, image: &[Block], tree: Tree) -> Result<(), Fail> {
    let (first, second, third, exclusive) = tree;
    let mut lines = String::new(alloc);
    write_line(&mut lines, 1, first.mapped(), exclusive.0)?;
    write_line(&mut lines, 2, second.mapped(), exclusive.1)?;
    write_line(&mut lines, 3, third.mapped(), exclusive.2)?;
    Ok(expect_put(rt, alloc, LIST, image, "", lines.as_str())?)
}

/// Lists the devices of a pool with these trees.
fn expect_tree(rt: &impl Abort, alloc: Global, tree: Tree) -> Result<(), Fail> {
    let (first, second, third, _) = tree;
    expect_list(rt, alloc, &of_three(first, second, third), tree)
}

#[test]
fn shared_nodes_have_no_exclusive_blocks(rt: HostRuntime) -> Result<(), Fail> {
    for tree in TREES {
        expect_tree(&rt, rt.alloc(), *tree)?;
    }
    Ok(())
}

#[test]
fn a_held_copy_shares_no_blocks(rt: HostRuntime) -> Result<(), Fail> {
    // It names the trees of the pool, in the block of the leaf that no device has.
    let mut image = of_three(FIRST, SECOND, FIRST);
    image[0] = write_thin_super(&superblock(2, 11));
    image[11] = held_copy(11, &superblock(2, 0));
    expect_list(&rt, rt.alloc(), &image, (FIRST, SECOND, FIRST, (0, 1, 0)))?;
    // It has trees of its own.
    expect_put(&rt, rt.alloc(), LIST, &with_held_trees(), "", TWO_ALONE)?;
    Ok(())
}

/// The lines of two devices that each use one block alone.
const TWO_ALONE: &str = "device 1 mapped 1 exclusive 1 shared 0 transaction 0 created 0 snapped 0\n\
     device 2 mapped 1 exclusive 1 shared 0 transaction 0 created 0 snapped 0\n";

/// How many mappings of a device are exclusive: no other mapping has their data block.
fn exclusive(mappings: &[Mapping], device: u32) -> usize {
    mappings
        .iter()
        .filter(|m| (m.device == device) & (uses(mappings, m.data_block) == 1))
        .count()
}

/// Lists a random pool, which must have the lines that the definition says.
fn expect_random(rt: &impl Abort, alloc: Global, seed: u32) -> Result<(), Fail> {
    let mappings = mappings_of(alloc, seed)?;
    let mut lines = String::new(alloc);
    for device in 1..4 {
        let mapped = mapped(mappings.as_slice(), device) as u64;
        let exclusive = exclusive(mappings.as_slice(), device) as u64;
        write_line(&mut lines, device, mapped, exclusive)?;
    }
    let image = image_of(alloc, seed, mappings.as_slice())?;
    Ok(expect_put(rt, alloc, LIST, image.as_slice(), "", lines.as_str())?)
}

#[test]
fn random_pools_are_listed_by_the_definition(rt: HostRuntime) -> Result<(), Fail> {
    for seed in SEEDS {
        expect_random(&rt, rt.alloc(), *seed)?;
    }
    Ok(())
}

// Random small pools of three devices, which share two leaves and have mappings of their own, where a data block may stand in
// many mappings. And what they map, one by one.

/// A mapping of a device.
#[derive(Clone, Copy)]
pub(crate) struct Mapping {
    pub(crate) device: u32,
    pub(crate) virtual_block: u64,
    pub(crate) data_block: u64,
}

/// The numbers that pools are made of.
pub(crate) const SEEDS: &[u32] = &[
    0x39c41a75, 0x1835e20b, 0xe4fac688, 0x9b1d3f54, 0x0d72b916, 0x77e08d3c, 0xa24b57f1, 0x5ec6126d,
    0x00000000, 0xff6d8c41,
];

/// Which of eight data blocks a mapping has: the first two are those of leaf 0, the third is that of leaf 1, and then two
/// are device 1's own, two device 2's, and one device 3's.
fn data_block(seed: u32, i: u32) -> u64
    requires { i < 8 }
{
    u64::from(seed >> (3 * i) & 7)
}

/// Whether a device uses a leaf, as all three do, or all but one.
fn is_user(seed: u32, leaf: u32, device: u32) -> bool
    requires { leaf < 2 }
{
    seed >> (24 + 2 * leaf) & 3 != device
}

/// The mappings of a pool, by devices and their virtual blocks.
pub(crate) fn mappings_of(alloc: Global, seed: u32) -> Result<Vec<Mapping>, AllocError> {
    let mut mappings = Vec::new(alloc);
    for device in 1..4 {
        add_shared(&mut mappings, seed, device)?;
        add_own(&mut mappings, seed, device)?;
    }
    Ok(mappings)
}

/// Adds the mappings of a device in the leaves that it uses.
fn add_shared(mappings: &mut Vec<Mapping>, seed: u32, device: u32) -> Result<(), AllocError> {
    if is_user(seed, 0, device) {
        add(mappings, device, 0, data_block(seed, 0))?;
        add(mappings, device, 2, data_block(seed, 1))?;
    }
    if is_user(seed, 1, device) {
        add(mappings, device, 10, data_block(seed, 2))?;
    }
    Ok(())
}

/// The first virtual block of a device's own mappings.
const OWN: u64 = 20;

/// Adds the mappings of a device in a leaf of its own.
fn add_own(mappings: &mut Vec<Mapping>, seed: u32, device: u32) -> Result<(), AllocError>
    requires first { 1 ≤ device }
    requires last { device ≤ 3 }
{
    add(mappings, device, OWN, data_block(seed, 1 + 2 * device))?;
    if device < 3 {
        add(mappings, device, OWN + 2, data_block(seed, 2 + 2 * device))?;
    }
    Ok(())
}

/// Adds a mapping.
fn add(
    mappings: &mut Vec<Mapping>,
    device: u32,
    virtual_block: u64,
    data_block: u64,
) -> Result<(), AllocError> {
    let mapping = Mapping {
        device,
        virtual_block,
        data_block,
    };
    Ok(mappings.push(mapping)?)
}

/// How many mappings a device has.
pub(crate) fn mapped(mappings: &[Mapping], device: u32) -> usize {
    mappings.iter().filter(|m| m.device == device).count()
}

/// How many mappings have this data block.
pub(crate) fn uses(mappings: &[Mapping], data_block: u64) -> usize {
    mappings
        .iter()
        .filter(|m| m.data_block == data_block)
        .count()
}

/// The image of a pool with these mappings.
pub(crate) fn image_of(alloc: Global, seed: u32, mappings: &[Mapping]) -> Result<Vec<Block>, Fail> {
    let (a, b, c) = (
        data_block(seed, 0),
        data_block(seed, 1),
        data_block(seed, 2),
    );
    let mut text = format!(in alloc;
        "thin 2\npool 00000000-0000-0000-0000-000000000000 0 0 128 8\nleaf 0 2\nmap 0 {a} 1 0\nmap 2 {b} 1 0\nleaf 1 1\nmap 10 {c} 1 0\n"
    )?;
    for device in 1..4 {
        write_device(&mut text, seed, mappings, device)?;
    }
    writeln!(text, "end")?;
    Ok(restored(alloc, text.as_str(), 24)?)
}

/// Writes the lines of a device.
fn write_device(
    text: &mut String,
    seed: u32,
    mappings: &[Mapping],
    device: u32,
) -> Result<(), Fail> {
    writeln!(text, "device {device} {} 0 0 0", mapped(mappings, device))?;
    if is_user(seed, 0, device) {
        writeln!(text, "use 0")?;
    }
    if is_user(seed, 1, device) {
        writeln!(text, "use 1")?;
    }
    for m in mappings {
        if (m.device == device) & (m.virtual_block >= OWN) {
            writeln!(text, "map {} {} 1 0", m.virtual_block, m.data_block)?;
        }
    }
    Ok(())
}
