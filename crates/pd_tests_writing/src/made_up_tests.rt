//! Repairs of metadata that was made up: few blocks, over which many paths lead.

ghost use Rattle.std.specs.Prelude.{◌<◌};

use crate::shared_repair_tests::{PLAIN, SHARED, details, expect_shape, repair};
use pd_crc::seal;
use pd_kinds::{Block, put_u32, put_u64};
use pd_node::write_leaf;
use pd_samples::expected::{ONES, Trouble, expect_said};
use pd_samples::pool::{NODE_SALT, empty_super, inner, map_root};
use pd_samples::runs::blocks_of;
use pd_supers::write_thin_super;
use pd_value::{BlockTime, Root};
use std::alloc::Global;
use std::test::Fail;

/// How many children the root has, and how many each of these has.
const CHILDREN: usize = 40;

/// An inner node of forty children. Their keys are so far apart, and so are their blocks.
fn forty_children(place: u64, key: u64, keys_apart: u64, child: u64, blocks_apart: u64) -> Block
    requires key { key < 100000 }
    requires keys_apart { keys_apart < 100000 }
    requires child { child < 100 }
    requires blocks_apart { blocks_apart < 2 }
{
    let mut block = Block::zeros();
    put_u32(&mut block.0, 4, 1);
    put_u64(&mut block.0, 8, place);
    put_u32(&mut block.0, 16, 40);
    put_u32(&mut block.0, 20, 252);
    put_u32(&mut block.0, 24, 8);
    for i in 0..CHILDREN {
        put_u64(&mut block.0, 32 + 8 * i, key + keys_apart * i as u64);
        put_u64(&mut block.0, 2048 + 8 * i, child + blocks_apart * i as u64);
    }
    seal(&mut block, NODE_SALT);
    block
}

/// The superblock of a pool of a hundred data blocks on 80 blocks, whose mapping tree is block 2 and whose details are block 1.
fn super_of() -> Block {
    let mut fields = empty_super();
    fields.data_map = map_root(100, 0, 75, 76);
    fields.meta_map = map_root(80, 80, 77, 79);
    fields.mapping_root = 2;
    fields.details_root = 1;
    fields.meta_blocks = 80;
    write_thin_super(&fields)
}

/// Three devices on the root 3, below which 1600 paths lead over the nodes 4 to 43 to the first of thirty nodes of one child
/// each, from 44 on, and then to the leaf 74. A path has 40 keys, and three of the paths have one of the leaf's mappings.
#[tactic(auto, unfolding(pd_kinds::specs::Node::is_ascending))]
fn many_paths() -> [Block; 80] {
    let mut image = [Block::zeros(); 80];
    image[0] = super_of();
    image[1] = write_leaf(1, &[(1, details(3)), (2, details(3)), (3, details(3))]);
    image[2] = write_leaf(2, &[(1, Root(3)), (2, Root(3)), (3, Root(3))]);
    image[3] = forty_children(3, 0, 1600, 4, 1);
    for i in 0..CHILDREN {
        image[4 + i] = forty_children(4 + i as u64, 1600 * i as u64, 40, 44, 0);
    }
    for i in 44..74 {
        image[i] = inner(i as u64, i as u64 + 1);
    }
    image[74] = write_leaf(
        74,
        &[
            (5, BlockTime { block: 7, time: 0 }),
            (1605, BlockTime { block: 8, time: 0 }),
            (63999, BlockTime { block: 99, time: 0 }),
        ],
    );
    image
}

/// What is saved of them.
const SAVED: &str =
    "thin 2\npool 00000000-0000-0000-0000-000000000000 0 0 128 100\ndevice 1 3 0 0 0\nmap 5 7 1 0\nmap 1605 8 1 0\n\
     map 63999 99 1 0\ndevice 2 3 0 0 0\nmap 5 7 1 0\nmap 1605 8 1 0\nmap 63999 99 1 0\ndevice 3 3 0 0 0\nmap 5 7 1 0\n\
     map 1605 8 1 0\nmap 63999 99 1 0\nend\n";

/// A repair with these words makes that pool in fewer than so many calls of the input.
fn expect_saved(alloc: Global, words: &[&str], calls: u64) -> Result<(), Fail> {
    let ran = repair(
        alloc,
        words,
        &many_paths(),
        &[ONES; 32],
        Trouble::Input.at(calls),
    )?;
    expect_said(&ran, 0, "", "")?;
    let made = blocks_of(alloc, &ran.output)?;
    expect_shape(alloc, made.as_slice(), SAVED)
}

// Read anew on each path, the nodes of one device alone would take 50000 calls. They are read once for each of the forty nodes
// above the first of the thirty, and for one device of the three. Where leaves are shared, the leaf is read on each path besides.
#[test]
fn many_paths_over_few_blocks_take_few_reads(rt: HostRuntime) -> Result<(), Fail> {
    expect_saved(rt.alloc(), PLAIN, 1500)?;
    expect_saved(rt.alloc(), SHARED, 3500)?;
    Ok(())
}
