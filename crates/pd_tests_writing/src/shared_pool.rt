//! A pool of a shared leaf, of a piece that takes two leaves, and of a device without mappings: its text, and its blocks. And
//! the text of a pool of many shared leaves.

ghost use Rattle.std.specs.Prelude.{◌≤◌};

use pd_bitmap::{seal_bitmap, set_two_bits};
use pd_crc::seal;
use pd_kinds::{Block, put_u32, put_u64};
use pd_node::{write_inner, write_leaf};
use pd_samples::pool::{
    NODE_SALT, bitmap, empty_leaf, empty_super, index, index_entry, index_leaf, map_root,
};
use pd_supers::{ThinSuper, write_thin_super};
use pd_value::{BlockTime, Count, Details, Root};
use std::alloc::Global;
use std::test::Fail;

/// Its text: device 1 has 300 runs of one block and then the leaf, device 2 just the leaf, device 3 nothing.
pub(crate) fn text_of_many(alloc: Global) -> Result<String, Fail> {
    let mut text = String::from_str(
        alloc,
        "thin 2\npool 00000000-0000-0000-0000-000000000000 0 0 128 301\nleaf 0 1\nmap 1000 300 1 0\ndevice 1 301 0 0 0\n",
    )?;
    for i in 0u64..300 {
        writeln!(text, "map {} {i} 1 0", 2 * i)?;
    }
    write!(
        text,
        "use 0\ndevice 2 1 0 0 0\nuse 0\ndevice 3 0 0 0 0\nend\n"
    )?;
    Ok(text)
}

/// Its sixteen blocks, of which fourteen are used. Those before the mapping tree, which is in block 6, are the leaf, the two
/// leaves of the first device, the node above all three, and the leaf of the last device.
#[tactic(auto, unfolding(pd_kinds::specs::Node::is_ascending))]
pub(crate) fn image_of_many() -> [Block; 16] {
    let mut image = [Block([1; 4096]); 16];
    image[0] = write_thin_super(&super_of_many());
    image[1] = write_leaf(
        1,
        &[(
            1000,
            BlockTime {
                block: 300,
                time: 0,
            },
        )],
    );
    image[2] = half_of_many(2, 0);
    image[3] = half_of_many(3, 150);
    image[4] = write_inner(4, &[(0, 2), (300, 3), (1000, 1)]);
    image[5] = empty_leaf::<BlockTime>(5);
    image[6] = write_leaf(6, &[(1, Root(4)), (2, Root(1)), (3, Root(5))]);
    image[7] = write_leaf(7, &[(1, details(301)), (2, details(1)), (3, details(0))]);
    image[8] = bitmap(8, 301);
    image[9] = index_leaf(9, 8);
    image[10] = empty_leaf::<Count>(10);
    image[11] = index(11, &[index_entry(12, 2)]);
    image[12] = counts_of_many();
    image[13] = empty_leaf::<Count>(13);
    image
}

/// Its superblock.
fn super_of_many() -> ThinSuper {
    let mut fields = empty_super();
    fields.data_map = map_root(301, 301, 9, 10);
    fields.meta_map = map_root(16, 14, 11, 13);
    fields.mapping_root = 6;
    fields.details_root = 7;
    fields.meta_blocks = 16;
    fields
}

/// The details of a device with so many mappings.
fn details(mapped: u64) -> Details {
    Details {
        mapped,
        transaction: 0,
        created: 0,
        snapped: 0,
    }
}

/// The bitmap of its metadata blocks: each of the first fourteen has a reference, and the leaf that two devices use two.
fn counts_of_many() -> Block {
    let mut block = bitmap(12, 14);
    set_two_bits(&mut block, 1, 2);
    seal_bitmap(&mut block, 12);
    block
}

/// A leaf of 150 of the mappings from this one on: each second virtual block, with the data blocks in a row.
fn half_of_many(place: u64, first: u64) -> Block
    requires { first ≤ 150 }
{
    let mut block = Block::zeros();
    put_u32(&mut block.0, 4, 2);
    put_u64(&mut block.0, 8, place);
    put_u32(&mut block.0, 16, 150);
    put_u32(&mut block.0, 20, 252);
    put_u32(&mut block.0, 24, 8);
    for i in 0..150usize {
        let mapping = first + i as u64;
        put_u64(&mut block.0, 32 + 8 * i, 2 * mapping);
        put_u64(&mut block.0, 2048 + 8 * i, mapping * 16777216);
    }
    seal(&mut block, NODE_SALT);
    block
}

/// The text of a pool of so many leaves of one mapping, all of which three devices use.
pub(crate) fn text_of_leaves(alloc: Global, leaves: u64) -> Result<String, Fail> {
    let mut text = String::new(alloc);
    writeln!(
        text,
        "thin 2\npool 00000000-0000-0000-0000-000000000000 0 0 128 {leaves}"
    )?;
    for n in 0..leaves {
        writeln!(text, "leaf {n} 1\nmap {n} {n} 1 0")?;
    }
    for id in 0u64..3 {
        add_user(&mut text, id, leaves)?;
    }
    writeln!(text, "end")?;
    Ok(text)
}

/// A device that uses as many leaves of one mapping, from the first one on.
fn add_user(text: &mut String, id: u64, leaves: u64) -> Result<(), Fail> {
    writeln!(text, "device {id} {leaves} 0 0 0")?;
    for n in 0..leaves {
        writeln!(text, "use {n}")?;
    }
    Ok(())
}
