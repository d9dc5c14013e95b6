//! Images of pools whose superblock is lost, with other trees beside the pool's.

use pd_kinds::Block;
use pd_node::write_leaf;
use pd_samples::pool::{
    damaged, device_leaf, empty_leaf, inner, pool_of_one_mapping, pool_with_held_copy,
};
use pd_value::{BlockTime, Details, Root};

/// What stands on sixteen blocks, of which block 0 is zeros but where it says otherwise.
#[derive(Clone, Copy, Debug, PartialEq, Eq)]
pub enum Lost {
    /// Zeros.
    Zeros,
    /// The pool of one mapping.
    OneMapping,
    /// An empty pool with a held copy, which names the same trees.
    HeldCopy,
    /// The pool of one mapping, and newer trees with two.
    MoreMappings,
    /// The pool of one mapping, and newer trees in which it has a later time.
    LaterTime,
    /// The pool of one mapping, and a newer mapping tree in which it has a later time.
    LaterTop,
    /// The pool of one mapping at a later time, and another mapping tree in which it has an earlier one.
    EarlierTop,
    /// The pool of one mapping, and newer trees in which its device was made later.
    LaterDetails,
    /// A pool of two mappings, and other trees with one, at a later time.
    FewerAndLater,
    /// The pool of one mapping at a later time, and other trees with two.
    EarlierMappings,
    /// The pool of one mapping in a later transaction, and other trees.
    LaterInTransaction,
    /// The same, where the device of the other details was made later, and the mapping of the other mapping tree later still.
    LaterThanDetails,
    /// A pool of two mappings at a later time, and another mapping tree in which only one of them has it.
    LaterSum,
    /// The pool of one mapping, and newer trees without any.
    FewerMappings,
    /// The pool of one mapping, twice.
    Copies,
    /// The pool of one mapping, and nothing below its mapping tree.
    DamagedMappings,
    /// The same with the details of another device.
    OtherDevice,
    /// The same with details that count two mappings.
    OtherNumber,
    /// The same with its mapping tree in block 0.
    TopInBlockZero,
    /// The same with a mapping tree that is its own child.
    OwnChild,
    /// A mapping tree in every block.
    SameNodes,
    /// Trees of two lists of devices that have one number of mappings and one fingerprint.
    OneFingerprint,
}

/// The details of a device with so many mappings, which was made at this time.
fn details(mapped: u64, created: u32) -> Details {
    Details {
        mapped,
        transaction: 0,
        created,
        snapped: 0,
    }
}

/// A details tree of one device.
#[tactic(auto, unfolding(pd_kinds::specs::Node::is_ascending))]
fn details_leaf(place: u64, id: u64, details: Details) -> Block {
    write_leaf(place, &[(id, details)])
}

/// A mapping tree of one device, whose mappings begin at this block.
#[tactic(auto, unfolding(pd_kinds::specs::Node::is_ascending))]
fn top_leaf(place: u64, id: u64, root: u64) -> Block {
    write_leaf(place, &[(id, Root(root))])
}

/// The mapping of virtual block 0 to data block 0, at this time.
#[tactic(auto, unfolding(pd_kinds::specs::Node::is_ascending))]
pub(crate) fn one_mapping(place: u64, time: u16) -> Block {
    let mapping = BlockTime {
        block: 0,
        time: u32::from(time),
    };
    write_leaf(place, &[(0, mapping)])
}

/// The mappings of virtual blocks 0 and 1 to data blocks 0 and 1, the first at this time and the second at time 1.
#[tactic(auto, unfolding(pd_kinds::specs::Node::is_ascending))]
pub(crate) fn two_mappings(place: u64, time: u16) -> Block {
    let first = BlockTime {
        block: 0,
        time: u32::from(time),
    };
    let second = BlockTime { block: 1, time: 1 };
    write_leaf(place, &[(0, first), (1, second)])
}

/// Puts other trees of device 1 behind the pool's: these mappings in block 10, and these details.
fn put_others(image: &mut [Block; 16], mappings: Block, of_device: Details) {
    image[10] = mappings;
    image[11] = device_leaf(11, 10);
    image[12] = details_leaf(12, 1, of_device);
}

/// Puts another mapping tree of device 1 behind the pool's: these mappings in block 10.
fn put_other_top(image: &mut [Block; 16], mappings: Block) {
    image[10] = mappings;
    image[11] = device_leaf(11, 10);
}

/// The details of a device with one mapping, which was made in transaction 9.
fn in_transaction_nine(place: u64) -> Block {
    let details = Details {
        mapped: 1,
        transaction: 9,
        created: 0,
        snapped: 0,
    };
    details_leaf(place, 1, details)
}

/// Makes the pool's trees those of two mappings, the first at this time.
fn map_two(image: &mut [Block; 16], time: u16) {
    image[1] = two_mappings(1, time);
    image[3] = details_leaf(3, 1, details(2, 0));
}

/// Two devices of which the multiples of 2^22 have one fingerprint, each in a mapping tree and in a details tree.
fn put_one_fingerprint(image: &mut [Block; 16]) {
    image[1] = empty_leaf::<BlockTime>(1);
    image[2] = top_leaf(2, 1 << 22, 1);
    image[3] = details_leaf(3, 1 << 23, details(0, 0));
    image[11] = top_leaf(11, 1 << 23, 1);
    image[12] = details_leaf(12, 1 << 22, details(0, 0));
}

/// The pool of one mapping without its superblock.
fn one_mapping_pool() -> [Block; 16] {
    let mut image = pool_of_one_mapping();
    image[0] = Block::zeros();
    image
}

/// An empty pool with a held copy, without its superblock.
fn held_copy_pool() -> [Block; 16] {
    let mut image = pool_with_held_copy();
    image[0] = Block::zeros();
    image
}

/// Changes the pool of one mapping.
fn change(image: &mut [Block; 16], lost: Lost) {
    match lost {
        Lost::MoreMappings => put_others(image, two_mappings(10, 0), details(2, 0)),
        Lost::LaterTime => put_others(image, one_mapping(10, 3), details(1, 0)),
        Lost::LaterTop => put_other_top(image, one_mapping(10, 3)),
        Lost::EarlierTop => {
            image[1] = one_mapping(1, 3);
            put_other_top(image, one_mapping(10, 0));
        }
        Lost::FewerAndLater => {
            map_two(image, 0);
            put_others(image, one_mapping(10, 3), details(1, 0));
        }
        Lost::EarlierMappings => {
            image[1] = one_mapping(1, 3);
            put_others(image, two_mappings(10, 0), details(2, 0));
        }
        Lost::LaterInTransaction => {
            image[3] = in_transaction_nine(3);
            put_others(image, one_mapping(10, 0), details(1, 0));
        }
        Lost::LaterThanDetails => {
            image[3] = in_transaction_nine(3);
            put_others(image, one_mapping(10, 5), details(1, 4));
        }
        Lost::LaterSum => {
            map_two(image, 1);
            put_other_top(image, two_mappings(10, 0));
        }
        Lost::LaterDetails => put_others(image, one_mapping(10, 0), details(1, 4)),
        Lost::FewerMappings => put_others(image, empty_leaf::<BlockTime>(10), details(0, 0)),
        Lost::Copies => put_others(image, one_mapping(10, 0), details(1, 0)),
        Lost::DamagedMappings => image[1] = damaged(image[1], 100),
        Lost::OtherDevice => image[3] = details_leaf(3, 2, details(1, 0)),
        Lost::OtherNumber => image[3] = details_leaf(3, 1, details(2, 0)),
        Lost::TopInBlockZero => {
            image[0] = device_leaf(0, 1);
            image[2] = Block::zeros();
        }
        Lost::OwnChild => image[2] = inner(2, 2),
        Lost::OneFingerprint => put_one_fingerprint(image),
        Lost::OneMapping | Lost::Zeros | Lost::HeldCopy | Lost::SameNodes => {}
    }
}

/// The sixteen blocks.
pub fn lost_pool(lost: Lost) -> [Block; 16] {
    match lost {
        Lost::Zeros => [Block::zeros(); 16],
        Lost::HeldCopy => held_copy_pool(),
        Lost::SameNodes => [device_leaf(2, 1); 16],
        other => {
            let mut image = one_mapping_pool();
            change(&mut image, other);
            image
        }
    }
}
