//! Dumps of pools in which each leaf that devices share stands once.

use crate::asked::expect_told;
use crate::whole_tests::{details, superblock};
use pd_kinds::Block;
use pd_node::{write_inner, write_leaf};
use pd_samples::pool::{empty_leaf, held_copy, inner, pool_of_one_mapping};
use pd_supers::write_thin_super;
use pd_value::{BlockTime, Root};
use std::alloc::{AllocError, Global};
use std::process::Abort;
use std::test::Fail;

/// The words of such a dump to standard output.
pub(crate) const SHARED_DUMP: &[&str] = &["thin_dump", "--shared", "thin.img"];

/// The root of a device, and how many mappings are below it.
#[derive(Clone, Copy)]
pub(crate) struct Top {
    root: u64,
    mapped: u64,
}

impl Top {
    /// How many mappings are below it.
    pub(crate) fn mapped(self) -> u64 {
        self.mapped
    }
}

/// The leaf in block 1: virtual block 0 in data block 0.
pub(crate) const FIRST: Top = Top { root: 1, mapped: 1 };

/// The leaf in block 10: virtual block 1 in data block 1.
pub(crate) const SECOND: Top = Top {
    root: 10,
    mapped: 1,
};

/// The leaf in block 11, without entries.
pub(crate) const EMPTY: Top = Top {
    root: 11,
    mapped: 0,
};

/// The inner node in block 12, over the leaves in 1 and 10.
pub(crate) const BOTH: Top = Top {
    root: 12,
    mapped: 2,
};

/// The inner nodes in the blocks 14 and 15, over that in block 13, which is over the leaf in block 1.
pub(crate) const ABOVE: Top = Top {
    root: 14,
    mapped: 1,
};

pub(crate) const BESIDE: Top = Top {
    root: 15,
    mapped: 1,
};

/// A pool of two data blocks with all these nodes, in which device 1 has its only mapping in the leaf in block 1.
#[tactic(auto, unfolding(pd_kinds::specs::Node::is_ascending))]
fn nodes() -> [Block; 16] {
    let mut image = pool_of_one_mapping();
    image[0] = write_thin_super(&superblock(2, 0));
    image[10] = write_leaf(10, &[(1, BlockTime { block: 1, time: 0 })]);
    image[11] = empty_leaf::<BlockTime>(11);
    image[12] = write_inner(12, &[(0, 1), (1, 10)]);
    image[13] = inner(13, 1);
    image[14] = inner(14, 13);
    image[15] = inner(15, 13);
    image
}

/// The same with the devices 1 and 2.
#[tactic(auto, unfolding(pd_kinds::specs::Node::is_ascending))]
pub(crate) fn of_two(first: Top, second: Top) -> [Block; 16] {
    let mut image = nodes();
    image[2] = write_leaf(2, &[(1, Root(first.root)), (2, Root(second.root))]);
    image[3] = write_leaf(
        3,
        &[(1, details(first.mapped)), (2, details(second.mapped))],
    );
    image
}

/// The same with the devices 1, 2 and 3.
#[tactic(auto, unfolding(pd_kinds::specs::Node::is_ascending))]
pub(crate) fn of_three(first: Top, second: Top, third: Top) -> [Block; 16] {
    let mut image = nodes();
    image[2] = write_leaf(
        2,
        &[
            (1, Root(first.root)),
            (2, Root(second.root)),
            (3, Root(third.root)),
        ],
    );
    image[3] = write_leaf(
        3,
        &[
            (1, details(first.mapped)),
            (2, details(second.mapped)),
            (3, details(third.mapped)),
        ],
    );
    image
}

/// Devices 1 and 2 with a leaf each, and a held copy in block 11 with trees of its own. Its device 1 has the second leaf, and
/// its device 9 the data block of the first one.
#[tactic(auto, unfolding(pd_kinds::specs::Node::is_ascending))]
pub(crate) fn with_held_trees() -> [Block; 16] {
    let mut image = of_two(FIRST, SECOND);
    image[0] = write_thin_super(&superblock(2, 11));
    let mut copy = superblock(2, 0);
    copy.mapping_root = 12;
    copy.details_root = 14;
    image[11] = held_copy(11, &copy);
    image[12] = write_leaf(12, &[(1, Root(10)), (9, Root(13))]);
    image[13] = write_leaf(13, &[(5, BlockTime { block: 0, time: 0 })]);
    image[14] = write_leaf(14, &[(1, details(1)), (9, details(1))]);
    image
}

/// Dumps an image, of which this must be the text behind its first two lines.
fn expect_shared(
    rt: &impl Abort,
    alloc: Global,
    image: &[Block],
    data_blocks: &str,
    lines: &str,
) -> Result<(), AllocError> {
    let text = format!(in alloc;
        "thin 2\npool 00000000-0000-0000-0000-000000000000 0 0 128 {data_blocks}\n{lines}end\n"
    )?;
    expect_told(rt, alloc, SHARED_DUMP, lines, image, 0, text.as_str())
}

/// The lines of two devices that have one mapping, in one leaf.
const ONE_LEAF: &str = "leaf 0 1\nmap 0 0 1 0\ndevice 1 1 0 0 0\nuse 0\ndevice 2 1 0 0 0\nuse 0\n";

#[test]
fn a_leaf_of_two_devices_stands_once(rt: HostRuntime) -> Result<(), Fail> {
    let alloc = rt.alloc();
    // The leaf is the root of both devices, below the root of one, below a root of both, and below a node that stands
    // below two roots.
    expect_shared(&rt, alloc, &of_two(FIRST, FIRST), "2", ONE_LEAF)?;
    expect_shared(&rt, alloc, &of_two(FIRST, ABOVE), "2", ONE_LEAF)?;
    expect_shared(&rt, alloc, &of_two(ABOVE, ABOVE), "2", ONE_LEAF)?;
    expect_shared(&rt, alloc, &of_two(ABOVE, BESIDE), "2", ONE_LEAF)?;
    Ok(())
}

/// What a device has beside a leaf that it shares isn't joined to that, before it and behind it.
const BEHIND: &str =
    "leaf 0 1\nmap 0 0 1 0\ndevice 1 2 0 0 0\nuse 0\nmap 1 1 1 0\ndevice 2 1 0 0 0\nuse 0\n";

const BEFORE: &str =
    "leaf 0 1\nmap 1 1 1 0\ndevice 1 1 0 0 0\nuse 0\ndevice 2 2 0 0 0\nmap 0 0 1 0\nuse 0\n";

/// Two leaves that two devices have below one root.
const TWO_LEAVES: &str =
    "leaf 0 1\nmap 0 0 1 0\nleaf 1 1\nmap 1 1 1 0\ndevice 1 2 0 0 0\nuse 0\nuse 1\ndevice 2 2 0 0 0\nuse 0\nuse 1\n";

#[test]
fn own_mappings_stand_beside_shared_leaves(rt: HostRuntime) -> Result<(), Fail> {
    let alloc = rt.alloc();
    expect_shared(&rt, alloc, &of_two(BOTH, FIRST), "2", BEHIND)?;
    expect_shared(&rt, alloc, &of_two(SECOND, BOTH), "2", BEFORE)?;
    expect_shared(&rt, alloc, &of_two(BOTH, BOTH), "2", TWO_LEAVES)?;
    Ok(())
}

/// Leaves are numbered by their blocks: the first device uses the second leaf.
const BY_BLOCK: &str =
    "leaf 0 1\nmap 0 0 1 0\nleaf 1 1\nmap 1 1 1 0\ndevice 1 1 0 0 0\nuse 1\ndevice 2 2 0 0 0\nuse 0\nuse 1\ndevice 3 1 0 0 0\nuse 0\n";

const THREE_USERS: &str =
    "leaf 0 1\nmap 0 0 1 0\ndevice 1 1 0 0 0\nuse 0\ndevice 2 1 0 0 0\nuse 0\ndevice 3 1 0 0 0\nuse 0\n";

/// A leaf without mappings isn't told, also where two devices share it.
const WITHOUT_MAPPINGS: &str =
    "device 1 1 0 0 0\nmap 0 0 1 0\ndevice 2 0 0 0 0\ndevice 3 0 0 0 0\n";

#[test]
fn three_devices_share_leaves(rt: HostRuntime) -> Result<(), Fail> {
    let alloc = rt.alloc();
    expect_shared(&rt, alloc, &of_three(SECOND, BOTH, FIRST), "2", BY_BLOCK)?;
    expect_shared(
        &rt,
        alloc,
        &of_three(FIRST, ABOVE, BESIDE),
        "2",
        THREE_USERS,
    )?;
    expect_shared(
        &rt,
        alloc,
        &of_three(FIRST, EMPTY, EMPTY),
        "2",
        WITHOUT_MAPPINGS,
    )?;
    Ok(())
}

/// The devices of a pool whose two devices share no leaf, where runs of each are as long as can be.
const UNSHARED: &str = "device 1 1 0 0 0\nmap 0 0 1 0\ndevice 2 1 0 0 0\nmap 1 1 1 0\n";

const JOINED: &str = "device 1 2 0 0 0\nmap 0 0 2 0\ndevice 2 0 0 0 0\n";

#[test]
fn a_pool_without_shared_leaves_is_told_as_ever(rt: HostRuntime) -> Result<(), Fail> {
    let alloc = rt.alloc();
    let one = "device 1 1 0 0 0\nmap 0 0 1 0\n";
    expect_shared(&rt, alloc, &pool_of_one_mapping(), "1", one)?;
    expect_shared(&rt, alloc, &of_two(FIRST, SECOND), "2", UNSHARED)?;
    expect_shared(&rt, alloc, &of_two(BOTH, EMPTY), "2", JOINED)?;
    Ok(())
}
