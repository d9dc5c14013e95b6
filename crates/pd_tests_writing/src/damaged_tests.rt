//! Pools whose superblock is lost and whose trees are damaged: their states, searches, and repairs from the roots of a listed one.

use crate::lost::Lost::OneMapping;
use crate::lost::{lost_pool, one_mapping, two_mappings};
use crate::named_tests::{ALL_KEPT, REPAIR, REPAIR_SHARED, expect_made, expect_told, with_numbers};
use crate::search_tests::{expect_found, expect_refused};
use pd_kinds::Block;
use pd_node::{write_inner, write_leaf};
use pd_samples::expected::{ONE_MAPPING, ONES, pool_of};
use pd_samples::pool::{damaged, device_leaf};
use pd_value::{Details, Root};
use std::process::Abort;
use std::test::Fail;

/// What is lost besides the superblock of a pool of two devices, whose mapping tree is block 11, and whose details are block 12.
#[derive(Clone, Copy)]
enum Harm {
    /// The leaf of device 2. Older trees are sound.
    Leaf,
    /// The same, where there are no older trees.
    LeafAlone,
    /// And the details.
    Details,
    /// And one of two leaves of the mapping tree, whose root is block 14.
    Inner,
}

/// The leaf of a mapping tree of two devices with these roots.
#[tactic(auto, unfolding(pd_kinds::specs::Node::is_ascending))]
fn two_roots(place: u64, first: u64, second: u64) -> Block {
    write_leaf(place, &[(1, Root(first)), (2, Root(second))])
}

/// The leaf of their details. Device 2 was made last.
#[tactic(auto, unfolding(pd_kinds::specs::Node::is_ascending))]
fn two_details(place: u64) -> Block {
    let first = Details {
        mapped: 2,
        transaction: 0,
        created: 0,
        snapped: 0,
    };
    let second = Details {
        mapped: 1,
        transaction: 5,
        created: 2,
        snapped: 0,
    };
    write_leaf(place, &[(1, first), (2, second)])
}

/// An inner node above the leaf of the two devices, and above a block that is lost.
#[tactic(auto, unfolding(pd_kinds::specs::Node::is_ascending))]
fn inner_top() -> Block {
    write_inner(14, &[(0, 11), (5, 15)])
}

/// The sixteen blocks of the pool.
fn harmed(harm: Harm) -> [Block; 16] {
    let mut image = lost_pool(OneMapping);
    image[10] = two_mappings(10, 0);
    image[11] = two_roots(11, 10, 13);
    image[12] = two_details(12);
    image[13] = damaged(one_mapping(13, 2), 100);
    match harm {
        Harm::Leaf => return image,
        Harm::LeafAlone => {}
        Harm::Details => image[12] = Block::zeros(),
        Harm::Inner => image[14] = inner_top(),
    }
    image[2] = Block::zeros();
    image[3] = Block::zeros();
    image
}

/// What is lost of a pool, the states that are listed, the roots of the damaged one, what a dry run from these tells, and how the
/// dump ends of what a repair from them makes.
type Row = (
    Harm,
    &'static str,
    (&'static str, &'static str),
    &'static str,
    &'static str,
);

const KEPT: &str = "device 1 kept 2 of 2\ndevice 2 kept 0 of 1\nkeeps 2 2 need 11 shared 11\n";

const DETAILS_LOST: &str =
    "device 1 kept 2 of ?\ndevice 2 kept 0 of ?\nkeeps 2 2 need 11 shared 11\n";

const DUMPED: &str =
    " 2 7 128 2\ndevice 1 2 0 0 0\nmap 0 0 1 0\nmap 1 1 1 1\ndevice 2 0 5 2 0\nend\n";

const DUMPED_LOST: &str =
    " 2 7 128 2\ndevice 1 2 7 2 2\nmap 0 0 1 0\nmap 1 1 1 1\ndevice 2 0 7 2 2\nend\n";

const ROWS: &[Row] = &[
    (
        Harm::Leaf,
        "roots 2 3 devices 1 mappings 1 transaction 0 time 0\ndamaged 11 12 devices 2 mappings 2 transaction 5 time 2\n",
        ("11", "12"),
        KEPT,
        DUMPED,
    ),
    (
        Harm::LeafAlone,
        "damaged 11 12 devices 2 mappings 2 transaction 5 time 2\n",
        ("11", "12"),
        KEPT,
        DUMPED,
    ),
    (
        Harm::Details,
        "damaged 11 0 devices 2 mappings 2 transaction 0 time 1\n",
        ("11", "0"),
        DETAILS_LOST,
        DUMPED_LOST,
    ),
    (
        Harm::Inner,
        "damaged 14 12 devices 2 mappings 2 transaction 5 time 2\n",
        ("14", "12"),
        KEPT,
        DUMPED,
    ),
];

const ONLY_DAMAGED: &str = "pdata_tools: no roots, but damaged ones\n";

#[test]
fn damaged_states_are_listed_after_the_sound_ones(rt: HostRuntime) -> Result<(), Fail> {
    let alloc = rt.alloc();
    for (harm, listed, _, kept, _) in ROWS {
        let of_the_best = match *harm {
            Harm::Leaf => ALL_KEPT,
            _ => *kept,
        };
        let told = format!(in alloc; "{listed}{of_the_best}")?;
        expect_told(alloc, &harmed(*harm), "2", None, 0, told.as_str(), "")?;
    }
    Ok(())
}

#[test]
fn a_search_takes_no_damaged_state(rt: HostRuntime) -> Result<(), Fail> {
    for (harm, _, _, _, _) in ROWS {
        let image = harmed(*harm);
        match *harm {
            Harm::Leaf => {
                let text = " 0 7 128 2\ndevice 1 1 0 0 0\nmap 0 0 1 0\nend\n";
                expect_found(&rt, rt.alloc(), &image, "2", "2 3 mappings 1 time 0", text)?;
            }
            _ => expect_refused(rt.alloc(), &image, "2", &[ONES; 16], 1, ONLY_DAMAGED)?,
        }
    }
    Ok(())
}

#[test]
fn named_roots_of_a_damaged_state_keep_what_was_listed(rt: HostRuntime) -> Result<(), Fail> {
    for (harm, _, roots, kept, text) in ROWS {
        let image = harmed(*harm);
        expect_told(rt.alloc(), &image, "2", Some(*roots), 0, kept, "")?;
        for words in [REPAIR, REPAIR_SHARED] {
            let words = with_numbers(rt.alloc(), words, "2", Some(*roots))?;
            expect_made(&rt, rt.alloc(), words.as_slice(), &image, 11, text)?;
        }
    }
    Ok(())
}

#[test]
fn the_first_64_blocks_may_be_lost(rt: HostRuntime) -> Result<(), Fail> {
    // The leaf of device 2 was among them.
    let alloc = rt.alloc();
    let mut image = vec![in alloc; Block::zeros(); 128]?;
    image[70] = two_mappings(70, 0);
    image[71] = two_roots(71, 70, 5);
    image[72] = two_details(72);
    let listed = "damaged 71 72 devices 2 mappings 2 transaction 5 time 2\n";
    let told = format!(in alloc; "{listed}{KEPT}")?;
    expect_told(alloc, image.as_slice(), "2", None, 0, told.as_str(), "")?;
    let base = [ONES; 16];
    expect_refused(alloc, image.as_slice(), "2", &base, 1, ONLY_DAMAGED)
}

#[test]
fn both_lists_tell_how_many_are_left_out(rt: HostRuntime) -> Result<(), Fail> {
    // Blocks 20 to 127 are mapping trees of the one device, as block 2 is. Blocks 128 to 235 name one more, of which nothing is left.
    let mut image = pool_of(rt.alloc(), ONE_MAPPING, 256)?;
    image[0] = Block::zeros();
    let mut told = String::new(rt.alloc());
    for b in 20..128 {
        image[b] = device_leaf(b as u64, 1);
        image[b + 108] = two_roots(b as u64 + 108, 1, 19);
    }
    for back in 0u64..100 {
        let top = 127 - back;
        writeln!(
            told,
            "roots {top} 3 devices 1 mappings 1 transaction 0 time 0"
        )?;
    }
    write!(told, "more 9\n")?;
    for back in 0u64..100 {
        let top = 235 - back;
        writeln!(
            told,
            "damaged {top} 3 devices 2 mappings 1 transaction 0 time 0"
        )?;
    }
    write!(told, "more 8\n{ALL_KEPT}")?;
    expect_told(
        rt.alloc(),
        image.as_slice(),
        "1",
        None,
        0,
        told.as_str(),
        "",
    )
}
