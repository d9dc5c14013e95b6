ghost use Rattle.std.specs.Prelude.{◌≡◌, EachIndex, slice_index, ◌<◌, ◌≤◌, ◌+◌};

use pd_array::{Word, array_len, array_rules, array_word, write_array};
use pd_bitmap::{
    bitmap_rules, index_entry, index_rules, new_bitmap, new_index, seal_bitmap, seal_index,
    set_two_bits, two_bits,
};
use pd_crc::{any_valid, crc32c_raw, is_sealed, salted, seal};
use pd_graph::{Audit, Note};
use pd_kinds::{Block, Kind, Rule, Rules, put_u64, u32_at};
use pd_node::{
    child, entries, is_inner, key, keys_ascend, max_entries_of, node_rules, value, write_inner,
    write_leaf,
};
use pd_supers::{
    SmRoot, ThinSuper, missing_super, read_thin_super, thin_held_rules, thin_super_rules,
    write_thin_super,
};
use pd_value::{
    BlockTime, Count, Details, IndexEntry, Root, Value, Writeset, reads_back, writes_back,
};
use std::process::Abort;
use std::test::Fail;

/// The published check value of CRC-32C is 0xE3069283, after an inversion at the end.
#[test]
fn agrees_with_published_values(rt: HostRuntime) {
    assert!(rt; crc32c_raw(b"123456789") == 0x1CF96D7C);
    assert!(rt; crc32c_raw(b"123456789") ^ u32::MAX == 0xE3069283);
    assert!(rt; crc32c_raw(b"") == 0xFFFFFFFF);
}

#[test]
fn seals_a_superblock(rt: HostRuntime) {
    let mut block = Block([0; 4096]);
    put_u64(&mut block.0, 32, Kind::Thin.magic());
    assert!(rt; !any_valid(&block));
    seal(&mut block, Kind::Thin.salt());
    assert!(rt; is_sealed(&block, Kind::Thin.salt()));
    assert!(rt; u32_at(&block.0, 0) == salted(&block, Kind::Thin.salt()));
    assert!(rt; any_valid(&block));
    block.0[4000] = 1;
    assert!(rt; !is_sealed(&block, Kind::Thin.salt()));
    assert!(rt; !any_valid(&block));
}

#[test]
fn a_mapping_has_its_time_below_its_block(rt: HostRuntime) {
    let mapping = BlockTime { block: 5, time: 3 };
    let mut bytes = [0; 8];
    mapping.write(&mut bytes);
    assert!(rt; bytes == [3, 0, 0, 5, 0, 0, 0, 0]);
    assert!(rt; BlockTime::read(&bytes) == mapping);
}

#[test]
fn details_have_their_fields_in_order(rt: HostRuntime) {
    let details = Details {
        mapped: 1,
        transaction: 2,
        created: 3,
        snapped: 4,
    };
    let mut bytes = [0; 24];
    details.write(&mut bytes);
    assert!(rt;
        bytes
            == [
                1, 0, 0, 0, 0, 0, 0, 0, 2, 0, 0, 0, 0, 0, 0, 0, 3, 0, 0, 0, 4, 0, 0, 0
            ]
    );
    assert!(rt; Details::read(&bytes) == details);
}

#[test]
fn each_type_fits_and_reads(rt: HostRuntime) {
    let bytes = [1; 16];
    assert!(rt; Root::read(&bytes[..8]).fits());
    assert!(rt; Count::read(&bytes[..4]).fits());
    assert!(rt; IndexEntry::read(&bytes).fits());
    assert!(rt; Writeset::read(&bytes[..12]).fits());
    assert!(rt;
        !BlockTime {
            block: 1 << 40,
            time: 0
        }
        .fits()
    );
    reads_back::<Root>();
    writes_back::<Writeset>(&bytes[..12]);
}

#[test]
#[tactic(auto, unfolding(pd_kinds::specs::Node::is_ascending))]
fn an_empty_leaf_breaks_only_what_its_reader_asks(rt: HostRuntime) {
    let leaf = write_leaf::<BlockTime>(7, &[]);
    assert!(rt; node_rules::<BlockTime>(&leaf, 7) == Rules::none());
    assert!(rt; node_rules::<BlockTime>(&leaf, 8) == Rules::none().with(Rule::Place));
    assert!(rt; node_rules::<Details>(&leaf, 7) == Rules::none().with(Rule::Shape));
    assert!(rt; entries::<BlockTime>(&leaf) == 0);
}

#[test]
#[tactic(auto, unfolding(pd_kinds::specs::Node::is_ascending))]
fn a_leaf_is_read_back(rt: HostRuntime) {
    let first = BlockTime { block: 5, time: 3 };
    let second = BlockTime { block: 1, time: 0 };
    let leaf = write_leaf::<BlockTime>(7, &[(2, first), (9, second)]);
    assert!(rt; node_rules::<BlockTime>(&leaf, 7) == Rules::none());
    assert!(rt; entries::<BlockTime>(&leaf) == 2);
    assert!(rt; !is_inner(&leaf));
    assert!(rt; key::<BlockTime>(&leaf, 1) == 9);
    assert!(rt; value::<BlockTime>(&leaf, 0) == first);
    assert!(rt; value::<BlockTime>(&leaf, 1) == second);
}

#[test]
#[tactic(auto, unfolding(pd_kinds::specs::Node::is_ascending))]
fn an_inner_node_is_read_back(rt: HostRuntime) {
    let node = write_inner(3, &[(0, 4), (126, 6)]);
    assert!(rt; node_rules::<Details>(&node, 3) == Rules::none());
    assert!(rt; is_inner(&node));
    assert!(rt; entries::<Details>(&node) == 2);
    assert!(rt; key::<Details>(&node, 1) == 126);
    assert!(rt; child::<Details>(&node, 0) == 4);
    assert!(rt; child::<Details>(&node, 1) == 6);
}

#[test]
fn blocks_of_one_byte_break_checksum_alone(rt: HostRuntime) {
    for byte in [0, 0xFF] {
        let block = Block([byte; 4096]);
        assert!(rt; node_rules::<BlockTime>(&block, 0) == Rules::none().with(Rule::Checksum));
    }
}

#[test]
fn room_is_a_multiple_of_three(rt: HostRuntime) {
    for (size, most) in [(8, 252), (24, 126), (4, 336), (16, 168), (12, 201)] {
        assert!(rt; max_entries_of(size) == most);
    }
    keys_ascend();
}

/// Sets each word to 0.
fn fill_with_zeros(words: &mut [u64])
    ensures { EachIndex words.new (λ i. slice_index words.new i ≡ 0) }
{
    for word in words.iter_mut() {
        *word = 0;
    }
}

#[test]
fn a_full_block_has_as_many_words_as_there_is_room_for(rt: HostRuntime) {
    let mut words = [7; 509];
    fill_with_zeros(&mut words);
    let eights = write_array(3, Word::Eight, &words);
    assert!(rt; array_len(&eights, Word::Eight) == 509);
    let mut words = [7; 1018];
    fill_with_zeros(&mut words);
    let fours = write_array(3, Word::Four, &words);
    assert!(rt; array_len(&fours, Word::Four) == 1018);
    assert!(rt; array_len(&fours, Word::Eight) == 0);
}

/// The header of a block at place 3 that has two of at most 1018 words of four bytes, behind its checksum.
const HEADER: &[u8] = &[250, 3, 0, 0, 2, 0, 0, 0, 4, 0, 0, 0, 3, 0, 0, 0, 0, 0, 0, 0];

/// The words 5 and 0x01020304.
const WORDS: &[u8] = &[5, 0, 0, 0, 4, 3, 2, 1];

#[test]
fn a_block_has_its_header_and_its_words(rt: HostRuntime) {
    let block = write_array(3, Word::Four, &[5, 0x0102_0304]);
    assert!(rt; &block.0[4..24] == HEADER);
    assert!(rt; &block.0[24..32] == WORDS);
    assert!(rt; array_word(&block, Word::Four, 1) == 0x0102_0304);
    assert!(rt; array_rules(&block, 3, Word::Four) == Rules::none());
    assert!(rt;
        array_rules(&block, 4, Word::Eight) == Rules::none().with(Rule::Place).with(Rule::Shape)
    );
}

/// The byte of the first four counts of a bitmap of zeros in which one count was set.
fn byte_after(i: usize, count: u8) -> u8
    requires entry { i < 16320 }
    requires count { count ≤ 3 }
{
    let mut block = new_bitmap();
    set_two_bits(&mut block, i, count);
    block.0[16]
}

#[test]
fn the_high_bit_of_a_count_comes_first(rt: HostRuntime) {
    assert!(rt; byte_after(0, 1) == 0x02);
    assert!(rt; byte_after(0, 2) == 0x01);
    assert!(rt; byte_after(0, 3) == 0x03);
    assert!(rt; byte_after(1, 2) == 0x04);
}

#[test]
fn setting_a_count_changes_one_byte(rt: HostRuntime) {
    let mut block = new_bitmap();
    set_two_bits(&mut block, 1, 2);
    let mut expected = new_bitmap();
    expected.0[16] = 0x04;
    assert!(rt; block == expected);
}

#[test]
fn a_sealed_bitmap_has_its_counts_and_breaks_no_rule(rt: HostRuntime) {
    let mut block = new_bitmap();
    set_two_bits(&mut block, 1, 2);
    seal_bitmap(&mut block, 9);
    assert!(rt; two_bits(&block, 0) == 0);
    assert!(rt; two_bits(&block, 1) == 2);
    assert!(rt; bitmap_rules(&block, 9) == Rules::none());
    assert!(rt; bitmap_rules(&block, 8) == Rules::none().with(Rule::Place));
    assert!(rt; index_rules(&block, 9, 1) == Rules::none().with(Rule::Checksum));
}

#[test]
fn an_index_block_has_its_entries(rt: HostRuntime) {
    let first = IndexEntry {
        block: 6,
        free: 5,
        none_before: 4,
    };
    let second = IndexEntry {
        block: 7,
        free: 16320,
        none_before: 0,
    };
    let mut block = new_index(&[first, second]);
    seal_index(&mut block, 5);
    assert!(rt; index_entry(&block, 1) == second);
    assert!(rt; index_rules(&block, 5, 16321) == Rules::none());
    assert!(rt; index_rules(&block, 5, 6) == Rules::none().with(Rule::Pointer));
    assert!(rt;
        index_rules(&block, 4, 32641) == Rules::none().with(Rule::Place).with(Rule::Pointer)
    );
}

/// The superblock of an empty pool on eight metadata blocks.
fn empty_pool() -> ThinSuper {
    ThinSuper {
        flags: 0,
        uuid: [0; 16],
        version: 2,
        time: 0,
        transaction: 0,
        held_root: 0,
        data_map: SmRoot {
            blocks: 0,
            allocated: 0,
            bitmap_root: 3,
            overflow_root: 4,
        },
        meta_map: SmRoot {
            blocks: 8,
            allocated: 8,
            bitmap_root: 5,
            overflow_root: 7,
        },
        mapping_root: 1,
        details_root: 2,
        block_size: 128,
        meta_block_size: 8,
        meta_blocks: 8,
        compat: 0,
        compat_ro: 0,
        incompat: 0,
    }
}

/// The rules that the empty pool breaks with eight bytes changed at two places, and sealed again.
fn rules_after(at: usize, value: u64, then_at: usize, then_value: u64) -> Rules
    requires first { at + 8 ≤ 4096 }
    requires second { then_at + 8 ≤ 4096 }
{
    let mut block = write_thin_super(&empty_pool());
    put_u64(&mut block.0, at, value);
    put_u64(&mut block.0, then_at, then_value);
    seal(&mut block, Kind::Thin.salt());
    thin_super_rules(&block, 8)
}

#[test]
fn gives_the_rules_of_changed_superblocks(rt: HostRuntime) {
    let none = Rules::none();
    assert!(rt; rules_after(320, 1, 328, 2) == none);
    assert!(rt; rules_after(320, 8, 328, 2) == none.with(Rule::Pointer));
    assert!(rt; rules_after(40, 1, 360, 1) == none.with(Rule::Version).with(Rule::Features));
    assert!(rt; rules_after(192, 9, 320, 1) == none.with(Rule::Size));
    assert!(rt; rules_after(8, 3, 320, 1) == none.with(Rule::Place));
    assert!(rt; rules_after(32, 5, 40, 7) == none.with(Rule::Magic));
    assert!(rt; missing_super() == none.with(Rule::Size));
}

#[test]
fn gives_a_wrong_checksum_alone(rt: HostRuntime) {
    let mut block = write_thin_super(&empty_pool());
    assert!(rt; thin_super_rules(&block, 8) == Rules::none());
    block.0[100] = 1;
    assert!(rt; thin_super_rules(&block, 8) == Rules::none().with(Rule::Checksum));
}

#[test]
fn wants_a_held_copy_in_its_place(rt: HostRuntime) {
    let block = write_thin_super(&empty_pool());
    assert!(rt; thin_held_rules(&block, 0, 8) == Rules::none());
    assert!(rt; thin_held_rules(&block, 6, 8) == Rules::none().with(Rule::Place));
}

#[test]
fn reads_what_it_wrote(rt: HostRuntime) {
    let pool = empty_pool();
    assert!(rt; read_thin_super(&write_thin_super(&pool)) == pool);
}

#[test]
fn audit_keeps_a_mark_and_a_note(rt: HostRuntime) -> Result<(), Fail> {
    let mut audit = Audit::new(rt.alloc(), 3)?;
    let note = Note {
        least: Some(7),
        greatest: None,
        below: 5,
        height: 1,
        in_range: false,
    };
    audit.mark(1, Rule::Level);
    audit.set_note(2, note);
    let has_marks = audit.rules(1).has(Rule::Level) & audit.rules(2).is_empty();
    let has_notes = (audit.note(2) == note) & audit.note(1).least.is_none();
    let has_counts = (audit.roles(0) == 0) & (audit.meta_count(0) == 0) & (audit.nr() == 3);
    assert!(rt; has_marks & has_notes & has_counts & !audit.is_walked());
    Ok(())
}
