//! What the superblocks of the three kinds share: texts of sixteen bytes, the head, and the rules that come alone.
//! Tables of numbers, written into a block.
//! The root of a space map, read and written in a superblock.

ghost use Rattle.std.specs.Prelude.{◌≡◌, ◌+◌, ◌≤◌, List, true, ◌^◌, ◌<◌, map};
ghost use Rattle.pd_kinds.specs.Field.{bytes_at, put_bytes, DoFit, put, written};
ghost use Rattle.pd_kinds.specs.Rule.{Test, failing, has_rule};
ghost use Rattle.pd_kinds.specs.Super.{is_super_of, super_block, super_rules, map_fields};
ghost use Rattle.pd_kinds.specs.declared.rule.Rule.{Rule as BrokenRule};
ghost use Rattle.pd_supers.specs.Table.{are_inside, row_of, size_of, value_of};

use pd_crc::{is_sealed, seal};
use pd_kinds::{Block, Kind, Rule, Rules, SmRoot, put_u32, put_u64, u64_at};

/// The sixteen bytes at this offset.
pub(crate) fn sixteen_at(block: &Block, at: usize) -> [u8; 16]
    requires { at + 16 ≤ 4096 }
    ensures { result ≡ bytes_at block.now.0 at 16 }
{
    let mut bytes = [0; 16];
    bytes.copy_from_slice(&block.0[at..at + 16]);
    bytes
}

/// Writes the sixteen bytes at this offset, and changes nothing else.
#[tactic(auto, unfolding(pd_kinds::specs::Field::put_bytes))]
pub(crate) fn put_sixteen(block: &mut Block, at: usize, bytes: &[u8; 16])
    requires { at + 16 ≤ 4096 }
    ensures { block.new.0 ≡ put_bytes block.old.0 at bytes.now }
{
    block.0[at..at + 16].copy_from_slice(bytes);
}

/// The superblock of a kind for block 0, over a block with its other fields: place, magic, uuid, checksum.
#[tactic(auto, unfolding(pd_kinds::specs::Super::super_block))]
pub(crate) fn super_block(kind: Kind, uuid: &[u8; 16], over: Block) -> Block
    ensures block { result.0 ≡ super_block kind uuid.now over.0 }
    ensures valid { is_super_of kind result.0 ≡ true }
{
    let mut block = over;
    put_rows(
        &mut block,
        &[(8, Number::Eight(0)), (32, Number::Eight(kind.magic()))],
    );
    put_sixteen(&mut block, 16, uuid);
    seal(&mut block, kind.salt());
    block
}

/// The rules of a superblock of a kind, or of a copy of it: a wrong checksum comes alone, and so does a wrong
/// magic; else the others decide.
#[tactic(auto, unfolding(pd_kinds::specs::Rule::alone))]
pub(crate) fn super_rules(kind: Kind, block: &Block, others: Rules) -> Rules
    ensures { (tests : List Test) → ((rule : BrokenRule) → has_rule others rule ≡ failing tests rule)
        → (rule : BrokenRule) → has_rule result rule ≡ super_rules kind block.now.0 tests rule }
{
    if !is_sealed(block, kind.salt()) {
        Rules::none().with(Rule::Checksum)
    } else if u64_at(&block.0, 32) != kind.magic() {
        Rules::none().with(Rule::Magic)
    } else {
        others
    }
}

/// A number of four bytes, or of eight.
#[derive(Clone, Copy, Drop)]
pub(crate) enum Number {
    Four(u32),
    Eight(u64),
}

/// Writes each number at its offset, and changes nothing else.
pub(crate) fn put_rows(block: &mut Block, rows: &[(usize, Number)])
    requires { are_inside (map row_of rows.now) ≡ true }
    ensures rows { block.new.0 ≡ written block.old.0 (map row_of rows.now) }
    ensures fit { DoFit (map row_of rows.now) }
{
    for i in 0..rows.len() {
        let (at, number) = rows[i];
        put_number(block, at, number);
    }
}

/// Writes the number at this offset, and changes nothing else.
fn put_number(block: &mut Block, at: usize, number: Number)
    requires { at + size_of number ≤ 4096 }
    ensures number { block.new.0 ≡ put block.old.0 at (size_of number) (value_of number) }
    ensures fits { value_of number < 256 ^ size_of number }
{
    match number {
        Number::Four(value) => put_u32(&mut block.0, at, value),
        Number::Eight(value) => put_u64(&mut block.0, at, value),
    }
}

/// The space map root at this offset.
pub(crate) fn read_map_root(block: &Block, at: usize) -> SmRoot
    requires { at + 32 ≤ 4096 }
    ensures { result ≡ map_fields block.now.0 at }
{
    SmRoot {
        blocks: u64_at(&block.0, at),
        allocated: u64_at(&block.0, at + 8),
        bitmap_root: u64_at(&block.0, at + 16),
        overflow_root: u64_at(&block.0, at + 24),
    }
}
