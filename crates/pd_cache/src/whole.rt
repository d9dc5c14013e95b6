//! The rules of a whole cache, where no block has a rule up to the order of the trees (`cache_check`).

ghost use Rattle.std.specs.Prelude.{◌≡◌, ◌+◌, ◌/◌, ◌<◌, ◌≤◌, [], ◌∷◌, IfSome, OnOk};
ghost use Rattle.std.specs.List.{flat_map};
ghost use Rattle.pd_kinds.specs.Objects.{CountsFault};
ghost use Rattle.pd_kinds.specs.Graph.{Graph, nodes};
ghost use Rattle.pd_kinds.specs.Stages.{IsReached};
ghost use Rattle.pd_kinds.specs.Whole.{array_whole, optional_array};
ghost use Rattle.pd_array.specs.Word.{size_of};
ghost use Rattle.pd_image.specs.Device.{IsAttached, OnlyReads};
ghost use Rattle.pd_graph.specs.Audit.{blocks_of, KeepsButRules};
ghost use Rattle.pd_check.specs.Known.{Charges};
ghost use Rattle.pd_check.specs.Arrays.{places_of as marks_of, AreAllCounted, AreCounted, HasArrays, KeepsBlocks, kind_reads};
ghost use Rattle.pd_cache.specs.Meeting.{places_of, IsFresh, IsRoomFor};
ghost use Rattle.pd_cache.specs.Whole.{IsReady, arrays, arrays_named, arrays_reads, dirty_arrays, dirty_bits as dirty_bits_of};
ghost use Rattle.pd_cache.specs.Whole.{discards as discards_of, hints as hints_of, mappings as mappings_of, origin_reads, origin_test};
ghost use Rattle.pd_cache.specs.Whole.{tests_named};

use crate::mapping::is_origin_repeated;
use crate::origins::Origins;
use crate::room::CacheMemory;
use pd_array::Word;
use pd_check::{ArrayMarks, ArrayRoles, charge, mark_array, mark_shared};
use pd_graph::{Audit, Format};
use pd_image::{Device, Failed};
use pd_kinds::{CacheSuper, Rule, cache_role};
use pd_tree::{
    Cursor, cursors_give_entries, entries_lead_to_reached_pairs, reached_trees_are_sound,
};
use pd_value::Root;

/// The number of dirty bits in a word.
const WORD_BITS: u64 = 64;

/// The mapping array.
fn mappings() -> ArrayRoles
    ensures { result ≡ mappings_of }
{
    ArrayRoles {
        nodes: cache_role::MAPPING_NODE,
        blocks: cache_role::MAPPING_BLOCK,
        word: Word::Eight,
    }
}

/// The array of hints.
fn hints() -> ArrayRoles
    ensures { result ≡ hints_of }
{
    ArrayRoles {
        nodes: cache_role::HINT_NODE,
        blocks: cache_role::HINT_BLOCK,
        word: Word::Four,
    }
}

/// The bits of discarded blocks.
fn discards() -> ArrayRoles
    ensures { result ≡ discards_of }
{
    ArrayRoles {
        nodes: cache_role::DISCARD_NODE,
        blocks: cache_role::DISCARD_BLOCK,
        word: Word::Eight,
    }
}

/// The bits of dirty blocks, which version 2 has.
fn dirty_bits() -> ArrayRoles
    ensures { result ≡ dirty_bits_of }
{
    ArrayRoles {
        nodes: cache_role::DIRTY_NODE,
        blocks: cache_role::DIRTY_BLOCK,
        word: Word::Eight,
    }
}

/// How many words hold so many dirty bits.
fn dirty_words(blocks: u32) -> u64
    ensures { result ≡ (blocks + 63) / 64 }
{
    (u64::from(blocks) + (WORD_BITS - 1)) / WORD_BITS
}

/// Does what `mark_array` does for an array that a root of 0 leaves out.
fn mark_optional<F: Format, D: Device>(
    marks: &mut ArrayMarks,
    audit: &mut Audit,
    format: &F,
    dev: &mut D,
    roles: ArrayRoles,
    root: u64,
) -> Result<(), Failed>
    requires attached { IsAttached (D.state dev.old) }
    requires number { blocks_of audit.old ≡ (F.graph format.now).nr }
    requires places { marks_of marks.old ≡ blocks_of audit.old }
    requires within { blocks_of audit.old ≤ (D.state dev.old).blocks }
    requires nodes { roles.nodes < F.ROLES }
    ensures charges { OnOk result (IfSome (D.state dev.old).held (λ image. HasArrays (F.graph format.now) image audit.old roles
        → AreCounted (F.graph format.now) image roles marks.old → ((root ≡ 0 → ⊥) → IsReached (F.graph format.now) image root roles.nodes)
        → Charges (flat_map (array_whole (F.graph format.now) image)
        (optional_array roles.nodes root (size_of roles.word) [])) audit.old audit.new)) }
    ensures blocks { KeepsBlocks audit.old roles marks.old marks.new }
    ensures places { marks_of marks.new ≡ marks_of marks.old }
    ensures reads { (D.state dev.new).reads ≤ (D.state dev.old).reads + kind_reads audit.old roles }
    ensures rules { KeepsButRules audit.old audit.new }
    ensures kept { OnlyReads (D.state dev.old) (D.state dev.new) }
    ensures faults { CountsFault result (D.state dev.old).faults (D.state dev.new).faults }
{
    if root == 0 {
        return Ok(());
    }
    mark_array(marks, audit, format, dev, roles, root, None)
}

/// Does so for the dirty bits, which version 2 has.
fn mark_dirty_bits<F: Format, D: Device>(
    marks: &mut ArrayMarks,
    audit: &mut Audit,
    format: &F,
    dev: &mut D,
    fields: &CacheSuper,
) -> Result<(), Failed>
    requires attached { IsAttached (D.state dev.old) }
    requires number { blocks_of audit.old ≡ (F.graph format.now).nr }
    requires places { marks_of marks.old ≡ blocks_of audit.old }
    requires within { blocks_of audit.old ≤ (D.state dev.old).blocks }
    requires roles { F.ROLES ≡ 12 }
    ensures charges { OnOk result (IfSome (D.state dev.old).held (λ image. HasArrays (F.graph format.now) image audit.old dirty_bits_of
        → AreCounted (F.graph format.now) image dirty_bits_of marks.old
        → (fields.now.version ≡ 2 → IsReached (F.graph format.now) image fields.now.dirty_root 10)
        → Charges (flat_map (array_whole (F.graph format.now) image) (dirty_arrays fields.now)) audit.old audit.new)) }
    ensures reads { (D.state dev.new).reads ≤ (D.state dev.old).reads + kind_reads audit.old dirty_bits_of }
    ensures rules { KeepsButRules audit.old audit.new }
    ensures kept { OnlyReads (D.state dev.old) (D.state dev.new) }
    ensures faults { CountsFault result (D.state dev.old).faults (D.state dev.new).faults }
{
    let has_bits = fields.version == 2;
    if has_bits {
        let words = dirty_words(fields.blocks);
        return mark_array(
            marks,
            audit,
            format,
            dev,
            dirty_bits(),
            fields.dirty_root,
            Some(words),
        );
    }
    Ok(())
}

/// Gives the roots of all arrays the rules Index and Length that they break.
fn mark_arrays<F: Format, D: Device>(
    marks: &mut ArrayMarks,
    audit: &mut Audit,
    format: &F,
    dev: &mut D,
    fields: &CacheSuper,
) -> Result<(), Failed>
    requires attached { IsAttached (D.state dev.old) }
    requires number { blocks_of audit.old ≡ (F.graph format.now).nr }
    requires places { marks_of marks.old ≡ blocks_of audit.old }
    requires within { blocks_of audit.old ≤ (D.state dev.old).blocks }
    requires roles { F.ROLES ≡ 12 }
    ensures charges { OnOk result (IfSome (D.state dev.old).held (λ image. IsReady (F.graph format.now) image audit.old fields.now
        → AreAllCounted arrays (F.graph format.now) image marks.old
        → Charges (flat_map (array_whole (F.graph format.now) image) (arrays_named fields.now)) audit.old audit.new)) }
    ensures reads { (D.state dev.new).reads ≤ (D.state dev.old).reads + arrays_reads audit.old }
    ensures rules { KeepsButRules audit.old audit.new }
    ensures kept { OnlyReads (D.state dev.old) (D.state dev.new) }
    ensures faults { CountsFault result (D.state dev.old).faults (D.state dev.new).faults }
{
    let words = u64::from(fields.blocks);
    mark_array(
        marks,
        audit,
        format,
        dev,
        mappings(),
        fields.mapping_root,
        Some(words),
    )?;
    mark_optional(marks, audit, format, dev, hints(), fields.hint_root)?;
    mark_optional(marks, audit, format, dev, discards(), fields.discard_root)?;
    mark_dirty_bits(marks, audit, format, dev, fields)
}

/// Gives the root of the mapping array the rule Origin, where two valid words of it have one origin.
fn mark_origin<D: Device>(
    origins: &mut Origins,
    entries: &mut Cursor<Root>,
    audit: &mut Audit,
    dev: &mut D,
    root: u64,
) -> Result<(), Failed>
    requires attached { IsAttached (D.state dev.old) }
    requires places { places_of origins.old ≡ blocks_of audit.old }
    requires fresh { IsFresh origins.old }
    requires within { blocks_of audit.old ≤ (D.state dev.old).blocks }
    ensures charges { OnOk result (IfSome (D.state dev.old).held (λ image. (graph : Graph) → HasArrays graph image audit.old mappings_of
        → IsReached graph image root 1 → Charges (origin_test graph image root ∷ []) audit.old audit.new)) }
    ensures reads { IfSome (D.state dev.old).held
        (λ image. (D.state dev.new).reads ≤ (D.state dev.old).reads + origin_reads audit.old image root) }
    ensures rules { KeepsButRules audit.old audit.new }
    ensures kept { OnlyReads (D.state dev.old) (D.state dev.new) }
    ensures faults { CountsFault result (D.state dev.old).faults (D.state dev.new).faults }
{
    entries_lead_to_reached_pairs();
    reached_trees_are_sound();
    cursors_give_entries::<Root>();
    if audit.nr() <= root {
        return Ok(());
    }
    let repeated = is_origin_repeated(origins, entries, audit, dev, root)?;
    charge(audit, root, Rule::Origin, repeated);
    Ok(())
}

/// Gives each block the rules of the whole cache that it breaks, where these are the superblock's fields. It takes no
/// memory.
pub(crate) fn mark_cache<F: Format, D: Device>(
    room: &mut CacheMemory,
    fields: &CacheSuper,
    format: &F,
    audit: &mut Audit,
    dev: &mut D,
) -> Result<(), Failed>
    requires attached { IsAttached (D.state dev.old) }
    requires number { blocks_of audit.old ≡ (F.graph format.now).nr }
    requires room { IsRoomFor (blocks_of audit.old) room.old }
    requires within { blocks_of audit.old ≤ (D.state dev.old).blocks }
    requires roles { F.ROLES ≡ 12 }
    ensures charges { OnOk result (IfSome (D.state dev.old).held (λ image. IsReady (F.graph format.now) image audit.old fields.now
        → AreAllCounted arrays (F.graph format.now) image room.old.arrays.marks
        → Charges (tests_named (F.graph format.now) image fields.now) audit.old audit.new)) }
    ensures reads { IfSome (D.state dev.old).held (λ image. (D.state dev.new).reads
        ≤ (D.state dev.old).reads + (origin_reads audit.old image fields.now.mapping_root + arrays_reads audit.old)) }
    ensures rules { KeepsButRules audit.old audit.new }
    ensures kept { OnlyReads (D.state dev.old) (D.state dev.new) }
    ensures faults { CountsFault result (D.state dev.old).faults (D.state dev.new).faults }
{
    mark_origin(
        &mut room.origins,
        &mut room.entries,
        audit,
        dev,
        fields.mapping_root,
    )?;
    mark_shared(audit, cache_role::META_BITMAP);
    mark_arrays(&mut room.arrays.marks, audit, format, dev, fields)
}
