//! The check of a cache's metadata (`cache_check`).

ghost use Rattle.std.specs.Prelude.{◌≡◌, ◌+◌, IfOk, IfSome, ℕ, ◌*◌, ◌≤◌, List, length, OnOk};
ghost use Rattle.pd_kinds.specs.declared.kind.Kind.TheVariants.{Cache};
ghost use Rattle.pd_kinds.specs.declared.kind.Stage.TheVariants.{Counts};
ghost use Rattle.pd_kinds.specs.CheckFault.{CountsCheckFault, StopsEarly};
ghost use Rattle.pd_kinds.specs.Stages.{faults, checked_of};
ghost use Rattle.pd_kinds.specs.Rule.{report_of};
ghost use Rattle.pd_kinds.specs.CacheFormat.{CacheFields, cache_fields, cache_graph, cache_layout};
ghost use Rattle.pd_kinds.specs.Graph.{Graph, is_reached, nodes};
ghost use Rattle.pd_kinds.specs.Objects.{CountsFault};
ghost use Rattle.pd_image.specs.Device.{IsAttached, OnlyReads};
ghost use Rattle.pd_graph.specs.declared.audit.Audit.{Audit as TheAudit};
ghost use Rattle.pd_graph.specs.Audit.{blocks_of, KeepsButRules};
ghost use Rattle.pd_check.specs.Check.{MayWantMemory, ReadsFew, IsOrdered};
ghost use Rattle.pd_check.specs.Known.{Charges};
ghost use Rattle.pd_check.specs.Arrays.{AreAllShown};
ghost use Rattle.pd_cache.specs.Meeting.{HasRoom};
ghost use Rattle.pd_cache.specs.Whole.{IsReady, arrays_reads, origin_reads};

use crate::format::{CacheFormat, CacheTable};
use crate::room::CacheMemory;
use crate::whole::mark_cache;
use pd_check::{
    DataSpace, Metadata, check, known_blocks_are_reached_once,
    nodes_of_reached_trees_are_reached_once, reached_blocks_are_no_more_than_nodes,
    shown_blocks_are_counted,
};
use pd_graph::Audit;
use pd_image::{Device, Failed};
use pd_kinds::{
    Block, CheckFault, MAX_META_BLOCKS, Report, Rules, SmRoot, Stage, trees_are_in_order,
};
use pd_supers::{cache_super_rules, read_cache_super};
use pd_tree::{formats_have_trees, superblocks_lead_to_reached_roots};
use std::alloc::{AllocError, Global};

impl Metadata for CacheTable {
    ghost use Rattle.pd_kinds.specs.declared.kind.Kind.TheVariants.{Cache};

    type Format = CacheFormat;

    type WholeMemory = CacheMemory;

    ghost kind = { Cache };

    fn super_rules(b: &Block, device_blocks: u64) -> Rules {
        cache_super_rules(b, device_blocks)
    }

    fn format(b: &Block, _device_blocks: u64) -> CacheFormat {
        CacheFormat::of(&read_cache_super(b))
    }

    fn meta_map(b: &Block) -> SmRoot {
        read_cache_super(b).meta_map
    }

    fn data_space(_b: &Block) -> Option<DataSpace> {
        None
    }

    fn whole_memory(alloc: Global, b: &Block) -> Result<CacheMemory, AllocError> {
        let blocks = read_cache_super(b).meta_map.blocks;
        CacheMemory::new(alloc, blocks.min(MAX_META_BLOCKS))
    }

    fn mark_whole<D: Device>(
        room: CacheMemory,
        b: &Block,
        audit: &mut Audit,
        dev: &mut D,
    ) -> Result<(), Failed> {
        let mut room = room;
        mark_by_super(&mut room, b, audit, dev)
    }
}

/// The faults of the first stage up to this one that has any, in a cache's metadata of version 1 or 2. Up to `Counts`
/// there are none exactly where the image is clean.
///
/// A check up to `Super` takes no memory, and one past it takes none before block 0 was found sound, and
/// all of it before it reads another block: about 50 bytes a metadata block, and up to `Whole` 329 KiB and eight bytes a
/// metadata block besides, with address space for 5096 more, of which only eight bytes for each valid entry are touched.
/// Up to `Counts` it takes memory for cursors later too. It reads block 0, and then each block at most once for each role
/// in which it is reached, up to `Order` at most three times, up to `Whole` at most five times, and up to `Counts` at most
/// six times.
///
/// Fails with `CheckFault::Memory` where that memory wasn't found, and with `CheckFault::Device` where a
/// read failed.
#[inline(never)]
pub fn check_cache<D: Device>(
    alloc: Global,
    dev: &mut D,
    until: Stage,
) -> Result<Report, CheckFault>
    requires attached { IsAttached (D.state dev.old) }
    ensures report { IfOk result (λ report. IfSome (D.state dev.old).held (λ image. report ≡ report_of (faults Cache until image))) }
    ensures memory { MayWantMemory Cache until (D.state dev.old).held result }
    ensures early { (until ≡ Counts → ⊥) → StopsEarly result ((D.state dev.old).reads + 1) (D.state dev.new).reads }
    ensures reads { IfSome (D.state dev.old).held
        (λ image. ReadsFew Cache until image ((D.state dev.old).reads + 1) (D.state dev.new).reads) }
    ensures kept { OnlyReads (D.state dev.old) (D.state dev.new) }
    ensures faults { CountsCheckFault result (D.state dev.old).faults (D.state dev.new).faults }
{
    check::<CacheTable, D>(alloc, dev, until)
}

// The rules of a whole cache, by its superblock (`cache_check`).

/// In a cache that is in order, all roots that the superblock names are reached.
fn ordered_caches_are_ready()
    ensures { (first : List ℕ) (image : List (List ℕ)) (audit : TheAudit) → IsOrdered Cache first image audit
        → IsReady (cache_graph first) image audit (cache_fields first) }
{
    trees_are_in_order();
    formats_have_trees();
    superblocks_lead_to_reached_roots();
}

/// What is read to look at the rules of a whole cache are at most two blocks for each reachable pair.
fn rules_read_each_pair_twice()
    ensures { (graph : Graph) (image : List (List ℕ)) (audit : TheAudit) (fields : CacheFields) → IsReady graph image audit fields
        → origin_reads audit image fields.mapping_root + arrays_reads audit ≤ 2 * length (nodes graph image) }
{
    reached_blocks_are_no_more_than_nodes();
    known_blocks_are_reached_once();
    nodes_of_reached_trees_are_reached_once();
}

/// Gives each block the rules of the whole cache that it breaks, where this is block 0 and no block has a rule up to the
/// order of the trees. It takes no memory.
pub(crate) fn mark_by_super<D: Device>(
    room: &mut CacheMemory,
    b: &Block,
    audit: &mut Audit,
    dev: &mut D,
) -> Result<(), Failed>
    requires room { HasRoom room.old (cache_graph b.now.0) }
    requires attached { IsAttached (D.state dev.old) }
    requires number { blocks_of audit.old ≡ (cache_graph b.now.0).nr }
    requires within { (cache_graph b.now.0).nr ≤ (D.state dev.old).blocks }
    ensures charges { OnOk result (IfSome (D.state dev.old).held (λ image. IsOrdered Cache b.now.0 image audit.old
        → AreAllShown (cache_layout 0) image (is_reached (cache_graph b.now.0) image) room.old.arrays.marks
        → Charges (checked_of Cache image).whole audit.old audit.new)) }
    ensures reads { IfSome (D.state dev.old).held (λ image. IsOrdered Cache b.now.0 image audit.old
        → (D.state dev.new).reads ≤ (D.state dev.old).reads + 2 * length (nodes (cache_graph b.now.0) image)) }
    ensures rules { KeepsButRules audit.old audit.new }
    ensures kept { OnlyReads (D.state dev.old) (D.state dev.new) }
    ensures faults { CountsFault result (D.state dev.old).faults (D.state dev.new).faults }
{
    ordered_caches_are_ready();
    rules_read_each_pair_twice();
    shown_blocks_are_counted();
    let fields = read_cache_super(b);
    let _nr = audit.nr();
    let format = CacheFormat::of(&fields);
    mark_cache(room, &fields, &format, audit, dev)
}
