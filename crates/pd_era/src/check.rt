//! The check of an era target's metadata (`era_check`).

ghost use Rattle.std.specs.Prelude.{◌≡◌, ◌+◌, IfOk, IfSome, ℕ, ◌≤◌, List, length, OnOk};
ghost use Rattle.pd_kinds.specs.declared.kind.Kind.TheVariants.{Era};
ghost use Rattle.pd_kinds.specs.declared.kind.Stage.TheVariants.{Counts};
ghost use Rattle.pd_kinds.specs.CheckFault.{CountsCheckFault, StopsEarly};
ghost use Rattle.pd_kinds.specs.Stages.{faults, checked_of};
ghost use Rattle.pd_kinds.specs.Rule.{report_of};
ghost use Rattle.pd_kinds.specs.EraFormat.{EraFields, era_fields, era_graph, era_layout};
ghost use Rattle.pd_kinds.specs.Graph.{Graph, is_reached, nodes};
ghost use Rattle.pd_kinds.specs.Objects.{CountsFault};
ghost use Rattle.pd_image.specs.Device.{IsAttached, OnlyReads};
ghost use Rattle.pd_graph.specs.declared.audit.Audit.{Audit as TheAudit};
ghost use Rattle.pd_graph.specs.Audit.{blocks_of, KeepsButRules};
ghost use Rattle.pd_check.specs.Check.{MayWantMemory, ReadsFew, IsOrdered};
ghost use Rattle.pd_check.specs.Known.{Charges};
ghost use Rattle.pd_check.specs.Arrays.{AreAllShown, HasMarks};
ghost use Rattle.pd_era.specs.Whole.{IsReady, whole_reads};

use crate::format::{EraFormat, EraTable};
use crate::whole::mark_era;
use pd_check::{
    ArrayMarks, ArrayMemory, DataSpace, Metadata, check, known_blocks_are_reached_once,
    reached_blocks_are_no_more_than_nodes, shown_blocks_are_counted,
};
use pd_graph::Audit;
use pd_image::{Device, Failed};
use pd_kinds::{
    Block, CheckFault, MAX_META_BLOCKS, Report, Rules, SmRoot, Stage, trees_are_in_order,
};
use pd_supers::{era_super_rules, read_era_super};
use pd_tree::{edges_lead_to_reached_pairs, formats_have_trees, superblocks_lead_to_reached_roots};
use std::alloc::{AllocError, Global};

impl Metadata for EraTable {
    ghost use Rattle.pd_kinds.specs.declared.kind.Kind.TheVariants.{Era};

    type Format = EraFormat;

    type WholeMemory = ArrayMemory<EraTable>;

    ghost kind = { Era };

    fn super_rules(b: &Block, device_blocks: u64) -> Rules {
        era_super_rules(b, device_blocks)
    }

    fn format(b: &Block, _device_blocks: u64) -> EraFormat {
        EraFormat::of(&read_era_super(b))
    }

    fn meta_map(b: &Block) -> SmRoot {
        read_era_super(b).meta_map
    }

    fn data_space(_b: &Block) -> Option<DataSpace> {
        None
    }

    fn whole_memory(alloc: Global, b: &Block) -> Result<ArrayMemory<EraTable>, AllocError> {
        let blocks = read_era_super(b).meta_map.blocks;
        ArrayMemory::new(alloc, blocks.min(MAX_META_BLOCKS))
    }

    fn mark_whole<D: Device>(
        room: ArrayMemory<EraTable>,
        b: &Block,
        audit: &mut Audit,
        dev: &mut D,
    ) -> Result<(), Failed> {
        let mut room = room;
        mark_by_super(&mut room.marks, b, audit, dev)
    }
}

/// The faults of the first stage up to this one that has any, in an era target's metadata. Up to `Counts` there are
/// none exactly where the image is clean.
///
/// A check up to `Super` takes no memory, and one past it takes none before block 0 was found sound, and all of it before
/// it reads another block: about 50 bytes a metadata block, and up to `Whole` six bytes a metadata block besides. Up to
/// `Counts` it takes memory for cursors later too. It reads block 0, and then each block at most once for each role in
/// which it is reached, up to `Order` at most three times, up to `Whole` at most five times, and up to `Counts` at most
/// six times.
///
/// Fails with `CheckFault::Memory` where that memory wasn't found, and with `CheckFault::Device` where a read failed.
#[inline(never)]
pub fn check_era<D: Device>(alloc: Global, dev: &mut D, until: Stage) -> Result<Report, CheckFault>
    requires attached { IsAttached (D.state dev.old) }
    ensures report { IfOk result (λ report. IfSome (D.state dev.old).held (λ image. report ≡ report_of (faults Era until image))) }
    ensures memory { MayWantMemory Era until (D.state dev.old).held result }
    ensures early { (until ≡ Counts → ⊥) → StopsEarly result ((D.state dev.old).reads + 1) (D.state dev.new).reads }
    ensures reads { IfSome (D.state dev.old).held
        (λ image. ReadsFew Era until image ((D.state dev.old).reads + 1) (D.state dev.new).reads) }
    ensures kept { OnlyReads (D.state dev.old) (D.state dev.new) }
    ensures faults { CountsCheckFault result (D.state dev.old).faults (D.state dev.new).faults }
{
    check::<EraTable, D>(alloc, dev, until)
}

// The rules of a whole era target, by its superblock (`era_check`).

/// In an era target that is in order, all roots that the superblock and the snapshot name are reached.
fn ordered_eras_are_ready()
    ensures { (first : List ℕ) (image : List (List ℕ)) (audit : TheAudit) → IsOrdered Era first image audit
        → IsReady (era_graph first) image audit (era_fields first) }
{
    trees_are_in_order();
    formats_have_trees();
    superblocks_lead_to_reached_roots();
    edges_lead_to_reached_pairs();
}

/// What is read to look at the rules of a whole era target are at most as many blocks as there are reachable pairs.
fn rules_read_each_pair_once()
    ensures { (graph : Graph) (image : List (List ℕ)) (audit : TheAudit) (fields : EraFields) → IsReady graph image audit fields
        → whole_reads audit fields ≤ length (nodes graph image) }
{
    reached_blocks_are_no_more_than_nodes();
    known_blocks_are_reached_once();
}

/// Gives each block the rules of the whole era target that it breaks, where this is block 0 and no block has a rule up to
/// the order of the trees. It takes no memory.
pub(crate) fn mark_by_super<D: Device>(
    marks: &mut ArrayMarks,
    b: &Block,
    audit: &mut Audit,
    dev: &mut D,
) -> Result<(), Failed>
    requires room { HasMarks 10 (era_graph b.now.0) marks.old }
    requires attached { IsAttached (D.state dev.old) }
    requires number { blocks_of audit.old ≡ (era_graph b.now.0).nr }
    requires within { (era_graph b.now.0).nr ≤ (D.state dev.old).blocks }
    ensures charges { OnOk result (IfSome (D.state dev.old).held (λ image. IsOrdered Era b.now.0 image audit.old
        → AreAllShown (era_layout 0) image (is_reached (era_graph b.now.0) image) marks.old
        → Charges (checked_of Era image).whole audit.old audit.new)) }
    ensures reads { IfSome (D.state dev.old).held (λ image. IsOrdered Era b.now.0 image audit.old
        → (D.state dev.new).reads ≤ (D.state dev.old).reads + length (nodes (era_graph b.now.0) image)) }
    ensures rules { KeepsButRules audit.old audit.new }
    ensures kept { OnlyReads (D.state dev.old) (D.state dev.new) }
    ensures faults { CountsFault result (D.state dev.old).faults (D.state dev.new).faults }
{
    ordered_eras_are_ready();
    rules_read_each_pair_once();
    shown_blocks_are_counted();
    let fields = read_era_super(b);
    let _nr = audit.nr();
    let format = EraFormat::of(&fields);
    mark_era(marks, &fields, &format, audit, dev)
}
