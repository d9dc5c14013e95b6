//! The check of a thin pool's metadata (`thin_check`).

ghost use Rattle.std.specs.Prelude.{◌≡◌, ◌+◌, IfOk, IfSome};
ghost use Rattle.pd_kinds.specs.declared.kind.Kind.TheVariants.{Thin};
ghost use Rattle.pd_kinds.specs.declared.kind.Stage.TheVariants.{Counts};
ghost use Rattle.pd_kinds.specs.CheckFault.{CountsCheckFault, StopsEarly};
ghost use Rattle.pd_kinds.specs.Stages.{faults};
ghost use Rattle.pd_kinds.specs.Rule.{report_of};
ghost use Rattle.pd_image.specs.Device.{IsAttached, OnlyReads};
ghost use Rattle.pd_check.specs.Check.{MayWantMemory, ReadsFew};

use crate::device_pairs::DeviceCursors;
use crate::format::{ThinFormat, ThinTable};
use crate::pool::mark_pool;
use pd_check::{DataSpace, Metadata, check};
use pd_graph::Audit;
use pd_image::{Device, Failed};
use pd_kinds::{Block, CheckFault, Report, Rules, SmRoot, Stage, thin_role};
use pd_supers::{read_thin_super, thin_super_rules};
use std::alloc::{AllocError, Global};

impl Metadata for ThinTable {
    ghost use Rattle.pd_kinds.specs.declared.kind.Kind.TheVariants.{Thin};

    type Format = ThinFormat;

    type WholeMemory = DeviceCursors;

    ghost kind = { Thin };

    fn super_rules(b: &Block, device_blocks: u64) -> Rules {
        thin_super_rules(b, device_blocks)
    }

    fn format(b: &Block, _device_blocks: u64) -> ThinFormat {
        ThinFormat::of(&read_thin_super(b))
    }

    fn meta_map(b: &Block) -> SmRoot {
        read_thin_super(b).meta_map
    }

    fn data_space(b: &Block) -> Option<DataSpace> {
        Some(DataSpace {
            root: read_thin_super(b).data_map,
            role: thin_role::MAPPINGS,
        })
    }

    fn whole_memory(alloc: Global, _b: &Block) -> Result<DeviceCursors, AllocError> {
        DeviceCursors::new(alloc)
    }

    fn mark_whole<D: Device>(
        room: DeviceCursors,
        b: &Block,
        audit: &mut Audit,
        dev: &mut D,
    ) -> Result<(), Failed> {
        let mut cursors = room;
        mark_pool(&mut cursors, b, audit, dev)
    }
}

/// The faults of the first stage up to this one that has any. Up to `Counts` there are none exactly where the image is
/// clean.
///
/// A check up to `Super` takes no memory, and one past it takes none before block 0 was found sound, and
/// all of it before it reads another block: about 50 bytes a metadata block, and up to `Whole` 530 KiB
/// besides, which are reserved and used as far as the trees are deep. Up to `Counts` it takes memory for cursors and for
/// the counts of data blocks later too.
///
/// It reads block 0, and where that breaks no rule at most once for each role in which a block is reached, whatever is
/// shared; up to `Order` at most three times, up to `Whole` five times, and up to `Counts` six times.
///
/// Fails with `CheckFault::Memory` where that memory wasn't found, and with `CheckFault::Device` where a
/// read failed.
#[inline(never)]
pub fn check_thin<D: Device>(alloc: Global, dev: &mut D, until: Stage) -> Result<Report, CheckFault>
    requires attached { IsAttached (D.state dev.old) }
    ensures report { IfOk result (λ report. IfSome (D.state dev.old).held (λ image. report ≡ report_of (faults Thin until image))) }
    ensures memory { MayWantMemory Thin until (D.state dev.old).held result }
    ensures early { (until ≡ Counts → ⊥) → StopsEarly result ((D.state dev.old).reads + 1) (D.state dev.new).reads }
    ensures reads { IfSome (D.state dev.old).held
        (λ image. ReadsFew Thin until image ((D.state dev.old).reads + 1) (D.state dev.new).reads) }
    ensures kept { OnlyReads (D.state dev.old) (D.state dev.new) }
    ensures faults { CountsCheckFault result (D.state dev.old).faults (D.state dev.new).faults }
{
    check::<ThinTable, D>(alloc, dev, until)
}
