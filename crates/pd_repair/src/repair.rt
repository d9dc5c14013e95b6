//! A repair (`thin_repair`).

ghost use Rattle.std.specs.Prelude.{◌+◌, ◌≤◌, ◌^◌, IfErr, ◌≡◌, ℕ, IfOk, MatchResult};
ghost use Rattle.pd_image.specs.Device.{IsAttached, IsWritable, KeepsPlace, OnlyReads};
ghost use Rattle.pd_repair.specs.Repaired.{CountsRepair, HasSuper, IsRepaired, IsRepairedFrom, NamesRules, ReadsFew, BlamesOne, IsBrokenAt};
ghost use Rattle.pd_repair.specs.Repaired.{IsSoundAt, IsSoundSuper, LacksSuper, IsSharedRepaired, IsSharedRepairedFrom};

use pd_image::Device;
use pd_kinds::{Block, Rules, ThinSuper};
use pd_restore::{MadeFault, restore_made, restore_shape};
use pd_salvage::{SalvageFault, salvage};
use pd_salvage_shapes::salvage_shape;
use pd_supers::{missing_super, read_thin_super, thin_super_rules};
use std::alloc::{AllocError, Global};

/// Writes what can be saved of a pool to another device.
///
/// Fails with `RepairFault::NoSuper` exactly where the superblock of the input breaks rules, and names these; else as
/// `repair_from`.
pub fn repair_thin<A: Device, B: Device>(
    alloc: Global,
    input: &mut A,
    output: &mut B,
) -> Result<(), RepairFault>
    requires attached { IsAttached (A.state input.old) }
    requires writable { IsWritable (B.state output.old) }
    ensures repaired { IsRepaired result (A.state input.old) (B.state output.old) (B.state output.new) }
    ensures named { IfErr result NamesRules }
    ensures reads { IfErr result (λ fault. ReadsFew fault ((A.state input.old).reads + 1) (A.state input.new).reads) }
    ensures input { OnlyReads (A.state input.old) (A.state input.new) }
    ensures place { KeepsPlace (B.state output.old) (B.state output.new) }
    ensures causes { CountsRepair result (A.state input.old).faults
        (A.state input.new).faults (B.state output.old).faults (B.state output.new).faults }
{
    let s = sound_super(input)?;
    repair_from(alloc, input, output, &s)
}

/// Writes what can be saved of the pool with this superblock to another device.
///
/// The input is only read. The room is looked at before the output is written, of which at most 4161600 blocks are used.
/// It takes the memory of what is saved, that of counts of the data blocks, and then that of a restore.
///
/// Fails with `RepairFault::NoRoom` where what was saved needs more blocks than there are, with `RepairFault::Memory`
/// where memory wasn't found, or the need isn't below 2^64 - 1, and with `RepairFault::Input` or `RepairFault::Output`
/// where that device failed. After any fault but these of the output and of memory the output is as it was.
/// After want of memory it is as it was, or has no valid superblock.
pub fn repair_from<A: Device, B: Device>(
    alloc: Global,
    input: &mut A,
    output: &mut B,
    s: &ThinSuper,
) -> Result<(), RepairFault>
    requires attached { IsAttached (A.state input.old) }
    requires writable { IsWritable (B.state output.old) }
    requires there { s.now.meta_map.blocks ≤ (A.state input.old).blocks }
    requires few { s.now.meta_map.blocks ≤ 4161600 }
    requires data { s.now.data_map.blocks ≤ 2 ^ 40 }
    ensures repaired { IsRepairedFrom s.now result (A.state input.old) (B.state output.old) (B.state output.new) }
    ensures sound { HasSuper result }
    ensures input { OnlyReads (A.state input.old) (A.state input.new) }
    ensures place { KeepsPlace (B.state output.old) (B.state output.new) }
    ensures causes { CountsRepair result (A.state input.old).faults
        (A.state input.new).faults (B.state output.old).faults (B.state output.new).faults }
{
    let saved = salvage(alloc, input, s)?;
    restore_made(alloc, saved, output)?;
    Ok(())
}

// Why a repair failed (`thin_repair`).

/// Why a repair failed.
#[derive(Clone, Copy, Debug, PartialEq, Eq)]
pub enum RepairFault {
    /// There wasn't enough memory.
    Memory,
    /// The input has failed.
    Input,
    /// The output has failed.
    Output,
    /// The input's superblock breaks these rules.
    NoSuper(Rules),
    /// There is no room for what was saved: so many blocks are needed, and there are so many.
    NoRoom { need: u64, blocks: u64 },
}

impl From<SalvageFault> for RepairFault {
    ghost use Rattle.std.specs.Prelude.{◌≡◌};
    ghost use Rattle.pd_repair.specs.Faults.{salvage_fault};

    ghost from_gives = { λ fault given. given ≡ salvage_fault fault };

    fn from(fault: SalvageFault) -> RepairFault {
        match fault {
            SalvageFault::Memory => RepairFault::Memory,
            SalvageFault::Device => RepairFault::Input,
        }
    }
}

impl From<MadeFault> for RepairFault {
    ghost use Rattle.std.specs.Prelude.{◌≡◌};
    ghost use Rattle.pd_repair.specs.Faults.{made_fault};

    ghost from_gives = { λ fault given. given ≡ made_fault fault };

    fn from(fault: MadeFault) -> RepairFault {
        match fault {
            MadeFault::Memory => RepairFault::Memory,
            MadeFault::Device => RepairFault::Output,
            MadeFault::NoRoom { need, blocks } => RepairFault::NoRoom { need, blocks },
        }
    }
}

impl From<AllocError> for RepairFault {
    ghost use Rattle.std.specs.Prelude.{◌≡◌};
    ghost use Rattle.pd_repair.specs.declared.repair.RepairFault.TheVariants.{Memory as Wanting};

    ghost from_gives = { λ error given. given ≡ Wanting };

    fn from(_error: AllocError) -> RepairFault {
        RepairFault::Memory
    }
}

// The superblock of the input (`thin_repair`).

/// Reads the superblock of a pool. Fails where it breaks rules, and names these, or where the device failed.
pub fn sound_super<A: Device>(input: &mut A) -> Result<ThinSuper, RepairFault>
    requires { IsAttached (A.state input.old) }
    ensures sound { IfOk result (λ s. IsSoundSuper s (A.state input.old)) }
    ensures lacks { IfErr result
        (λ fault. LacksSuper fault ((A.state input.old).reads + 1) (A.state input.new).reads (A.state input.old).held) }
    ensures input { OnlyReads (A.state input.old) (A.state input.new) }
    ensures causes { (output : ℕ) → MatchResult result (λ _. (A.state input.new).faults ≡ (A.state input.old).faults)
        (λ fault. BlamesOne fault (A.state input.old).faults (A.state input.new).faults output output) }
{
    let blocks = input.blocks();
    if blocks == 0 {
        return Err(RepairFault::NoSuper(missing_super()));
    }
    let mut first = Block::zeros();
    match input.read(0, &mut first) {
        Ok(()) => super_in(&first, blocks),
        Err(_) => Err(RepairFault::Input),
    }
}

/// The superblock in the first of so many blocks.
fn super_in(first: &Block, blocks: u64) -> Result<ThinSuper, RepairFault>
    ensures sound { IfOk result (λ s. IsSoundAt s blocks first.now.0) }
    ensures broken { IfErr result (λ fault. IsBrokenAt fault blocks first.now.0) }
{
    let rules = thin_super_rules(first, blocks);
    if rules.is_empty() {
        Ok(read_thin_super(first))
    } else {
        Err(RepairFault::NoSuper(rules))
    }
}

// A repair that keeps the leaves that devices share (`thin_repair`).

/// Writes what can be saved of a pool to another device. A leaf that devices share, or that one uses twice, is written once.
///
/// Fails as `repair_thin`, with the need of what is written.
pub fn repair_shared<A: Device, B: Device>(
    alloc: Global,
    input: &mut A,
    output: &mut B,
) -> Result<(), RepairFault>
    requires attached { IsAttached (A.state input.old) }
    requires writable { IsWritable (B.state output.old) }
    ensures repaired { IsSharedRepaired result (A.state input.old) (B.state output.old) (B.state output.new) }
    ensures named { IfErr result NamesRules }
    ensures reads { IfErr result (λ fault. ReadsFew fault ((A.state input.old).reads + 1) (A.state input.new).reads) }
    ensures input { OnlyReads (A.state input.old) (A.state input.new) }
    ensures place { KeepsPlace (B.state output.old) (B.state output.new) }
    ensures causes { CountsRepair result (A.state input.old).faults
        (A.state input.new).faults (B.state output.old).faults (B.state output.new).faults }
{
    let s = sound_super(input)?;
    repair_shared_from(alloc, input, output, &s)
}

/// Writes what can be saved of the pool with this superblock to another device. A leaf that devices share, or that one uses
/// twice, is written once.
///
/// Fails as `repair_from`, with the need of what is written. It takes the memory of what is saved, in which a shared leaf
/// stands once.
pub fn repair_shared_from<A: Device, B: Device>(
    alloc: Global,
    input: &mut A,
    output: &mut B,
    s: &ThinSuper,
) -> Result<(), RepairFault>
    requires attached { IsAttached (A.state input.old) }
    requires writable { IsWritable (B.state output.old) }
    requires there { s.now.meta_map.blocks ≤ (A.state input.old).blocks }
    requires few { s.now.meta_map.blocks ≤ 4161600 }
    requires data { s.now.data_map.blocks ≤ 2 ^ 40 }
    ensures repaired { IsSharedRepairedFrom s.now result (A.state input.old) (B.state output.old) (B.state output.new) }
    ensures sound { HasSuper result }
    ensures input { OnlyReads (A.state input.old) (A.state input.new) }
    ensures place { KeepsPlace (B.state output.old) (B.state output.new) }
    ensures causes { CountsRepair result (A.state input.old).faults
        (A.state input.new).faults (B.state output.old).faults (B.state output.new).faults }
{
    let saved = salvage_shape(alloc, input, s)?;
    restore_shape(alloc, saved, output)?;
    Ok(())
}
