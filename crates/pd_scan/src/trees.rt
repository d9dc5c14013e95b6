//! The sound trees of a pool without its superblock, settled and measured (`thin_repair`).

ghost use Rattle.std.specs.Prelude.{◌≡◌, ◌+◌, ◌*◌, ◌≤◌, IfOk, IfSome, OnOk};
ghost use Rattle.pd_kinds.specs.CheckFault.{CountsCheckFault, StopsEarly};
ghost use Rattle.pd_kinds.specs.declared.limits.TheConstants.{MAX_META_BLOCKS};
ghost use Rattle.pd_kinds.specs.Graph.{Graph};
ghost use Rattle.pd_kinds.specs.Objects.{CountsFault};
ghost use Rattle.pd_image.specs.Device.{IsAttached, OnlyReads};
ghost use Rattle.pd_graph.specs.Notes.{size_of};
ghost use Rattle.pd_measures.specs.Measured.{places_of};
ghost use Rattle.pd_scan.specs.Lost.{IsPool, trees_of as trees_of_tables, AreLostTrees, HavePlaces};
ghost use Rattle.pd_scan.specs.Lost.{AreAllMeasured, AreAllSettled, HaveRoom};

use crate::lost::settle_lost;
use pd_graph::{Format, Notes};
use pd_image::{Device, Failed};
use pd_kinds::CheckFault;
use pd_measures::{
    DetailsGauge, MappingsGauge, Measures, TopGauge, measure_trees, measures_are_those_of_lists,
};
use std::alloc::{AllocError, Global};

/// What is known of the trees of a pool without its superblock, for each block.
#[derive(Drop)]
pub(crate) struct LostTrees {
    /// Which blocks are the roots of sound mapping trees.
    pub(crate) tops: Notes,
    /// Which are those of sound trees of a device's mappings, and how many stand there.
    pub(crate) devices: Notes,
    /// Which are those of sound details trees.
    pub(crate) details: Notes,
    /// What stands below the sound mapping trees.
    pub(crate) top_measures: Measures,
    /// What stands below the sound details trees.
    pub(crate) details_measures: Measures,
}

/// The trees that filled tables tell of.
fn trees_of(tables: Tables) -> LostTrees
    ensures { result ≡ trees_of_tables tables }
{
    let Tables {
        tops,
        devices,
        details,
        top_measures,
        details_measures,
        ..
    } = tables;
    LostTrees {
        tops,
        devices: devices.notes,
        details,
        top_measures,
        details_measures,
    }
}

/// Settles and measures all trees of a pool of this format, whatever its superblock holds.
///
/// It takes all memory that it needs before its first read: 240 bytes and a set of roles for each block.
///
/// Fails with `CheckFault::Memory` where memory wasn't found, and with `CheckFault::Device` where a read failed.
pub(crate) fn measure_lost<F: Format, D: Device>(
    alloc: Global,
    format: &F,
    dev: &mut D,
) -> Result<LostTrees, CheckFault>
    requires pool { IsPool F.ROLES (F.graph format.now) }
    requires attached { IsAttached (D.state dev.old) }
    requires within { (F.graph format.now).nr ≤ (D.state dev.old).blocks }
    ensures trees { IfOk result (λ trees. IfSome (D.state dev.old).held (λ image. AreLostTrees (F.graph format.now) image trees)) }
    ensures places { IfOk result (HavePlaces (F.graph format.now).nr) }

    // At most eleven reads for each block, whatever it shares: eight settle it, and one measures it in each role.
    ensures reads { (D.state dev.new).reads ≤ (D.state dev.old).reads + 11 * (F.graph format.now).nr }
    ensures early { StopsEarly result (D.state dev.old).reads (D.state dev.new).reads }
    ensures kept { OnlyReads (D.state dev.old) (D.state dev.new) }
    ensures faults { CountsCheckFault result (D.state dev.old).faults (D.state dev.new).faults }
{
    measures_are_those_of_lists();
    let mut tables = empty_tables(alloc, format.nr())?;
    fill(&mut tables, format, dev)?;
    Ok(trees_of(tables))
}

// The tables of all trees of a pool: their memory, and how they are filled (`thin_repair`).

/// The tables of all trees of a pool, by block, while they are filled.
#[derive(Drop)]
pub(crate) struct Tables {
    /// The roles in which each block is fit by itself.
    pub(crate) fit: Vec<u16>,
    /// The notes of mapping trees.
    pub(crate) tops: Notes,
    /// The notes of devices' trees, and the measures of their mappings' times.
    pub(crate) devices: TopGauge,
    /// The notes of details trees.
    pub(crate) details: Notes,
    /// The measures of mapping trees.
    pub(crate) top_measures: Measures,
    /// The measures of details trees.
    pub(crate) details_measures: Measures,
}

/// The tables of so many blocks, from 1 to `MAX_META_BLOCKS`, with all the memory that they need: 240 bytes and a set of
/// roles for each block. Want of it is the only error.
pub(crate) fn empty_tables(alloc: Global, nr: u64) -> Result<Tables, AllocError>
    requires some { 1 ≤ nr }
    requires few { nr ≤ MAX_META_BLOCKS }
    ensures { IfOk result (HaveRoom nr) }
{
    let mut fit = Vec::new(alloc);
    fit.resize(nr as usize, 0)?;
    let tops = Notes::new(alloc, nr)?;
    let devices = empty_devices(alloc, nr)?;
    let details = Notes::new(alloc, nr)?;
    let top_measures = Measures::new(alloc, nr)?;
    let details_measures = Measures::new(alloc, nr)?;
    Ok(Tables {
        fit,
        tops,
        devices,
        details,
        top_measures,
        details_measures,
    })
}

/// The tables of devices' trees.
fn empty_devices(alloc: Global, nr: u64) -> Result<TopGauge, AllocError>
    requires some { 1 ≤ nr }
    requires few { nr ≤ MAX_META_BLOCKS }
    ensures notes { IfOk result (λ devices. size_of devices.notes ≡ nr) }
    ensures times { IfOk result (λ devices. places_of devices.times ≡ nr) }
{
    let notes = Notes::new(alloc, nr)?;
    let times = Measures::new(alloc, nr)?;
    Ok(TopGauge { notes, times })
}

/// Settles all trees of a pool, in each of the three roles.
fn settle_all<F: Format, D: Device>(
    tables: &mut Tables,
    format: &F,
    dev: &mut D,
) -> Result<(), Failed>
    requires pool { IsPool F.ROLES (F.graph format.now) }
    requires room { HaveRoom (F.graph format.now).nr tables.old }
    requires attached { IsAttached (D.state dev.old) }
    requires within { (F.graph format.now).nr ≤ (D.state dev.old).blocks }
    ensures settled { OnOk result (IfSome (D.state dev.old).held (λ image. AreAllSettled (F.graph format.now) image tables.new)) }
    ensures room { OnOk result (HaveRoom (F.graph format.now).nr tables.new) }
    ensures reads { (D.state dev.new).reads ≤ (D.state dev.old).reads + 8 * (F.graph format.now).nr }
    ensures kept { OnlyReads (D.state dev.old) (D.state dev.new) }
    ensures faults { CountsFault result (D.state dev.old).faults (D.state dev.new).faults }
{
    settle_lost(
        tables.fit.as_mut_slice(),
        &mut tables.tops,
        &mut tables.devices.notes,
        &mut tables.details,
        format,
        dev,
    )
}

/// Measures all settled trees: those of devices before the tops, which count what stands below the roots that they name.
fn measure_all<D: Device>(tables: &mut Tables, dev: &mut D) -> Result<(), Failed>
    requires room { HaveRoom (size_of tables.old.tops) tables.old }
    requires attached { IsAttached (D.state dev.old) }
    requires within { size_of tables.old.tops ≤ (D.state dev.old).blocks }
    ensures measured { OnOk result (IfSome (D.state dev.old).held (λ image. (graph : Graph)
        → AreAllSettled graph image tables.old → AreAllMeasured graph image tables.new)) }
    ensures room { OnOk result (HaveRoom (size_of tables.old.tops) tables.new) }
    ensures reads { (D.state dev.new).reads ≤ (D.state dev.old).reads + 3 * size_of tables.old.tops }
    ensures kept { OnlyReads (D.state dev.old) (D.state dev.new) }
    ensures faults { CountsFault result (D.state dev.old).faults (D.state dev.new).faults }
{
    measure_trees(
        &mut tables.devices.times,
        &tables.devices.notes,
        &MappingsGauge,
        dev,
    )?;
    measure_trees(
        &mut tables.details_measures,
        &tables.details,
        &DetailsGauge,
        dev,
    )?;
    measure_trees(&mut tables.top_measures, &tables.tops, &tables.devices, dev)?;
    Ok(())
}

/// Settles and measures all trees of a pool of this format, whatever its superblock holds. It takes no memory.
///
/// After `Failed` nothing is said of the tables.
pub(crate) fn fill<F: Format, D: Device>(
    tables: &mut Tables,
    format: &F,
    dev: &mut D,
) -> Result<(), Failed>
    requires pool { IsPool F.ROLES (F.graph format.now) }
    requires room { HaveRoom (F.graph format.now).nr tables.old }
    requires attached { IsAttached (D.state dev.old) }
    requires within { (F.graph format.now).nr ≤ (D.state dev.old).blocks }
    ensures measured { OnOk result (IfSome (D.state dev.old).held (λ image. AreAllMeasured (F.graph format.now) image tables.new)) }
    ensures room { OnOk result (HaveRoom (F.graph format.now).nr tables.new) }
    ensures reads { (D.state dev.new).reads ≤ (D.state dev.old).reads + 11 * (F.graph format.now).nr }
    ensures kept { OnlyReads (D.state dev.old) (D.state dev.new) }
    ensures faults { CountsFault result (D.state dev.old).faults (D.state dev.new).faults }
{
    settle_all(tables, format, dev)?;
    measure_all(tables, dev)
}
