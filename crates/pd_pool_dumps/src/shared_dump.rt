//! The dump of a pool in whose text each leaf that devices share stands once (`thin_dump --shared`).

ghost use Rattle.std.specs.Prelude.{◌≡◌, ℕ, List, []};
ghost use Rattle.pd_kinds.specs.declared.kind.Kind.TheVariants.{Thin};
ghost use Rattle.pd_kinds.specs.declared.kind.Stage.TheVariants.{Whole};
ghost use Rattle.pd_kinds.specs.Graph.{block_at};
ghost use Rattle.pd_kinds.specs.Stages.{faults};
ghost use Rattle.pd_kinds.specs.ThinFormat.{thin_graph, thin_fields};
ghost use Rattle.pd_grammar.specs.Texts.{text_of_lines};
ghost use Rattle.pd_grammar.specs.ThinText.{thin};
ghost use Rattle.pd_laid.specs.Shape.{image_shape, shared_leaves};
ghost use Rattle.pd_laid.specs.PoolText.{text_of_shape};
ghost use Rattle.pd_pool_dumps.specs.SharedLines.{shared_lines};

use crate::shared_lines::add_shared_pool;
use pd_image::{Device, Sink};
use pd_kinds::ThinSuper;
use pd_lines::Printer;
use pd_meaning_thin::{
    MapRuns, PieceRuns, SharedLeaves, ThinDevices, pieces_are_those_of_the_shape,
    rows_are_the_devices,
};
use pd_query::{Query, QueryFault, finish, read_super};
use std::alloc::{AllocError, Global};

/// The dump of a pool with its shared leaves, with the memory that it takes.
#[derive(Drop)]
pub struct SharedDump {
    s: ThinSuper,
    sharing: SharingDevices,
}

impl SharedDump {
    ghost use Rattle.std.specs.Prelude.{◌≡◌, [], IfOk, IfSome};
    ghost use Rattle.pd_kinds.specs.declared.kind.Kind.TheVariants.{Thin};
    ghost use Rattle.pd_kinds.specs.declared.kind.Stage.TheVariants.{Whole};
    ghost use Rattle.pd_kinds.specs.Stages.{faults};
    ghost use Rattle.pd_image.specs.Device.{IsAttached, OnlyReads};
    ghost use Rattle.pd_image.specs.Sink.{KeepsSink};
    ghost use Rattle.pd_laid.specs.Shape.{image_shape};
    ghost use Rattle.pd_laid.specs.PoolText.{text_of_shape};
    ghost use Rattle.pd_query.specs.Query.{PutsText};
    ghost use Rattle.pd_query.specs.Query.{Fails, StartFails};
    ghost use Rattle.pd_pool_dumps.specs.ThinDump.{shared_text_left};

    /// Reads the superblock of a pool, finds the leaves that its devices share, and takes the memory for its dump: that
    /// of these leaves, and four cursors over trees.
    ///
    /// Fails with `Device` where a read failed, and with `Memory` where that memory wasn't found.
    pub fn start<D: Device>(alloc: Global, dev: &mut D) -> Result<SharedDump, QueryFault>
        requires { IsAttached (D.state dev.old) }
        ensures means { IfOk result (λ dump. IfSome (D.state dev.old).held (λ image. faults Thin Whole image ≡ []
            → shared_text_left image dump ≡ text_of_shape (image_shape image))) }
        ensures kept { OnlyReads (D.state dev.old) (D.state dev.new) }
        ensures faults { StartFails result (D.state dev.old).faults (D.state dev.new).faults }
    {
        shared_lines_are_the_text();
        rows_are_the_devices();
        let s = match read_super(dev) {
            Ok(s) => s,
            Err(_) => return Err(QueryFault::Device),
        };
        let sharing = SharingDevices::start(alloc, dev, &s)?;
        Ok(SharedDump { s, sharing })
    }

    /// Puts the pool's text, once. It takes no memory.
    ///
    /// Fails with `Device` where a read failed, and with `Sink` where `out` did; then a front of the text was put.
    pub fn put<D: Device, K: Sink>(&mut self, dev: &mut D, out: &mut K) -> Result<(), QueryFault>
        requires dev { IsAttached (D.state dev.old) }
        requires out { (K.state out.old).access ≡ 1 }
        ensures text { PutsText (D.state dev.old).held
            (λ image. shared_text_left image self.old) result (K.state out.old).written (K.state out.new).written }
        ensures kept { OnlyReads (D.state dev.old) (D.state dev.new) }
        ensures sink { KeepsSink (K.state out.old) (K.state out.new) }
        ensures faults { Fails result (D.state dev.old).faults (D.state dev.new).faults (K.state out.old).faults (K.state out.new).faults }
    {
        let mut printer = Printer::to_sink(out);
        add_shared_pool(&self.s, &mut self.sharing, dev, &mut printer)?;
        finish(printer)
    }
}

/// The text of a pool in which each leaf that devices share stands once, as it is asked for.
#[derive(Clone, Copy, Debug, PartialEq, Eq)]
pub struct TextOfShape;

impl Query for TextOfShape {
    ghost use Rattle.std.specs.Prelude.{◌≡◌};
    ghost use Rattle.pd_kinds.specs.declared.kind.Kind.TheVariants.{Thin};
    ghost use Rattle.pd_kinds.specs.declared.kind.Stage.TheVariants.{Whole};
    ghost use Rattle.pd_laid.specs.Shape.{image_shape};
    ghost use Rattle.pd_laid.specs.PoolText.{text_of_shape};
    ghost use Rattle.pd_query.specs.Query.{IfSound};
    ghost use Rattle.pd_pool_dumps.specs.ThinDump.{shared_text_left};

    type Started = SharedDump;

    ghost kind = { Thin };

    ghost stage = { Whole };

    ghost answer = { λ query image. text_of_shape (image_shape image) };

    ghost IsOver = { λ query dump held. IfSound Thin held (λ image. shared_text_left image dump ≡ text_of_shape (image_shape image)) };

    fn start<D: Device>(&self, alloc: Global, dev: &mut D) -> Result<SharedDump, QueryFault> {
        SharedDump::start(alloc, dev)
    }

    fn put<D: Device, K: Sink>(
        &self,
        alloc: Global,
        started: SharedDump,
        dev: &mut D,
        out: &mut K,
    ) -> Result<(), QueryFault> {
        let mut dump = started;
        dump.put(dev, out)
    }
}

// What is to be put of a pool's devices and of the leaves that they share (`thin_dump --shared`).

/// The devices of a pool and the leaves that they share, with the memory that their lines take.
#[derive(Drop)]
pub(crate) struct SharingDevices {
    pub(crate) devices: ThinDevices,
    pub(crate) shared: SharedLeaves,
    /// The runs of a shared leaf; each leaf begins them again.
    pub(crate) runs: MapRuns,
    /// The pieces of a device; each device begins them again.
    pub(crate) pieces: PieceRuns,
}

impl SharingDevices {
    ghost use Rattle.std.specs.Prelude.{◌≡◌, ℕ, List, [], IfOk, IfSome};
    ghost use Rattle.pd_kinds.specs.declared.kind.Kind.TheVariants.{Thin};
    ghost use Rattle.pd_kinds.specs.declared.kind.Stage.TheVariants.{Whole};
    ghost use Rattle.pd_kinds.specs.Graph.{block_at};
    ghost use Rattle.pd_kinds.specs.Stages.{faults};
    ghost use Rattle.pd_kinds.specs.ThinFormat.{thin_graph};
    ghost use Rattle.pd_kinds.specs.ThinFormat.{thin_fields};
    ghost use Rattle.pd_image.specs.Device.{IsAttached, OnlyReads};
    ghost use Rattle.pd_laid.specs.Shape.{shared_leaves};
    ghost use Rattle.pd_meaning_thin.specs.Runs.{rows_left};
    ghost use Rattle.pd_meaning_thin.specs.Given.{super_rows};
    ghost use Rattle.pd_meaning_thin.specs.Walk.{shared_blocks};
    ghost use Rattle.pd_query.specs.Query.{StartFails};
    ghost use Rattle.pd_pool_dumps.specs.ThinDump.{body_left};
    ghost use Rattle.pd_pool_dumps.specs.SharedLines.{body_lines};

    /// Finds the shared leaves of the pool with this superblock, and takes the memory for four cursors.
    ///
    /// Fails with `Device` where a read failed, and with `Memory` where memory wasn't found.
    pub(crate) fn start<D: Device>(
        alloc: Global,
        dev: &mut D,
        s: &ThinSuper,
    ) -> Result<SharingDevices, QueryFault>
        requires { IsAttached (D.state dev.old) }
        ensures lines { IfOk result (λ sharing. IfSome (D.state dev.old).held
            (λ image. faults Thin Whole image ≡ [] → s.now ≡ thin_fields (block_at image 0)
            → body_left image sharing ≡ body_lines (shared_leaves (thin_graph (block_at image 0)) image) image (super_rows image s.now))) }
        ensures kept { OnlyReads (D.state dev.old) (D.state dev.new) }
        ensures faults { StartFails result (D.state dev.old).faults (D.state dev.new).faults }
    {
        let shared = SharedLeaves::find(alloc, dev, s)?;
        let sharing = SharingDevices::with_super(alloc, s, shared)?;
        Ok(sharing)
    }

    /// Takes the memory for the four cursors over the pool with this superblock and these shared leaves.
    fn with_super(
        alloc: Global,
        s: &ThinSuper,
        shared: SharedLeaves,
    ) -> Result<SharingDevices, AllocError>
        ensures rows { (image : List (List ℕ)) → IfOk result (λ sharing. rows_left image sharing.devices ≡ super_rows image s.now) }
        ensures shared { IfOk result (λ sharing. shared_blocks sharing.shared ≡ shared_blocks shared) }
    {
        let devices = ThinDevices::start(alloc, s)?;
        let runs = MapRuns::start(alloc, s.mapping_root)?;
        let pieces = PieceRuns::start(alloc, s.mapping_root)?;
        Ok(SharingDevices {
            devices,
            shared,
            runs,
            pieces,
        })
    }
}

// What the lines of version 2 come to for a pool without faults: the text of its shape (`thin_dump --shared`).

/// In a pool without faults up to the stage Whole the lines of the leaves that its devices share and those of the
/// devices' pieces are the text of its shape.
pub fn shared_lines_are_the_text()
    ensures { (image : List (List ℕ)) → faults Thin Whole image ≡ []
        → text_of_lines thin (shared_lines (shared_leaves (thin_graph (block_at image 0)) image) image (thin_fields (block_at image 0)))
        ≡ text_of_shape (image_shape image) }
{
    rows_are_the_devices();
    pieces_are_those_of_the_shape();
}
