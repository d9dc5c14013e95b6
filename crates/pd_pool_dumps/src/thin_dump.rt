//! The dump of a pool (`thin_dump`).

use crate::counts::DumpCounts;
use crate::device_walk::DeviceWalk;
use crate::thin_lines::add_pool;
use pd_image::{Device, Sink};
use pd_kinds::{MAX_META_BLOCKS, ThinSuper};
use pd_lines::Printer;
use pd_meaning_thin::{ThinDevices, given_lines_are_the_text, rows_are_the_devices};
use pd_query::{Query, QueryFault, read_super};
use std::alloc::{AllocError, Global};

/// The dump of a pool, with the memory that it takes.
#[derive(Drop)]
pub struct ThinDump {
    s: ThinSuper,
    devices: ThinDevices,
    walk: DeviceWalk,
}

impl ThinDump {
    ghost use Rattle.std.specs.Prelude.{◌≡◌, ◌≤◌, ℕ, List, [], IfOk, IfSome, length};
    ghost use Rattle.pd_kinds.specs.declared.kind.Kind.TheVariants.{Thin};
    ghost use Rattle.pd_kinds.specs.declared.kind.Stage.TheVariants.{Whole};
    ghost use Rattle.pd_kinds.specs.Graph.{block_at};
    ghost use Rattle.pd_kinds.specs.Meaning.{thin_meaning};
    ghost use Rattle.pd_kinds.specs.Stages.{faults};
    ghost use Rattle.pd_kinds.specs.ThinFormat.{thin_fields};
    ghost use Rattle.pd_image.specs.Device.{IsAttached, OnlyReads};
    ghost use Rattle.pd_image.specs.Sink.{KeepsSink};
    ghost use Rattle.pd_grammar.specs.ThinText.{text_of_pool};
    ghost use Rattle.pd_query.specs.Query.{PutsText};
    ghost use Rattle.pd_query.specs.Query.{Fails, StartFails};
    ghost use Rattle.pd_pool_dumps.specs.ThinText.{IsCountOf};
    ghost use Rattle.pd_pool_dumps.specs.ThinDump.{lines_left, text_left, used_of};
    ghost use Rattle.pd_pool_dumps.specs.ThinText.{dump_text};
    ghost use Rattle.pd_meaning_thin.specs.Given.{super_lines};

    /// Reads the superblock of a pool, and takes the memory for its dump: three cursors over trees, and 4 bytes a metadata
    /// block for which leaves were met.
    ///
    /// Fails with `Device` where a read failed, and with `Memory` where that memory wasn't found.
    pub fn start<D: Device>(alloc: Global, dev: &mut D) -> Result<ThinDump, QueryFault>
        requires { IsAttached (D.state dev.old) }
        ensures text { IfOk result (λ dump. IfSome (D.state dev.old).held (λ image. 1 ≤ length image
            → text_left image dump ≡ dump_text image (thin_fields (block_at image 0)))) }
        ensures means { IfOk result (λ dump. IfSome (D.state dev.old).held
            (λ image. faults Thin Whole image ≡ [] → text_left image dump ≡ text_of_pool (thin_meaning image))) }
        ensures lines { IfOk result (λ dump. IfSome (D.state dev.old).held (λ image. 1 ≤ length image
            → lines_left image dump ≡ super_lines image (thin_fields (block_at image 0)))) }
        ensures used { IfOk result (λ dump. IfSome (D.state dev.old).held (λ image. 1 ≤ length image
            → used_of dump ≡ (thin_fields (block_at image 0)).meta_map.allocated)) }
        ensures kept { OnlyReads (D.state dev.old) (D.state dev.new) }
        ensures faults { StartFails result (D.state dev.old).faults (D.state dev.new).faults }
    {
        given_lines_are_the_text();
        rows_are_the_devices();
        let s = match read_super(dev) {
            Ok(s) => s,
            Err(_) => return Err(QueryFault::Device),
        };
        let blocks = dev.blocks().min(s.meta_map.blocks).min(MAX_META_BLOCKS);
        let dump = ThinDump::with_super(alloc, s, blocks)?;
        Ok(dump)
    }

    /// Takes the memory for the dump of the pool with this superblock, and so many metadata blocks.
    fn with_super(alloc: Global, s: ThinSuper, blocks: u64) -> Result<ThinDump, AllocError>
        ensures text { (image : List (List ℕ)) → IfOk result (λ dump. text_left image dump ≡ dump_text image s) }
        ensures lines { (image : List (List ℕ)) → IfOk result (λ dump. lines_left image dump ≡ super_lines image s) }
        ensures used { IfOk result (λ dump. used_of dump ≡ s.meta_map.allocated) }
    {
        let walk = DeviceWalk::start(alloc, blocks)?;
        let devices = ThinDevices::start(alloc, &s)?;
        Ok(ThinDump { s, devices, walk })
    }

    /// How many metadata blocks the pool uses, as its superblock says.
    pub fn used(&self) -> u64
        ensures { result ≡ used_of self.now }
    {
        self.s.meta_map.allocated
    }

    /// Puts the pool's text, once. It takes up to 16 MiB for the texts of leaves that are met again; where they aren't found,
    /// it reads these leaves each time.
    ///
    /// Fails with `Device` where a read failed, and with `Sink` where `out` did; then a front of the text was put.
    pub fn put<D: Device, K: Sink>(&mut self, dev: &mut D, out: &mut K) -> Result<(), QueryFault>
        requires dev { IsAttached (D.state dev.old) }
        requires out { (K.state out.old).access ≡ 1 }
        ensures text { PutsText (D.state dev.old).held
            (λ image. text_left image self.old) result (K.state out.old).written (K.state out.new).written }
        ensures kept { OnlyReads (D.state dev.old) (D.state dev.new) }
        ensures sink { KeepsSink (K.state out.old) (K.state out.new) }
        ensures faults { Fails result (D.state dev.old).faults (D.state dev.new).faults (K.state out.old).faults (K.state out.new).faults }
    {
        self.put_counted(dev, out)?;
        Ok(())
    }

    /// Puts the pool's text in the same way, and answers what it counted of the lines that it put.
    pub fn put_counted<D: Device, K: Sink>(
        &mut self,
        dev: &mut D,
        out: &mut K,
    ) -> Result<DumpCounts, QueryFault>
        requires dev { IsAttached (D.state dev.old) }
        requires out { (K.state out.old).access ≡ 1 }
        ensures text { PutsText (D.state dev.old).held
            (λ image. text_left image self.old) result (K.state out.old).written (K.state out.new).written }
        ensures counted { IfOk result (λ counts. IfSome (D.state dev.old).held (λ image. IsCountOf counts (lines_left image self.old))) }
        ensures kept { OnlyReads (D.state dev.old) (D.state dev.new) }
        ensures sink { KeepsSink (K.state out.old) (K.state out.new) }
        ensures faults { Fails result (D.state dev.old).faults (D.state dev.new).faults (K.state out.old).faults (K.state out.new).faults }
    {
        let mut printer = Printer::to_sink(out);
        let mut counts = DumpCounts::none();
        self.walk.clear();
        add_pool(
            &self.s,
            &mut self.devices,
            &mut self.walk,
            dev,
            &mut printer,
            &mut counts,
        )?;
        match printer.finish() {
            Ok(()) => Ok(counts),
            Err(_) => Err(QueryFault::Sink),
        }
    }
}

/// The text of a pool, as it is asked for.
#[derive(Clone, Copy, Debug, PartialEq, Eq)]
pub struct TextOfPool;

impl Query for TextOfPool {
    ghost use Rattle.std.specs.Prelude.{◌≡◌};
    ghost use Rattle.pd_kinds.specs.declared.kind.Kind.TheVariants.{Thin};
    ghost use Rattle.pd_kinds.specs.declared.kind.Stage.TheVariants.{Whole};
    ghost use Rattle.pd_kinds.specs.Meaning.{thin_meaning};
    ghost use Rattle.pd_grammar.specs.ThinText.{text_of_pool};
    ghost use Rattle.pd_query.specs.Query.{IfSound};
    ghost use Rattle.pd_pool_dumps.specs.ThinDump.{text_left};

    type Started = ThinDump;

    ghost kind = { Thin };

    ghost stage = { Whole };

    ghost answer = { λ query image. text_of_pool (thin_meaning image) };

    ghost IsOver = { λ query dump held. IfSound Thin held (λ image. text_left image dump ≡ text_of_pool (thin_meaning image)) };

    fn start<D: Device>(&self, alloc: Global, dev: &mut D) -> Result<ThinDump, QueryFault> {
        ThinDump::start(alloc, dev)
    }

    fn put<D: Device, K: Sink>(
        &self,
        alloc: Global,
        started: ThinDump,
        dev: &mut D,
        out: &mut K,
    ) -> Result<(), QueryFault> {
        let mut dump = started;
        dump.put(dev, out)
    }
}
