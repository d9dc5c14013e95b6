//! The way through the trees of a pool's devices, on which the lines of their runs are printed (`thin_dump`).

use crate::counts::DumpCounts;
use crate::leaf_lines::{add_kept, add_run};
use crate::leaf_texts::LeafTexts;
use pd_image::{Device, Sink};
use pd_lines::Printer;
use pd_meaning_thin::Joined;
use pd_query::QueryFault;
use pd_tree::{Stack, Step};
use pd_value::BlockTime;
use std::alloc::{AllocError, Global};

/// The way through a device's tree, and the texts of the leaves that were met again in it or in those of other devices.
#[derive(Drop)]
pub(crate) struct DeviceWalk {
    stack: Stack,
    /// The run that may still become longer.
    joined: Joined,
    texts: LeafTexts,
}

impl DeviceWalk {
    ghost use Rattle.std.specs.Prelude.{◌≡◌, ◌+◌, ◌-◌, ◌<◌, ◌≤◌, ◌++◌, [], ℕ, List, Option, map, IfSome, OnOk};
    ghost use Rattle.pd_kinds.specs.Graph.{block_at};
    ghost use Rattle.pd_image.specs.Device.{IsAttached, OnlyReads};
    ghost use Rattle.pd_lines.specs.Printer.{printing};
    ghost use Rattle.pd_grammar.specs.ThinText as p;
    ghost use Rattle.pd_tree.specs.Below.{items_below};
    ghost use Rattle.pd_tree.specs.Stack.{child_weight, last_place, stack_items, stack_number};
    ghost use Rattle.pd_meaning_thin.specs.Runs.{block_time_of};
    ghost use Rattle.pd_meaning_thin.specs.Runs.{spelled};
    ghost use Rattle.pd_meaning_thin.specs.Runs.{runs_below};
    ghost use Rattle.pd_pool_dumps.specs.ThinText.{CountsSome};
    ghost use Rattle.pd_pool_dumps.specs.LeafText.{kept_texts, runs_with, walk_runs};
    ghost use Rattle.pd_query.specs.Query.{Fails, SinkFails};
    ghost use Rattle.pd_pool_dumps.specs.LeafText.{AreKept};
    ghost use Rattle.pd_query.specs.Query.{PrintsSome};
    ghost use Rattle.pd_pool_dumps.specs.ThinText.{PrintsRuns};
    ghost use Rattle.pd_pool_dumps.specs.ThinText.{given_text};

    /// No node, and no text, of a pool with so many metadata blocks.
    pub(crate) fn start(alloc: Global, blocks: u64) -> Result<DeviceWalk, AllocError> {
        let stack = Stack::new(alloc)?;
        let texts = LeafTexts::new(alloc, blocks)?;
        Ok(DeviceWalk {
            stack,
            joined: Joined::new(),
            texts,
        })
    }

    /// Forgets all texts, which may be those of another image.
    pub(crate) fn clear(&mut self)
        ensures { kept_texts self.new ≡ [] }
    {
        self.texts.clear();
    }

    /// Looks at the node that was read last. A leaf that is met for the second time is printed by its text, which is kept from
    /// now on; what another node has stays on the way.
    fn meet<K: Sink>(
        &mut self,
        b: u64,
        printer: &mut Printer<'_, K>,
        counts: &mut DumpCounts,
    ) -> Result<(), QueryFault>
        requires some { 0 < self.old.stack.depth }
        requires whole { (last_place self.old.stack).next ≡ 0 }
        requires open { (K.state printer.old.out.now).access ≡ 1 }
        ensures same_reference { printer.new.out.ghost_name ≡ printer.old.out.ghost_name }
        ensures prints { (held : Option (List (List ℕ)))
            → PrintsRuns held (λ image. walk_runs image self.old) (λ image. walk_runs image self.new) result
            (printing K.state printer.old) (printing K.state printer.new) counts.old counts.new }
        ensures texts { OnOk result ((image : List (List ℕ))
            → block_at image b ≡ (last_place self.old.stack).block.0 → AreKept image (kept_texts self.old)
            → AreKept image (kept_texts self.new)) }
        ensures number { OnOk result (stack_number 8 self.new.stack ≤ stack_number 8 self.old.stack) }
        ensures faults { SinkFails result (K.state printer.old.out.now).faults (K.state printer.new.out.now).faults }
    {
        let text = match self.texts.make(b, self.stack.top()) {
            Some(text) => text,
            None => return Ok(()),
        };
        self.stack.pop();
        add_kept(&text, &mut self.joined, printer, counts)?;
        self.texts.keep(text);
        Ok(())
    }

    /// Goes to a node: prints the lines of a leaf whose text is kept, and reads any other node that the device has.
    fn go_to<D: Device, K: Sink>(
        &mut self,
        b: u64,
        dev: &mut D,
        printer: &mut Printer<'_, K>,
        counts: &mut DumpCounts,
    ) -> Result<(), QueryFault>
        requires dev { IsAttached (D.state dev.old) }
        requires room { self.old.stack.depth < 64 }
        requires kept { IfSome (D.state dev.old).held (λ image. AreKept image (kept_texts self.old)) }
        requires open { (K.state printer.old.out.now).access ≡ 1 }
        ensures same_reference { printer.new.out.ghost_name ≡ printer.old.out.ghost_name }
        ensures prints { PrintsRuns (D.state dev.old).held
            (λ image. runs_with self.old (items_below 8 block_time_of image (63 - self.old.stack.depth) b
            ++ stack_items 8 block_time_of image self.old.stack)) (λ image. walk_runs image self.new) result
            (printing K.state printer.old) (printing K.state printer.new) counts.old counts.new }
        ensures texts { OnOk result (IfSome (D.state dev.old).held (λ image. AreKept image (kept_texts self.new))) }
        ensures number { OnOk result (stack_number 8 self.new.stack
            < stack_number 8 self.old.stack + child_weight (64 - self.old.stack.depth)) }
        ensures only_reads { OnlyReads (D.state dev.old) (D.state dev.new) }
        ensures faults { Fails result (D.state dev.old).faults (D.state dev.new).faults
            (K.state printer.old.out.now).faults (K.state printer.new.out.now).faults }
    {
        if let Some(text) = self.texts.find(b) {
            return add_kept(text, &mut self.joined, printer, counts);
        }
        if b >= dev.blocks() {
            return Ok(());
        }
        match self.stack.push::<BlockTime, D>(dev, b) {
            Ok(()) => self.meet(b, printer, counts),
            Err(_) => Err(QueryFault::Device),
        }
    }

    /// Prints the lines of the runs that are left.
    fn go_on<D: Device, K: Sink>(
        &mut self,
        dev: &mut D,
        printer: &mut Printer<'_, K>,
        counts: &mut DumpCounts,
    ) -> Result<(), QueryFault>
        requires dev { IsAttached (D.state dev.old) }
        requires kept { IfSome (D.state dev.old).held (λ image. AreKept image (kept_texts self.old)) }
        requires open { (K.state printer.old.out.now).access ≡ 1 }
        ensures same_reference { printer.new.out.ghost_name ≡ printer.old.out.ghost_name }
        ensures prints { PrintsRuns (D.state dev.old).held (λ image. walk_runs image self.old)
            (λ image. []) result (printing K.state printer.old) (printing K.state printer.new) counts.old counts.new }
        ensures texts { OnOk result (IfSome (D.state dev.old).held (λ image. AreKept image (kept_texts self.new))) }
        ensures only_reads { OnlyReads (D.state dev.old) (D.state dev.new) }
        ensures faults { Fails result (D.state dev.old).faults (D.state dev.new).faults
            (K.state printer.old.out.now).faults (K.state printer.new.out.now).faults }
    {
        'steps: while !self.stack.is_empty() {
            match self.stack.step::<BlockTime>() {
                Step::Passed => {}
                Step::Child(b) => self.go_to(b, dev, printer, counts)?,
                Step::Entry(virt, mapping) => {
                    add_run(self.joined.take(virt, mapping), printer, counts)?
                }
            }
        }
        add_run(self.joined.end(), printer, counts)
    }

    /// Prints the map lines of the runs below a root. A leaf that is met for the third time isn't read.
    pub(crate) fn add_runs_of<D: Device, K: Sink>(
        &mut self,
        root: u64,
        dev: &mut D,
        printer: &mut Printer<'_, K>,
        counts: &mut DumpCounts,
    ) -> Result<(), QueryFault>
        requires dev { IsAttached (D.state dev.old) }
        requires kept { IfSome (D.state dev.old).held (λ image. AreKept image (kept_texts self.old)) }
        requires open { (K.state printer.old.out.now).access ≡ 1 }
        ensures same_reference { printer.new.out.ghost_name ≡ printer.old.out.ghost_name }
        ensures prints { PrintsSome (D.state dev.old).held
            (λ image. given_text (runs_below image root)) result (printing K.state printer.old) (printing K.state printer.new) }
        ensures counted { OnOk result (CountsSome (D.state dev.old).held
            (λ image. map p.map_line (map spelled (runs_below image root))) counts.old counts.new) }
        ensures texts { OnOk result (IfSome (D.state dev.old).held (λ image. AreKept image (kept_texts self.new))) }
        ensures only_reads { OnlyReads (D.state dev.old) (D.state dev.new) }
        ensures faults { Fails result (D.state dev.old).faults (D.state dev.new).faults
            (K.state printer.old.out.now).faults (K.state printer.new.out.now).faults }
    {
        self.stack.clear();
        self.joined = Joined::new();
        self.go_to(root, dev, printer, counts)?;
        self.go_on(dev, printer, counts)
    }
}
