//! The dump of a cache (`cache_dump`).

ghost use Rattle.std.specs.Prelude.{◌≡◌, ℕ, List, IfSome};
ghost use Rattle.std.proofs.Props.{props};
ghost use Rattle.pd_grammar.specs.CacheText as c;
ghost use Rattle.pd_image.specs.Device.{IsAttached, OnlyReads};
ghost use Rattle.pd_image.specs.Sink.{KeepsSink};
ghost use Rattle.pd_meaning_cache.specs.Sides.{Knows, rows_ahead};
ghost use Rattle.pd_lines.specs.Printer.{printing};
ghost use Rattle.pd_texts_kinds.specs.CacheLine.{line_of};
ghost use Rattle.pd_query.specs.Query.{PutsText, Fails, PrintsSome};
ghost use Rattle.pd_dumps.specs.CacheLines.{rows_dump_text, given_line, rows_text, super_head};

use crate::laws::given_cache_lines_are_the_text;
use crate::supers::read_cache;
use pd_image::{Device, Sink};
use pd_kinds::{CacheSuper, Kind};
use pd_lines::Printer;
use pd_meaning_cache::{CacheRow, CacheRows};
use pd_query::{Query, QueryFault, finish, print_line, print_text_line};
use pd_texts::{bytes_of_end, bytes_of_first};
use pd_texts_kinds::CacheLine;
use std::alloc::{AllocError, Global};

/// The dump of a cache, with the memory that it takes.
#[derive(Drop)]
pub struct CacheDump {
    s: CacheSuper,
    /// Its mappings, until they are put. Nothing is noted of their array blocks yet.
    rows: Option<CacheRows>,
    ghost unread: { IfSome rows (λ rows. (image : List (List ℕ)) → Knows image rows) } by { Prim.hlevel props },
}

/// Puts the text of the cache with this superblock and these mappings.
fn put_rows<D: Device, K: Sink>(
    s: &CacheSuper,
    rows: &mut CacheRows,
    dev: &mut D,
    out: &mut K,
) -> Result<(), QueryFault>
    requires dev { IsAttached (D.state dev.old) }
    requires out { (K.state out.old).access ≡ 1 }
    requires knows { IfSome (D.state dev.old).held (λ image. Knows image rows.old) }
    ensures text { PutsText (D.state dev.old).held
        (λ image. rows_dump_text image s.now rows.old) result (K.state out.old).written (K.state out.new).written }
    ensures kept { OnlyReads (D.state dev.old) (D.state dev.new) }
    ensures sink { KeepsSink (K.state out.old) (K.state out.new) }
    ensures faults { Fails result (D.state dev.old).faults (D.state dev.new).faults (K.state out.old).faults (K.state out.new).faults }
{
    let mut printer = Printer::to_sink(out);
    add_cache(s, rows, dev, &mut printer)?;
    finish(printer)
}

impl CacheDump {
    ghost use Rattle.std.specs.Prelude.{◌≡◌, ◌≤◌, [], ℕ, List, IfOk, IfSome, length};
    ghost use Rattle.pd_kinds.specs.declared.kind.Kind.TheVariants.{Cache};
    ghost use Rattle.pd_kinds.specs.declared.kind.Stage.TheVariants.{Whole};
    ghost use Rattle.pd_kinds.specs.CacheFormat.{cache_fields};
    ghost use Rattle.pd_kinds.specs.Graph.{block_at};
    ghost use Rattle.pd_kinds.specs.Meaning.{cache_meaning};
    ghost use Rattle.pd_kinds.specs.Stages.{faults};
    ghost use Rattle.pd_image.specs.Device.{IsAttached, OnlyReads};
    ghost use Rattle.pd_image.specs.Sink.{KeepsSink};
    ghost use Rattle.pd_grammar.specs.CacheText.{text_of_cache};
    ghost use Rattle.pd_query.specs.Query.{PutsText};
    ghost use Rattle.pd_query.specs.Query.{Fails, StartFails};
    ghost use Rattle.pd_dumps.specs.CacheDump.{text_left};
    ghost use Rattle.pd_dumps.specs.CacheLines.{cache_dump_text};

    /// Reads the superblock of a cache, and takes the memory for its dump: at most three cursors over arrays, and for each
    /// of these arrays two bytes a block of the device, which are used as far as the last array block that is noted.
    ///
    /// Fails with `Device` where a read failed, and with `Memory` where that memory wasn't found.
    pub fn start<D: Device>(alloc: Global, dev: &mut D) -> Result<CacheDump, QueryFault>
        requires { IsAttached (D.state dev.old) }
        ensures text { IfOk result (λ dump. IfSome (D.state dev.old).held (λ image. 1 ≤ length image
            → text_left image dump ≡ cache_dump_text image (cache_fields (block_at image 0)))) }
        ensures means { IfOk result (λ dump. IfSome (D.state dev.old).held (λ image. faults Cache Whole image ≡ []
            → text_left image dump ≡ text_of_cache (cache_meaning image))) }
        ensures kept { OnlyReads (D.state dev.old) (D.state dev.new) }
        ensures faults { StartFails result (D.state dev.old).faults (D.state dev.new).faults }
    {
        given_cache_lines_are_the_text();
        let s = match read_cache(dev) {
            Ok(s) => s,
            Err(_) => return Err(QueryFault::Device),
        };
        let blocks = dev.blocks();
        let dump = CacheDump::with_super(alloc, blocks, s)?;
        Ok(dump)
    }

    /// Takes the memory for the dump of the cache with this superblock, over a device of so many blocks.
    fn with_super(alloc: Global, blocks: u64, s: CacheSuper) -> Result<CacheDump, AllocError>
        ensures text { (image : List (List ℕ)) → IfOk result (λ dump. text_left image dump ≡ cache_dump_text image s) }
    {
        let rows = CacheRows::start(alloc, blocks, &s)?;
        Ok(CacheDump {
            s,
            rows: Some(rows),
        })
    }

    /// Puts the cache's text, once. It takes no memory.
    ///
    /// Fails with `Device` where a read failed, and with `Sink` where `out` did; then a front of the text was put.
    pub fn put<D: Device, K: Sink>(&mut self, dev: &mut D, out: &mut K) -> Result<(), QueryFault>
        requires dev { IsAttached (D.state dev.old) }
        requires out { (K.state out.old).access ≡ 1 }
        ensures text { PutsText (D.state dev.old).held
            (λ image. text_left image self.old) result (K.state out.old).written (K.state out.new).written }
        ensures kept { OnlyReads (D.state dev.old) (D.state dev.new) }
        ensures sink { KeepsSink (K.state out.old) (K.state out.new) }
        ensures faults { Fails result (D.state dev.old).faults (D.state dev.new).faults (K.state out.old).faults (K.state out.new).faults }
    {
        match self.rows.take() {
            Some(rows) => {
                let mut rows = rows;
                put_rows(&self.s, &mut rows, dev, out)
            }
            None => Ok(()),
        }
    }
}

/// The text of a cache, as it is asked for.
#[derive(Clone, Copy, Debug, PartialEq, Eq)]
pub struct TextOfCache;

impl Query for TextOfCache {
    ghost use Rattle.std.specs.Prelude.{◌≡◌};
    ghost use Rattle.pd_kinds.specs.declared.kind.Kind.TheVariants.{Cache};
    ghost use Rattle.pd_kinds.specs.declared.kind.Stage.TheVariants.{Whole};
    ghost use Rattle.pd_kinds.specs.Meaning.{cache_meaning};
    ghost use Rattle.pd_grammar.specs.CacheText.{text_of_cache};
    ghost use Rattle.pd_query.specs.Query.{IfSound};
    ghost use Rattle.pd_dumps.specs.CacheDump.{text_left};

    type Started = CacheDump;

    ghost kind = { Cache };

    ghost stage = { Whole };

    ghost answer = { λ query image. text_of_cache (cache_meaning image) };

    ghost IsOver = { λ query dump held. IfSound Cache held (λ image. text_left image dump ≡ text_of_cache (cache_meaning image)) };

    fn start<D: Device>(&self, alloc: Global, dev: &mut D) -> Result<CacheDump, QueryFault> {
        CacheDump::start(alloc, dev)
    }

    fn put<D: Device, K: Sink>(
        &self,
        alloc: Global,
        started: CacheDump,
        dev: &mut D,
        out: &mut K,
    ) -> Result<(), QueryFault> {
        let mut dump = started;
        dump.put(dev, out)
    }
}

// The lines of a cache, printed (`cache_dump`).

/// The line of a cache.
fn cache_line(s: &CacheSuper) -> CacheLine
    ensures { line_of result ≡ c.cache_line (super_head s.now) }
{
    CacheLine::Cache {
        uuid: s.uuid,
        block_size: s.block_size,
        blocks: s.blocks,
        clean: s.flags % 2 == 1,
        policy: s.policy,
        versions: s.versions,
        hint_size: s.hint_size,
    }
}

/// The line of a mapping.
fn map_line(row: &CacheRow) -> CacheLine
    ensures { line_of result ≡ given_line row.now }
{
    CacheLine::Map {
        block: row.block.min(4294967295) as u32,
        origin: row.origin,
        dirty: row.dirty,
        hint: row.hint,
    }
}

/// Prints the lines of the mappings that are left.
fn add_rows<D: Device, K: Sink>(
    rows: &mut CacheRows,
    dev: &mut D,
    printer: &mut Printer<'_, K>,
) -> Result<(), QueryFault>
    requires dev { IsAttached (D.state dev.old) }
    requires open { (K.state printer.old.out.now).access ≡ 1 }
    requires knows { IfSome (D.state dev.old).held (λ image. Knows image rows.old) }
    ensures same_reference { printer.new.out.ghost_name ≡ printer.old.out.ghost_name }
    ensures prints { PrintsSome (D.state dev.old).held
        (λ image. rows_text (rows_ahead image rows.old)) result (printing K.state printer.old) (printing K.state printer.new) }
    ensures kept { OnlyReads (D.state dev.old) (D.state dev.new) }
    ensures faults { Fails result (D.state dev.old).faults
        (D.state dev.new).faults (K.state printer.old.out.now).faults (K.state printer.new.out.now).faults }
{
    loop {
        let row = match rows.next(dev) {
            Ok(row) => row,
            Err(_) => return Err(QueryFault::Device),
        };
        match row {
            Some(row) => print_text_line(&map_line(&row), printer)?,
            None => return Ok(()),
        }
    }
}

/// Prints the lines of a cache, from the first one to the last.
pub(crate) fn add_cache<D: Device, K: Sink>(
    s: &CacheSuper,
    rows: &mut CacheRows,
    dev: &mut D,
    printer: &mut Printer<'_, K>,
) -> Result<(), QueryFault>
    requires dev { IsAttached (D.state dev.old) }
    requires open { (K.state printer.old.out.now).access ≡ 1 }
    requires knows { IfSome (D.state dev.old).held (λ image. Knows image rows.old) }
    ensures same_reference { printer.new.out.ghost_name ≡ printer.old.out.ghost_name }
    ensures prints { PrintsSome (D.state dev.old).held
        (λ image. rows_dump_text image s.now rows.old) result (printing K.state printer.old) (printing K.state printer.new) }
    ensures kept { OnlyReads (D.state dev.old) (D.state dev.new) }
    ensures faults { Fails result (D.state dev.old).faults
        (D.state dev.new).faults (K.state printer.old.out.now).faults (K.state printer.new.out.now).faults }
{
    print_line(bytes_of_first(Kind::Cache), printer)?;
    print_text_line(&cache_line(s), printer)?;
    add_rows(rows, dev, printer)?;
    print_line(bytes_of_end(), printer)
}
