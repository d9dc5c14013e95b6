//! The lines of a cache's text (`cache_dump`, `cache_restore`).
//! The lines of a cache's text, printed (`cache_dump`).
//! What the lines of a cache's text come to, read and printed (`cache_dump`, `cache_restore`).

ghost use Rattle.std.specs.Prelude.{◌≡◌, OnOk, ◌≤◌, ◌+◌, ◌++◌, ◌∷◌, length, decimal, codes, slice_index, [], ℕ, List, true};
ghost use Rattle.hex.specs.Hex.{encode_lower};
ghost use Rattle.uuid.specs.Text.{hyphenated_text, lower};
ghost use Rattle.pd_kinds.specs.Objects.{CountsFault, Appends, AppendsFront};
ghost use Rattle.pd_kinds.specs.Meaning.{CacheMeaning};
ghost use Rattle.pd_kinds.specs.declared.kind.Kind.TheVariants.{Cache};
ghost use Rattle.pd_grammar.specs.CacheText.{cache, flag_number, map_line, Line, Head, Row, first_line, cache_line, end_line, head_of};
ghost use Rattle.pd_grammar.specs.CacheText.{cache_single, repeated_test, is_repeated, text_of_cache, MeansCache, SpellsCache};
ghost use Rattle.pd_grammar.specs.declared.cause.TextCause.TheVariants.{Repeated};
ghost use Rattle.pd_grammar.specs.Texts.{Reading, has_ended, reading, stopped, text_of_lines, whole, number_after};
ghost use Rattle.pd_image.specs.Sink.{KeepsSink};
ghost use Rattle.pd_texts.specs.ThinLine.{text_of_line, first_text, end_text};
ghost use Rattle.pd_texts.specs.declared.reader.TextFault.{TextFault};
ghost use Rattle.pd_texts.specs.Reader.{in_order, with_lines, IsReadAfter, AreReadSoFar, IsRefusedAfter};
ghost use Rattle.pd_texts_kinds.specs.CacheLine.{line_of, IsCacheLine, IsMapLine, IsEndLine, entries_text, OriginsDiffer};

use pd_image::{Failed, Sink};
use pd_lines::{PieceBuffer, TextLine, put_line};
use pd_texts::{add_uuid, add_word};

/// A line of the text of a cache that isn't the first or the last one.
#[derive(Clone, Copy, Debug, PartialEq, Eq)]
pub enum CacheLine {
    /// The cache, which is line 2.
    Cache {
        uuid: [u8; 16],
        /// The size of a cache block in sectors of 512 bytes.
        block_size: u32,
        /// The number of cache blocks.
        blocks: u32,
        /// Whether it was shut down cleanly.
        clean: bool,
        /// The name of the policy.
        policy: [u8; 16],
        /// The policy's version.
        versions: [u32; 3],
        /// The size of a hint in bytes, 0 or 4.
        hint_size: u32,
    },
    /// A cache block that holds a block of the origin device.
    Map {
        block: u32,
        /// The block of the origin device, below 2^48.
        origin: u64,
        /// Whether the cache block has newer bytes than the origin's.
        dirty: bool,
        /// The policy's hint, 0 where there are none.
        hint: u32,
    },
}

/// Prints a line. It takes no memory.
pub fn print_cache<K: Sink>(line: &CacheLine, out: &mut K) -> Result<(), Failed>
    requires { (K.state out.old).access ≡ 1 }
    ensures whole { OnOk result (Appends (text_of_line cache (line_of line.now)) (K.state out.old).written (K.state out.new).written) }
    ensures front { AppendsFront (text_of_line cache (line_of line.now)) (K.state out.old).written (K.state out.new).written }
    ensures kept { KeepsSink (K.state out.old) (K.state out.new) }
    ensures faults { CountsFault result (K.state out.old).faults (K.state out.new).faults }
{
    put_line(line, out)
}

impl TextLine for CacheLine {
    ghost bytes = { λ line. text_of_line cache (line_of line) };

    fn add_to(&self, text: &mut PieceBuffer) {
        match self {
            CacheLine::Cache {
                uuid,
                block_size,
                blocks,
                clean,
                policy,
                versions,
                hint_size,
            } => {
                add_head(text, *uuid, *block_size, *blocks, *clean);
                add_policy_words(text, *policy, *versions, *hint_size);
            }
            CacheLine::Map {
                block,
                origin,
                dirty,
                hint,
            } => add_map(text, *block, *origin, *dirty, *hint),
        }
    }
}

/// Adds the bytes of a cache line up to its policy name.
fn add_head(line: &mut PieceBuffer, uuid: [u8; 16], block_size: u32, blocks: u32, clean: bool)
    requires { length line.old + 161 ≤ 16384 }
    ensures bytes { line.new ≡ line.old ++ (codes "cache " ++ (hyphenated_text lower uuid
        ++ (32 ∷ decimal block_size ++ (32 ∷ decimal blocks ++ (32 ∷ decimal (flag_number clean)))))) }
    ensures len { length line.new ≤ length line.old + 66 }
{
    line.add(b"cache ");
    add_uuid(line, uuid);
    add_small(line, block_size);
    add_small(line, blocks);
    add_flag(line, clean);
}

/// Adds the rest of a cache line.
fn add_policy_words(line: &mut PieceBuffer, policy: [u8; 16], versions: [u32; 3], hint_size: u32)
    requires { length line.old + 95 ≤ 16384 }
    ensures bytes { line.new ≡ line.old ++ (32 ∷ encode_lower policy ++ (32 ∷ decimal (slice_index versions 0)
        ++ (32 ∷ decimal (slice_index versions 1) ++ (32 ∷ decimal (slice_index versions 2) ++ (32 ∷ decimal hint_size ++ (10 ∷ [])))))) }
{
    add_policy(line, policy);
    add_small(line, versions[0]);
    add_small(line, versions[1]);
    add_small(line, versions[2]);
    add_small(line, hint_size);
    line.add(b"\n");
}

/// Adds the bytes of a map line.
fn add_map(line: &mut PieceBuffer, block: u32, origin: u64, dirty: bool, hint: u32)
    requires { length line.old + 161 ≤ 16384 }
    ensures { line.new ≡ line.old ++ text_of_line cache
        (map_line (record { block = block; origin = origin; dirty = flag_number dirty; hint = hint })) }
{
    line.add(b"map");
    add_small(line, block);
    add_word(line, origin);
    add_flag(line, dirty);
    add_small(line, hint);
    line.add(b"\n");
}

/// Adds a space and a number below 2^32.
fn add_small(line: &mut PieceBuffer, number: u32)
    requires { length line.old + 21 ≤ 16384 }
    ensures bytes { line.new ≡ line.old ++ (32 ∷ decimal number) }
    ensures len { length line.new ≤ length line.old + 11 }
{
    add_word(line, number as u64);
}

/// Adds a space and a flag, 0 or 1.
fn add_flag(line: &mut PieceBuffer, flag: bool)
    requires { length line.old + 2 ≤ 16384 }
    ensures bytes { line.new ≡ line.old ++ (32 ∷ decimal (flag_number flag)) }
    ensures len { length line.new ≡ length line.old + 2 }
{
    if flag {
        line.add(b" 1");
    } else {
        line.add(b" 0");
    }
}

/// Adds a space and a policy name, as 32 hexadecimal digits in lower case.
fn add_policy(line: &mut PieceBuffer, policy: [u8; 16])
    requires { length line.old + 33 ≤ 16384 }
    ensures bytes { line.new ≡ line.old ++ (32 ∷ encode_lower policy) }
    ensures len { length line.new ≡ length line.old + 33 }
{
    let mut text = [0; 32];
    if hex::encode_to_slice(policy, &mut text).is_ok() {
        line.add(b" ");
        line.add(&text);
    }
}

/// A text of which no line is refused is the text of its lines; where no origin repeats, they mean a cache, which it
/// spells.
pub fn whole_cache_text_spells()
    ensures bytes { (text : List ℕ) (lines : List Line) → reading cache_single text ≡ whole lines → text ≡ text_of_lines cache lines }
    ensures spells { (text : List ℕ) (lines : List Line) → reading cache_single text ≡ whole (in_order lines []) → OriginsDiffer lines
        → (m : CacheMeaning) × (MeansCache (in_order lines []) m × SpellsCache text m) }
{}

/// The bytes of the lines so far grow by those of the next line, and the first and the last line are printed as such.
pub fn cache_lines_are_printed_in_order()
    ensures more { (before : List Line) (line : Line)
        → text_of_lines cache (in_order (line ∷ before) []) ≡ text_of_lines cache (in_order before []) ++ text_of_line cache line }
    ensures first { text_of_lines cache (in_order (first_line ∷ []) []) ≡ first_text Cache }
    ensures last { text_of_line cache end_line ≡ end_text }
{}

/// A cache's text is the first line, the cache line, a line for each entry, and the last line.
pub fn cache_text_is_its_lines()
    ensures { (m : CacheMeaning) → text_of_cache m
        ≡ first_text Cache ++ (text_of_line cache (cache_line (head_of m)) ++ (entries_text m.entries ++ end_text)) }
{}

/// Lines that were read up to the last one, from whatever source, mean a cache where no origin repeats.
pub fn read_cache_lines_mean_a_cache()
    ensures means { (lines : List Line) → AreReadSoFar cache_single lines → has_ended cache lines ≡ true → OriginsDiffer lines
        → (m : CacheMeaning) × MeansCache (in_order lines []) m }
    ensures so_far { (lines : List Line) → AreReadSoFar cache_single lines → OriginsDiffer lines → AreReadSoFar cache lines }
{}

/// What is known of the numbers of each line that was read after others.
pub fn read_cache_lines_are_in_range()
    ensures cache { (before : List Line) (h : Head) → IsReadAfter cache_single before (cache_line h) → IsCacheLine before h }
    ensures map { (before : List Line) (r : Row) → IsReadAfter cache_single before (map_line r) → IsMapLine before r }
    ensures end { (before : List Line) → IsReadAfter cache_single before end_line → IsEndLine before }
{}

/// Where no origin repeats in the lines before, the text of a cache goes on as the one that is read, up to the first
/// line that repeats one, which is refused.
pub fn cache_text_stops_where_an_origin_repeats()
    ensures front { (text : List ℕ) (before : List Line) (rest : Reading Line)
        → reading cache_single text ≡ with_lines before rest → OriginsDiffer before
        → reading cache text ≡ with_lines before (stopped repeated_test before rest) }
    ensures refused { (text : List ℕ) (before : List Line) (fault : TextFault)
        → IsRefusedAfter cache_single text before fault → OriginsDiffer before
        → IsRefusedAfter cache text before fault }
    ensures repeated { (text : List ℕ) (before : List Line) (line : Line) (rest : Reading Line)
        → reading cache_single text ≡ with_lines (line ∷ before) rest
        → 1 ≤ length before → OriginsDiffer before → is_repeated before line ≡ true
        → IsRefusedAfter cache text before (record { line = number_after before; cause = Repeated }) }
{}
