//! What the lines of a pool's text come to, read and printed (`thin_dump`, `thin_restore`).

ghost use Rattle.std.specs.Prelude.{◌≡◌, ◌++◌, ◌∷◌, [], ℕ, List, true};
ghost use Rattle.std.specs.List.{flat_map};
ghost use Rattle.pd_kinds.specs.Meaning.{ThinPool};
ghost use Rattle.pd_kinds.specs.declared.kind.Kind.TheVariants.{Thin};
ghost use Rattle.pd_grammar.specs.Texts.{has_ended, reading, text_of_lines, whole};
ghost use Rattle.pd_grammar.specs.ThinText.{Line, Head, LeafHead, Details, Run, first_line, shared_first_line, pool_line};
ghost use Rattle.pd_grammar.specs.ThinText.{leaf_line, device_line, use_line, map_line, end_line, head_of, thin};
ghost use Rattle.pd_grammar.specs.ThinText.{pool_format, text_of_pool, MeansPool, SpellsPool};
ghost use Rattle.pd_texts.specs.ThinLine.{text_of_line, first_text, end_text, device_text};
ghost use Rattle.pd_texts.specs.ThinState.{IsPoolLine, IsLeafLine, IsDeviceLine, IsUseLine, IsRunLine, IsMapLine, IsEndLine};
ghost use Rattle.pd_texts.specs.Reader.{in_order, IsReadAfter, AreReadSoFar};

/// A text of which no line is refused is the text of its lines, in either version; in version 1 they mean a pool, which it spells.
pub fn whole_thin_text_spells()
    ensures bytes { (text : List ℕ) (lines : List Line) → reading thin text ≡ whole lines → text ≡ text_of_lines thin lines }
    ensures either { (text : List ℕ) (lines : List Line) → reading pool_format text ≡ whole lines → text ≡ text_of_lines pool_format lines }
    ensures spells { (text : List ℕ) (lines : List Line)
        → reading thin text ≡ whole lines → (m : ThinPool) × (MeansPool lines m × SpellsPool text m) }
{}

/// The bytes of the lines so far grow by those of the next line, and the first line, of either version, and the last one are
/// printed as such.
pub fn thin_lines_are_printed_in_order()
    ensures more { (before : List Line) (line : Line)
        → text_of_lines thin (in_order (line ∷ before) []) ≡ text_of_lines thin (in_order before []) ++ text_of_line thin line }
    ensures first { text_of_lines thin (in_order (first_line ∷ []) []) ≡ first_text Thin }
    ensures shared { text_of_lines thin (in_order (shared_first_line ∷ []) []) ≡ text_of_line thin shared_first_line }
    ensures last { text_of_line thin end_line ≡ end_text }
{}

/// A pool's text is the first line, the pool line, for each device its line and those of its runs, as long as can be,
/// and the last line.
pub fn pool_text_is_its_lines()
    ensures { (m : ThinPool) → text_of_pool m
        ≡ first_text Thin ++ (text_of_line thin (pool_line (head_of m)) ++ (flat_map device_text m.devices ++ end_text)) }
{}

/// Lines that were read up to the last one, from whatever source, mean a pool.
pub fn read_thin_lines_mean_a_pool()
    ensures { (lines : List Line) → AreReadSoFar thin lines
        → has_ended thin lines ≡ true → (m : ThinPool) × MeansPool (in_order lines []) m }
{}

/// What is known of the numbers of each line that was read after others.
pub fn read_thin_lines_are_in_range()
    ensures pool { (before : List Line) (p : Head) → IsReadAfter thin before (pool_line p) → IsPoolLine before p }
    ensures device { (before : List Line) (d : Details) → IsReadAfter thin before (device_line d) → IsDeviceLine before d }
    ensures map { (before : List Line) (r : Run) → AreReadSoFar thin (map_line r ∷ before) → IsMapLine before r }
    ensures end { (before : List Line) → IsReadAfter thin before end_line → IsEndLine before }
{}

/// What is known of the numbers of each line that was read after others, in a text of either version.
pub fn read_pool_lines_are_in_range()
    ensures pool { (before : List Line) (p : Head) → IsReadAfter pool_format before (pool_line p) → IsPoolLine before p }
    ensures leaf { (before : List Line) (l : LeafHead) → IsReadAfter pool_format before (leaf_line l) → IsLeafLine before l }
    ensures device { (before : List Line) (d : Details) → IsReadAfter pool_format before (device_line d) → IsDeviceLine before d }
    ensures used { (before : List Line) (number : ℕ) → IsReadAfter pool_format before (use_line number) → IsUseLine before number }
    ensures map { (before : List Line) (r : Run) → IsReadAfter pool_format before (map_line r) → IsRunLine before r }
    ensures end { (before : List Line) → IsReadAfter pool_format before end_line → IsEndLine before }
{}
