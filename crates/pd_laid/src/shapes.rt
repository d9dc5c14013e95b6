//! A meaning, and its shape without shared leaves.

ghost use Rattle.std.specs.Prelude.{◌≡◌, ◌↔◌, None, List, ℕ, ◌≤◌, ◌<◌, Some};
ghost use Rattle.pd_kinds.specs.Meaning.{ThinPool};
ghost use Rattle.pd_grammar.specs.Texts.{refusal};
ghost use Rattle.pd_grammar.specs.Spelling.{Verdict, accepted, no_room};
ghost use Rattle.pd_grammar.specs.Lawful.{IsLawfulPool};
ghost use Rattle.pd_grammar.specs.ThinText.{pool_format, SpellsPool};
ghost use Rattle.pd_grammar.specs.Need.{thin_need};
ghost use Rattle.pd_grammar.specs.declared.cause.TextCause.TheVariants.{OutOfRange, Unused};
ghost use Rattle.pd_laid.specs.Shape.{IsShape, pool_of, shape_of, ThinShape};
ghost use Rattle.pd_laid.specs.PoolText.{SpellsShape, AreSharedApart, text_of_shape, SpellsPoolShape};
ghost use Rattle.pd_laid.specs.PoolText.{SpellsMeaning, IsPoolTextVerdict, shape_need};
ghost use Rattle.pd_laid.specs.Example.{two_users, lines_of_two_users, lines_without_use, lines_with_another_use, with_line_feeds};

/// The shape of a meaning without shared leaves is a shape, and has that meaning.
pub fn shape_of_keeps_meaning()
    ensures kept { (m : ThinPool) → pool_of (shape_of m) ≡ m }
    ensures shape { (m : ThinPool) → IsShape (shape_of m) }
{}

// What a pool's text of either version spells, and the verdict on it.

/// A text of either version has no refusal exactly where it spells a shape.
pub fn pool_text_unless_refused()
    ensures { (text : List ℕ) → (refusal pool_format text ≡ None) ↔ ((w : ThinShape) × SpellsPoolShape text w) }
{}

/// No text of either version spells two shapes.
pub fn pool_text_has_one_shape()
    ensures { (text : List ℕ) (w x : ThinShape) → SpellsPoolShape text w → SpellsPoolShape text x → w ≡ x }
{}

/// A text of version 1 spells the shape of its pool, in which no leaf is shared, and a text of version 2 its shape.
pub fn either_version_spells_a_shape()
    ensures first { (text : List ℕ) (m : ThinPool) → SpellsPool text m → SpellsPoolShape text (shape_of m) }
    ensures second { (text : List ℕ) (w : ThinShape) → SpellsShape text w → SpellsPoolShape text w }
{}

/// Each shape is spelled by its text, of version 2, where its meaning is lawful.
pub fn shape_text_spells()
    ensures { (w : ThinShape) → IsShape w → IsLawfulPool (pool_of w) → SpellsShape (text_of_shape w) w }
{}

/// A spelling of version 2 in which no two neighbouring runs of a leaf or of a piece join is the shape's text.
pub fn shape_text_with_runs_apart()
    ensures { (text : List ℕ) (w : ThinShape) (s : SpellsShape text w)
        → AreSharedApart s.means.leaves s.means.parts → text ≡ text_of_shape w }
{}

/// A text of either version that spells a shape spells the shape's meaning, which is lawful, and no other one.
pub fn pool_text_has_one_meaning()
    ensures spells { (text : List ℕ) (w : ThinShape) → SpellsPoolShape text w → SpellsMeaning text (pool_of w) }
    ensures lawful { (text : List ℕ) (m : ThinPool) → SpellsMeaning text m → IsLawfulPool m }
    ensures one { (text : List ℕ) (m n : ThinPool) → SpellsMeaning text m → SpellsMeaning text n → m ≡ n }
{}

/// Each text has one verdict where so many metadata blocks are there.
pub fn pool_text_has_one_verdict()
    ensures some { (text : List ℕ) (room : ℕ) → (v : Verdict ThinShape) × IsPoolTextVerdict text room v }
    ensures one { (text : List ℕ) (room : ℕ) (v w : Verdict ThinShape)
        → IsPoolTextVerdict text room v → IsPoolTextVerdict text room w → v ≡ w }
{}

// Where there is room for what a pool's text of either version spells.

/// A text of either version that spells a shape is accepted where the shape's need isn't above the room. Elsewhere there is no
/// room: what is named is above the room, and at most the shape's need. The need of a pool that shares no leaf is that of its shape.
pub fn pool_text_is_accepted_where_there_is_room()
    ensures accepted { (text : List ℕ) (w : ThinShape) (room : ℕ) → SpellsPoolShape text w → shape_need w room ≤ room
        → IsPoolTextVerdict text room (accepted w) }
    ensures no_room { (text : List ℕ) (w : ThinShape) (room : ℕ) → SpellsPoolShape text w → room < shape_need w room
        → (needed : ℕ) × (IsPoolTextVerdict text room (no_room needed room) × ((room < needed) × (needed ≤ shape_need w room))) }
    ensures unshared { (m : ThinPool) (room : ℕ) → IsLawfulPool m → shape_need (shape_of m) room ≡ thin_need m room }
{}

// A small pool with a shared leaf, computed by the checker.

/// The text of a pool whose two devices share a leaf tells it once, it isn't refused, and the pool needs ten of sixteen
/// blocks. A leaf that no device uses is refused in the last line, and the use of a leaf that there isn't in its own.
pub fn two_users_of_a_leaf()
    ensures text { text_of_shape two_users ≡ with_line_feeds lines_of_two_users }
    ensures read { refusal pool_format (with_line_feeds lines_of_two_users) ≡ None }
    ensures need { shape_need two_users 16 ≡ 10 }
    ensures beyond { refusal pool_format (with_line_feeds lines_with_another_use) ≡ Some (record { line = 6; cause = OutOfRange }) }
    ensures unused { refusal pool_format (with_line_feeds lines_without_use) ≡ Some (record { line = 5; cause = Unused }) }
{}
