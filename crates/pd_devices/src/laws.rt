//! That the lines of a whole text come to a shape (`thin_restore`, `thin_repair`, `thin_shrink`).

ghost use Rattle.std.specs.Prelude.{◌≡◌, ℕ, List, [], true};
ghost use Rattle.pd_grammar.specs.Texts.{has_ended};
ghost use Rattle.pd_grammar.specs.ThinText.{Line, pool_format};
ghost use Rattle.pd_laid.specs.Shape.{ThinShape};
ghost use Rattle.pd_laid.specs.PoolText.{shape_need, shape_need_so_far, MeansShape};
ghost use Rattle.pd_draft.specs.Closed.{DraftState};
ghost use Rattle.pd_texts.specs.Reader.{AreReadSoFar, in_order};
ghost use Rattle.pd_devices.specs.declared.shared_devices.SharedDevices.{SharedDevices};
ghost use Rattle.pd_devices.specs.SharedGathered.{HasGathered, IsGatheredShape, uses_counted};

/// All lines of a text of version 2, read up to the last one, mean a shape: what was gathered of them is the shape's, its
/// leaves and trees are written, and what the lines need is the shape's need. The uses of as many leaves are counted
/// as there are metadata blocks.
pub fn gathered_lines_are_a_shape()
    ensures { (room : ℕ) (lines : List Line) (s : SharedDevices) (start now : DraftState)
        → HasGathered room lines s start now → AreReadSoFar pool_format lines → has_ended pool_format lines ≡ true
        → (w : ThinShape) × (MeansShape (in_order lines []) w
        × (IsGatheredShape w s start now × ((shape_need_so_far room lines ≡ shape_need w room) × ((uses_counted s).size ≡ room)))) }
{}
