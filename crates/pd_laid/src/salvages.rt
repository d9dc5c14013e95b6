//! What is saved of a pool.

ghost use Rattle.std.specs.Prelude.{◌≡◌, ◌↔◌, ◌<◌, ◌≤◌, List, [], ℕ};
ghost use Rattle.std.specs.List.{flat_map};
ghost use Rattle.pd_kinds.specs.declared.kind.Kind.TheVariants.{Thin};
ghost use Rattle.pd_kinds.specs.declared.kind.Stage.TheVariants.{Whole};
ghost use Rattle.pd_kinds.specs.Meaning.{thin_meaning};
ghost use Rattle.pd_kinds.specs.Node.{Entry};
ghost use Rattle.pd_kinds.specs.Stages.{faults};
ghost use Rattle.pd_kinds.specs.Image.{HasBytes};
ghost use Rattle.pd_laid.specs.Salvage.{salvaged_below, salvage, entries_of_visit, visits};
ghost use Rattle.pd_laid.specs.Saved.{ContainsEntry, IsSaved};

use pd_kinds::trees_are_in_order;

/// Of a pool without faults up to the stage Whole all is saved: the salvage is its meaning.
pub fn sound_pool_is_saved()
    ensures { (image : List (List ℕ)) → HasBytes image → faults Thin Whole image ≡ [] → salvage image ≡ thin_meaning image }
{
    trees_are_in_order();
}

/// The entries that are given below a node, in a range of keys, are those of the visits there, one visit after another.
pub fn given_are_visited()
    ensures { (size nr : ℕ) (image : List (List ℕ)) (nodes place low high : ℕ)
        → flat_map (entries_of_visit size image) (visits size nr image nodes place low high)
        ≡ salvaged_below size nr image nodes place low high }
{}

/// The entries that are given below a node, in a range of keys, are those of the range that a path of at most
/// so many undamaged nodes ends at, and that lie in the range of each child on that path.
pub fn given_are_saved()
    ensures { (size nr : ℕ) (image : List (List ℕ)) (nodes place low high : ℕ) (e : Entry)
        → ContainsEntry (salvaged_below size nr image nodes place low high) e
        ↔ (IsSaved size nr image nodes place e × ((low ≤ e.key) × (e.key < high))) }
{}
