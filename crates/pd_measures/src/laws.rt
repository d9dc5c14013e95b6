//! What it comes to that two trees fit each other, as laws on functions with empty bodies (`thin_repair`).

ghost use Rattle.std.specs.List.{AllByRecursion};
ghost use Rattle.std.specs.Prelude.{◌≡◌, ◌↔◌, ◌<◌, ℕ, max, true, List};
ghost use Rattle.pd_kinds.specs.Graph.{Graph, pair};
ghost use Rattle.pd_kinds.specs.Lawful.{IsLawful};
ghost use Rattle.pd_kinds.specs.Node.{Entry};
ghost use Rattle.pd_kinds.specs.Whole.{details_entries, top_entries};
ghost use Rattle.pd_laid.specs.FoundRoots.{are_fitting, is_sound_tree, lost_graph, roots_at};
ghost use Rattle.pd_graph.specs.declared.notes.Notes.{Notes as TheNotes};
ghost use Rattle.pd_tree.specs.Search.{IsSoundTree};
ghost use Rattle.pd_measures.specs.declared.measures.Measures.{Measures as TheMeasures};
ghost use Rattle.pd_measures.specs.Measured.{details_gauge, list_measure, top_gauge, measured, AreToldOf};
ghost use Rattle.pd_measures.specs.Counts.{counts_of_top, counts_of_details, details_time};
ghost use Rattle.pd_measures.specs.Counts.{details_transaction, times_of_top, top_time, total_of};

use pd_check::keys_of_sound_trees_ascend;
use pd_kinds::{reached_by_paths, thin_format_is_lawful};

/// A tree that a search for roots holds for sound is a sound tree, whose entries a cursor gives.
pub fn found_trees_are_sound()
    ensures { (graph : Graph) (image : List (List ℕ)) (role root : ℕ) → IsLawful graph → role < graph.roles
        → is_sound_tree graph image role root ≡ true → IsSoundTree graph image (pair root role) }
{
    reached_by_paths();
}

/// A sound mapping tree and a sound details tree fit each other exactly where their lists of devices are one: the same
/// devices, each with as many mappings below its root as its details say. Then the number of mappings of both is the
/// total of that list, their latest time the later one of the two trees' times, their latest transaction that of the details
/// tree, and the sum of their times that of the mapping tree.
pub fn fitting_trees_have_one_list()
    ensures fitting { (image : List (List ℕ)) (data_blocks top details : ℕ) → let graph = lost_graph image data_blocks in
        is_sound_tree graph image 2 top ≡ true → is_sound_tree graph image 4 details ≡ true
        → (are_fitting graph image top details ≡ true) ↔ (counts_of_top graph image top ≡ counts_of_details graph image details) }
    ensures roots { (image : List (List ℕ)) (data_blocks top details : ℕ) → let graph = lost_graph image data_blocks in
        are_fitting graph image top details ≡ true
        → roots_at graph image top details ≡ record {
          top = top;
          details = details;
          mappings = total_of (counts_of_top graph image top);
          time = max (top_time graph image top) (details_time graph image details);
          transaction = details_transaction graph image details;
          times = times_of_top graph image top;
        } }
{
    thin_format_is_lawful();
    found_trees_are_sound();
    keys_of_sound_trees_ascend();
}

/// What is measured of a details tree and of a mapping tree is the measure of their lists of devices, with the latest time
/// of each tree, the latest transaction of the one, and the sum of the times of the other: so trees whose lists are one have
/// the same total and the same fingerprint. Of a mapping tree it is so where each root of a device is told of rightly.
pub fn measures_are_those_of_lists()
    ensures details { (graph : Graph) (image : List (List ℕ)) (details : ℕ) → measured details_gauge (details_entries graph image details)
        ≡ list_measure (counts_of_details graph image details)
        (details_time graph image details) (details_transaction graph image details) 0 }
    ensures tops { (graph : Graph) (image : List (List ℕ)) (top : ℕ) (notes : TheNotes) (times : TheMeasures)
        → AllByRecursion (λ (e : Entry). AreToldOf graph image notes times e.value) (top_entries graph image top)
        → measured (top_gauge notes times) (top_entries graph image top)
        ≡ list_measure (counts_of_top graph image top) (top_time graph image top) 0 (times_of_top graph image top) }
{}
