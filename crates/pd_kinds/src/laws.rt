//! The three formats keep the laws that a walk needs.
//! What holds of trees in an image without faults up to the stage Order.
//! No faults, and a clean image.
//! The order of faults.
//! What is reached, as the ends of paths.

ghost use Rattle.std.specs.Prelude.{◌≡◌, ◌≤◌, ℕ, false, List, [], ◌↔◌, true, ◌*◌};
ghost use Rattle.pd_kinds.specs.declared.limits.TheConstants.{MAX_META_BLOCKS};
ghost use Rattle.pd_kinds.specs.declared.rule.Rule.{Rule};
ghost use Rattle.pd_kinds.specs.ThinFormat.{thin_super_bad, thin_graph, thin_layout};
ghost use Rattle.pd_kinds.specs.CacheFormat.{cache_super_bad, cache_graph};
ghost use Rattle.pd_kinds.specs.EraFormat.{era_super_bad, era_graph};
ghost use Rattle.pd_kinds.specs.Layout.{graph_of};
ghost use Rattle.pd_kinds.specs.Lawful.{IsLawful};
ghost use Rattle.pd_kinds.specs.declared.kind.Kind.{Kind};
ghost use Rattle.pd_kinds.specs.declared.kind.Stage.{Stage};
ghost use Rattle.pd_kinds.specs.Stages.{faults, IsClean, checked_of};
ghost use Rattle.pd_kinds.specs.InOrder.{graph_of_kind, LooksAtOrder, AreInOrder};
ghost use Rattle.pd_kinds.specs.declared.kind.Stage.TheVariants.{Counts, Whole};
ghost use Rattle.pd_kinds.specs.declared.rule.Fault.{Fault};
ghost use Rattle.pd_kinds.specs.declared.kind.Passing.TheVariants.{Leaks};
ghost use Rattle.pd_kinds.specs.Leaks.{AreCountsEnough, AreLeaks, OnlyLeaks};
ghost use Rattle.pd_kinds.specs.Rule.{passes, report_of};
ghost use Rattle.pd_kinds.specs.FaultOrder.{AreAscending};
ghost use Rattle.pd_kinds.specs.Graph.{Graph, is_reached, is_reached_from, next, nodes, nodes_from};
ghost use Rattle.pd_kinds.specs.Paths.{IsOnPath, IsOnPathFrom};

/// The format of a thin pool keeps the laws, where its superblock breaks no rule, and so for every number
/// of metadata blocks that a superblock may name.
pub fn thin_format_is_lawful()
    ensures super_block { (blocks : ℕ) (super_block : List ℕ) → ((rule : Rule) → thin_super_bad blocks super_block rule ≡ false)
        → IsLawful (thin_graph super_block) }
    ensures table { (nr data_blocks : ℕ) → 1 ≤ nr
        → nr ≤ MAX_META_BLOCKS → IsLawful (graph_of 11 nr data_blocks (thin_layout nr data_blocks)) }
{}

/// The format of a cache keeps the laws, where its superblock breaks no rule.
pub fn cache_format_is_lawful()
    ensures { (blocks : ℕ) (super_block : List ℕ) → ((rule : Rule) → cache_super_bad blocks super_block rule ≡ false)
        → IsLawful (cache_graph super_block) }
{}

/// The format of an era target keeps the laws, where its superblock breaks no rule.
pub fn era_format_is_lawful()
    ensures { (blocks : ℕ) (super_block : List ℕ) → ((rule : Rule) → era_super_bad blocks super_block rule ≡ false)
        → IsLawful (era_graph super_block) }
{}

/// Where an image has no faults up to the stage Order, or up to a later one, no reached pair breaks a local
/// rule, is deep or is out of range. Where it has none up to any stage, its format keeps the laws.
pub fn trees_are_in_order()
    ensures in_order { (kind : Kind) (until : Stage) (image : List (List ℕ)) → LooksAtOrder until → faults kind until image ≡ []
        → AreInOrder (graph_of_kind kind image) image }
    ensures lawful { (kind : Kind) (until : Stage) (image : List (List ℕ))
        → faults kind until image ≡ [] → IsLawful (graph_of_kind kind image) }
{
    thin_format_is_lawful();
    cache_format_is_lawful();
    era_format_is_lawful();
}

/// An image has no faults up to the last stage exactly where it is clean.
pub fn faults_are_none_where_clean()
    ensures { (kind : Kind) (image : List (List ℕ)) → (faults kind Counts image ≡ []) ↔ IsClean kind image }
{}

/// A report passes where leaks pass just where each of its faults is a leak, however many there are.
pub fn reports_tell_leaks()
    ensures { (found : List Fault) → (passes Leaks (report_of found) ≡ true) ↔ AreLeaks found }
{}

/// An image with leaks alone has no fault up to the stage Whole, and no stored count below its references.
pub fn leaks_alone_lose_nothing()
    ensures sound { (kind : Kind) (image : List (List ℕ)) → OnlyLeaks kind image → faults kind Whole image ≡ [] }
    ensures counts { (kind : Kind) (image : List (List ℕ)) → OnlyLeaks kind image → AreCountsEnough (checked_of kind image) image }
{}

/// The faults of an image up to a stage ascend, and none comes twice.
pub fn faults_ascend()
    ensures { (kind : Kind) (until : Stage) (image : List (List ℕ)) → AreAscending (faults kind until image) }
{}

/// The pairs that are reached from a pair are those that some path of edges from it leads to, so that
/// nobody has to trust the number of rounds. The reachable pairs of an image are those from the superblock.
pub fn reached_by_paths()
    ensures any { (graph : Graph) (image : List (List ℕ)) (first p : ℕ)
        → (is_reached_from graph image first p ≡ true) ↔ IsOnPathFrom (16 * graph.nr) (next graph image) first p }
    ensures super_block { (graph : Graph) (image : List (List ℕ)) (p : ℕ)
        → (is_reached graph image p ≡ true) ↔ IsOnPath (16 * graph.nr) (next graph image) p }
    ensures same_nodes { (graph : Graph) (image : List (List ℕ)) → nodes graph image ≡ nodes_from graph image 0 }
{}
