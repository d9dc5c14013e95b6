//! A kind of metadata, as a check sees it (`thin_check`, `cache_check`, `era_check`).

ghost use Rattle.std.specs.Prelude.{◌≡◌, ◌≤◌, ◌+◌, ◌*◌, ◌<◌, ℕ, List, false, length, IfOk, OnOk, IfSome};
ghost use Rattle.pd_kinds.specs.declared.kind.Kind.{Kind};
ghost use Rattle.pd_kinds.specs.declared.rule.Rule.{Rule as BrokenRule};
ghost use Rattle.pd_kinds.specs.Objects.{CountsFault};
ghost use Rattle.pd_kinds.specs.Rule.{has_rule};
ghost use Rattle.pd_kinds.specs.Graph.{is_reached, nodes};
ghost use Rattle.pd_kinds.specs.Stages.{checked_of};
ghost use Rattle.pd_image.specs.Device.{IsAttached, OnlyReads};
ghost use Rattle.pd_graph.specs.Audit.{blocks_of};
ghost use Rattle.pd_graph.specs.Format.{no_pairs};
ghost use Rattle.pd_check.specs.Known.{Charges};
ghost use Rattle.pd_check.specs.Check.{data_space_of, graph_of_super, meta_map_of, super_bad_of, IsOrdered};

use pd_graph::{Audit, Format, Watch};
use pd_image::{Device, Failed};
use pd_kinds::{Block, Rules, SmRoot};
use std::alloc::{AllocError, Global};

/// A kind of metadata, by what a check needs of it: the rules of its superblock, the format that a
/// superblock without a broken rule gives, and the rules of the whole image.
pub trait Metadata {
    /// The format of such metadata.
    type Format: Format + Copy;

    /// The memory that the rules of the whole image need. It watches the walk.
    type WholeMemory: Watch + Drop;

    /// Which kind it is.
    ghost kind: { Kind };

    /// The rules that block 0 breaks, on a device of so many blocks.
    fn super_rules(b: &Block, device_blocks: u64) -> Rules
        ensures { (rule : BrokenRule) → has_rule result rule ≡ super_bad_of kind device_blocks b.now.0 rule };

    /// The format that a block 0 gives which breaks no rule. It has no more blocks than the device.
    fn format(b: &Block, device_blocks: u64) -> Self::Format
        requires { (rule : BrokenRule) → super_bad_of kind device_blocks b.now.0 rule ≡ false }
        ensures graph { Self.Format.graph result ≡ graph_of_super kind b.now.0 }
        ensures within { (graph_of_super kind b.now.0).nr ≤ device_blocks };

    /// The root of the map that counts the metadata blocks.
    fn meta_map(b: &Block) -> SmRoot
        ensures { result ≡ meta_map_of kind b.now.0 };

    /// The data blocks that this kind counts, or `None` where it counts none.
    fn data_space(b: &Block) -> Option<DataSpace>
        ensures space { result ≡ data_space_of kind b.now.0 }
        ensures role { IfSome result (λ space. space.role < Self.Format.ROLES) };

    /// Takes the memory that the rules of the whole image need, where this is block 0. Want of it is the only
    /// error.
    fn whole_memory(alloc: Global, b: &Block) -> Result<Self::WholeMemory, AllocError>
        ensures room { IfOk result (λ room. Self.WholeMemory.has_room room (graph_of_super kind b.now.0)) }
        ensures unseen { IfOk result (λ room. (image : List (List ℕ))
            → Self.WholeMemory.has_seen room (graph_of_super kind b.now.0) image no_pairs) };

    /// Gives each block the rules of the whole image that it breaks, where this is block 0 and no block has a
    /// rule up to the order of the trees. It takes no memory.
    ///
    /// What it says of content holds where the audit knows what the device holds, and the room was shown all that
    /// is reached; over any other device, audit or room it is safe.
    fn mark_whole<D: Device>(
        room: Self::WholeMemory,
        b: &Block,
        audit: &mut Audit,
        dev: &mut D,
    ) -> Result<(), Failed>
        requires room { Self.WholeMemory.has_room room (graph_of_super kind b.now.0) }
        requires attached { IsAttached (D.state dev.old) }
        requires number { blocks_of audit.old ≡ (graph_of_super kind b.now.0).nr }
        requires within { (graph_of_super kind b.now.0).nr ≤ (D.state dev.old).blocks }
        ensures number { blocks_of audit.new ≡ blocks_of audit.old }
        ensures charges { OnOk result (IfSome (D.state dev.old).held (λ image. IsOrdered kind b.now.0 image audit.old
            → Self.WholeMemory.has_seen room (graph_of_super kind b.now.0) image (is_reached (graph_of_super kind b.now.0) image)
            → Charges (checked_of kind image).whole audit.old audit.new)) }

        // At most two reads for each reachable pair, also where one failed.
        ensures reads { IfSome (D.state dev.old).held (λ image. IsOrdered kind b.now.0 image audit.old
            → (D.state dev.new).reads ≤ (D.state dev.old).reads + 2 * length (nodes (graph_of_super kind b.now.0) image)) }
        ensures kept { OnlyReads (D.state dev.old) (D.state dev.new) }
        ensures faults { CountsFault result (D.state dev.old).faults (D.state dev.new).faults };
}

// What a check counts references to.

/// The data blocks that metadata counts: the root of their space map, and the role of the blocks that refer to them.
#[derive(Clone, Copy, Debug, PartialEq, Eq)]
pub struct DataSpace {
    /// The root of the map that stores their counts.
    pub root: SmRoot,
    /// The one role in which blocks name data blocks.
    pub role: u8,
}
