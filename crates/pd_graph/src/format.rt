//! A format of metadata, as a walk sees it.

ghost use Rattle.std.specs.Prelude.{◌≡◌, ℕ, ◌<◌, Some, length, slice_get, Bool, List};
ghost use Rattle.pd_kinds.specs.declared.rule.Rule.{Rule};
ghost use Rattle.pd_kinds.specs.Rule.{has_rule};
ghost use Rattle.pd_kinds.specs.Graph.{edge_of, Graph, block_at, pair};
ghost use Rattle.pd_kinds.specs.Lawful.{IsLawful};
ghost use Rattle.pd_graph.specs.Format.{Contents, AreContents, AreSame, IsOneMore};

use pd_kinds::{Block, Rules};

/// A format of metadata: what a block is in a role, and what it names.
///
/// Roles are numbered from 0, the superblock's. A block with a bad rule names nothing, and has no keys.
///
/// The calls whose names end in `_of_any` read what the bytes of a block say, whatever rules it breaks, and
/// compute no checksum. They are for callers that know by other means that a block was sound: whatever a
/// device gives them, they stay safe.
pub trait Format {
    /// The number of roles, from 1 to 16.
    const ROLES: u8;

    ghost ROLES: { ℕ };

    /// The functions that the calls compute.
    ghost graph: { Self → Graph };

    /// What the bytes of a block say in a role.
    ghost contents: { Self → Contents };

    /// The number of metadata blocks, from 1 to `MAX_META_BLOCKS`.
    fn nr(&self) -> u64
        ensures { result ≡ (graph self.now).nr };

    /// The number of data blocks.
    fn data_blocks(&self) -> u64
        ensures { result ≡ (graph self.now).data_blocks };

    /// The rules that the block breaks.
    fn rules(&self, role: u8, place: u64, b: &Block) -> Rules
        requires { role < ROLES }
        ensures { (rule : Rule) → has_rule result rule ≡ (graph self.now).bad role place b.now.0 rule };

    /// Whether the role is that of the nodes of a tree.
    fn is_tree(&self, role: u8) -> bool
        requires { role < ROLES }
        ensures { result ≡ (graph self.now).is_tree role };

    /// Whether a block's bytes are those of an inner node of a tree.
    fn inner_of_any(&self, role: u8, b: &Block) -> bool
        requires { role < ROLES }
        ensures { result ≡ (contents self.now).is_inner role b.now.0 };

    /// How many blocks a block's bytes name.
    fn edges_of_any(&self, role: u8, b: &Block) -> usize
        requires { role < ROLES }
        ensures { result ≡ length ((contents self.now).edges role b.now.0) };

    /// The role and the number of a block that a block's bytes name.
    fn edge_of_any(&self, role: u8, b: &Block, i: usize) -> (u8, u64)
        requires role { role < ROLES }
        requires within { i < length ((contents self.now).edges role b.now.0) }
        ensures { slice_get ((contents self.now).edges role b.now.0) i ≡ Some (edge_of result.0 result.1) };

    /// How many keys a block's bytes have: none outside a tree.
    fn keys_of_any(&self, role: u8, b: &Block) -> usize
        requires { role < ROLES }
        ensures { result ≡ length ((contents self.now).keys role b.now.0) };

    /// A key of a block's bytes.
    fn key_of_any(&self, role: u8, b: &Block, i: usize) -> u64
        requires role { role < ROLES }
        requires within { i < length ((contents self.now).keys role b.now.0) }
        ensures { slice_get ((contents self.now).keys role b.now.0) i ≡ Some result };

    /// How many data blocks a block's bytes name.
    fn data_refs_of_any(&self, role: u8, b: &Block) -> usize
        requires { role < ROLES }
        ensures { result ≡ length ((contents self.now).data_refs role b.now.0) };

    /// A data block that a block's bytes name.
    fn data_ref_of_any(&self, role: u8, b: &Block, i: usize) -> u64
        requires role { role < ROLES }
        requires within { i < length ((contents self.now).data_refs role b.now.0) }
        ensures { slice_get ((contents self.now).data_refs role b.now.0) i ≡ Some result };

    /// Whether the block is an inner node of a tree without a bad rule.
    final fn inner(&self, role: u8, place: u64, b: &Block) -> bool
        requires { role < ROLES }
        ensures { result ≡ (graph self.now).is_inner role place b.now.0 }
    {
        let broken = self.rules(role, place, b);
        if broken.is_empty() {
            self.inner_of_any(role, b)
        } else {
            false
        }
    }

    /// How many blocks the block names: none where it has a bad rule.
    final fn edges(&self, role: u8, place: u64, b: &Block) -> usize
        requires { role < ROLES }
        ensures { result ≡ length ((graph self.now).edges role place b.now.0) }
    {
        let broken = self.rules(role, place, b);
        if broken.is_empty() {
            self.edges_of_any(role, b)
        } else {
            0
        }
    }

    /// The role and the number of a block that the block names.
    final fn edge(&self, role: u8, place: u64, b: &Block, i: usize) -> (u8, u64)
        requires role { role < ROLES }
        requires within { i < length ((graph self.now).edges role place b.now.0) }
        ensures { slice_get ((graph self.now).edges role place b.now.0) i ≡ Some (edge_of result.0 result.1) }
    {
        self.edge_of_any(role, b, i)
    }

    /// How many keys the block has: none outside a tree, or where it has a bad rule.
    final fn keys(&self, role: u8, place: u64, b: &Block) -> usize
        requires { role < ROLES }
        ensures { result ≡ length ((graph self.now).keys role place b.now.0) }
    {
        let broken = self.rules(role, place, b);
        if broken.is_empty() {
            self.keys_of_any(role, b)
        } else {
            0
        }
    }

    /// A key of the block.
    final fn key(&self, role: u8, place: u64, b: &Block, i: usize) -> u64
        requires role { role < ROLES }
        requires within { i < length ((graph self.now).keys role place b.now.0) }
        ensures { slice_get ((graph self.now).keys role place b.now.0) i ≡ Some result }
    {
        self.key_of_any(role, b, i)
    }

    /// How many data blocks the block names: none where it has a bad rule.
    final fn data_refs(&self, role: u8, place: u64, b: &Block) -> usize
        requires { role < ROLES }
        ensures { result ≡ length ((graph self.now).data_refs role place b.now.0) }
    {
        let broken = self.rules(role, place, b);
        if broken.is_empty() {
            self.data_refs_of_any(role, b)
        } else {
            0
        }
    }

    /// A data block that the block names.
    final fn data_ref(&self, role: u8, place: u64, b: &Block, i: usize) -> u64
        requires role { role < ROLES }
        requires within { i < length ((graph self.now).data_refs role place b.now.0) }
        ensures { slice_get ((graph self.now).data_refs role place b.now.0) i ≡ Some result }
    {
        self.data_ref_of_any(role, b, i)
    }

    /// The roles are those of the functions.
    ghost roles: { (format : Self) → (graph format).roles ≡ ROLES };

    /// The format keeps the laws.
    ghost lawful: { (format : Self) → IsLawful (graph format) };

    /// The contents of a block without a bad rule are those of the functions.
    ghost told: { (format : Self) → AreContents (graph format) (contents format) };
}

// What is shown each block of a walk.

/// What watches a walk: it is shown each block in each role in which the walk reads it, while the block is at hand.
pub trait Watch {
    /// It has room for metadata of this format.
    ghost has_room: { Self → Graph → Type 0 } = { λ _ _. Unit {0} };

    /// What it knows where it was shown these pairs of a block and a role, and no others: each once, with what the
    /// image holds there.
    ghost has_seen: { Self → Graph → List (List ℕ) → (ℕ → Bool) → Type 0 };

    /// Looks at block b, which was read in the role, and breaks these rules there. It takes no memory of which the
    /// caller hears.
    fn see<F: Format>(&mut self, format: &F, role: u8, b: u64, block: &Block, broken: &Rules)
        requires role { role < F.ROLES }
        requires within { b < (F.graph format.now).nr }
        requires judged { (rule : Rule) → has_rule broken.now rule ≡ (F.graph format.now).bad role b block.now.0 rule }
        requires room { has_room self.old (F.graph format.now) }
        ensures seen { (image : List (List ℕ)) (before after : ℕ → Bool) → block_at image b ≡ block.now.0
            → IsOneMore (pair b role) before after → has_seen self.old (F.graph format.now) image before
            → has_seen self.new (F.graph format.now) image after }
        ensures room { has_room self.new (F.graph format.now) };

    /// It knows the same of the same pairs.
    ghost same: { (watch : Self) (graph : Graph) (image : List (List ℕ)) (pairs others : ℕ → Bool) → AreSame pairs others
        → has_seen watch graph image pairs → has_seen watch graph image others };
}

/// Nothing watches.
#[derive(Clone, Copy, Debug)]
pub struct NoWatch;

impl Watch for NoWatch {
    ghost has_seen = { λ _ _ _ _. Unit {0} };

    ghost same = { λ _ _ _ _ _ _ seen. seen };

    fn see<F: Format>(
        &mut self,
        _format: &F,
        _role: u8,
        _b: u64,
        _block: &Block,
        _broken: &Rules,
    ) {}
}
