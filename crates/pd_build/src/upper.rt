//! The levels above a row of nodes.

ghost use Rattle.std.specs.Prelude.{◌≡◌, ◌+◌, ◌-◌, ◌*◌, ◌<◌, ◌≤◌, List, [], ◌∷◌, ◌++◌, length, map};
ghost use Rattle.std.specs.Prelude.{take, true, OnOk, OnErr, IfOk, IfErr, nat_eq};
ghost use Rattle.pd_kinds.specs.Node.{Entry, is_ascending, inner_block};
ghost use Rattle.pd_grammar.specs.Need.{need_above, nodes_of_tree};
ghost use Rattle.pd_laid.specs.Laid.{blocks_from, heads, even_parts, levels_above, root_above};
ghost use Rattle.pd_node.specs.Items.{keys_of};
ghost use Rattle.pd_image.specs.Device.{IsWritable};
ghost use Rattle.pd_draft.specs.Closed.{IsClosed, StaysClosed, Wrote};
ghost use Rattle.pd_draft.specs.DraftState.{draft_state};
ghost use Rattle.pd_build.specs.Tree.{link_entries};
ghost use Rattle.pd_build.specs.Building.{CountsBuildFault};

use crate::BuildFault;
use crate::steps::{parts, put_block};
use pd_draft::Draft;
use pd_image::Device;
use pd_node::write_inner;
use std::alloc::{AllocError, Global};
use std::marker::Model;

/// Writes the levels above a row of nodes, whose least keys and places it is given. It holds the rows alone: each level
/// takes the place of the one below it.
#[derive(Drop)]
pub struct UpperBuilder {
    /// The least key and the place of each.
    level: Vec<(u64, u64)>,
}

impl Model for UpperBuilder {
    ghost Value = { List Entry };

    ghost view = { λ b. link_entries b.level.items };
}

impl UpperBuilder {
    /// A row without nodes.
    pub fn new(alloc: Global) -> UpperBuilder
        ensures { result ≡ [] }
    {
        UpperBuilder {
            level: Vec::new(alloc),
        }
    }

    /// Whether no node was added.
    pub fn is_empty(&self) -> bool
        ensures { result ≡ nat_eq (length self.now) 0 }
    {
        self.level.is_empty()
    }

    /// Adds a node to the row. Where memory is wanting, all stays as it was.
    pub fn add(&mut self, key: u64, place: u64) -> Result<(), AllocError>
        ensures added { OnOk result (self.new ≡ self.old ++ record { key = key; value = place } ∷ []) }
        ensures kept { OnErr result (self.new ≡ self.old) }
    {
        Ok(self.level.push((key, place))?)
    }

    /// Writes the levels above, and answers the place of the root: that of the one node, where no other was added.
    pub fn finish<D: Device>(self, draft: &mut Draft<'_, D>) -> Result<u64, BuildFault>
        requires some { 1 ≤ length self }
        requires ascend { is_ascending (map (λ (e : Entry). e.key) self) ≡ true }
        requires writable { IsWritable (draft_state draft.old).device }
        requires room { draft.old.next + need_above 10 (length self) ≤ (draft_state draft.old).device.blocks }
        requires closed { IsClosed (draft_state draft.old).device }
        ensures same_reference { draft.new.dev.ghost_name ≡ draft.old.dev.ghost_name }
        ensures wrote { OnOk result (Wrote (blocks_from inner_block draft.old.next (levels_above 10 draft.old.next self))
            (draft_state draft.old) (draft_state draft.new)) }
        ensures root { IfOk result (λ root. root ≡ root_above draft.old.next self) }
        ensures closed { StaysClosed (draft_state draft.old).device (draft_state draft.new).device }
        ensures faults { CountsBuildFault result (draft_state draft.old).device.faults (draft_state draft.new).device.faults }
        ensures fault { IfErr result (λ fault. fault ≡ BuildFault.Device) }
    {
        let mut level = self.level;
        while level.len() > 1 {
            let nodes = parts(level.len() as u64, 252) as usize;
            write_level(draft, &mut level, nodes)?;
            level.truncate(nodes);
        }
        let (_, root) = level[0];
        Ok(root)
    }
}

/// Writes a level of so many nodes above a row of nodes, whose first links give way to those of the level.
fn write_level<D: Device>(
    draft: &mut Draft<'_, D>,
    level: &mut [(u64, u64)],
    nodes: usize,
) -> Result<(), BuildFault>
    requires some { nodes ≤ length level.old }
    requires few { length level.old ≤ nodes * 252 }
    requires ascend { is_ascending (keys_of level.old) ≡ true }
    requires writable { IsWritable (draft_state draft.old).device }
    requires room { draft.old.next + nodes ≤ (draft_state draft.old).device.blocks }
    requires closed { IsClosed (draft_state draft.old).device }
    ensures same_reference { draft.new.dev.ghost_name ≡ draft.old.dev.ghost_name }
    ensures heads_are { OnOk result (link_entries (take nodes level.new)
        ≡ heads draft.old.next (even_parts nodes (link_entries level.old))) }
    ensures wrote { OnOk result (Wrote (blocks_from inner_block draft.old.next (even_parts nodes (link_entries level.old)))
        (draft_state draft.old) (draft_state draft.new)) }
    ensures closed { StaysClosed (draft_state draft.old).device (draft_state draft.new).device }
    ensures faults { CountsBuildFault result (draft_state draft.old).device.faults (draft_state draft.new).device.faults }
    ensures fault { IfErr result (λ fault. fault ≡ BuildFault.Device) }
{
    let mut used = 0;
    for i in 0..nodes {
        let size = parts((level.len() - used) as u64, (nodes - i) as u64) as usize;
        let (least, _) = level[used];
        let place = write_node(draft, &level[used..used + size])?;
        level[i] = (least, place);
        used += size;
    }
    Ok(())
}

/// Writes the inner node over these links, and answers its place.
fn write_node<D: Device>(
    draft: &mut Draft<'_, D>,
    children: &[(u64, u64)],
) -> Result<u64, BuildFault>
    requires some { 1 ≤ length children.now }
    requires few { length children.now ≤ 252 }
    requires ascend { is_ascending (keys_of children.now) ≡ true }
    requires writable { IsWritable (draft_state draft.old).device }
    requires room { draft.old.next < (draft_state draft.old).device.blocks }
    requires closed { IsClosed (draft_state draft.old).device }
    ensures same_reference { draft.new.dev.ghost_name ≡ draft.old.dev.ghost_name }
    ensures wrote { OnOk result (Wrote (inner_block draft.old.next (link_entries children.now) ∷ []) (draft_state draft.old)
        (draft_state draft.new)) }
    ensures place { IfOk result (λ place. place ≡ draft.old.next) }
    ensures closed { StaysClosed (draft_state draft.old).device (draft_state draft.new).device }
    ensures faults { CountsBuildFault result (draft_state draft.old).device.faults (draft_state draft.new).device.faults }
    ensures fault { IfErr result (λ fault. fault ≡ BuildFault.Device) }
{
    let place = draft.next();
    let block = write_inner(place, children);
    put_block(draft, &block)?;
    Ok(place)
}

// How many nodes a tree has.

/// How many nodes stand above so many leaves: none above one.
pub fn need_upper(leaves: u64) -> u64
    requires { 1 ≤ leaves }
    ensures count { result ≡ need_above 10 leaves }
    ensures fewer { result + 1 ≤ leaves }
{
    let mut nodes = leaves;
    let mut need = 0;
    while nodes > 1 {
        nodes = parts(nodes, 252);
        need += nodes;
    }
    need
}

/// How many nodes a tree of `n` entries has, where a leaf has room for `max`. One without entries has a leaf.
#[tactic(auto, unfolding(pd_grammar::specs::Need::nodes_of_tree))]
pub fn need_tree(n: u64, max: u64) -> u64
    requires { 2 ≤ max }
    ensures { result ≡ nodes_of_tree max n }
{
    let leaves = parts(n, max).max(1);
    leaves + need_upper(leaves)
}
