//! The marks of the walk, by block number.

ghost use Rattle.std.specs.Prelude.{◌≡◌, ℕ, ◌<◌, ◌==◌, ◌||◌, ◌&&◌, ◌+◌, ◌^◌, ◌≤◌, [], ◌∷◌, length, slice_index, IfOk, IfSome, IfNone};
ghost use Rattle.pd_kinds.specs.declared.limits.TheConstants.{MAX_META_BLOCKS};
ghost use Rattle.pd_kinds.specs.declared.rule.Rule.{Rule as BrokenRule};
ghost use Rattle.pd_kinds.specs.Rule.{same_rule, has_rule};
ghost use Rattle.pd_kinds.specs.Graph.{edge_of};
ghost use Rattle.pd_graph.specs.Marks.{IsUnreadAt, IsAllRead};
ghost use Rattle.pd_graph.specs.Format.{IsSound};

use crate::block_table::BlockTable;
use crate::format::Format;
use crate::roles::{add_role, any_unread, unread_at};
use pd_kinds::{Block, Rule, Rules};
use std::alloc::{AllocError, Global};

/// What the walk keeps of each block, in tables by block number.
#[derive(Drop)]
pub(crate) struct Marks {
    /// The roles in which the block was met.
    pub(crate) seen: BlockTable<u16>,
    /// The roles in which it was read.
    pub(crate) read: BlockTable<u16>,
    /// How many references to it were met.
    pub(crate) counts: BlockTable<u64>,
    /// The rules that it breaks in the roles in which it was read.
    pub(crate) rules: BlockTable<Rules>,
    /// Blocks that have an unread role.
    pub(crate) unread: Stack,
}

impl Marks {
    ghost use Rattle.pd_graph.specs.Marks.{seen_of, read_of, counts_of, rules_of, has_rule_in, HasPlaces};
    ghost use Rattle.pd_graph.specs.Marks.{IsUnmarked, KeepsTables, TakesPair, Follows, LooksAtPair};

    /// Tables for so many blocks, without a mark.
    pub(crate) fn new(alloc: Global, nr: usize) -> Result<Marks, AllocError>
        ensures places { IfOk result (HasPlaces nr) }
        ensures unmarked { IfOk result IsUnmarked }
    {
        let seen = BlockTable::new(alloc, nr, 0)?;
        let read = BlockTable::new(alloc, nr, 0)?;
        let counts = BlockTable::new(alloc, nr, 0)?;
        let rules = BlockTable::new(alloc, nr, Rules::none())?;
        let unread = Stack::new(alloc, nr)?;
        Ok(Marks {
            seen,
            read,
            counts,
            rules,
            unread,
        })
    }

    /// Adds a rule to those of block b.
    pub(crate) fn add_rule(&mut self, b: usize, rule: Rule)
        requires { b < length (rules_of self.old) }
        ensures places { (nr : ℕ) → HasPlaces nr self.old → HasPlaces nr self.new }
        ensures rules { (c : ℕ) (other : BrokenRule) → has_rule_in (rules_of self.new) c other
            ≡ (has_rule_in (rules_of self.old) c other || ((c == b) && same_rule rule other)) }
        ensures seen { seen_of self.new ≡ seen_of self.old }
        ensures read { read_of self.new ≡ read_of self.old }
        ensures counts { counts_of self.new ≡ counts_of self.old }
    {
        let rules = self.rules.get(b).with(rule);
        self.rules.set(b, rules);
    }

    /// Takes a role in which a block was met and not yet read; from now on it counts as read. There is
    /// none where all that was met was read.
    pub(crate) fn take(&mut self) -> Option<(u64, u8)>
        requires same { length (read_of self.old) ≡ length (seen_of self.old) }
        requires few { length (seen_of self.old) ≤ MAX_META_BLOCKS }
        ensures some { IfSome result (λ taken. TakesPair taken.0 taken.1 self.old self.new) }
        ensures none { IfNone result (IsAllRead (seen_of self.old) (read_of self.old)) }
        ensures kept { IfNone result (KeepsTables self.old self.new) }
    {
        let (b, role) = self.next_unread()?;
        add_role(&mut self.read, b, role);
        if self.seen.get(b) != self.read.get(b) {
            self.unread.push(b as u32);
        }
        Some((b as u64, role))
    }

    /// A block with a role in which it was met and not yet read: the block on top of the stack, and any
    /// other where there is none.
    fn next_unread(&mut self) -> Option<(usize, u8)>
        requires { length (read_of self.old) ≡ length (seen_of self.old) }
        ensures some { IfSome result (λ found. IsUnreadAt (seen_of self.old) (read_of self.old) found.0 found.1) }
        ensures none { IfNone result (IsAllRead (seen_of self.old) (read_of self.old)) }
        ensures kept { KeepsTables self.old self.new }
    {
        if let Some(top) = self.unread.pop() {
            if let Some(found) = unread_at(&self.seen, &self.read, top as usize) {
                return Some(found);
            }
        }
        any_unread(&self.seen, &self.read)
    }

    /// Follows an edge to block b in this role.
    pub(crate) fn meet(&mut self, role: u8, b: usize)
        requires role { role < 16 }
        requires seen { b < length (seen_of self.old) }
        requires read { b < length (read_of self.old) }
        requires counts { b < length (counts_of self.old) }
        requires few { length (seen_of self.old) ≤ MAX_META_BLOCKS }
        requires room { slice_index (counts_of self.old) b + 1 < 2 ^ 64 }
        ensures follows { Follows (edge_of role b ∷ []) self.old self.new }
        ensures rules { rules_of self.new ≡ rules_of self.old }
    {
        let count = self.counts.get(b) + 1;
        self.counts.set(b, count);
        let had_unread = self.seen.get(b) != self.read.get(b);
        add_role(&mut self.seen, b, role);
        if self.seen.get(b) != self.read.get(b) && !had_unread {
            self.unread.push(b as u32);
        }
    }

    /// Follows the edges of a block without a bad rule, from the last to the first: so the first of them is on
    /// top of the stack, and blocks are read in the order in which the nodes above name them.
    fn follow<F: Format>(&mut self, format: &F, role: u8, place: u64, block: &Block)
        requires role { role < F.ROLES }
        requires sound { IsSound (F.graph format.now) role place block.now.0 }
        requires places { HasPlaces (F.graph format.now).nr self.old }
        requires room { (b : ℕ) → slice_index (counts_of self.old) b + 256 ≤ 2 ^ 64 }
        ensures follows { Follows ((F.graph format.now).edges role place block.now.0) self.old self.new }
        ensures rules { rules_of self.new ≡ rules_of self.old }
    {
        for i in (0..format.edges_of_any(role, block)).rev() {
            let (met_role, b) = format.edge(role, place, block, i);
            self.meet(met_role, b as usize);
        }
    }

    /// Adds the rules to those of block b.
    fn add_rules(&mut self, b: usize, broken: &Rules)
        requires { b < length (rules_of self.old) }
        ensures rules { (c : ℕ) (wanted : BrokenRule) → has_rule_in (rules_of self.new) c wanted
            ≡ (has_rule_in (rules_of self.old) c wanted || ((c == b) && has_rule broken.now wanted)) }
        ensures seen { seen_of self.new ≡ seen_of self.old }
        ensures read { read_of self.new ≡ read_of self.old }
        ensures counts { counts_of self.new ≡ counts_of self.old }
        ensures places { length (rules_of self.new) ≡ length (rules_of self.old) }
    {
        let rules = self.rules.get(b).union(broken);
        self.rules.set(b, rules);
    }

    /// Looks at a block in a role: keeps the rules that it breaks, and follows its edges if it breaks none.
    pub(crate) fn look<F: Format>(
        &mut self,
        format: &F,
        role: u8,
        b: u64,
        block: &Block,
        broken: &Rules,
    )
        requires role { role < F.ROLES }
        requires within { b < (F.graph format.now).nr }
        requires places { HasPlaces (F.graph format.now).nr self.old }
        requires room { (c : ℕ) → slice_index (counts_of self.old) c + 256 ≤ 2 ^ 64 }
        requires judged { (rule : BrokenRule) → has_rule broken.now rule ≡ (F.graph format.now).bad role b block.now.0 rule }
        ensures { LooksAtPair ((F.graph format.now).edges role b block.now.0) b
            ((F.graph format.now).bad role b block.now.0) self.old self.new }
    {
        if broken.is_empty() {
            self.follow(format, role, b, block);
        } else {
            self.add_rules(b as usize, broken);
        }
    }
}

// Where a walk looks next.

/// A stack of block numbers with a fixed number of places. It says where to look first for what is
/// unread, and no more: what is unread stands in the tables, and a number without a place is left out.
#[derive(Drop)]
pub(crate) struct Stack {
    numbers: Vec<u32>,
}

impl Stack {
    /// An empty stack with so many places, whose memory is reserved.
    pub(crate) fn new(alloc: Global, places: usize) -> Result<Stack, AllocError> {
        let numbers = Vec::with_capacity(alloc, places)?;
        Ok(Stack { numbers })
    }

    /// Puts a number on top, where there is a place.
    pub(crate) fn push(&mut self, block: u32) {
        if self.numbers.len() < self.numbers.capacity() {
            let _ = self.numbers.push(block);
        }
    }

    /// Takes the number on top.
    pub(crate) fn pop(&mut self) -> Option<u32> {
        self.numbers.pop()
    }
}
