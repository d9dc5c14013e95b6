//! What a walk and settling find out of each block.

ghost use Rattle.std.specs.Prelude.{◌≡◌, ℕ, ◌<◌, ◌≤◌, ◌==◌, ◌||◌, ◌&&◌, false, IfOk, if◌then◌else◌};
ghost use Rattle.pd_kinds.specs.declared.limits.TheConstants.{MAX_META_BLOCKS};
ghost use Rattle.pd_kinds.specs.declared.rule.Rule.{Rule};
ghost use Rattle.pd_kinds.specs.Rule.{has_rule, same_rule};
ghost use Rattle.pd_graph.specs.Marks.{HasPlaces};
ghost use Rattle.pd_graph.specs.Notes.{size_of};

use crate::marks::Marks;
use crate::notes::{Note, Notes};
use crate::roles::are_several;
use pd_kinds::{Rule, Rules};
use std::alloc::{AllocError, Global};

/// What is known of each metadata block: the roles and the references that the walk met, the rules that
/// it breaks, and the notes of the nodes of trees. It takes about 50 bytes a block: `new` reserves
/// them, and they are used as far as the last block that was met.
#[derive(Drop)]
pub struct Audit {
    nr: u64,
    pub(crate) walked: bool,
    pub(crate) marks: Marks,
    /// The notes of nodes: of the leaves by the walk, and of the others by settling. Whatever is noted there, the
    /// walk's marks stay.
    pub notes: Notes,
    ghost places: { HasPlaces nr marks },
    ghost note_places: { size_of notes ≡ nr },
    ghost some: { 1 ≤ nr },
    ghost few: { nr ≤ MAX_META_BLOCKS },
}

impl Audit {
    ghost use Rattle.pd_graph.specs.Audit.{blocks_of, has_walked, roles_at, has_rule_at, count_at, note_at};
    ghost use Rattle.pd_graph.specs.Audit.{IsNew, KeepsButRules, KeepsButNotes, KeepsMarks};

    /// An audit of so many blocks, from 1 to `MAX_META_BLOCKS`, that knows nothing of them. It reserves all the memory
    /// of the walk and of settling; want of it is the only error.
    pub fn new(alloc: Global, nr: u64) -> Result<Audit, AllocError>
        requires some { 1 ≤ nr }
        requires few { nr ≤ MAX_META_BLOCKS }
        ensures { IfOk result (IsNew nr) }
    {
        let marks = Marks::new(alloc, nr as usize)?;
        let notes = Notes::new(alloc, nr)?;
        Ok(Audit {
            nr,
            walked: false,
            marks,
            notes,
        })
    }

    /// The number of blocks.
    pub fn nr(&self) -> u64
        ensures number { result ≡ blocks_of self.now }
        ensures some { 1 ≤ result }
        ensures few { result ≤ MAX_META_BLOCKS }
    {
        self.nr
    }

    /// Whether `walk` answered Ok, and nothing that works on the audit failed since: only then may it be used
    /// further.
    pub fn is_walked(&self) -> bool
        ensures { result ≡ has_walked self.now }
    {
        self.walked
    }

    /// Says that the audit may not be used further, as after a failure of what works on it.
    pub fn give_up(&mut self)
        ensures walked { has_walked self.new ≡ false }
        ensures kept { KeepsMarks self.old self.new }
    {
        self.walked = false;
    }

    /// The rules that block b breaks, Role among them where it was met in two roles or more.
    pub fn rules(&self, b: u64) -> Rules
        requires { b < blocks_of self.now }
        ensures { (rule : Rule) → has_rule result rule ≡ has_rule_at self.now b rule }
    {
        let b = b as usize;
        self.marks
            .rules
            .get(b)
            .with_if(Rule::Role, are_several(self.marks.seen.get(b)))
    }

    /// The roles in which block b was met: bit r for role r.
    pub fn roles(&self, b: u64) -> u16
        requires { b < blocks_of self.now }
        ensures { result ≡ roles_at self.now b }
    {
        self.marks.seen.get(b as usize)
    }

    /// How many references to metadata block b were met.
    pub fn meta_count(&self, b: u64) -> u64
        requires { b < blocks_of self.now }
        ensures { result ≡ count_at self.now b }
    {
        self.marks.counts.get(b as usize)
    }

    /// Adds a rule to those of block b.
    pub fn mark(&mut self, b: u64, rule: Rule)
        requires { b < blocks_of self.old }
        ensures rules { (c : ℕ) (other : Rule) → has_rule_at self.new c other
            ≡ (has_rule_at self.old c other || ((c == b) && same_rule rule other)) }
        ensures others { KeepsButRules self.old self.new }
    {
        let b = b as usize;
        self.marks.add_rule(b, rule);
    }

    /// What was noted of block b.
    pub fn note(&self, b: u64) -> Note
        requires { b < blocks_of self.now }
        ensures { result ≡ note_at self.now b }
    {
        self.notes.note(b)
    }

    /// Replaces the note of block b.
    pub fn set_note(&mut self, b: u64, note: Note)
        requires { b < blocks_of self.old }
        ensures notes { (c : ℕ) → note_at self.new c ≡ (if c == b then note else note_at self.old c) }
        ensures others { KeepsButNotes self.old self.new }
    {
        self.notes.set_note(b, note);
    }
}
