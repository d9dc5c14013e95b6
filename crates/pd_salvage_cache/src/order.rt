//! The order of the roots of fuller mapping arrays (`cache_repair`).

ghost use Rattle.std.specs.Prelude.{◌≡◌, ℕ, ◌≤◌, ◌==◌, ◌||◌, List, length, IfOk, OnOk, if◌then◌else◌};
ghost use Rattle.std.specs.List.{range_with_len};
ghost use Rattle.pd_kinds.specs.CacheFormat.{CacheFields};
ghost use Rattle.pd_salvage_cache.specs.Fuller.{AreFirst, comes_before, place_among, put_among};

use std::alloc::{AllocError, Global};

/// How many roots there are to choose from, at most.
const MOST: usize = 100;

/// A root, and how many words of its array are saved.
#[derive(Clone, Copy)]
pub(crate) struct Choice {
    pub(crate) root: u64,
    pub(crate) words: u32,
}

impl Choice {
    /// Whether it comes before another one: more words first, and among equal ones the higher place.
    fn is_before(&self, other: &Choice) -> bool
        ensures { result ≡ comes_before self.now other.now }
    {
        (self.words > other.words) | ((self.words == other.words) & (self.root > other.root))
    }
}

/// The place of a root among others that are in order: before the first one that comes after it.
fn place_of(choices: &[Choice], one: &Choice) -> usize
    ensures place { result ≡ place_among one.now choices.now }
    ensures within { result ≤ length choices.now }
{
    for i in 0..choices.len() {
        if one.is_before(&choices[i]) {
            return i;
        }
    }
    choices.len()
}

/// Puts a root into its place among others that are in order, and leaves out what comes after the first `MOST`.
fn put(choices: &mut Vec<Choice>, one: Choice) -> Result<(), AllocError>
    ensures { OnOk result (choices.new.items ≡ put_among choices.old.items one) }
{
    let place = place_of(choices, &one);
    choices.insert(place, one)?;
    choices.truncate(MOST);
    Ok(())
}

/// Puts a block with so many words among them, if it has any and isn't a child.
fn put_block(
    choices: &mut Vec<Choice>,
    root: u64,
    words: u32,
    is_child: bool,
) -> Result<(), AllocError>
    ensures { OnOk result (choices.new.items
        ≡ (if (words == 0) || is_child then choices.old.items else put_among choices.old.items (record { root = root; words = words }))) }
{
    if (words == 0) | is_child {
        return Ok(());
    }
    put(choices, Choice { root, words })
}

/// The first roots in order, by how many words each block has and which blocks are children. It takes 16 bytes a root.
pub(crate) fn first_roots(
    alloc: Global,
    words: &[u32],
    children: &[bool],
) -> Result<Vec<Choice>, AllocError>
    requires { length children.now ≡ length words.now }
    ensures { IfOk result (λ choices. (fields : CacheFields) (image : List (List ℕ))
        → AreFirst fields image words.now children.now (range_with_len 0 (length words.now)) choices.items) }
{
    let nr = words.len();
    let mut choices = Vec::new(alloc);
    for passed in 0..nr {
        let root = nr - (passed + 1);
        put_block(&mut choices, root as u64, words[root], children[root])?;
    }
    Ok(choices)
}
