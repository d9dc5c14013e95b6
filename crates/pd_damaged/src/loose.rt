//! Blocks that look like nodes of a damaged mapping tree or details tree (`thin_repair`).

ghost use Rattle.std.specs.Prelude.{◌≡◌, ◌+◌, ◌^◌, ◌<◌, ◌||◌, not, count_by, true, false, if◌then◌else◌};
ghost use Rattle.std.specs.List.{range_with_len};
ghost use Rattle.pd_kinds.specs.Graph.{is_outside as lies_outside};
ghost use Rattle.pd_kinds.specs.Node.{child_at, entry_count, is_inner_node};
ghost use Rattle.pd_answers.specs.DamagedStates.{are_ids as are_all_ids, is_mostly_inside};
ghost use Rattle.pd_damaged.specs.Loose.{looks_loose};
ghost use Rattle.pd_damaged.specs.declared.loose.Kind.TheVariants as kinds;

use pd_kinds::{Block, is_outside};
use pd_node::{child, entries, is_inner, key, value};
use pd_salvage::is_sound;
use pd_value::{Details, Root, Value};

/// Ids of devices are below this.
const IDS_END: u64 = 1 << 24;

/// The kinds of trees whose roots are looked for.
#[derive(Clone, Copy, Debug, PartialEq, Eq)]
pub(crate) enum Kind {
    /// Mapping trees, whose leaves name the roots of devices' mappings.
    Top,
    /// Details trees, whose leaves name no blocks.
    Details,
}

/// A number, and one more where something passes.
fn one_more_if(number: usize, passes: bool) -> usize
    requires { number < 2 ^ 63 }
    ensures { result ≡ number + (if passes then 1 else 0) }
{
    if passes { number + 1 } else { number }
}

/// How many children of an inner node lie inside the metadata.
fn inside_of_inner<V: Value>(block: &Block, nr: u64) -> usize
    requires { is_inner_node block.now.0 ≡ true }
    ensures count { result
        ≡ count_by (λ i. not (lies_outside nr (child_at block.now.0 i))) (range_with_len 0 (entry_count V.SIZE block.now.0)) }
{
    let mut inside = 0;
    for i in 0..entries::<V>(block) {
        let named = child::<V>(block, i);
        let outside = is_outside(nr, named);
        inside = one_more_if(inside, !outside);
    }
    inside
}

/// How many roots in a leaf of a mapping tree lie inside the metadata.
fn inside_of_leaf(block: &Block, nr: u64) -> usize
    requires { is_inner_node block.now.0 ≡ false }
    ensures count { result
        ≡ count_by (λ i. not (lies_outside nr (child_at block.now.0 i))) (range_with_len 0 (entry_count 8 block.now.0)) }
{
    let mut inside = 0;
    for i in 0..entries::<Root>(block) {
        let named = value::<Root>(block, i);
        let outside = is_outside(nr, named.0);
        inside = one_more_if(inside, !outside);
    }
    inside
}

/// Whether more than half of an inner node's children lie inside the metadata.
fn inner_names_inside<V: Value>(block: &Block, nr: u64) -> bool
    requires { is_inner_node block.now.0 ≡ true }
    ensures { result ≡ is_mostly_inside V.SIZE nr block.now.0 }
{
    let inside = inside_of_inner::<V>(block, nr);
    let all = entries::<V>(block);
    inside > all / 2
}

/// Whether more than half of what a node of a mapping tree names lies inside the metadata.
fn top_names_inside(block: &Block, nr: u64) -> bool
    ensures { result ≡ is_mostly_inside 8 nr block.now.0 }
{
    if is_inner(block) {
        return inner_names_inside::<Root>(block, nr);
    }
    let inside = inside_of_leaf(block, nr);
    let named = entries::<Root>(block);
    inside > named / 2
}

/// Whether a node of a details tree is a leaf, or more than half of its children lie inside the metadata.
fn details_name_inside(block: &Block, nr: u64) -> bool
    ensures { result ≡ (not (is_inner_node block.now.0) || is_mostly_inside 24 nr block.now.0) }
{
    if is_inner(block) {
        inner_names_inside::<Details>(block, nr)
    } else {
        true
    }
}

/// Whether all keys of a node are ids of devices.
fn are_ids<V: Value>(block: &Block) -> bool
    ensures { result ≡ are_all_ids V.SIZE block.now.0 }
{
    for i in 0..entries::<V>(block) {
        if key::<V>(block, i) >= IDS_END {
            return false;
        }
    }
    true
}

/// Whether block b looks like a node of a mapping tree, and isn't the root of a sound one.
fn is_loose_top(nr: u64, sound: bool, b: u64, block: &Block) -> bool
    ensures { result ≡ looks_loose (kinds.Top) nr sound b block.now.0 }
{
    if is_outside(nr, b) {
        return false;
    }
    if !is_sound::<Root>(block, b) {
        return false;
    }
    if !top_names_inside(block, nr) {
        return false;
    }
    are_ids::<Root>(block) && !sound
}

/// Whether block b looks like a node of a details tree, and isn't the root of a sound one.
fn is_loose_details(nr: u64, sound: bool, b: u64, block: &Block) -> bool
    ensures { result ≡ looks_loose (kinds.Details) nr sound b block.now.0 }
{
    if is_outside(nr, b) {
        return false;
    }
    if !is_sound::<Details>(block, b) {
        return false;
    }
    if !details_name_inside(block, nr) {
        return false;
    }
    are_ids::<Details>(block) && !sound
}

/// Whether block b, with these bytes, looks like a node of a tree of this kind, and isn't the root of a sound one.
pub(crate) fn is_loose(kind: Kind, nr: u64, sound: bool, b: u64, block: &Block) -> bool
    ensures { result ≡ looks_loose kind nr sound b block.now.0 }
{
    match kind {
        Kind::Top => is_loose_top(nr, sound, b, block),
        Kind::Details => is_loose_details(nr, sound, b, block),
    }
}
