//! A cursor over the entries that are saved of a tree (`thin_repair`, `thin_shrink`, `cache_repair`).

ghost use Rattle.std.specs.Prelude.{◌≡◌, ◌+◌, ◌-◌, ◌<◌, ◌≤◌, ◌++◌, true, OnOk, IfOk, IfSome};
ghost use Rattle.std.specs.Option.{ForSome};
ghost use Rattle.pd_kinds.specs.Objects.{CountsFault};
ghost use Rattle.pd_image.specs.Device.{IsAttached, OnlyReads};
ghost use Rattle.pd_tree.specs.Stack.{child_weight};
ghost use Rattle.pd_salvage.specs.Range.{IsNextFrom, saved_below};
ghost use Rattle.pd_salvage.specs.Way.{KnowsUndamaged, saved_on, way_number};

use crate::way::{Range, Taken, Way, is_sound, is_wanted};
use pd_image::{Device, Failed};
use pd_value::Value;
use std::alloc::{AllocError, Global};
use std::marker::PhantomData;

/// The end of all keys.
const KEYS_END: u128 = 18446744073709551616;

/// The entries of a tree, whose leaves hold values of one type, that a path of at most 64 undamaged nodes leads to
/// from its root, where they lie in each range of keys on that path, by ascending key.
///
/// It holds the nodes on the way to the next entry, in places with room for a block each: the memory of 64 is reserved,
/// and used as far as the tree is deep. The entry that a call gives, and then what is left after it, are what was left
/// before it. Over any device the keys ascend.
///
/// Within a call an undamaged block isn't read again while it stands in the place of its depth. A call knows nothing of
/// the places from the calls before it, as those may have had another device.
#[derive(Drop)]
pub struct SavedCursor<V> {
    way: Way,
    /// The number of metadata blocks.
    nr: u64,
    /// The root, until it was read.
    root: Option<u64>,
    /// The least key that may come: one above that of the last entry.
    least: u128,
    of: PhantomData<V>,
    ghost fresh: { ForSome root (λ _. way.stack.depth ≡ 0) },
}

impl<V: Value> SavedCursor<V> {
    ghost use Rattle.std.specs.Prelude.{◌≡◌, ℕ, ◌+◌, ◌<◌, ◌≤◌, List, ◌++◌, true, map, None, OnOk, IfOk, IfSome};
    ghost use Rattle.pd_kinds.specs.Objects.{CountsFault};
    ghost use Rattle.pd_image.specs.Device.{IsAttached, OnlyReads};
    ghost use Rattle.pd_laid.specs.Salvage.{salvaged_entries};
    ghost use Rattle.pd_tree.specs.Cursor.{root_left};
    ghost use Rattle.pd_tree.specs.Cursor.{item_of};
    ghost use Rattle.pd_tree.specs.Stack.{IsNext};
    ghost use Rattle.pd_salvage.specs.Cursor.{KnowsSaved, saved_left, saved_least, saved_number, saved_room};
    ghost use Rattle.pd_salvage.specs.Way.{KnowsUndamaged};
    ghost use Rattle.pd_salvage.specs.Range.{all_keys, saved_below};
    ghost use Rattle.pd_salvage.specs.Way.{saved_on, way_number};

    /// A cursor before the first entry of the tree with this root, of a pool with so many metadata blocks. It
    /// reserves all memory that the cursor needs: 64 places of about 4136 bytes.
    ///
    /// Fails with `AllocError` where that memory wasn't found.
    pub fn start(alloc: Global, nr: u64, root: u64) -> Result<SavedCursor<V>, AllocError>
        ensures left { (image : List (List ℕ)) → IfOk result
            (λ cursor. saved_left V.SIZE V.decoded image cursor ≡ map (item_of V.decoded) (salvaged_entries V.SIZE nr image root)) }
        ensures least { IfOk result (λ cursor. saved_least cursor ≡ 0) }
        ensures room { IfOk result (λ cursor. saved_room cursor ≡ nr) }
    {
        Ok(SavedCursor {
            way: Way::new(alloc)?,
            nr,
            root: Some(root),
            least: 0,
            of: PhantomData,
        })
    }

    /// Goes before the first entry of the tree with this root, of a pool with so many metadata blocks, in the memory
    /// that the cursor has.
    pub fn restart(&mut self, nr: u64, root: u64)
        ensures left { (image : List (List ℕ)) → saved_left V.SIZE V.decoded image self.new
            ≡ map (item_of V.decoded) (salvaged_entries V.SIZE nr image root) }
        ensures least { saved_least self.new ≡ 0 }
        ensures room { saved_room self.new ≡ nr }
        ensures knows { (image : List (List ℕ)) → KnowsSaved V.SIZE image self.new }
    {
        self.way.clear();
        self.nr = nr;
        self.root = Some(root);
        self.least = 0;
    }

    /// The next entry: its key and its value, or `None` after the last one. It takes no memory.
    ///
    /// Over any device and tree the keys ascend, and the cursor's number falls with each entry.
    ///
    /// Fails with `Failed` where a read failed; then nothing is said of what is left.
    pub fn next<D: Device>(&mut self, dev: &mut D) -> Result<Option<(u64, V)>, Failed>
        requires attached { IsAttached (D.state dev.old) }
        requires within { saved_room self.old ≤ (D.state dev.old).blocks }
        ensures next { IfOk result (λ entry. IfSome (D.state dev.old).held (λ image.
            IsNext entry (saved_left V.SIZE V.decoded image self.old) (saved_left V.SIZE V.decoded image self.new))) }
        ensures ascends { IfOk result (λ entry. IfSome entry
            (λ item. (saved_least self.old ≤ item.0) × (saved_least self.new ≡ item.0 + 1))) }
        ensures fits { IfOk result (λ entry. IfSome entry (λ item. V.fitting item.1 ≡ true)) }
        ensures number { IfOk result (λ entry. IfSome entry (λ _. saved_number V.SIZE self.new < saved_number V.SIZE self.old)) }
        ensures room { saved_room self.new ≡ saved_room self.old }
        ensures kept { OnlyReads (D.state dev.old) (D.state dev.new) }
        ensures faults { CountsFault result (D.state dev.old).faults (D.state dev.new).faults }
    {
        self.forget();
        self.next_known(dev)
    }

    /// Forgets which blocks stand in its places.
    fn forget(&mut self)
        ensures left { (image : List (List ℕ)) → saved_left V.SIZE V.decoded image self.new ≡ saved_left V.SIZE V.decoded image self.old }
        ensures number { saved_number V.SIZE self.new ≡ saved_number V.SIZE self.old }
        ensures same { (saved_least self.new ≡ saved_least self.old) × (saved_room self.new ≡ saved_room self.old) }
        ensures knows { (image : List (List ℕ)) → KnowsSaved V.SIZE image self.new }
    {
        self.way.forget();
    }

    /// The next entry, as `next` gives it, where the places hold blocks of this device: such a block isn't read again.
    pub(crate) fn next_known<D: Device>(&mut self, dev: &mut D) -> Result<Option<(u64, V)>, Failed>
        requires attached { IsAttached (D.state dev.old) }
        requires within { saved_room self.old ≤ (D.state dev.old).blocks }
        requires knows { IfSome (D.state dev.old).held (λ image. KnowsSaved V.SIZE image self.old) }
        ensures next { IfOk result (λ entry. IfSome (D.state dev.old).held (λ image.
            IsNext entry (saved_left V.SIZE V.decoded image self.old) (saved_left V.SIZE V.decoded image self.new))) }
        ensures ascends { IfOk result (λ entry. IfSome entry
            (λ item. (saved_least self.old ≤ item.0) × (saved_least self.new ≡ item.0 + 1))) }
        ensures fits { IfOk result (λ entry. IfSome entry (λ item. V.fitting item.1 ≡ true)) }
        ensures number { IfOk result (λ entry. IfSome entry (λ _. saved_number V.SIZE self.new < saved_number V.SIZE self.old)) }
        ensures room { saved_room self.new ≡ saved_room self.old }
        ensures knows { OnOk result (IfSome (D.state dev.old).held (λ image. KnowsSaved V.SIZE image self.new)) }
        ensures kept { OnlyReads (D.state dev.old) (D.state dev.new) }
        ensures faults { CountsFault result (D.state dev.old).faults (D.state dev.new).faults }
    {
        self.enter_root(dev)?;
        match next_entry(&mut self.way, dev, self.nr, self.least)? {
            Some((key, value)) => {
                self.least = key as u128 + 1;
                Ok(Some((key, value)))
            }
            None => Ok(None),
        }
    }

    /// Reads the root, if it wasn't read yet.
    fn enter_root<D: Device>(&mut self, dev: &mut D) -> Result<(), Failed>
        requires attached { IsAttached (D.state dev.old) }
        requires within { saved_room self.old ≤ (D.state dev.old).blocks }
        requires knows { IfSome (D.state dev.old).held (λ image. KnowsUndamaged V.SIZE image self.old.way) }
        ensures left { OnOk result (IfSome (D.state dev.old).held (λ image. saved_on V.SIZE V.decoded self.new.nr image self.new.way
            ≡ root_left (saved_below V.SIZE V.decoded self.old.nr image 64 all_keys) self.old.root
            ++ saved_on V.SIZE V.decoded self.old.nr image self.old.way)) }
        ensures number { OnOk result (way_number V.SIZE self.new.way ≤ saved_number V.SIZE self.old) }
        ensures knows { OnOk result (IfSome (D.state dev.old).held (λ image. KnowsUndamaged V.SIZE image self.new.way)) }
        ensures entered { self.new.root ≡ None }
        ensures same { (self.new.least ≡ self.old.least) × (saved_room self.new ≡ saved_room self.old) }
        ensures kept { OnlyReads (D.state dev.old) (D.state dev.new) }
        ensures faults { CountsFault result (D.state dev.old).faults (D.state dev.new).faults }
    {
        match self.root.take() {
            Some(root) => {
                let all = Range {
                    low: 0,
                    high: KEYS_END,
                };
                enter::<V, D>(&mut self.way, dev, self.nr, root, all)
            }
            None => Ok(()),
        }
    }
}

// The search for the next entry that is saved (`thin_repair`, `thin_shrink`, `cache_repair`).

/// Takes the node into the next place on the way, if it lies in the metadata, of so many blocks, has a range of keys and
/// is undamaged. It is read, unless it is known that it stands there.
pub(crate) fn enter<V: Value, D: Device>(
    way: &mut Way,
    dev: &mut D,
    nr: u64,
    b: u64,
    range: Range,
) -> Result<(), Failed>
    requires attached { IsAttached (D.state dev.old) }
    requires within { nr ≤ (D.state dev.old).blocks }
    requires room { way.old.stack.depth < 64 }
    requires knows { IfSome (D.state dev.old).held (λ image. KnowsUndamaged V.SIZE image way.old) }
    ensures left { OnOk result (IfSome (D.state dev.old).held (λ image.
        saved_on V.SIZE V.decoded nr image way.new
        ≡ saved_below V.SIZE V.decoded nr image (64 - way.old.stack.depth) range b ++ saved_on V.SIZE V.decoded nr image way.old)) }
    ensures number { OnOk result (way_number V.SIZE way.new < way_number V.SIZE way.old + child_weight (64 - way.old.stack.depth)) }
    ensures knows { OnOk result (IfSome (D.state dev.old).held (λ image. KnowsUndamaged V.SIZE image way.new)) }
    ensures kept { OnlyReads (D.state dev.old) (D.state dev.new) }
    ensures faults { CountsFault result (D.state dev.old).faults (D.state dev.new).faults }
{
    if !is_wanted(b, &range, nr) {
        return Ok(());
    }
    if way.again::<V>(b, range) {
        return Ok(());
    }
    way.push::<V, D>(dev, b, range)?;
    if is_sound::<V>(way.top(), b) {
        way.keep(b);
    } else {
        way.pop();
    }
    Ok(())
}

/// Goes on to the next entry whose key is at least this, and reads the nodes on the way to it.
pub(crate) fn next_entry<V: Value, D: Device>(
    way: &mut Way,
    dev: &mut D,
    nr: u64,
    least: u128,
) -> Result<Option<(u64, V)>, Failed>
    requires attached { IsAttached (D.state dev.old) }
    requires within { nr ≤ (D.state dev.old).blocks }
    requires knows { IfSome (D.state dev.old).held (λ image. KnowsUndamaged V.SIZE image way.old) }
    ensures next { IfOk result (λ entry. IfSome (D.state dev.old).held (λ image.
        IsNextFrom least entry (saved_on V.SIZE V.decoded nr image way.old) (saved_on V.SIZE V.decoded nr image way.new))) }
    ensures from { IfOk result (λ entry. IfSome entry (λ item. least ≤ item.0)) }
    ensures fits { IfOk result (λ entry. IfSome entry (λ item. V.fitting item.1 ≡ true)) }
    ensures knows { OnOk result (IfSome (D.state dev.old).held (λ image. KnowsUndamaged V.SIZE image way.new)) }
    ensures number { IfOk result (λ entry. IfSome entry (λ _. way_number V.SIZE way.new < way_number V.SIZE way.old)) }
    ensures kept { OnlyReads (D.state dev.old) (D.state dev.new) }
    ensures faults { CountsFault result (D.state dev.old).faults (D.state dev.new).faults }
{
    while !way.is_empty() {
        match way.step::<V>() {
            Taken::Passed => {}
            Taken::Child(b, range) => enter::<V, D>(way, dev, nr, b, range)?,
            Taken::Entry(key, value) => {
                if key as u128 >= least {
                    return Ok(Some((key, value)));
                }
            }
        }
    }
    Ok(None)
}
