//! The blocks of an array, asked by ascending key (`cache_repair`).

ghost use Rattle.std.specs.Prelude.{◌≡◌, ◌+◌};
ghost use Rattle.std.specs.Option.{ForSome};
ghost use Rattle.pd_salvage.specs.Cursor.{saved_least};

use pd_image::{Device, Failed};
use pd_salvage::SavedCursor;
use pd_value::Root;
use std::alloc::{AllocError, Global};

/// What is known of a key.
#[derive(Clone, Copy)]
pub(crate) enum Known {
    /// Its block.
    Here(Root),
    /// It has none.
    Past,
    /// Nothing yet.
    Unread,
}

/// The blocks of an array that are saved.
#[derive(Drop)]
pub(crate) struct Places {
    entries: SavedCursor<Root>,
    /// The entry that was read last.
    ahead: Option<(u64, Root)>,
    ghost follows: { ForSome ahead (λ item. saved_least entries ≡ item.0 + 1) },
}

impl Places {
    ghost use Rattle.std.specs.Prelude.{◌≡◌, ℕ, ◌≤◌, List, map, IfOk, IfSome};
    ghost use Rattle.pd_kinds.specs.Objects.{CountsFault};
    ghost use Rattle.pd_image.specs.Device.{IsAttached, OnlyReads};
    ghost use Rattle.pd_laid.specs.Salvage.{salvaged_entries};
    ghost use Rattle.pd_tree.specs.Cursor.{item_of, root_of};
    ghost use Rattle.pd_salvage.specs.Details.{IsFound};
    ghost use Rattle.pd_salvage_cache.specs.Places.{IsKnown, places_left, places_room};

    /// Those of the array with this root, of a cache with so many metadata blocks.
    pub(crate) fn start(alloc: Global, nr: u64, root: u64) -> Result<Places, AllocError>
        ensures left { (image : List (List ℕ)) → IfOk result
            (λ places. places_left image places ≡ map (item_of root_of) (salvaged_entries 8 nr image root)) }
        ensures room { IfOk result (λ places. places_room places ≡ nr) }
    {
        let entries = SavedCursor::start(alloc, nr, root)?;
        Ok(Places {
            entries,
            ahead: None,
        })
    }

    /// That of this key, if there is one. Those of lesser keys can't be asked from then on.
    pub(crate) fn find<D: Device>(&mut self, dev: &mut D, key: u64) -> Result<Option<Root>, Failed>
        requires attached { IsAttached (D.state dev.old) }
        requires within { places_room self.old ≤ (D.state dev.old).blocks }
        ensures found { IfOk result (λ found. IfSome (D.state dev.old).held
            (λ image. IsFound key found (places_left image self.old) (places_left image self.new))) }
        ensures room { places_room self.new ≡ places_room self.old }
        ensures kept { OnlyReads (D.state dev.old) (D.state dev.new) }
        ensures faults { CountsFault result (D.state dev.old).faults (D.state dev.new).faults }
    {
        loop {
            match self.known(key) {
                Known::Here(root) => return Ok(Some(root)),
                Known::Past => return Ok(None),
                Known::Unread => {}
            }
            match self.entries.next(dev)? {
                Some((next, root)) => self.ahead = Some((next, root)),
                None => return Ok(None),
            }
        }
    }

    /// What the entry that was read last says of this key. One of a lesser key is forgotten.
    fn known(&mut self, key: u64) -> Known
        ensures { IsKnown key result self.old self.new }
    {
        if let Some((next, root)) = self.ahead {
            if next == key {
                return Known::Here(root);
            }
            if next > key {
                return Known::Past;
            }
            self.ahead = None;
        }
        Known::Unread
    }
}
