//! The details of devices, asked by ascending id (`thin_repair`, `thin_shrink`).

ghost use Rattle.std.specs.Prelude.{◌≡◌, ◌+◌};
ghost use Rattle.std.specs.Option.{ForSome};
ghost use Rattle.pd_salvage.specs.Cursor.{saved_least};

use crate::cursor::SavedCursor;
use pd_image::{Device, Failed};
use pd_value::Details;
use std::alloc::{AllocError, Global};

/// What is known of a device.
#[derive(Clone, Copy)]
pub(crate) enum Known {
    /// Its details.
    Here(Details),
    /// It has none.
    Past,
    /// Nothing yet.
    Unread,
}

/// The details that are saved of a pool's devices.
#[derive(Drop)]
pub struct SavedDetails {
    entries: SavedCursor<Details>,
    /// The entry that was read last.
    ahead: Option<(u64, Details)>,
    ghost follows: { ForSome ahead (λ item. saved_least entries ≡ item.0 + 1) },
}

impl SavedDetails {
    ghost use Rattle.std.specs.Prelude.{◌≡◌, ℕ, ◌≤◌, List, map, IfOk, IfSome};
    ghost use Rattle.pd_kinds.specs.Objects.{CountsFault};
    ghost use Rattle.pd_image.specs.Device.{IsAttached, OnlyReads};
    ghost use Rattle.pd_laid.specs.Salvage.{salvaged_entries};
    ghost use Rattle.pd_meaning_thin.specs.Runs.{details_of};
    ghost use Rattle.pd_tree.specs.Cursor.{item_of};
    ghost use Rattle.pd_salvage.specs.Details.{details_left, details_room, IsFound, IsFoundOr, IsKnown};

    /// Those of the details tree with this root, of a pool with so many metadata blocks.
    pub fn start(alloc: Global, nr: u64, root: u64) -> Result<SavedDetails, AllocError>
        ensures left { (image : List (List ℕ)) → IfOk result
            (λ details. details_left image details ≡ map (item_of details_of) (salvaged_entries 24 nr image root)) }
        ensures room { IfOk result (λ details. details_room details ≡ nr) }
    {
        let entries = SavedCursor::start(alloc, nr, root)?;
        Ok(SavedDetails {
            entries,
            ahead: None,
        })
    }

    /// Those of this device, if there are any. Those of lesser ids can't be asked from then on.
    pub(crate) fn find<D: Device>(
        &mut self,
        dev: &mut D,
        id: u64,
    ) -> Result<Option<Details>, Failed>
        requires attached { IsAttached (D.state dev.old) }
        requires within { details_room self.old ≤ (D.state dev.old).blocks }
        ensures found { IfOk result (λ found. IfSome (D.state dev.old).held
            (λ image. IsFound id found (details_left image self.old) (details_left image self.new))) }
        ensures room { details_room self.new ≡ details_room self.old }
        ensures kept { OnlyReads (D.state dev.old) (D.state dev.new) }
        ensures faults { CountsFault result (D.state dev.old).faults (D.state dev.new).faults }
    {
        loop {
            match self.known(id) {
                Known::Here(details) => return Ok(Some(details)),
                Known::Past => return Ok(None),
                Known::Unread => {}
            }
            match self.entries.next(dev)? {
                Some((key, details)) => self.ahead = Some((key, details)),
                None => return Ok(None),
            }
        }
    }

    /// Those of this device, or `lost` where it has none.
    pub fn find_or<D: Device>(
        &mut self,
        dev: &mut D,
        id: u64,
        lost: Details,
    ) -> Result<Details, Failed>
        requires attached { IsAttached (D.state dev.old) }
        requires within { details_room self.old ≤ (D.state dev.old).blocks }
        ensures found { IfOk result (λ details. IfSome (D.state dev.old).held
            (λ image. IsFoundOr lost id details (details_left image self.old) (details_left image self.new))) }
        ensures room { details_room self.new ≡ details_room self.old }
        ensures kept { OnlyReads (D.state dev.old) (D.state dev.new) }
        ensures faults { CountsFault result (D.state dev.old).faults (D.state dev.new).faults }
    {
        match self.find(dev, id)? {
            Some(details) => Ok(details),
            None => Ok(lost),
        }
    }

    /// What the entry that was read last says of this device. One of a lesser id is forgotten.
    fn known(&mut self, id: u64) -> Known
        ensures { IsKnown id result self.old self.new }
    {
        if let Some((key, details)) = self.ahead {
            if key == id {
                return Known::Here(details);
            }
            if key > id {
                return Known::Past;
            }
            self.ahead = None;
        }
        Known::Unread
    }
}
