//! The devices of a mapping tree and of the details tree beside it, one after another (`thin_check`).

ghost use Rattle.std.specs.Prelude.{◌≡◌, ℕ, ◌+◌, ◌<◌, ◌≤◌, ◌==◌, not, [], ◌∷◌, IfNone, IfSome, IfOk, OnOk};
ghost use Rattle.std.specs.Str.{bytes_eq};
ghost use Rattle.pd_kinds.specs.Objects.{CountsFault};
ghost use Rattle.pd_image.specs.Device.{IsAttached, OnlyReads};
ghost use Rattle.pd_graph.specs.Audit.{blocks_of, note_at, KeepsButRules};
ghost use Rattle.pd_tree.specs.Cursor.{root_of};
ghost use Rattle.pd_check.specs.Known.{Charges};
ghost use Rattle.pd_thin.specs.DevicePairs.{peeked_items, HaveNoEntry, cursors_number, cursors_reads, details_of, firsts};
ghost use Rattle.pd_thin.specs.DevicePairs.{found_same, mapped_of, mapped_test, turn_of, IsLeft, IsOnWay};

use pd_check::charge;
use pd_graph::{Audit, Format, Watch};
use pd_image::{Device, Failed};
use pd_kinds::{Block, Rule, Rules};
use pd_settle::below;
use pd_tree::Cursor;
use pd_value::{Details, Root, Value};
use std::alloc::{AllocError, Global};

/// What the next entries of both trees come to.
#[derive(Clone, Copy)]
pub(crate) enum Turn {
    /// Neither tree has one.
    End,
    /// Both have the same key: the root of the device's mappings, and its number of mapped blocks.
    Both(u64, u64),
    /// The mapping tree alone has the key.
    Top,
    /// The details tree alone has it.
    Detail,
}

/// Which key comes next, and which trees have it.
fn turn_of(top: Option<(u64, Root)>, detail: Option<(u64, Details)>) -> Turn
    ensures { result ≡ turn_of top detail }
{
    match (top, detail) {
        (None, None) => Turn::End,
        (Some(_), None) => Turn::Top,
        (None, Some(_)) => Turn::Detail,
        (Some((id, root)), Some((other, details))) => {
            if id == other {
                Turn::Both(root.0, details.mapped)
            } else if id < other {
                Turn::Top
            } else {
                Turn::Detail
            }
        }
    }
}

/// Cursors over a mapping tree and the details tree beside it.
#[derive(Drop)]
pub struct DeviceCursors {
    pub(crate) tops: Peeked<Root>,
    pub(crate) details: Peeked<Details>,
}

impl DeviceCursors {
    /// Both cursors, with no tree yet: they reserve all memory that they need, about 530 KiB, and use it as far as their
    /// trees are deep. Want of it is the only error.
    pub fn new(alloc: Global) -> Result<DeviceCursors, AllocError>
        ensures { IfOk result HaveNoEntry }
    {
        Ok(DeviceCursors {
            tops: Peeked::new(alloc)?,
            details: Peeked::new(alloc)?,
        })
    }
}

/// Of a pool, all that the rules of the whole image need stands in the audit.
impl Watch for DeviceCursors {
    ghost has_seen = { λ _ _ _ _. Unit {0} };

    ghost same = { λ _ _ _ _ _ _ seen. seen };

    fn see<F: Format>(
        &mut self,
        _format: &F,
        _role: u8,
        _b: u64,
        _block: &Block,
        _broken: &Rules,
    ) {}
}

/// Whether the number of mapped blocks isn't that of the entries below the root.
fn is_mapped_wrong(audit: &Audit, root: u64, mapped: u64) -> bool
    ensures { root < blocks_of audit.now → result ≡ not (mapped == (note_at audit.now root).below) }
{
    if root < audit.nr() {
        mapped != below(audit, root)
    } else {
        false
    }
}

/// Gives the root of a device's mappings the rule Mapped, where the number of mapped blocks is wrong.
fn mark_mapped(audit: &mut Audit, root: u64, mapped: u64)
    ensures charges { (below : ℕ → ℕ) → ((b : ℕ) → (note_at audit.old b).below ≡ below b)
        → Charges (mapped_test below (root_of root) mapped ∷ []) audit.old audit.new }
    ensures rules { KeepsButRules audit.old audit.new }
{
    let wrong = is_mapped_wrong(audit, root, mapped);
    charge(audit, root, Rule::Mapped, wrong);
}

/// Takes the next key of both trees, and looks at the device's number of mapped blocks where both have it: whether
/// both have the key, or none where no key is left.
fn take_turn<D: Device>(
    cursors: &mut DeviceCursors,
    audit: &mut Audit,
    dev: &mut D,
) -> Result<Option<bool>, Failed>
    requires attached { IsAttached (D.state dev.old) }
    ensures way { IfOk result (λ both. IfSome (D.state dev.old).held (λ image.
        let tops = peeked_items 8 root_of image cursors.old.tops in
        let details = peeked_items 24 details_of image cursors.old.details in
        (below : ℕ → ℕ) → ((b : ℕ) → (note_at audit.old b).below ≡ below b)
        → IsLeft cursors.old.tops.first tops → IsLeft cursors.old.details.first details
        → IsOnWay below audit.old audit.new cursors.new.tops.first cursors.new.details.first tops
        (peeked_items 8 root_of image cursors.new.tops) details (peeked_items 24 details_of image cursors.new.details) (found_same both))) }
    ensures end { IfOk result (λ both. IfNone both ((cursors.new.tops.first ≡ None) × (cursors.new.details.first ≡ None))) }
    ensures number { IfOk result (λ both. IfSome both (λ _. cursors_number cursors.new < cursors_number cursors.old)) }
    ensures reads { IfSome (D.state dev.old).held (λ image. OnOk result (
        (D.state dev.new).reads + cursors_reads image cursors.new ≤ (D.state dev.old).reads + cursors_reads image cursors.old)) }
    ensures reads_failed { IfSome (D.state dev.old).held
        (λ image. (D.state dev.new).reads ≤ (D.state dev.old).reads + cursors_reads image cursors.old) }
    ensures rules { KeepsButRules audit.old audit.new }
    ensures kept { OnlyReads (D.state dev.old) (D.state dev.new) }
    ensures faults { CountsFault result (D.state dev.old).faults (D.state dev.new).faults }
{
    match turn_of(cursors.tops.first, cursors.details.first) {
        Turn::End => Ok(None),
        Turn::Both(root, mapped) => {
            mark_mapped(audit, root, mapped);
            cursors.tops.advance(dev)?;
            cursors.details.advance(dev)?;
            Ok(Some(true))
        }
        Turn::Top => {
            cursors.tops.advance(dev)?;
            Ok(Some(false))
        }
        Turn::Detail => {
            cursors.details.advance(dev)?;
            Ok(Some(false))
        }
    }
}

/// Goes through all that is left of both trees, and gives the rule Mapped to the roots of devices whose number of
/// mapped blocks is wrong: whether both trees have the same keys.
pub(crate) fn compare<D: Device>(
    cursors: &mut DeviceCursors,
    audit: &mut Audit,
    dev: &mut D,
) -> Result<bool, Failed>
    requires attached { IsAttached (D.state dev.old) }
    ensures compared { IfOk result (λ same. IfSome (D.state dev.old).held (λ image.
        let tops = peeked_items 8 root_of image cursors.old.tops in
        let details = peeked_items 24 details_of image cursors.old.details in
        (below : ℕ → ℕ) → ((b : ℕ) → (note_at audit.old b).below ≡ below b)
        → IsLeft cursors.old.tops.first tops → IsLeft cursors.old.details.first details
        → Charges (mapped_of below tops details) audit.old audit.new × (same ≡ bytes_eq (firsts details) (firsts tops)))) }
    ensures reads { IfSome (D.state dev.old).held
        (λ image. (D.state dev.new).reads ≤ (D.state dev.old).reads + cursors_reads image cursors.old) }
    ensures rules { KeepsButRules audit.old audit.new }
    ensures kept { OnlyReads (D.state dev.old) (D.state dev.new) }
    ensures faults { CountsFault result (D.state dev.old).faults (D.state dev.new).faults }
{
    let mut same = true;
    while let Some(both) = take_turn(cursors, audit, dev)? {
        same = same & both;
    }
    Ok(same)
}

// A cursor with its next entry at hand (`thin_check`).

/// The entries of a tree, of which the next one was taken already.
#[derive(Drop)]
pub(crate) struct Peeked<V> {
    cursor: Cursor<V>,
    /// The next entry, its key and its value, where there is one.
    pub(crate) first: Option<(u64, V)>,
}

impl<V: Value> Peeked<V> {
    ghost use Rattle.std.specs.Prelude.{◌≡◌, ◌+◌, ◌<◌, ◌≤◌, ◌++◌, [], length, IsSome, IfNone, IfSome, IfOk, OnOk};
    ghost use Rattle.std.specs.Option.{option_to_list};
    ghost use Rattle.pd_kinds.specs.Objects.{CountsFault};
    ghost use Rattle.pd_image.specs.Device.{IsAttached, OnlyReads};
    ghost use Rattle.pd_tree.specs.Below.{items_below, nodes_below};
    ghost use Rattle.pd_thin.specs.DevicePairs.{peeked_items, peeked_nodes, peeked_number};

    /// A cursor that has no tree yet. It takes all memory that it needs; want of it is the only error.
    pub(crate) fn new(alloc: Global) -> Result<Peeked<V>, AllocError>
        ensures { IfOk result (λ ahead. ahead.first ≡ None) }
    {
        Ok(Peeked {
            cursor: Cursor::start(alloc, 0)?,
            first: None,
        })
    }

    /// Goes to the first entry of the tree with this root.
    pub(crate) fn begin<D: Device>(&mut self, dev: &mut D, root: u64) -> Result<(), Failed>
        requires attached { IsAttached (D.state dev.old) }
        ensures items { OnOk result (IfSome (D.state dev.old).held
            (λ image. peeked_items V.SIZE V.decoded image self.new ≡ items_below V.SIZE V.decoded image 63 root)) }
        ensures end { OnOk result (IfSome (D.state dev.old).held
            (λ image. IfNone self.new.first (peeked_items V.SIZE V.decoded image self.new ≡ []))) }
        ensures reads { IfSome (D.state dev.old).held (λ image. OnOk result (
            (D.state dev.new).reads + length (peeked_nodes V.SIZE image self.new)
            ≤ (D.state dev.old).reads + length (nodes_below V.SIZE image 63 root))) }
        ensures reads_failed { IfSome (D.state dev.old).held
            (λ image. (D.state dev.new).reads ≤ (D.state dev.old).reads + length (nodes_below V.SIZE image 63 root)) }
        ensures kept { OnlyReads (D.state dev.old) (D.state dev.new) }
        ensures faults { CountsFault result (D.state dev.old).faults (D.state dev.new).faults }
    {
        self.cursor.restart(root);
        self.first = self.cursor.next(dev)?;
        Ok(())
    }

    /// Goes on behind the next entry.
    pub(crate) fn advance<D: Device>(&mut self, dev: &mut D) -> Result<(), Failed>
        requires attached { IsAttached (D.state dev.old) }
        ensures items { OnOk result (IfSome (D.state dev.old).held (λ image.
            peeked_items V.SIZE V.decoded image self.old ≡ option_to_list self.old.first ++ peeked_items V.SIZE V.decoded image self.new)) }
        ensures end { OnOk result (IfSome (D.state dev.old).held
            (λ image. IfNone self.new.first (peeked_items V.SIZE V.decoded image self.new ≡ []))) }
        ensures reads { IfSome (D.state dev.old).held (λ image. OnOk result (
            (D.state dev.new).reads + length (peeked_nodes V.SIZE image self.new)
            ≤ (D.state dev.old).reads + length (peeked_nodes V.SIZE image self.old))) }
        ensures reads_failed { IfSome (D.state dev.old).held
            (λ image. (D.state dev.new).reads ≤ (D.state dev.old).reads + length (peeked_nodes V.SIZE image self.old)) }
        ensures number { OnOk result (IsSome self.old.first → peeked_number V.SIZE self.new < peeked_number V.SIZE self.old) }
        ensures kept { OnlyReads (D.state dev.old) (D.state dev.new) }
        ensures faults { CountsFault result (D.state dev.old).faults (D.state dev.new).faults }
    {
        self.first = self.cursor.next(dev)?;
        Ok(())
    }
}
