//! What details trees give for the devices of a mapping tree, and which tree gives the most (`thin_repair`).

ghost use Rattle.std.specs.Prelude.{◌≡◌, ℕ, ◌<◌, ◌≤◌, fold, length, IfOk, IfSome};
ghost use Rattle.pd_kinds.specs.Graph.{Graph};
ghost use Rattle.pd_kinds.specs.Objects.{CountsFault};
ghost use Rattle.pd_kinds.specs.declared.limits.TheConstants.{MAX_META_BLOCKS};
ghost use Rattle.pd_image.specs.Device.{IsAttached, OnlyReads};
ghost use Rattle.pd_meaning_thin.specs.Runs.{details_of};
ghost use Rattle.pd_salvage.specs.Cursor.{saved_left, saved_room};
ghost use Rattle.pd_damaged.specs.Given.{AscendFrom, IsOneOf, best_after, better_given, given_at, given_counted, ids_below, is_id, none_given};

use pd_image::{Device, Failed};
use pd_salvage::SavedCursor;
use pd_value::Details;

/// What a details tree gives for the devices of a mapping tree.
#[derive(Clone, Copy, Debug, PartialEq, Eq)]
pub(crate) struct Given {
    /// For how many devices it gives details. It stays at 2^64 - 1 where it would pass it.
    pub(crate) number: u64,
    /// The latest time at which one of them was made or last shared, and 0 of none.
    pub(crate) time: u32,
    /// Their latest transaction, and 0 of none.
    pub(crate) transaction: u64,
    /// The root of the details tree.
    pub(crate) details: u64,
}

impl Given {
    ghost use Rattle.std.specs.Prelude.{◌≡◌};
    ghost use Rattle.pd_laid.specs.FoundRoots.{is_greater};
    ghost use Rattle.pd_damaged.specs.Given.{given_more, given_score, none_given};

    /// A tree that gives none.
    pub(crate) fn none(details: u64) -> Given
        ensures { result ≡ none_given details }
    {
        Given {
            number: 0,
            time: 0,
            transaction: 0,
            details,
        }
    }

    /// With the details of one more device.
    fn with(self, details: &Details) -> Given
        ensures { result ≡ given_more self details.now }
    {
        Given {
            number: self.number.saturating_add(1),
            time: self.time.max(details.created.max(details.snapped)),
            transaction: self.transaction.max(details.transaction),
            details: self.details,
        }
    }

    /// Whether it gives more: details of more devices. Of as many it is the later time, then the later transaction, and then
    /// the higher block.
    #[tactic(auto, using(std::proofs::lemmas::Bool::Decides::nat_tests))]
    fn is_better(&self, other: &Given) -> bool
        ensures { result ≡ is_greater (given_score self.now) (given_score other.now) }
    {
        if self.number != other.number {
            return self.number > other.number;
        }
        if self.time != other.time {
            return self.time > other.time;
        }
        if self.transaction != other.transaction {
            return self.transaction > other.transaction;
        }
        self.details > other.details
    }
}

/// Whether an id is one of some that ascend.
fn contains(ids: &[u64], id: u64) -> bool
    requires { AscendFrom 0 ids.now }
    ensures { result ≡ is_id ids.now id }
{
    ids.binary_search(&id).is_ok()
}

/// What a tree gives, with one entry more.
fn count(ids: &[u64], given: Given, id: u64, details: &Details) -> Given
    requires { AscendFrom 0 ids.now }
    ensures { result ≡ given_counted ids.now given (id, details.now) }
{
    if contains(ids, id) {
        given.with(details)
    } else {
        given
    }
}

/// What the entries that are left of a details tree give for the devices with these ids.
fn given_by<D: Device>(
    ids: &[u64],
    entries: &mut SavedCursor<Details>,
    dev: &mut D,
    root: u64,
) -> Result<Given, Failed>
    requires ids { AscendFrom 0 ids.now }
    requires attached { IsAttached (D.state dev.old) }
    requires within { saved_room entries.old ≤ (D.state dev.old).blocks }
    ensures given { IfOk result (λ given. IfSome (D.state dev.old).held (λ image.
        given ≡ fold (given_counted ids.now) (none_given root) (saved_left 24 details_of image entries.old))) }
    ensures root { IfOk result (λ given. given.details ≡ root) }
    ensures kept { OnlyReads (D.state dev.old) (D.state dev.new) }
    ensures faults { CountsFault result (D.state dev.old).faults (D.state dev.new).faults }
{
    let mut given = Given::none(root);
    'entries: loop {
        match entries.next(dev)? {
            Some((id, details)) => given = count(ids, given, id, &details),
            None => return Ok(given),
        }
    }
}

/// What the details tree with this root gives for the devices with these ids.
fn given_below<D: Device>(
    ids: &[u64],
    entries: &mut SavedCursor<Details>,
    dev: &mut D,
    nr: u64,
    root: u64,
) -> Result<Given, Failed>
    requires ids { AscendFrom 0 ids.now }
    requires attached { IsAttached (D.state dev.old) }
    requires within { nr ≤ (D.state dev.old).blocks }
    ensures given { IfOk result (λ given. IfSome (D.state dev.old).held (λ image. (graph : Graph) (top : ℕ)
        → graph.nr ≡ nr → ids.now ≡ ids_below nr image top → given ≡ given_at graph image top root)) }
    ensures root { IfOk result (λ given. given.details ≡ root) }
    ensures kept { OnlyReads (D.state dev.old) (D.state dev.new) }
    ensures faults { CountsFault result (D.state dev.old).faults (D.state dev.new).faults }
{
    entries.restart(nr, root);
    given_by(ids, entries, dev, root)
}

/// The one that gives more, where it gives any.
fn better(best: Given, given: Given) -> Given
    ensures { result ≡ better_given best given }
{
    if given.number > 0 && !best.is_better(&given) {
        given
    } else {
        best
    }
}

/// What the best of the details trees with these roots gives for the devices with these ids: that which gives details for the
/// most of them, or none of the tree in block 0 where no tree gives any.
pub(crate) fn best_given<D: Device>(
    ids: &[u64],
    entries: &mut SavedCursor<Details>,
    dev: &mut D,
    nr: u64,
    roots: &[u64],
) -> Result<Given, Failed>
    requires ids { AscendFrom 0 ids.now }
    requires attached { IsAttached (D.state dev.old) }
    requires within { nr ≤ (D.state dev.old).blocks }
    ensures given { IfOk result (λ given. IfSome (D.state dev.old).held (λ image. (graph : Graph) (top : ℕ)
        → graph.nr ≡ nr → nr ≤ MAX_META_BLOCKS → ids.now ≡ ids_below nr image top
        → given ≡ given_at graph image top (best_after graph image top 0 roots.now))) }
    ensures among { IfOk result (λ given. IsOneOf roots.now given.details) }
    ensures kept { OnlyReads (D.state dev.old) (D.state dev.new) }
    ensures faults { CountsFault result (D.state dev.old).faults (D.state dev.new).faults }
{
    let mut best = Given::none(0);
    for i in 0..roots.len() {
        let given = given_below(ids, entries, dev, nr, roots[i])?;
        best = better(best, given);
    }
    Ok(best)
}
