//! Sets of roles as the bits of a number: bit r stands for role r, below 16.

ghost use Rattle.std.specs.Prelude.{◌≡◌, ℕ, ◌<◌, ◌==◌, ◌||◌, true, length, slice_index, IfSome, IfNone};
ghost use Rattle.pd_kinds.specs.Graph.{pair};
ghost use Rattle.pd_graph.specs.Marks.{has_bit, has_several, is_in, IsUnread, IsUnreadAt, IsAllRead, values_of};

use crate::block_table::BlockTable;

/// Whether the role, below 16, is in the set of an audit's `roles`: bit r stands for role r.
pub fn has_role(roles: u16, role: u8) -> bool
    requires { role < 16 }
    ensures { result ≡ has_bit roles role }
{
    (roles >> role) & 1 == 1
}

/// The lowest role that was met and not yet read.
pub(crate) fn first_unread(seen: u16, read: u16) -> Option<u8>
    ensures some { IfSome result (IsUnread seen read) }
    ensures none { IfNone result ((role : ℕ) → role < 16 → has_bit seen role ≡ true → has_bit read role ≡ true) }
{
    if seen == read {
        return None;
    }
    for role in 0..16 {
        if has_role(seen, role) && !has_role(read, role) {
            return Some(role);
        }
    }
    None
}

/// Whether two roles or more are in the set.
pub(crate) fn are_several(roles: u16) -> bool
    ensures { result ≡ has_several roles }
{
    1 < roles.count_ones()
}

/// Adds a role to the set of block b.
pub(crate) fn add_role(table: &mut BlockTable<u16>, b: usize, role: u8)
    requires within { b < length (values_of table.old) }
    requires role { role < 16 }
    ensures places { length (values_of table.new) ≡ length (values_of table.old) }
    ensures roles { (p : ℕ) → is_in (values_of table.new) p ≡ (is_in (values_of table.old) p || (p == pair b role)) }
{
    let roles = table.get(b) | (1 << role);
    table.set(b, roles);
}

/// Block b with the lowest role in which it was met and not yet read.
pub(crate) fn unread_at(
    seen: &BlockTable<u16>,
    read: &BlockTable<u16>,
    b: usize,
) -> Option<(usize, u8)>
    requires { length (values_of read.now) ≡ length (values_of seen.now) }
    ensures some { IfSome result (λ found. IsUnreadAt (values_of seen.now) (values_of read.now) found.0 found.1) }
    ensures none { IfNone result ((role : ℕ) → role < 16 → has_bit (slice_index (values_of seen.now) b) role ≡ true
        → has_bit (slice_index (values_of read.now) b) role ≡ true) }
{
    if seen.places() <= b {
        return None;
    }
    let role = first_unread(seen.get(b), read.get(b))?;
    Some((b, role))
}

/// The first block that was met in a role and not yet read in it.
pub(crate) fn any_unread(seen: &BlockTable<u16>, read: &BlockTable<u16>) -> Option<(usize, u8)>
    requires { length (values_of read.now) ≡ length (values_of seen.now) }
    ensures some { IfSome result (λ found. IsUnreadAt (values_of seen.now) (values_of read.now) found.0 found.1) }
    ensures none { IfNone result (IsAllRead (values_of seen.now) (values_of read.now)) }
{
    for b in 0..seen.places() {
        if let Some(found) = unread_at(seen, read, b) {
            return Some(found);
        }
    }
    None
}
