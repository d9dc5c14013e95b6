//! Which blocks of a pool without its superblock are the roots of sound trees, in each of three roles (`thin_repair`).

ghost use Rattle.std.specs.Prelude.{◌≡◌, ◌+◌, ◌*◌, ◌≤◌, length, OnOk, IfSome, ℕ, ◌<◌, ◌==◌, ◌&&◌, ◌||◌};
ghost use Rattle.pd_kinds.specs.Objects.{CountsFault};
ghost use Rattle.pd_image.specs.Device.{IsAttached, OnlyReads};
ghost use Rattle.pd_graph.specs.Notes.{size_of};
ghost use Rattle.pd_graph.specs.Marks.{has_bit};
ghost use Rattle.pd_scan.specs.Lost.{AreJudged, IsPool, AreSettledTrees, is_unbroken as is_unbroken_in, is_between, ShareChecksum};

use crate::tops::leave_out_tops;
use pd_graph::{Format, Notes};
use pd_image::{Device, Failed};
use pd_kinds::{Block, Rule, thin_role};
use pd_settle::settle_role;

/// Settles the trees whose leaves name no tree: those of mappings, and of details. The table gets the roles in which each
/// block is fit by itself.
fn settle_lower<F: Format, D: Device>(
    fit: &mut [u16],
    devices: &mut Notes,
    details: &mut Notes,
    format: &F,
    dev: &mut D,
) -> Result<(), Failed>
    requires pool { IsPool F.ROLES (F.graph format.now) }
    requires places { length fit.old ≡ (F.graph format.now).nr }
    requires devices { size_of devices.old ≡ (F.graph format.now).nr }
    requires details { size_of details.old ≡ (F.graph format.now).nr }
    requires attached { IsAttached (D.state dev.old) }
    requires within { (F.graph format.now).nr ≤ (D.state dev.old).blocks }
    ensures judged { OnOk result (IfSome (D.state dev.old).held (λ image. AreJudged (F.graph format.now) image 2 5 fit.new)) }
    ensures devices { OnOk result (IfSome (D.state dev.old).held (λ image. AreSettledTrees (F.graph format.now) image 3 8 devices.new)) }
    ensures details { OnOk result (IfSome (D.state dev.old).held (λ image. AreSettledTrees (F.graph format.now) image 4 24 details.new)) }
    ensures places { length fit.new ≡ length fit.old }
    ensures devices_number { size_of devices.new ≡ size_of devices.old }
    ensures details_number { size_of details.new ≡ size_of details.old }
    ensures reads { (D.state dev.new).reads ≤ (D.state dev.old).reads + 5 * (F.graph format.now).nr }
    ensures kept { OnlyReads (D.state dev.old) (D.state dev.new) }
    ensures faults { CountsFault result (D.state dev.old).faults (D.state dev.new).faults }
{
    judge_each(fit, format, dev, thin_role::DEVICES, thin_role::DETAILS + 1)?;
    settle_role(devices, format, dev, thin_role::MAPPINGS, fit)?;
    settle_role(details, format, dev, thin_role::DETAILS, fit)?;
    Ok(())
}

/// Settles the tops of mapping trees, whose leaves name the trees of devices.
fn settle_tops<F: Format, D: Device>(
    fit: &mut [u16],
    tops: &mut Notes,
    devices: &Notes,
    format: &F,
    dev: &mut D,
) -> Result<(), Failed>
    requires pool { IsPool F.ROLES (F.graph format.now) }
    requires places { length fit.old ≡ (F.graph format.now).nr }
    requires tops { size_of tops.old ≡ (F.graph format.now).nr }
    requires devices { size_of devices.now ≡ (F.graph format.now).nr }
    requires attached { IsAttached (D.state dev.old) }
    requires within { (F.graph format.now).nr ≤ (D.state dev.old).blocks }
    ensures tops { OnOk result (IfSome (D.state dev.old).held (λ image. AreJudged (F.graph format.now) image 2 5 fit.old
        → AreSettledTrees (F.graph format.now) image 3 8 devices.now → AreSettledTrees (F.graph format.now) image 2 8 tops.new)) }
    ensures places { length fit.new ≡ length fit.old }
    ensures number { size_of tops.new ≡ size_of tops.old }
    ensures reads { (D.state dev.new).reads ≤ (D.state dev.old).reads + 3 * (F.graph format.now).nr }
    ensures kept { OnlyReads (D.state dev.old) (D.state dev.new) }
    ensures faults { CountsFault result (D.state dev.old).faults (D.state dev.new).faults }
{
    leave_out_tops(fit, devices, format, dev, thin_role::DEVICES)?;
    settle_role(tops, format, dev, thin_role::DEVICES, fit)?;
    Ok(())
}

/// Finds out which blocks of a pool are the roots of sound trees, whatever its superblock holds: notes of each block as
/// the top of a mapping tree, as the tree of a device's mappings, and as a tree of details. The table is filled on the way.
/// It takes no memory.
///
/// After `Failed` nothing is said of the notes and of the table.
pub fn settle_lost<F: Format, D: Device>(
    fit: &mut [u16],
    tops: &mut Notes,
    devices: &mut Notes,
    details: &mut Notes,
    format: &F,
    dev: &mut D,
) -> Result<(), Failed>
    requires pool { IsPool F.ROLES (F.graph format.now) }
    requires places { length fit.old ≡ (F.graph format.now).nr }
    requires tops { size_of tops.old ≡ (F.graph format.now).nr }
    requires devices { size_of devices.old ≡ (F.graph format.now).nr }
    requires details { size_of details.old ≡ (F.graph format.now).nr }
    requires attached { IsAttached (D.state dev.old) }
    requires within { (F.graph format.now).nr ≤ (D.state dev.old).blocks }
    ensures tops { OnOk result (IfSome (D.state dev.old).held (λ image. AreSettledTrees (F.graph format.now) image 2 8 tops.new)) }
    ensures devices { OnOk result (IfSome (D.state dev.old).held (λ image. AreSettledTrees (F.graph format.now) image 3 8 devices.new)) }
    ensures details { OnOk result (IfSome (D.state dev.old).held (λ image. AreSettledTrees (F.graph format.now) image 4 24 details.new)) }
    ensures tops_number { size_of tops.new ≡ size_of tops.old }
    ensures devices_number { size_of devices.new ≡ size_of devices.old }
    ensures details_number { size_of details.new ≡ size_of details.old }

    // At most eight reads for each block, whatever it shares: one judges it in its three roles, one looks at the roots
    // that it names, and two settle it in each role.
    ensures reads { (D.state dev.new).reads ≤ (D.state dev.old).reads + 8 * (F.graph format.now).nr }
    ensures kept { OnlyReads (D.state dev.old) (D.state dev.new) }
    ensures faults { CountsFault result (D.state dev.old).faults (D.state dev.new).faults }
{
    settle_lower(fit, devices, details, format, dev)?;
    settle_tops(fit, tops, devices, format, dev)?;
    Ok(())
}

// In which roles each block is fit by itself: one pass, which reads each block once (`thin_repair`).

/// Whether the block breaks no rule of its own in this role.
fn is_unbroken<F: Format>(format: &F, role: u8, b: u64, block: &Block) -> bool
    requires { role < F.ROLES }
    ensures { result ≡ is_unbroken_in (F.graph format.now) role b block.now.0 }
{
    format.rules(role, b, block).is_empty()
}

/// The set with this role besides, where the block is fit for it.
fn with_role_if(roles: u16, role: u8, fits: bool) -> u16
    requires { role < 16 }
    ensures { (other : ℕ) → other < 16 → has_bit result other ≡ (has_bit roles other || ((other == role) && fits)) }
{
    if fits { roles | (1 << role) } else { roles }
}

/// The roles from the first up to the end in which the block breaks no rule of its own.
fn roles_between<F: Format>(format: &F, first: u8, end: u8, b: u64, block: &Block) -> u16
    requires order { first ≤ end }
    requires known { end ≤ F.ROLES }
    ensures { (role : ℕ) → role < 16 → has_bit result role
        ≡ (is_between first end role && is_unbroken_in (F.graph format.now) role b block.now.0) }
{
    let mut roles = 0u16;
    for role in first..end {
        let fits = is_unbroken(format, role, b, block);
        roles = with_role_if(roles, role, fits);
    }
    roles
}

/// The same. A block whose checksum is wrong is judged by one look.
fn roles_of<F: Format>(format: &F, first: u8, end: u8, b: u64, block: &Block) -> u16
    requires order { first < end }
    requires known { end ≤ F.ROLES }
    requires share { ShareChecksum (F.graph format.now) first end }
    ensures { (role : ℕ) → role < 16 → has_bit result role
        ≡ (is_between first end role && is_unbroken_in (F.graph format.now) role b block.now.0) }
{
    let broken = format.rules(first, b, block);
    if broken.has(Rule::Checksum) {
        return 0;
    }
    roles_between(format, first, end, b, block)
}

/// Fills a table of sets of roles, as those of an audit: each block gets the roles, from the first up to the end, in which
/// it breaks no rule of its own. Block 0 gets none, and isn't read. It takes no memory.
///
/// After `Failed` the table holds any sets.
pub fn judge_each<F: Format, D: Device>(
    fit: &mut [u16],
    format: &F,
    dev: &mut D,
    first: u8,
    end: u8,
) -> Result<(), Failed>
    requires places { length fit.old ≡ (F.graph format.now).nr }
    requires order { first < end }
    requires known { end ≤ F.ROLES }
    requires share { ShareChecksum (F.graph format.now) first end }
    requires attached { IsAttached (D.state dev.old) }
    requires within { (F.graph format.now).nr ≤ (D.state dev.old).blocks }
    ensures judged { OnOk result (IfSome (D.state dev.old).held (λ image. AreJudged (F.graph format.now) image first end fit.new)) }
    ensures places { length fit.new ≡ length fit.old }

    // At most one read for each block past block 0, also where one failed.
    ensures reads { (D.state dev.new).reads + 1 ≤ (D.state dev.old).reads + (F.graph format.now).nr }
    ensures kept { OnlyReads (D.state dev.old) (D.state dev.new) }
    ensures faults { CountsFault result (D.state dev.old).faults (D.state dev.new).faults }
{
    let mut block = Block::zeros();
    fit[0] = 0;
    for b in 1..format.nr() {
        dev.read(b, &mut block)?;
        fit[b as usize] = roles_of(format, first, end, b, &block);
    }
    Ok(())
}
