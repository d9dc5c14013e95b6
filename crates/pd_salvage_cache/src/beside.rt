//! What is held of hints and dirty bits, where a cache has them (`cache_repair`).

ghost use Rattle.std.specs.Prelude.{◌≡◌, ℕ, ◌+◌, ◌<◌, ◌≤◌, List, IfOk, IfSome, OnOk, is_some};
ghost use Rattle.std.specs.Option.{ForSome};
ghost use Rattle.pd_kinds.specs.CacheFormat.{has_dirty_bits};
ghost use Rattle.pd_kinds.specs.Node.{Entry};
ghost use Rattle.pd_kinds.specs.Objects.{CountsFault};
ghost use Rattle.pd_laid.specs.SavedCache.{is_bit_saved};
ghost use Rattle.pd_array.specs.declared.array.Word.TheVariants.{Eight, Four};
ghost use Rattle.pd_image.specs.Device.{IsAttached, OnlyReads};
ghost use Rattle.pd_salvage_cache.specs.Arrays.{IsSameArray, Knows, KnowsSome, dirty_held, has_hints, hint_held};

use crate::array::SavedArray;
use pd_array::Word;
use pd_image::{Device, Failed};
use pd_kinds::CacheSuper;
use std::alloc::{AllocError, Global};

/// The hints of the cache with this superblock, where it has any.
pub(crate) fn hints_of(alloc: Global, s: &CacheSuper) -> Result<Option<SavedArray>, AllocError>
    ensures knows { (image : List (List ℕ)) → IfOk result (KnowsSome image s.now.meta_map.blocks s.now.hint_root) }
    ensures of { IfOk result (λ hints. is_some hints ≡ has_hints s.now) }
    ensures same { IfOk result (λ hints. IfSome hints (λ a. (a.word ≡ Four) × ((a.nr ≡ s.now.meta_map.blocks) × (a.next ≡ 0)))) }
{
    if s.hint_size == 4 && s.hint_root != 0 {
        let hints = SavedArray::start(alloc, s.meta_map.blocks, s.hint_root, Word::Four)?;
        Ok(Some(hints))
    } else {
        Ok(None)
    }
}

/// The dirty bits of such a cache.
pub(crate) fn bits_of(alloc: Global, s: &CacheSuper) -> Result<Option<SavedArray>, AllocError>
    ensures knows { (image : List (List ℕ)) → IfOk result (KnowsSome image s.now.meta_map.blocks s.now.dirty_root) }
    ensures of { IfOk result (λ bits. is_some bits ≡ has_dirty_bits s.now.version) }
    ensures same { IfOk result (λ bits. IfSome bits (λ a. (a.word ≡ Eight) × ((a.nr ≡ s.now.meta_map.blocks) × (a.next ≡ 0)))) }
{
    if s.version == 2 {
        let bits = SavedArray::start(alloc, s.meta_map.blocks, s.dirty_root, Word::Eight)?;
        Ok(Some(bits))
    } else {
        Ok(None)
    }
}

/// Holds the block of this key from now on, where there is an array.
pub(crate) fn hold_some<D: Device>(
    array: &mut Option<SavedArray>,
    dev: &mut D,
    key: u32,
) -> Result<(), Failed>
    requires attached { IsAttached (D.state dev.old) }
    requires within { ForSome array.old (λ a. a.nr ≤ (D.state dev.old).blocks) }
    requires later { ForSome array.old (λ a. a.next ≤ key + 1) }
    ensures knows { OnOk result (IfSome (D.state dev.old).held (λ image. (entries : List Entry)
        → IfSome array.old (Knows image entries) → IfSome array.new (Knows image entries))) }
    ensures next { OnOk result (IfSome array.new (λ a. a.next ≡ key + 1)) }
    ensures same { IsSameArray array.old array.new }
    ensures kept { OnlyReads (D.state dev.old) (D.state dev.new) }
    ensures faults { CountsFault result (D.state dev.old).faults (D.state dev.new).faults }
{
    match array {
        Some(array) => array.hold(dev, key),
        None => Ok(()),
    }
}

/// The hint of a cache block whose key is held: 0 where there is none or it is lost.
pub(crate) fn hint_of(hints: &Option<SavedArray>, block: u32) -> u32
    requires { ForSome hints.now (λ a. a.word ≡ Four) }
    ensures { result ≡ hint_held hints.now block }
{
    match hints {
        Some(hints) => match hints.word(block as usize % 1018) {
            Some(word) => word as u32,
            None => 0,
        },
        None => 0,
    }
}

/// Whether a cache block whose key is held is taken for dirty.
pub(crate) fn is_dirty(bits: &Option<SavedArray>, word: u64, block: u32) -> bool
    ensures { result ≡ dirty_held bits.now word block }
{
    match bits {
        Some(bits) => is_set(bits.word(block as usize / 64 % 509), block % 64),
        None => word / 2 % 2 == 1,
    }
}

/// Whether bit `i` of a word of 64 dirty bits is set: yes where the word is lost.
fn is_set(word: Option<u64>, i: u32) -> bool
    requires { i < 64 }
    ensures { result ≡ is_bit_saved word i }
{
    match word {
        Some(word) => (word >> i) & 1 == 1,
        None => true,
    }
}
