//! A cache that is held in memory (`cache_repair`).

ghost use Rattle.std.specs.Prelude.{◌≡◌};

use std::marker::Model;

/// A cache that is held in memory: 24 bytes an entry.
///
/// It is a lawful cache: its cache blocks ascend, no two entries have one origin, and each number fits its place.
#[derive(Drop)]
pub struct SavedCache {
    head: CacheHead,
    rows: Vec<Row>,
    /// The number of cache blocks of which nothing is known.
    unknown: u32,
}

impl Model for SavedCache {
    ghost use Rattle.pd_salvage_cache.specs.SavedCache.{HeldCache, IsSavedCache};

    ghost Value = { HeldCache };

    ghost view = { λ s. record { head = s.head; rows = s.rows.items; unknown = s.unknown } };

    ghost invariant = { λ s. IsSavedCache (record { head = s.head; rows = s.rows.items; unknown = s.unknown }) };
}

impl SavedCache {
    ghost use Rattle.pd_salvage_cache.specs.SavedCache.{IsSavedCache};

    /// A cache of this head and these entries, of which so many cache blocks are unknown.
    pub fn of_parts(head: CacheHead, rows: Vec<Row>, unknown: u32) -> SavedCache
        requires { IsSavedCache (record { head = head; rows = rows.items; unknown = unknown }) }
        ensures { result ≡ record { head = head; rows = rows.items; unknown = unknown } }
    {
        SavedCache {
            head,
            rows,
            unknown,
        }
    }

    /// What is said of the whole cache.
    pub fn head(&self) -> &CacheHead
        ensures head { result.now ≡ self.now.head }
        // It is a lawful cache.
        ensures sound { IsSavedCache self.now }
    {
        &self.head
    }

    /// The entries, by ascending cache block.
    pub fn rows(&self) -> &[Row]
        ensures { result.now ≡ self.now.rows }
    {
        &self.rows
    }

    /// The number of cache blocks whose mapping word is lost: nobody knows whether they held something, and whether that was
    /// dirty.
    pub fn unknown(&self) -> u32
        ensures { result ≡ self.now.unknown }
    {
        self.unknown
    }
}

// What is said of a whole cache (`cache_repair`).

/// A cache but for its entries.
#[derive(Clone, Copy, Debug, PartialEq, Eq)]
pub struct CacheHead {
    /// The cache's identifier.
    pub uuid: [u8; 16],
    /// The size of a cache block in sectors of 512 bytes.
    pub block_size: u32,
    /// The number of cache blocks.
    pub blocks: u32,
    /// Whether it was shut down cleanly.
    pub clean: bool,
    /// The name of its policy, filled up with zeros.
    pub policy: [u8; 16],
    /// The policy's version.
    pub versions: [u32; 3],
    /// The size of a hint in bytes.
    pub hint_size: u32,
}

// The entries of a cache (`cache_repair`).

/// An entry of a cache.
#[derive(Clone, Copy, Debug, PartialEq, Eq)]
pub struct Row {
    /// The cache block.
    pub block: u32,
    /// Whether the cache block has newer bytes than the origin's.
    pub dirty: bool,
    /// The policy's hint.
    pub hint: u32,
    /// The block of the origin device.
    pub origin: u64,
}
