//! The kinds of metadata, and the stages of a check.

ghost use Rattle.std.specs.Prelude.{◌≡◌};
ghost use Rattle.pd_kinds.specs.Flagged.{kind_of};
ghost use Rattle.pd_kinds.specs.Super.{magic_of, salt_of};

/// The three targets of device-mapper whose metadata the tools know.
#[derive(Clone, Copy, Debug, PartialEq, Eq)]
pub enum Kind {
    /// A pool of thin volumes, "thin-pool" in the kernel.
    Thin,
    /// A fast device that caches a slow one, "cache".
    Cache,
    /// A device that records in which era each of its blocks was written, "era".
    Era,
}

impl Kind {
    /// The number at offset 32 of the kind's superblock, as in "drivers/md/dm-thin-metadata.c",
    /// "dm-cache-metadata.c" and "dm-era-target.c".
    pub fn magic(self) -> u64
        ensures { result ≡ magic_of self }
    {
        match self {
            Kind::Thin => 27022010,
            Kind::Cache => 1623043,
            Kind::Era => 2126579579,
        }
    }

    /// What the checksum of the kind's superblock is XORed with, from the same files.
    pub fn salt(self) -> u32
        ensures { result ≡ salt_of self }
    {
        match self {
            Kind::Thin => 160774,
            Kind::Cache => 9031977,
            Kind::Era => 146538381,
        }
    }
}

/// The kinds whose superblock has the flag "needs check".
#[derive(Clone, Copy, Debug, PartialEq, Eq)]
pub enum Flagged {
    /// A pool of thin volumes.
    Pool,
    /// A cache.
    Cache,
}

impl Flagged {
    /// The kind of the metadata.
    pub fn kind(self) -> Kind
        ensures { result ≡ kind_of self }
    {
        match self {
            Flagged::Pool => Kind::Thin,
            Flagged::Cache => Kind::Cache,
        }
    }
}

/// Which faults pass in a check: where it found no others, its status is 0.
#[derive(Clone, Copy, Debug, PartialEq, Eq)]
pub enum Passing {
    /// None passes.
    Nothing,
    /// Leaks pass: stored counts above the references.
    Leaks,
}

/// The stages of a check, in the order in which they are looked at.
///
/// A report has the faults of the first stage that has any.
#[derive(Clone, Copy, Debug, PartialEq, Eq)]
pub enum Stage {
    /// The rules of the superblock.
    Super,
    /// The rules of each reachable block, once per role.
    Walk,
    /// The depth of trees, and the ranges of keys.
    Order,
    /// The rules that speak of the whole image.
    Whole,
    /// The stored reference counts.
    Counts,
}
