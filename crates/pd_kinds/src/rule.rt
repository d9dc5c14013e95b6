//! The rules, in the order in which they are printed.

ghost use Rattle.std.specs.Prelude.{◌≡◌, ◌≤◌, length};
ghost use Rattle.pd_kinds.specs.Rule.{rule_name, is_leak};

/// The rules that a block of an image can break, in the order in which they are printed.
///
/// Each is printed by its name in lower case.
#[derive(Clone, Copy, Debug, PartialEq, Eq)]
pub enum Rule {
    /// The checksum isn't that of the bytes.
    Checksum,
    /// The block's own number in it is another one.
    Place,
    /// The magic number is another one.
    Magic,
    /// The version isn't one that is known.
    Version,
    /// An incompatible feature is set.
    Features,
    /// A number of blocks, or a size, is out of its range.
    Size,
    /// A node is neither a leaf nor an inner node.
    Flags,
    /// The sizes in a header don't fit the kind of block.
    Shape,
    /// The keys of a node don't strictly ascend.
    Order,
    /// A block that is pointed to lies outside the metadata.
    Pointer,
    /// A data block, or a key, lies outside its range.
    Beyond,
    /// A block is reached in two roles or more.
    Role,
    /// A tree is too deep.
    Level,
    /// A key lies outside the range that its parents give.
    Range,
    /// The keys of an index don't count from 0, or a bitmap is named twice.
    Index,
    /// The devices of the two trees of a pool differ.
    Device,
    /// The number of mapped blocks isn't the one that is stored.
    Mapped,
    /// An array hasn't the length that it must have.
    Length,
    /// Two entries of a cache have one origin.
    Origin,
    /// A stored count is in the overflow tree, and isn't there.
    Overflow,
    /// A stored count is above the references.
    Leak,
    /// A stored count is below the references.
    Short,
}

impl Rule {
    /// All rules, in their order.
    pub const ALL: [Rule; 22] = [
        Rule::Checksum,
        Rule::Place,
        Rule::Magic,
        Rule::Version,
        Rule::Features,
        Rule::Size,
        Rule::Flags,
        Rule::Shape,
        Rule::Order,
        Rule::Pointer,
        Rule::Beyond,
        Rule::Role,
        Rule::Level,
        Rule::Range,
        Rule::Index,
        Rule::Device,
        Rule::Mapped,
        Rule::Length,
        Rule::Origin,
        Rule::Overflow,
        Rule::Leak,
        Rule::Short,
    ];

    /// The rule's printed name.
    pub fn name(self) -> &'static str
        ensures name { result.now ≡ rule_name self }
        ensures short { length result.now ≤ 8 }
    {
        match self {
            Rule::Checksum => "checksum",
            Rule::Place => "place",
            Rule::Magic => "magic",
            Rule::Version => "version",
            Rule::Features => "features",
            Rule::Size => "size",
            Rule::Flags => "flags",
            Rule::Shape => "shape",
            Rule::Order => "order",
            Rule::Pointer => "pointer",
            Rule::Beyond => "beyond",
            Rule::Role => "role",
            Rule::Level => "level",
            Rule::Range => "range",
            Rule::Index => "index",
            Rule::Device => "device",
            Rule::Mapped => "mapped",
            Rule::Length => "length",
            Rule::Origin => "origin",
            Rule::Overflow => "overflow",
            Rule::Leak => "leak",
            Rule::Short => "short",
        }
    }
}

// A fault: a block, and the rule that it breaks.

/// Whose block a fault names: the metadata device's, or the data device's.
#[derive(Clone, Copy, Debug, PartialEq, Eq)]
pub enum Space {
    /// A block of the metadata device.
    Meta,
    /// A block of the data device.
    DataBlock,
}

/// One block that breaks one rule.
#[derive(Clone, Copy, Debug, PartialEq, Eq)]
pub struct Fault {
    /// The device whose block it is.
    pub space: Space,
    /// The number of the block.
    pub block: u64,
    /// The rule that the block breaks.
    pub rule: Rule,
    /// The stored count, for `Leak` and `Short`; else 0.
    pub stored: u64,
    /// The number of references, for `Leak` and `Short`; else 0.
    pub refs: u64,
}

impl Fault {
    /// Whether it is a leak: a stored count above the references.
    pub fn is_leak(&self) -> bool
        ensures { result ≡ is_leak self.now }
    {
        matches!(self.rule, Rule::Leak)
    }
}
