//! A block of 4096 bytes, and the numbers in it.

ghost use Rattle.std.specs.Prelude.{◌≡◌, ◌+◌, ◌≤◌, length};
ghost use Rattle.pd_kinds.specs.Field.{zeros, le, put};
ghost use Rattle.pd_kinds.specs.Graph.{is_outside};

/// The size of a block in bytes, as in "drivers/md/persistent-data", whose block size is 4 KiB here.
pub const BLOCK_SIZE: usize = 4096;

/// The bytes of one metadata block.
#[derive(Clone, Copy, Debug, PartialEq, Eq)]
pub struct Block(pub [u8; 4096]);

impl Block {
    /// A block of zeros.
    #[tactic(auto, unfolding(crate::specs::Field::zeros))]
    pub fn zeros() -> Block
        ensures { result.0 ≡ zeros }
    {
        Block([0; 4096])
    }
}

/// Whether a pointer to this block leads outside metadata of `nr` blocks: past the last one, or to block 0,
/// where the superblock stands.
pub fn is_outside(nr: u64, block: u64) -> bool
    ensures { result ≡ is_outside nr block }
{
    (block == 0) | (block >= nr)
}

// Little-endian fields of a block, as all numbers of "drivers/md/persistent-data" are stored.

/// The number in the four bytes from `at`, the lowest first.
#[tactic(auto, unfolding(crate::specs::Field::le))]
pub fn u32_at(bytes: &[u8], at: usize) -> u32
    requires { at + 4 ≤ length bytes.now }
    ensures { result ≡ le bytes.now at 4 }
{
    u32::from_le_bytes([bytes[at], bytes[at + 1], bytes[at + 2], bytes[at + 3]])
}

/// The number in the eight bytes from `at`, the lowest first.
#[tactic(auto, unfolding(crate::specs::Field::le))]
pub fn u64_at(bytes: &[u8], at: usize) -> u64
    requires { at + 8 ≤ length bytes.now }
    ensures { result ≡ le bytes.now at 8 }
{
    u64::from_le_bytes([
        bytes[at],
        bytes[at + 1],
        bytes[at + 2],
        bytes[at + 3],
        bytes[at + 4],
        bytes[at + 5],
        bytes[at + 6],
        bytes[at + 7],
    ])
}

/// Writes the number into the four bytes from `at`, the lowest first, and changes no other byte.
#[tactic(auto, unfolding(crate::specs::Field::put))]
pub fn put_u32(bytes: &mut [u8], at: usize, value: u32)
    requires { at + 4 ≤ length bytes.old }
    ensures { bytes.new ≡ put bytes.old at 4 value }
{
    let field = value.to_le_bytes();
    bytes[at] = field[0];
    bytes[at + 1] = field[1];
    bytes[at + 2] = field[2];
    bytes[at + 3] = field[3];
}

/// Writes the number into the eight bytes from `at`, the lowest first, and changes no other byte.
#[tactic(auto, unfolding(crate::specs::Field::put))]
pub fn put_u64(bytes: &mut [u8], at: usize, value: u64)
    requires { at + 8 ≤ length bytes.old }
    ensures { bytes.new ≡ put bytes.old at 8 value }
{
    let field = value.to_le_bytes();
    bytes[at] = field[0];
    bytes[at + 1] = field[1];
    bytes[at + 2] = field[2];
    bytes[at + 3] = field[3];
    bytes[at + 4] = field[4];
    bytes[at + 5] = field[5];
    bytes[at + 6] = field[6];
    bytes[at + 7] = field[7];
}
