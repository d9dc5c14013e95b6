//! A leaf value, as a number and as bytes.

ghost use Rattle.std.specs.Prelude.{◌≡◌, ℕ, ◌+◌, ◌^◌, ◌<◌, ◌≤◌, Bool, true, List, length};
ghost use Rattle.pd_kinds.specs.Field.{le, put};

/// A value of a leaf.
///
/// A value that fits is a number below `256 ^ SIZE`, whose bytes, the lowest first, are those that
/// are stored.
pub trait Value: Copy {
    /// The number of stored bytes.
    const SIZE: usize;

    ghost SIZE: { ℕ };

    // whether the value has a number
    ghost fitting: { Self → Bool };

    // the number of a value that fits
    ghost code: { Self → ℕ };

    // the value of a number
    ghost decoded: { ℕ → Self };

    /// Whether each field is below the limit of its stored bits, so that the value can be written.
    fn fits(&self) -> bool
        ensures { result ≡ fitting self.now };

    /// The value that is stored in the bytes.
    fn read(bytes: &[u8]) -> Self
        requires { length bytes.now ≡ SIZE }
        ensures { result ≡ decoded (le bytes.now 0 SIZE) };

    /// Stores the value in the bytes.
    fn write(&self, bytes: &mut [u8])
        requires fits { fitting self.now ≡ true }
        requires size { length bytes.old ≡ SIZE }
        ensures { bytes.new ≡ put bytes.old 0 SIZE (code self.now) };

    // a value has from 4 to 24 bytes
    ghost size_least: { 4 ≤ SIZE };

    ghost size_most: { SIZE ≤ 24 };

    // the number of a value that fits has no more bytes
    ghost code_below: { (value : Self) → fitting value ≡ true → code value < 256 ^ SIZE };

    // what was written reads as the same value
    ghost reads_back: { (value : Self) → fitting value ≡ true → decoded (code value) ≡ value };

    // what was read fits
    ghost read_fits: { (number : ℕ) → number < 256 ^ SIZE → fitting (decoded number) ≡ true };

    // writing what was read gives the same number
    ghost writes_back: { (number : ℕ) → number < 256 ^ SIZE → code (decoded number) ≡ number };
}

/// The value that is stored from `at` on.
pub fn value_at<V: Value>(bytes: &[u8], at: usize) -> V
    requires { at + V.SIZE ≤ length bytes.now }
    ensures value { result ≡ V.decoded (le bytes.now at V.SIZE) }
    ensures fits { V.fitting result ≡ true }
{
    V::read(&bytes[at..at + V::SIZE])
}

/// Stores the value from `at` on, and changes no other byte.
pub fn put_value<V: Value>(bytes: &mut [u8], at: usize, value: &V)
    requires fits { V.fitting value.now ≡ true }
    requires size { at + V.SIZE ≤ length bytes.old }
    ensures { bytes.new ≡ put bytes.old at V.SIZE (V.code value.now) }
{
    value.write(&mut bytes[at..at + V::SIZE]);
}

/// What was written reads as the same value.
pub fn reads_back<V: Value>()
    ensures { (value : V) (bytes : List ℕ) → V.fitting value ≡ true → length bytes ≡ V.SIZE
        → V.decoded (le (put bytes 0 V.SIZE (V.code value)) 0 V.SIZE) ≡ value }
{}

/// What was read fits, and writing it gives the same bytes.
pub fn writes_back<V: Value>(bytes: &[u8])
    requires { length bytes.now ≡ V.SIZE }
    ensures fits { V.fitting (V.decoded (le bytes.now 0 V.SIZE)) ≡ true }
    ensures same { put bytes.now 0 V.SIZE (V.code (V.decoded (le bytes.now 0 V.SIZE))) ≡ bytes.now }
{}
