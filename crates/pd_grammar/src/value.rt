//! The fields of a line, and their values.

/// What stands in a field of a line.
#[derive(Clone, Copy, Debug, PartialEq, Eq)]
pub enum Field {
    /// A uuid of 16 bytes: 36 characters, hyphenated, in lower case.
    Uuid,
    /// A policy name of 16 bytes: 32 hexadecimal digits in lower case.
    Policy,
    /// A decimal number below 2^64, without leading zeros.
    Number,
}

/// The value of a field.
#[derive(Clone, Copy, Debug, PartialEq, Eq)]
pub enum Value {
    Uuid([u8; 16]),
    Policy([u8; 16]),
    Number(u64),
}
