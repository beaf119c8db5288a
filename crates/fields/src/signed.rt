// Numbers with a sign that a field writes.
ghost use Rattle.std.specs.Prelude.{◌^◌, ◌≤◌, pos, neg_ℤ};
ghost use Rattle.std.specs.Option.{SomeIff};
ghost use Rattle.fields.specs.Integers.{Integer, integer_of};

use crate::number::unsigned;

// The number below 0 of that size; none past 32 bits.
fn negative(size: u32) -> Option<i32>
    ensures { SomeIff result (size ≤ 2 ^ 31) (neg_ℤ (pos size)) }
{
    i32::try_from(-i64::from(size)).ok()
}

/// The number that one or more decimal digits write, with a minus sign in front or none, where it
/// is one of the signed 32-bit numbers; none for any other bytes. A sign before zeros changes nothing.
pub fn signed(bytes: &[u8]) -> Option<i32>
    ensures { SomeIff result (Integer bytes.now) (integer_of bytes.now) }
{
    match bytes.split_first() {
        Some((b'-', digits)) => negative(unsigned(digits)?),
        _ => i32::try_from(unsigned(bytes)?).ok(),
    }
}
