// Numbers that a field writes.

ghost use Rattle.std.specs.Option.{SomeIff};
ghost use Rattle.fields.specs.Numbers.{Digit, Digits, number_of, Word};
ghost use Rattle.std.specs.Prelude.{◌+◌, ◌-◌, ◌*◌, ◌^◌, ◌<◌};

// The number that a digit makes of the one before it; none for another byte, or past 32 bits.
fn with_digit(n: u32, b: u8) -> Option<u32>
    ensures { SomeIff result (Digit b × (n * 10 + (b - 48) < 2 ^ 32)) (n * 10 + (b - 48)) }
{
    match b {
        b'0'..=b'9' => u32::try_from(u64::from(n) * 10 + u64::from(b - b'0')).ok(),
        _ => None,
    }
}

// The number that the digits write, 0 where there are none.
fn number(bytes: &[u8]) -> Option<u32>
    ensures { SomeIff result (Digits bytes.now × (number_of bytes.now < 2 ^ 32)) (number_of bytes.now) }
{
    let mut n: u32 = 0;
    for b in bytes {
        n = with_digit(n, *b)?;
    }
    Some(n)
}

/// The number that one or more decimal digits write, where it is below 2^32; none for any other bytes.
/// Leading zeros are digits as any, and a sign is none.
pub fn unsigned(bytes: &[u8]) -> Option<u32>
    ensures { SomeIff result (Word bytes.now) (number_of bytes.now) }
{
    if bytes.is_empty() {
        None
    } else {
        number(bytes)
    }
}
