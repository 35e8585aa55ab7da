// Reading a number: white space, a sign, digits up to the first other byte.

ghost use Rattle.std.specs.Prelude.{◌≡◌, ◌+◌, ◌*◌, ◌^◌, ◌≤◌, min, true, false};
ghost use Rattle.c_meaning.specs.Texts.{behind_space, digits_from, held, is_digit, is_space, number_read};

/// One more than the greatest number.
const LIMIT: u64 = 1 << 63;

fn is_space(byte: u8) -> bool
    ensures { result ≡ is_space byte }
{
    byte == 32 || byte == 9 || byte == 10 || byte == 12 || byte == 13
}

/// Whether a byte is a digit.
pub fn is_digit(byte: u8) -> bool
    ensures { result ≡ is_digit byte }
{
    byte >= 48 && byte <= 57
}

fn behind_space(bytes: &[u8]) -> &[u8]
    ensures { result.now ≡ behind_space bytes.now }
{
    for (at, byte) in bytes.iter().enumerate() {
        if !is_space(*byte) {
            return &bytes[at..];
        }
    }
    &[]
}

// A number with one more digit, held at the limit.
fn with_digit(number: u64, digit: u64) -> u64
    requires held { number ≤ 2 ^ 63 }
    requires digit { digit ≤ 9 }
    ensures { result ≡ min (number * 10 + digit) (2 ^ 63) }
{
    if number >= 1 << 60 {
        return LIMIT;
    }
    (number * 10 + digit).min(LIMIT)
}

// The number of the digits in front, held at the limit.
fn digits_value(bytes: &[u8]) -> u64
    ensures { result ≡ min (digits_from 0 bytes.now) (2 ^ 63) }
{
    let mut number = 0;
    for byte in bytes {
        if !is_digit(*byte) {
            return number;
        }
        number = with_digit(number, (*byte - 48) as u64);
    }
    number
}

// A number below zero, held within 64 bits.
fn negative(number: u64) -> i64
    ensures { result ≡ held true number }
{
    if number >= LIMIT {
        i64::MIN
    } else {
        -(number as i64)
    }
}

// A number that is not below zero, held within 64 bits.
fn positive(number: u64) -> i64
    ensures { result ≡ held false number }
{
    if number >= LIMIT {
        i64::MAX
    } else {
        number as i64
    }
}

/// The number that a text begins with, and 0 where there is none.
pub fn number_read(bytes: &[u8]) -> i64
    ensures { result ≡ number_read bytes.now }
{
    let rest = behind_space(bytes);
    let Some(first) = rest.first() else {
        return 0;
    };
    if *first == 45 {
        negative(digits_value(&rest[1..]))
    } else if *first == 43 {
        positive(digits_value(&rest[1..]))
    } else {
        positive(digits_value(rest))
    }
}
