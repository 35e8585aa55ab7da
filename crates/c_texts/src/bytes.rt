// Texts by their bytes: which is less, whether one stands in another, and where.

ghost use Rattle.std.specs.Prelude.{◌≡◌};
ghost use Rattle.std.specs.Option.{option_map};
ghost use Rattle.c_meaning.specs.Texts.{compared, compared_optional, is_back, is_front, place_in};

/// The first differing byte decides, and a front is less: -1, 0 or 1.
pub fn compare(first: &[u8], second: &[u8]) -> i64
    ensures { result ≡ compared first.now second.now }
{
    let shared = first.len().min(second.len());
    for at in 0..shared {
        if first[at] != second[at] {
            return if first[at] < second[at] { -1 } else { 1 };
        }
    }
    if first.len() < second.len() {
        -1
    } else if second.len() < first.len() {
        1
    } else {
        0
    }
}

/// The same where null is less than every text.
pub fn compare_optional(first: &Option<Vec<u8>>, second: &Option<Vec<u8>>) -> i64
    ensures { result ≡ compared_optional (option_map (λ text. text.items) first.now) (option_map (λ text. text.items) second.now) }
{
    match (first, second) {
        (None, None) => 0,
        (None, Some(_)) => -1,
        (Some(_), None) => 1,
        (Some(one), Some(other)) => compare(one.as_slice(), other.as_slice()),
    }
}

/// Whether bytes begin with a part.
pub fn is_front(part: &[u8], bytes: &[u8]) -> bool
    ensures { result ≡ is_front part.now bytes.now }
{
    bytes.starts_with(part)
}

/// Whether bytes end with a part.
pub fn is_back(part: &[u8], bytes: &[u8]) -> bool
    ensures { result ≡ is_back part.now bytes.now }
{
    part.len() <= bytes.len() && is_front(part, &bytes[bytes.len() - part.len()..])
}

/// The least place at which a part stands in bytes.
pub fn place_in(part: &[u8], bytes: &[u8]) -> Option<usize>
    ensures { result ≡ place_in part.now bytes.now }
{
    for at in 0..bytes.len() {
        if is_front(part, &bytes[at..]) {
            return Some(at);
        }
    }
    if part.is_empty() {
        Some(bytes.len())
    } else {
        None
    }
}
