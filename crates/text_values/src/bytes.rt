// Places in bytes.

ghost use Rattle.std.specs.Prelude.{◌≡◌, take, drop, slice_index};

/// The byte at a place, or 0 past the end.
pub fn byte_at(bytes: &[u8], at: usize) -> u8
    ensures { result ≡ slice_index bytes.now at }
{
    if at < bytes.len() { bytes[at] } else { 0 }
}

/// The bytes in front of a place.
pub fn front(bytes: &[u8], at: usize) -> &[u8]
    ensures { result.now ≡ take at bytes.now }
{
    if at < bytes.len() {
        bytes.split_at(at).0
    } else {
        bytes
    }
}

/// The bytes from a place on.
pub fn after(bytes: &[u8], at: usize) -> &[u8]
    ensures { result.now ≡ drop at bytes.now }
{
    if at < bytes.len() {
        bytes.split_at(at).1
    } else {
        bytes.split_at(bytes.len()).1
    }
}
