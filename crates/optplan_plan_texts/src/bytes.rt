//! Blanks and digits of a text.

ghost use Rattle.std.specs.Prelude.{◌≡◌};
ghost use Rattle.optplan_plan_texts.specs.Bytes as spec;

/// Returns whether a byte is a tab, a carriage return or a space.
pub fn is_blank(byte: u8) -> bool
    ensures { result ≡ spec.is_blank byte }
{
    byte == b'\t' || byte == b'\r' || byte == b' '
}

pub(crate) fn is_digit(byte: u8) -> bool
    ensures { result ≡ spec.is_digit byte }
{
    b'0' <= byte && byte <= b'9'
}

/// Returns the bytes from the first that is not a blank.
pub fn after_blanks(bytes: &[u8]) -> &[u8]
    ensures { result.now ≡ spec.after_blanks bytes.now }
{
    for (at, byte) in bytes.iter().enumerate() {
        if !is_blank(*byte) {
            return &bytes[at..];
        }
    }
    &[]
}

/// Returns the digits at the start, and the bytes after them.
pub(crate) fn split_digits(bytes: &[u8]) -> (&[u8], &[u8])
    ensures digits { result.0.now ≡ spec.digits bytes.now }
    ensures rest { result.1.now ≡ spec.after_digits bytes.now }
{
    for (at, byte) in bytes.iter().enumerate() {
        if !is_digit(*byte) {
            return bytes.split_at(at);
        }
    }
    (bytes, &[])
}

pub(crate) fn begins_with_digit(bytes: &[u8]) -> bool
    ensures { result ≡ spec.begins_with_digit bytes.now }
{
    match bytes {
        [] => false,
        [byte, ..] => is_digit(*byte),
    }
}

pub(crate) fn begins_with_blank(bytes: &[u8]) -> bool
    ensures { result ≡ spec.begins_with_blank bytes.now }
{
    match bytes {
        [] => false,
        [byte, ..] => is_blank(*byte),
    }
}

pub(crate) fn begins_with(first: u8, bytes: &[u8]) -> bool
    ensures { result ≡ spec.begins_with first bytes.now }
{
    match bytes {
        [] => false,
        [byte, ..] => *byte == first,
    }
}

/// Blanks the bytes: a blank stays, and any other byte becomes a space.
pub(crate) fn blank(bytes: &mut [u8])
    ensures { bytes.new ≡ spec.blanked bytes.old }
{
    for byte in bytes.iter_mut() {
        *byte = blanked_byte(*byte);
    }
}

/// Returns the byte if it is a blank, and a space otherwise.
pub(crate) fn blanked_byte(byte: u8) -> u8
    ensures { result ≡ spec.blanked_byte byte }
{
    if is_blank(byte) { byte } else { b' ' }
}
