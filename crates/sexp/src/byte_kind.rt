//! The kinds of bytes.

ghost use Rattle.std.specs.Prelude.{◌≡◌};
ghost use Rattle.sexp.specs.Bytes.{kind};

/// The kind of a byte outside comments.
#[derive(Clone, Copy, Debug, PartialEq, Eq)]
pub enum ByteKind {
    /// Tab, line feed, carriage return or space.
    Blank,
    /// `;`. A comment begins; it ends with the next line feed or with the text.
    Semicolon,
    /// `(`.
    Open,
    /// `)`.
    Close,
    /// Any other byte from 33 to 126.
    Letter,
    /// A byte that is not allowed outside comments.
    Strange,
}

/// Returns the kind of a byte.
pub fn kind_of(b: u8) -> ByteKind
    ensures { result ≡ kind b }
{
    match b {
        b'\t' | b'\n' | b'\r' | b' ' => ByteKind::Blank,
        b';' => ByteKind::Semicolon,
        b'(' => ByteKind::Open,
        b')' => ByteKind::Close,
        33..=126 => ByteKind::Letter,
        _ => ByteKind::Strange,
    }
}
