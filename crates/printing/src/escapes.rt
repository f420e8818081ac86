// Bytes that may be no text, as text.
use std::fmt;
use std::str::from_utf8;

// The bytes of a name, to be printed. Text stands as it is, and what cannot be printed, quotes and backslashes are escaped as in
// the literals of Rust. Bytes that are no text are printed one by one, those outside printable ASCII as \xNN. No two names print
// alike, and none brings a control character or a line end.
#[derive(Clone, Copy)]
pub struct Escaped<'a> {
    pub bytes: &'a [u8],
}

impl fmt::Display for Escaped<'_> {
    fn fmt<W: fmt::Write>(&self, f: &mut fmt::Formatter<W>) -> fmt::Result {
        match from_utf8(self.bytes) {
            Ok(text) => write!(f, "{}", text.escape_debug()),
            Err(_) => write!(f, "{}", self.bytes.escape_ascii()),
        }
    }
}
