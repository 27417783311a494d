// One scalar value in a Unicode encoding scheme: UTF-8, or one of the three of UTF-32.
ghost use Rattle.std.specs.Prelude.{◌≡◌};

use crate::utf8::{PutError, Sequence};
use crate::utf32::ByteOrder;
use crate::{utf8, utf32};

// The schemes of the Unicode side.
#[derive(Clone, Copy, Debug, PartialEq, Eq)]
pub enum Scheme {
    Utf8,
    // The highest byte first. U+FEFF at the front is text.
    Utf32Be,
    // The lowest byte first. U+FEFF at the front is text.
    Utf32Le,
    // Plain UTF-32: a byte order mark at the front chooses the order and is no text; without it the order is
    // big-endian. Here it means the text behind the mark, big-endian.
    Utf32,
}

impl Scheme {
    ghost use Rattle.utf.specs.Utf8.{encode_answer, encode_into};
    ghost use Rattle.utf.specs.Scheme.{side_of};

    // How many bytes a code unit has.
    pub fn unit(self) -> usize
        ensures { result ≡ (side_of self).unit }
    {
        match self {
            Scheme::Utf8 => 1,
            Scheme::Utf32Be => 4,
            Scheme::Utf32Le => 4,
            Scheme::Utf32 => 4,
        }
    }

    // The sequence at the front of `s`.
    // A `match` and no trait: a scheme is chosen by a number when the program runs; a trait was no faster.
    pub fn decode(self, s: &[u8]) -> Sequence
        ensures { result ≡ (side_of self).decode s.now }
    {
        match self {
            Scheme::Utf8 => utf8::decode(s),
            Scheme::Utf32Be => utf32::decode(ByteOrder::Big, s),
            Scheme::Utf32Le => utf32::decode(ByteOrder::Little, s),
            Scheme::Utf32 => utf32::decode(ByteOrder::Big, s),
        }
    }

    // Writes a scalar value's bytes into `out` from `at` on if they fit, and answers how many; otherwise `out` stays as
    // it was.
    // Output and place stay two arguments: it answers at any place, also past the output.
    pub fn encode(self, c: u32, out: &mut [u8], at: usize) -> Result<usize, PutError>
        ensures answer { result ≡ encode_answer (side_of self).encode c out.old at }
        ensures written { out.new ≡ encode_into (side_of self).encode c out.old at }
    {
        match self {
            Scheme::Utf8 => utf8::encode(c, out, at),
            Scheme::Utf32Be => utf32::encode(ByteOrder::Big, c, out, at),
            Scheme::Utf32Le => utf32::encode(ByteOrder::Little, c, out, at),
            Scheme::Utf32 => utf32::encode(ByteOrder::Big, c, out, at),
        }
    }
}

// UTF-32 in a byte order, with no mark.
impl From<ByteOrder> for Scheme {
    ghost use Rattle.utf.specs.Scheme.{ordered_by};

    ghost from_gives = { λ order scheme. scheme ≡ ordered_by order };

    fn from(order: ByteOrder) -> Scheme {
        match order {
            ByteOrder::Big => Scheme::Utf32Be,
            ByteOrder::Little => Scheme::Utf32Le,
        }
    }
}
