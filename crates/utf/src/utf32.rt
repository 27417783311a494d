// UTF-32 (source document 002): one sequence of four bytes is decoded, one scalar value is encoded, in either byte
// order.
ghost use Rattle.std.specs.Prelude.{◌≡◌};
ghost use Rattle.lists.specs.Place.{fits};
ghost use Rattle.utf.specs.Utf8.{encode_answer, encode_into, put_into};
ghost use Rattle.utf.specs.Utf32.{decode_in, encode_in, mark_in, is_mark, mark_at};
ghost use Rattle.utf.specs.declared.utf32.ByteOrder.TheVariants as order;

use crate::utf8::{PutError, Sequence, Stop, is_scalar, put};

// The order of a number's bytes: the highest first, or the lowest first.
#[derive(Clone, Copy, Debug, PartialEq, Eq)]
pub enum ByteOrder {
    Big,
    Little,
}

impl ByteOrder {
    ghost use Rattle.utf.specs.Utf32.{number_of, in_order, encode_in};

    // Four bytes as a number.
    fn number(self, bytes: [u8; 4]) -> u32
        ensures { result ≡ number_of (in_order self bytes) }
    {
        match self {
            ByteOrder::Big => u32::from_be_bytes(bytes),
            ByteOrder::Little => u32::from_le_bytes(bytes),
        }
    }

    // A number as four bytes.
    #[tactic(auto, unfolding(crate::specs::Utf32::encode_in))]
    fn bytes(self, c: u32) -> [u8; 4]
        ensures { result ≡ encode_in self c }
    {
        match self {
            ByteOrder::Big => c.to_be_bytes(),
            ByteOrder::Little => c.to_le_bytes(),
        }
    }
}

// The sequence at the front of `s`. One answer at the end: with several returns the compiler keeps it in memory.
#[tactic(auto, using(crate::proofs::Words::words), unfolding(crate::specs::Utf8::is_scalar))]
pub fn decode(order: ByteOrder, s: &[u8]) -> Sequence
    ensures { result ≡ decode_in order s.now }
{
    match s {
        &[a, b, c, d, ..] => {
            let number = order.number([a, b, c, d]);
            if is_scalar(number) {
                Sequence::Scalar(number, 4)
            } else {
                Sequence::Stopped(Stop::Illegal(4))
            }
        }
        _ => Sequence::Stopped(Stop::CutShort),
    }
}

// Whether U+FEFF is at the front of `s` in this order.
fn has_mark(order: ByteOrder, s: &[u8]) -> bool
    ensures { result ≡ is_mark (decode_in order s.now) }
{
    matches!(decode(order, s), Sequence::Scalar(0xfeff, _))
}

// The byte order of the mark at the front of `s`: read the text behind these four bytes in that order. With no mark,
// read the text in big-endian order.
#[tactic(auto, unfolding(crate::specs::Utf32::mark_at))]
pub fn mark_at(s: &[u8]) -> Option<ByteOrder>
    ensures { result ≡ mark_at s.now }
{
    if has_mark(ByteOrder::Big, s) {
        Some(ByteOrder::Big)
    } else if has_mark(ByteOrder::Little, s) {
        Some(ByteOrder::Little)
    } else {
        None
    }
}

// Writes a scalar value's bytes into `out` from `at` on if they fit, and answers how many; otherwise `out` stays as it
// was.
// Output and place stay two arguments: it answers at any place, also past the output.
#[tactic(auto, using(crate::proofs::Puts::puts))]
pub fn encode(order: ByteOrder, c: u32, out: &mut [u8], at: usize) -> Result<usize, PutError>
    ensures answer { result ≡ encode_answer (encode_in order) c out.old at }
    ensures written { out.new ≡ encode_into (encode_in order) c out.old at }
{
    if !is_scalar(c) {
        return Err(PutError::NotScalar);
    }
    put(out, at, &order.bytes(c))
}

// Writes the byte order mark, in big-endian order, to the front of `out` if it fits, and answers whether it did.
pub fn put_mark(out: &mut [u8]) -> bool
    ensures answer { result ≡ fits out.old 0 (mark_in order.Big) }
    ensures written { out.new ≡ put_into out.old 0 (mark_in order.Big) }
{
    put(out, 0, &ByteOrder::Big.bytes(0xfeff)).is_ok()
}
