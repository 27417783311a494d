// UTF-8 as RFC 3629 has it: one sequence is decoded, one code point is encoded.
ghost use Rattle.std.specs.Prelude.{◌≡◌, ◌+◌, ◌*◌, ◌%◌, ◌^◌, ◌≤◌, ◌<◌, ◌↔◌, drop, IsTrue};
ghost use Rattle.utf.specs.Utf8.{Scalar, lead_mark, lead_of, trail_in, trails_of, decode_one, trail_count};
ghost use Rattle.utf.specs.Utf8.{sequence_of, trail_byte, lead_byte, encode_of, encode_answer, encode_into};
ghost use Rattle.utf.specs.Utf8.{put_answer, put_into};

// Why a sequence gives no scalar value.
#[derive(Clone, Copy, Debug, PartialEq, Eq)]
pub enum Stop {
    // 51: the input ends inside the sequence. Put the next bytes after it and call again; at the input's end, give up.
    CutShort,
    // 52: the sequence is illegal. Its length goes up to and including the byte that made it so, in UTF-32 over all
    // four bytes: skip that many bytes.
    Illegal(usize),
    // 53, from a conversion only: the table has no mapping for it. Substitute, or skip the sequence.
    Unassigned,
}

impl Stop {
    ghost use Rattle.utf.specs.Utf8.{stop_number};

    // Document 01's number for a stop.
    pub fn number(self) -> u32
        ensures { result ≡ stop_number self }
    {
        match self {
            Stop::CutShort => 51,
            Stop::Illegal(_) => 52,
            Stop::Unassigned => 53,
        }
    }
}

// The outcome of one sequence: a scalar value and the count of its bytes, or a stop.
// No Result: to be stopped is an answer as the rules ask for it (`decode_one`), and no failure.
#[derive(Clone, Copy, Debug, PartialEq, Eq)]
pub enum Sequence {
    Scalar(u32, usize),
    Stopped(Stop),
}

// The meaning of a lead byte: the count of trail bytes, the bounds of the first of them, and the lead's own bits.
#[derive(Clone, Copy, Debug, PartialEq, Eq)]
pub struct Lead {
    pub trails: usize,
    pub lo: u8,
    pub hi: u8,
    pub top: u32,
}

// Why nothing was written.
#[derive(Clone, Copy, Debug, PartialEq, Eq)]
pub enum PutError {
    // The bytes do not fit; a conversion answers 50. Encode again with more room.
    NoRoom,
    // The number is no scalar value.
    NotScalar,
}

// Whether a number is a scalar value: a code point that is no surrogate.
// Not one with `keeps_t6` of table: neither crate knows the other, and lists, below both, has no code.
pub fn is_scalar(c: u32) -> bool
    ensures { IsTrue result ↔ Scalar c }
{
    matches!(c, 0..=0xd7ff | 0xe000..=0x10ffff)
}

// The meaning of a legal lead byte, by ranges: the table of RFC 3629.
pub fn lead_of(b: u8) -> Option<Lead>
    ensures { result ≡ lead_of b }
{
    let (trails, lo, hi, bits) = match b {
        0x00..=0x7f => (0, 0x80, 0xbf, b),
        0xc2..=0xdf => (1, 0x80, 0xbf, b & 0x1f),
        0xe0 => (2, 0xa0, 0xbf, b & 0x0f),
        0xe1..=0xec | 0xee..=0xef => (2, 0x80, 0xbf, b & 0x0f),
        0xed => (2, 0x80, 0x9f, b & 0x0f),
        0xf0 => (3, 0x90, 0xbf, b & 0x07),
        0xf1..=0xf3 => (3, 0x80, 0xbf, b & 0x07),
        0xf4 => (3, 0x80, 0x8f, b & 0x07),
        _ => return None,
    };
    Some(Lead {
        trails,
        lo,
        hi,
        top: u32::from(bits),
    })
}

// The lowest group of six bits.
fn low_six(t: u32) -> u32
    ensures { result ≡ t % 64 }
{
    t & 0x3f
}

// A trail byte's six bits, put under a value that has room for them.
fn put_six(v: u32, x: u8) -> u32
    requires { v < 2 ^ 26 }
    ensures { result ≡ v * 64 + x % 64 }
{
    (v << 6) | low_six(u32::from(x))
}

// The trail byte at a place of `s`, from `lo` to `hi`, its six bits put under `v`.
// No `Lead`: the bounds of a second or third trail byte are not the lead's.
fn trail_at(s: &[u8], i: usize, lo: u8, hi: u8, v: u32) -> Result<(u32, usize), Stop>
    requires { v < 2 ^ 26 }
    ensures { result ≡ trail_in lo hi v i (drop i s.now) }
{
    match s.get(i) {
        None => Err(Stop::CutShort),
        Some(&x) if x < lo || hi < x => Err(Stop::Illegal(i + 1)),
        Some(&x) => Ok((put_six(v, x), i + 1)),
    }
}

impl Lead {
    // The trail bytes after the first byte of `s`, each putting six bits under the lead's own.
    fn follow(self, s: &[u8]) -> Result<(u32, usize), Stop>
        requires trails { self.trails ≤ 3 }
        requires top { self.top < 128 }
        ensures { sequence_of result ≡ trails_of self.trails self.lo self.hi self.top 1 (drop 1 s.now) }
    {
        if self.trails == 0 {
            return Ok((self.top, 1));
        }
        let one = trail_at(s, 1, self.lo, self.hi, self.top);
        if self.trails == 1 {
            return one;
        }
        let (v, n) = one?;
        let two = trail_at(s, n, 0x80, 0xbf, v);
        if self.trails == 2 {
            return two;
        }
        let (v, n) = two?;
        trail_at(s, n, 0x80, 0xbf, v)
    }
}

// The sequence at the front of `s`. One answer at the end, for speed.
#[tactic(auto, using(crate::proofs::Trails::fronts))]
pub fn decode(s: &[u8]) -> Sequence
    ensures { result ≡ decode_one s.now }
{
    let Some(&b) = s.first() else {
        return Sequence::Stopped(Stop::CutShort);
    };
    if b < 0x80 {
        return Sequence::Scalar(u32::from(b), 1);
    }
    match lead_of(b) {
        None => Sequence::Stopped(Stop::Illegal(1)),
        Some(lead) => match lead.follow(s) {
            Ok((c, n)) => Sequence::Scalar(c, n),
            Err(stop) => Sequence::Stopped(stop),
        },
    }
}

// How many trail bytes a code point takes.
fn trail_count(c: u32) -> usize
    ensures { result ≡ trail_count c }
{
    match c {
        0..=0x7f => 0,
        0x80..=0x7ff => 1,
        0x800..=0xffff => 2,
        _ => 3,
    }
}

// The mark of a lead byte before `k` trail bytes.
fn mark(k: usize) -> u32
    requires { k ≤ 3 }
    ensures { result ≡ lead_mark k }
{
    match k {
        0 => 0,
        1 => 0xc0,
        2 => 0xe0,
        _ => 0xf0,
    }
}

// The lead byte of a code point before its `k` trail bytes.
fn lead_byte(c: u32, k: usize) -> u8
    requires trails { k ≡ trail_count c }
    requires below { c < 0x110000 }
    ensures { result ≡ lead_byte c k }
{
    (mark(k) | (c >> (6 * k))) as u8
}

// The trail byte of a code point before `k` more.
fn trail_byte(c: u32, k: usize) -> u8
    requires { k ≤ 2 }
    ensures { result ≡ trail_byte c k }
{
    (0x80 | low_six(c >> (6 * k))) as u8
}

// Writes bytes into `out` from `at` on if they fit, and answers how many; otherwise `out` stays as it was.
// Output and place stay two arguments: it answers at any place, also past the output.
pub(crate) fn put(out: &mut [u8], at: usize, bytes: &[u8]) -> Result<usize, PutError>
    ensures answer { result ≡ put_answer out.old at bytes.now }
    ensures written { out.new ≡ put_into out.old at bytes.now }
{
    if out.len() < bytes.len() || out.len() - bytes.len() < at {
        return Err(PutError::NoRoom);
    }
    out[at..at + bytes.len()].copy_from_slice(bytes);
    Ok(bytes.len())
}

// Writes a scalar value's bytes into `out` from `at` on if they fit, and answers how many; otherwise `out` stays as it
// was.
#[tactic(auto, using(crate::proofs::Puts::puts))]
pub fn encode(c: u32, out: &mut [u8], at: usize) -> Result<usize, PutError>
    ensures answer { result ≡ encode_answer encode_of c out.old at }
    ensures written { out.new ≡ encode_into encode_of c out.old at }
{
    if !is_scalar(c) {
        return Err(PutError::NotScalar);
    }
    let trails = trail_count(c);
    let lead = lead_byte(c, trails);
    match trails {
        0 => put(out, at, &[lead]),
        1 => put(out, at, &[lead, trail_byte(c, 0)]),
        2 => put(out, at, &[lead, trail_byte(c, 1), trail_byte(c, 0)]),
        _ => put(
            out,
            at,
            &[lead, trail_byte(c, 2), trail_byte(c, 1), trail_byte(c, 0)],
        ),
    }
}
