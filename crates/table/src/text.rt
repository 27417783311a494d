// The lines of a table's text, and the tokens of one line.
ghost use Rattle.std.specs.Prelude.{◌≡◌, ◌++◌, ◌+◌, ◌-◌, ◌≤◌, ◌<◌, eqb, length, get_or, take, drop, replicate};
ghost use Rattle.table.specs.Text.{cr_before, digit_of, digit_in, byte_of, skip_at, ends_at, byte_at, point_digits};
ghost use Rattle.table.specs.Text.{unicode_at, join_at, bytes_at, is_charmap};
ghost use Rattle.lists.specs.Pick.{◌or◌};
ghost use Rattle.lists.specs.Strings.{begins};
ghost use Rattle.table.specs.loops.Coded.{first_line, rest_lines, byte_run_of};
ghost use Rattle.table.specs.loops.Ranges.{Within, NumAtMost, Ran};

use crate::states::TOP;

// A run of bytes `\xhh`: the code of the first four bytes, the count of bytes, whether a `+` joined two, and the place
// after the run.
// No `Code`: a run may have more than four bytes, and `len` counts them all.
#[derive(Clone, Copy)]
pub struct ByteRun {
    pub bits: u32,
    pub len: usize,
    pub joined: bool,
    pub end: usize,
}

// Where a line stops, and where the next starts.
// Two places and no slices: a CR or LF lies between them.
#[derive(Clone, Copy)]
pub struct LineEnd {
    pub stop: usize,
    pub next: usize,
}

// The value of a hexadecimal digit in either case, or 16.
// Kept beside `hex_digit`: public, and docs/API.md names it with the 16.
#[tactic(auto, unfolding(crate::specs::Text::digit_of))]
pub fn digit(b: u8) -> u32
    ensures { (result ≡ digit_of b) × (result ≤ 16) }
{
    hex_digit(b).unwrap_or(16)
}

// The value of a hexadecimal digit in either case, if it is one.
#[tactic(auto, unfolding(crate::specs::Text::digit_of))]
pub(crate) fn hex_digit(b: u8) -> Option<u32>
    ensures { result ≡ digit_in b }
{
    match b {
        b'0'..=b'9' => Some((b - b'0') as u32),
        b'A'..=b'F' => Some((b - b'A') as u32 + 10),
        b'a'..=b'f' => Some((b - b'a') as u32 + 10),
        _ => None,
    }
}

// Whether a byte is a blank or a tab.
fn is_blank(b: u8) -> bool
    ensures { result ≡ (eqb b 32 or eqb b 9) }
{
    matches!(b, b' ' | b'\t')
}

// The place after blanks and tabs.
// Text and place stay two arguments, as the definitions of the readers speak of both.
pub(crate) fn skip(s: &[u8], at: usize) -> usize
    ensures { (result ≡ skip_at s.now at) × (at ≤ result) }
{
    let mut i = at;
    // Kept as `while`: over a range each blank takes 8 instructions or more in place of 6.
    while i < s.len() && is_blank(s[i]) {
        i += 1;
    }
    i
}

// Whether the line ends at `at`, or a comment starts there.
#[tactic(auto, unfolding(crate::specs::Text::ends_at))]
pub(crate) fn ends(s: &[u8], at: usize) -> bool
    ensures { result ≡ ends_at s.now at }
{
    at >= s.len() || s[at] == b'#'
}

// Whether the word w stands at `at`.
pub(crate) fn word(s: &[u8], at: usize, w: &[u8]) -> bool
    requires { at ≤ length s.now }
    ensures { result ≡ begins w.now (drop at s.now) }
{
    s[at..].starts_with(w)
}

// Whether `CHARMAP` stands at p, alone.
#[tactic(auto, unfolding(crate::specs::Text::is_charmap))]
pub(crate) fn is_charmap(s: &[u8], p: usize) -> bool
    requires { p ≤ length s.now }
    ensures { result ≡ is_charmap s.now p }
{
    word(s, p, b"CHARMAP") && ends(s, skip(s, p + 7))
}

// A byte `\xhh`, and the place after it.
#[tactic(auto, unfolding(crate::specs::Text::byte_at))]
pub(crate) fn byte(s: &[u8], at: usize) -> Option<(u32, usize)>
    ensures { (result ≡ byte_at s.now at) × Within result at (length s.now) }
{
    let [b'\\', b'x', high, low, ..] = s.get(at..)? else {
        return None;
    };
    Some((hex_digit(*high)? * 16 + hex_digit(*low)?, at + 4))
}

// 1 to 6 hexadecimal digits and `>`, and the place after it.
fn hex(s: &[u8], at: usize) -> Option<(u32, usize)>
    ensures { (result ≡ point_digits 0 0 at (drop at s.now))
        × NumAtMost 16777215 result at (length s.now) }
{
    let mut value = 0;
    for i in at..s.len() {
        if s[i] == b'>' {
            if i == at {
                return None;
            }
            return Some((value, i + 1));
        }
        let d = hex_digit(s[i])?;
        if i - at == 6 {
            return None;
        }
        value = value * 16 + d;
    }
    None
}

// A code point `<U..>`, and the place after it.
#[tactic(auto, unfolding(crate::specs::Text::unicode_at))]
pub(crate) fn unicode(s: &[u8], at: usize) -> Option<(u32, usize)>
    ensures { (result ≡ unicode_at s.now at) × NumAtMost 16777215 result at (length s.now) }
{
    let [b'<', b'U', ..] = s.get(at..)? else {
        return None;
    };
    hex(s, at + 2)
}

// Whether a `+` stands at `at`.
pub(crate) fn plus(s: &[u8], at: usize) -> bool
    ensures { result ≡ eqb (byte_of s.now at) 43 }
{
    s.get(at) == Some(&b'+')
}

// The place of the next token after q, past an optional `+`.
#[tactic(auto, unfolding(crate::specs::Text::join_at))]
pub(crate) fn join(s: &[u8], q: usize) -> usize
    ensures { (result ≡ join_at s.now q) × (q ≤ result) }
{
    let p = skip(s, q);
    if plus(s, p) { skip(s, p + 1) } else { p }
}

// One or more bytes; the first is the highest of the code, the fifth and later ones are only counted.
pub(crate) fn bytes_run(s: &[u8], at: usize) -> Option<ByteRun>
    ensures { (result ≡ byte_run_of (bytes_at s.now at)) × Ran result at (length s.now) }
{
    let (first, mut end) = byte(s, skip(s, at))?;
    let mut bits = first * TOP;
    let mut weight: u32 = 65536;
    let mut len: usize = 1;
    let mut joined = false;
    while let Some((value, next)) = byte(s, join(s, end)) {
        joined |= plus(s, skip(s, end));
        bits += value * weight;
        weight /= 256;
        len += 1;
        end = next;
    }
    if plus(s, skip(s, end)) {
        return None;
    }
    Some(ByteRun {
        bits,
        len,
        joined,
        end,
    })
}

// Whether a CR stands at i, right before an LF.
// Byte by byte, and no `word`: a slice costs more than both tests.
#[tactic(auto, unfolding(crate::specs::Text::cr_before))]
fn cr_before(text: &[u8], i: usize) -> bool
    requires { i < length text.now }
    ensures { result ≡ cr_before (get_or text.now i 0) (drop (i + 1) text.now) }
{
    text[i] == b'\r' && i + 1 < text.len() && text[i + 1] == b'\n'
}

// Where the line that starts at a position stops, and where the next starts.
pub(crate) fn cut_line(text: &[u8], at: usize) -> LineEnd
    requires { at < length text.now }
    ensures { let all = text.now in
        (take (result.stop - at) (drop at all) ≡ first_line (drop at all))
        × (drop result.next all ≡ rest_lines (drop at all))
        × (at ≤ result.stop) × (result.stop ≤ length all)
        × (at < result.next) × (result.next ≤ length all) }
{
    for stop in at..text.len() {
        // One test for nearly every byte: those that end a line are no more than CR.
        if b'\r' < text[stop] {
            continue;
        }
        if text[stop] == b'\n' {
            return LineEnd {
                stop,
                next: stop + 1,
            };
        }
        if cr_before(text, stop) {
            return LineEnd {
                stop,
                next: stop + 2,
            };
        }
    }
    LineEnd {
        stop: text.len(),
        next: text.len(),
    }
}

// Sets the first n cells of the states to zero.
pub(crate) fn zero_states(xs: &mut [u16], n: usize)
    requires { n ≤ length xs.old }
    ensures { xs.new ≡ replicate n 0 ++ drop n xs.old }
{
    xs[..n].fill(0);
}

// Sets the first n numbers of a mapping slice to zero.
// Kept beside `zero_states`: at a type parameter, `fill` asks for a clone that cannot fail, and `Copy` promises none.
pub(crate) fn zero_mappings(xs: &mut [u32], n: usize)
    requires { n ≤ length xs.old }
    ensures { xs.new ≡ replicate n 0 ++ drop n xs.old }
{
    xs[..n].fill(0);
}
