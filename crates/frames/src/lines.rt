// The program's lines: report lines out, frames in, and lines out of an input that comes in pieces.
ghost use Rattle.std.specs.Prelude.{◌≡◌, ◌+◌, ◌-◌, ◌*◌, ◌%◌, ◌^◌, ◌<◌, ◌≤◌, true, ◌++◌, length, drop};
ghost use Rattle.std.proofs.lemmas.List.Edits.{sets};
ghost use Rattle.std.specs.Char.{is_ascii_hexdigit};
ghost use Rattle.std.specs.List.{list_all};
ghost use Rattle.table.specs.Codes.{unpacked};
ghost use Rattle.frames.specs.Lines.{hex_digit, hex_byte, hex_of, digits_of, decimal_count, fixed_line, two_numbers};
ghost use Rattle.frames.specs.Lines.{ok_line, refused_line, answer_line, finding_line, closing_line, count_put};
ghost use Rattle.frames.specs.Lines.{all_digits, bytes_of_hex, is_dash, is_hex, parsed, parsed_answer, parsed_into};
ghost use Rattle.frames.specs.Lines.{Puts};
ghost use Rattle.frames.specs.loops.Inner.{first_lf, hex_count};
ghost use Rattle.frames.specs.Stream.{extend, piece_step, partial_in, partial_of, kept_in, taken_answer};
ghost use Rattle.frames.specs.Stream.{taken_into};

use table::states::TOP;
use table::text::digit;

// A line that has no bytes yet. A line so far is the count of its bytes that are held, or None if it has more bytes
// than there is room for.
pub const EMPTY: Option<usize> = Some(0);

// One step through a piece of input. An enum of its own: both ways hand back a line so far, and neither is a failure.
#[derive(Clone, Copy)]
pub enum Taken {
    // The line ends. Report it, and go on from this place after its LF.
    Line(usize, Option<usize>),
    // The piece ends inside the line. Take the next piece.
    More(Option<usize>),
}

// How many bytes were put at the front: none if the text did not fit.
pub fn count_put(put: Option<usize>) -> usize
    ensures { result ≡ count_put put }
{
    put.unwrap_or(0)
}

// How many places there are from `at` on.
fn room_left(len: usize, at: usize) -> usize
    ensures { result ≡ len - at }
{
    len.saturating_sub(at)
}

// Lines are put by hand and not by `write!`: a line is put whole exactly when it fits (`Puts`), and `write!` promises
// nothing of when it succeeds. Slice and place stay two arguments: `put_*` answer at any place, also past the slice,
// and a struct that holds the slice needs a clause in each function that it is still the same slice.

// Writes a text from `at` on, and answers the place after it.
fn write_bytes(text: &[u8], out: &mut [u8], at: usize) -> usize
    requires { at + length text.now ≤ length out.old }
    ensures place { result ≡ at + length text.now }
    ensures written { out.new ≡ sets out.old at text.now }
{
    let next = at + text.len();
    out[at..next].copy_from_slice(text);
    next
}

// Puts a text into `out` from `at` on if it fits, and answers the place after it; otherwise `out` stays as it was. Send
// what `out` holds then, and put the text again at the front.
pub fn put_bytes(text: &[u8], out: &mut [u8], at: usize) -> Option<usize>
    ensures { Puts out.old at text.now result out.new }
{
    if out.len() < at || out.len() - at < text.len() {
        return None;
    }
    Some(write_bytes(text, out, at))
}

// Puts a text and LF, as `put_bytes` does.
pub fn put_fixed(text: &[u8], out: &mut [u8], at: usize) -> Option<usize>
    ensures { Puts out.old at (fixed_line text.now) result out.new }
{
    if room_left(out.len(), at) <= text.len() {
        return None;
    }
    let next = write_bytes(text, out, at);
    out[next] = b'\n';
    Some(next + 1)
}

// A number below 16 as a capital digit.
fn hex_digit(d: u8) -> u8
    requires { d < 16 }
    ensures { result ≡ hex_digit d }
{
    if d < 10 { b'0' + d } else { b'A' + (d - 10) }
}

// Writes a byte's two digits.
fn write_byte(b: u8, out: &mut [u8], at: usize)
    requires { at + 2 ≤ length out.old }
    ensures { out.new ≡ sets out.old at (hex_byte b) }
{
    out[at] = hex_digit(b >> 4);
    out[at + 1] = hex_digit(b & 15);
}

// How long `n` bytes are as digits.
fn hex_count(n: usize) -> usize
    requires { 2 * n < 2 ^ 64 }
    ensures { result ≡ hex_count n }
{
    if n == 0 { 1 } else { 2 * n }
}

// Writes bytes as digits, `-` for none, and answers the place after them.
fn write_hex(bytes: &[u8], out: &mut [u8], at: usize) -> usize
    requires { at + hex_count (length bytes.now) ≤ length out.old }
    ensures place { result ≡ at + hex_count (length bytes.now) }
    ensures written { out.new ≡ sets out.old at (hex_of bytes.now) }
{
    if bytes.is_empty() {
        out[at] = b'-';
        return at + 1;
    }
    for (i, &byte) in bytes.iter().enumerate() {
        write_byte(byte, out, at + 2 * i);
    }
    at + 2 * bytes.len()
}

// Writes a code's bytes as digits, `-` for no bytes, and answers the place after them. Apart from `write_hex`, since
// `put_finding` takes codes of any length, and no array holds their bytes.
fn write_code(bits: u32, len: usize, out: &mut [u8], at: usize) -> usize
    requires { at + hex_count len ≤ length out.old }
    ensures place { result ≡ at + hex_count len }
    ensures written { out.new ≡ sets out.old at (hex_of (unpacked len bits)) }
{
    if len == 0 {
        out[at] = b'-';
        return at + 1;
    }
    let mut rest = bits;
    for i in 0..len {
        write_byte((rest / TOP) as u8, out, at + 2 * i);
        rest = rest % TOP * 256;
    }
    at + 2 * len
}

// How many digits `n` takes in decimal.
fn decimal_count(n: u64) -> usize
    ensures count { result ≡ decimal_count n }
    ensures few { result ≤ 20 }
{
    match n.checked_ilog10() {
        Some(power) => power as usize + 1,
        None => 1,
    }
}

// The lowest decimal digit.
fn last_digit(n: u64) -> u8
    ensures { result ≡ 48 + n % 10 }
{
    b'0' + (n % 10) as u8
}

// Writes the `count` lowest decimal digits of `n`, the lowest last.
fn write_digits(n: u64, count: usize, out: &mut [u8], at: usize)
    requires { at + count ≤ length out.old }
    ensures { out.new ≡ sets out.old at (digits_of count n) }
{
    let mut rest = n;
    for i in (at..at + count).rev() {
        out[i] = last_digit(rest);
        rest /= 10;
    }
}

// Writes a text and the `count` lowest decimal digits of `n`, and answers the place after them.
fn write_number(before: &[u8], n: u64, count: usize, out: &mut [u8], at: usize) -> usize
    requires { at + (length before.now + count) ≤ length out.old }
    ensures place { result ≡ at + (length before.now + count) }
    ensures written { out.new ≡ sets out.old at (before.now ++ digits_of count n) }
{
    let p = write_bytes(before, out, at);
    write_digits(n, count, out, p);
    p + count
}

// Puts two numbers, each after a text, and LF.
fn put_two(first: &[u8], n: u64, second: &[u8], m: u64, out: &mut [u8], at: usize) -> Option<usize>
    requires { (length first.now ≤ 64) × (length second.now ≤ 64) }
    ensures { let line = two_numbers first.now n second.now m in
        Puts out.old at line result out.new }
{
    let a = decimal_count(n);
    let b = decimal_count(m);
    if room_left(out.len(), at) < first.len() + a + second.len() + b + 1 {
        return None;
    }
    let p = write_number(first, n, a, out, at);
    let q = write_number(second, m, b, out, p);
    out[q] = b'\n';
    Some(q + 1)
}

// Puts the line of an accepted table. This function and the next four put a line if it fits; otherwise `out` stays as
// it was.
pub fn put_ok(count: u32, out: &mut [u8], at: usize) -> Option<usize>
    ensures { Puts out.old at (ok_line count) result out.new }
{
    let n = count as u64;
    let a = decimal_count(n);
    if room_left(out.len(), at) < a + 10 {
        return None;
    }
    let p = write_number(b"TABLE OK ", n, a, out, at);
    out[p] = b'\n';
    Some(p + 1)
}

// Puts the line of a refused table.
pub fn put_refused(number: u32, line: usize, out: &mut [u8], at: usize) -> Option<usize>
    ensures { Puts out.old at (refused_line number line) result out.new }
{
    put_two(b"TABLE REFUSED ", number as u64, b" ", line as u64, out, at)
}

// Puts the audit's last line.
pub fn put_closing(looked: u64, listed: u64, out: &mut [u8], at: usize) -> Option<usize>
    ensures { Puts out.old at (closing_line looked listed) result out.new }
{
    put_two(b"LOOKED ", looked, b" LISTED ", listed, out, at)
}

// Puts a frame's line.
pub fn put_answer(number: u32, read: usize, text: &[u8], out: &mut [u8], at: usize) -> Option<usize>
    ensures { Puts out.old at (answer_line number read text.now) result out.new }
{
    let n = number as u64;
    let m = read as u64;
    let a = decimal_count(n);
    let b = decimal_count(m);
    let digits = hex_count(text.len());
    let left = room_left(out.len(), at);
    if left < digits || left - digits < a + b + 3 {
        return None;
    }
    write_digits(n, a, out, at);
    let q = write_number(b" ", m, b, out, at + a);
    out[q] = b' ';
    let e = write_hex(text, out, q + 1);
    out[e] = b'\n';
    Some(e + 1)
}

// Puts a finding of the audit: a code of `len` bytes, the first the highest of `bits`, and its cause.
pub fn put_finding(bits: u32, len: u32, cause: u32, out: &mut [u8], at: usize) -> Option<usize>
    ensures { Puts out.old at (finding_line (unpacked len bits) cause) result out.new }
{
    let n = cause as u64;
    let bytes = len as usize;
    let a = decimal_count(n);
    let digits = hex_count(bytes);
    if room_left(out.len(), at) < digits + a + 2 {
        return None;
    }
    let p = write_code(bits, bytes, out, at);
    let q = write_number(b" ", n, a, out, p);
    out[q] = b'\n';
    Some(q + 1)
}

// Whether each byte is a hexadecimal digit.
fn all_digits(line: &[u8]) -> bool
    ensures { result ≡ list_all (λ b. is_ascii_hexdigit b) line.now }
{
    line.iter().all(|&b| b.is_ascii_hexdigit())
}

// Whether the line is `-` alone.
fn is_dash(line: &[u8]) -> bool
    ensures { result ≡ is_dash line.now }
{
    line.len() == 1 && line[0] == b'-'
}

// The most digits that a frame has.
const FRAME_DIGITS: usize = 8192;

// Whether the line is the digits of 1 to 4,096 bytes.
fn is_hex(line: &[u8]) -> bool
    ensures { result ≡ is_hex line.now }
{
    if line.len() < 2 || FRAME_DIGITS < line.len() || line.len() % 2 != 0 {
        return false;
    }
    all_digits(line)
}

// Writes the bytes of digits to the front of `out`. `digit` answers a number, 16 for no digit; here each is a digit.
fn write_frame(line: &[u8], count: usize, out: &mut [u8])
    requires { (2 * count ≡ length line.now) × (count ≤ length out.old)
        × (all_digits line.now ≡ true) }
    ensures { out.new ≡ sets out.old 0 (bytes_of_hex line.now) }
{
    for i in 0..count {
        let high = digit(line[2 * i]);
        let low = digit(line[2 * i + 1]);
        out[i] = (high * 16 + low) as u8;
    }
}

// Reads a frame's line into the front of `out`; if the line is bad or the frame does not fit, `out` stays as it was.
pub fn parse_frame(line: &[u8], out: &mut [u8]) -> Option<usize>
    ensures answer { result ≡ parsed_answer out.old (parsed line.now) }
    ensures written { out.new ≡ parsed_into out.old (parsed line.now) }
{
    if is_dash(line) {
        return Some(0);
    }
    if !is_hex(line) {
        return None;
    }
    let count = line.len() / 2;
    if out.len() < count {
        return None;
    }
    write_frame(line, count, out);
    Some(count)
}

// The place of the first LF, if there is one.
fn first_lf(s: &[u8]) -> Option<usize>
    ensures { result ≡ first_lf s.now }
{
    s.iter().position(|&b| b == b'\n')
}

// Appends bytes to the line so far; if they do not fit, the line is too long, and `line` stays as it was.
// The count stays beside the line: its bytes lie in lent memory of fixed size.
fn hold(part: &[u8], line: &mut [u8], held: Option<usize>) -> Option<usize>
    ensures count { let old = line.old in
        result ≡ partial_of (extend (length old) (partial_in old held) part.now) }
    ensures memory { let old = line.old in
        line.new ≡ kept_in old (extend (length old) (partial_in old held) part.now) }
{
    put_bytes(part, line, held?)
}

// Appends the bytes of `chunk` from `at` on, up to an LF or the end, to the line so far.
pub fn take_line(chunk: &[u8], at: usize, line: &mut [u8], held: Option<usize>) -> Taken
    ensures answer { let old = line.old in
        result ≡ taken_answer at (piece_step (length old) (partial_in old held) (drop at chunk.now)) }
    ensures memory { let old = line.old in
        line.new ≡ taken_into old (piece_step (length old) (partial_in old held) (drop at chunk.now)) }
{
    if chunk.len() <= at {
        return Taken::More(hold(b"", line, held));
    }
    let rest = &chunk[at..];
    match first_lf(rest) {
        Some(stop) => Taken::Line(at + stop + 1, hold(&rest[..stop], line, held)),
        None => Taken::More(hold(rest, line, held)),
    }
}
