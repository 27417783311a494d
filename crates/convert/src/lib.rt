// The two conversions: from a table's bytes to Unicode, in UTF-8 or UTF-32, and back.
#![tactic(auto)]

mod hints;
pub mod pieces;
mod way;

ghost use Rattle.std.specs.Prelude.{if◌then◌else◌, ◌≡◌, true, List, [], ℕ, ◌+◌, ◌*◌, ◌≤◌, length, take, drop};
ghost use Rattle.std.proofs.Math.Option.{none};
ghost use Rattle.std.proofs.lemmas.List.Edits.{sets};
ghost use Rattle.lists.specs.Place.{fits, placed};
ghost use Rattle.utf.specs.Scheme.{Side, side_of};
ghost use Rattle.utf.specs.declared.utf8.Stop.TheVariants as stopped;
ghost use Rattle.table.specs.Limits.{limits};
ghost use Rattle.table.specs.Codes.{packed, unpacked, bytes_of};
ghost use Rattle.table.specs.Lookup.{line_found};
ghost use Rattle.table.specs.Held.{memory_of, byte_given};
ghost use Rattle.convert.specs.Run.{Run, stop, after, converted_of, put_out};
ghost use Rattle.convert.specs.Run.{end_number, run_number, end_length, run_length};
ghost use Rattle.convert.specs.Step.{skipped, point_for, encoded, read_as, point_read_as};
ghost use Rattle.convert.specs.Step.{written_by, written_in, OwnCode, sent_for, stopped_by, substituted};
ghost use Rattle.convert.specs.loops.Inner.{sent_of};
ghost use Rattle.convert.specs.Convert.{mark_of, read_in, to_run, from_run, to_tested, from_tested};

use crate::way::{FromUnicode, ToUnicode};
use table::lent::{Lent, Table};
use table::lookup::{Mapping, Use};
use table::states::{Code, TOP};
use utf::scheme::Scheme;
use utf::utf8::{Sequence, Stop};

// How a conversion ends, by number.
// No Result: to be stopped is an answer that the rules number, and no failure.
#[derive(Clone, Copy)]
pub enum RunEnd {
    // 0: all input is read.
    AllRead,
    // 50: the next output does not fit. Empty the output and call again from the first byte not read. Plain UTF-32,
    // once its mark is written or its first four bytes are read: go on in UTF-32BE or UTF-32LE, whichever the text has.
    OutputFull,
    // 60: the record and the memory are no valid table, and nothing is read. Load the table again.
    BadTable,
    // 51 to 53: the first sequence not read stops the conversion. `Stop` says what to do with it.
    Stopped(Stop),
}

impl RunEnd {
    // Document 01's number for the end of a conversion.
    pub fn number(self) -> u32
        ensures { result ≡ end_number self }
    {
        match self {
            RunEnd::AllRead => 0,
            RunEnd::OutputFull => 50,
            RunEnd::BadTable => 60,
            RunEnd::Stopped(stop) => stop.number(),
        }
    }

    // The length of the illegal sequence that ended a conversion, or 0.
    // 0 and no Option: C is given 0 beside each other end.
    pub fn length(self) -> usize
        ensures { result ≡ end_length self }
    {
        match self {
            RunEnd::Stopped(Stop::Illegal(n)) => n,
            RunEnd::Stopped(Stop::CutShort) => 0,
            RunEnd::Stopped(Stop::Unassigned) => 0,
            RunEnd::AllRead | RunEnd::OutputFull | RunEnd::BadTable => 0,
        }
    }
}

// How a conversion ended, how many bytes it read, and how many it wrote.
#[derive(Clone, Copy)]
pub struct Converted {
    pub end: RunEnd,
    pub read: usize,
    pub written: usize,
}

// What a code point is written as: its code, subchar1, or nothing where no line writes it.
// No Option: two of the three have no code, and each goes its own way.
#[derive(Clone, Copy)]
pub enum WrittenAs {
    Code(Code),
    Subchar1,
    Nothing,
}

// The settings of a conversion: whether `|1` lines are written (from Unicode only), whether a substitution character
// stands for a sequence without a mapping, and whether an illegal sequence is skipped, with U+FFFD or subchar for it.
#[derive(Clone, Copy)]
pub struct Settings {
    pub fallback: bool,
    pub substitute: bool,
    pub skip: bool,
}

// The outcome of one sequence of Unicode: a code of the table (its bits and its length) and the count of bytes read,
// or a stop.
// No Result, as of `Sequence`; bits and length apart, since a `Code` copied whole goes through memory.
#[derive(Clone, Copy)]
pub enum Sent {
    Code(u32, u32, usize),
    Stopped(Stop),
}

// How a text begins: the count of its mark's bytes, 0 without one, and the scheme of the text behind the mark.
// No Option: it is a count, and 0 bytes are a count.
#[derive(Clone, Copy)]
struct Front {
    mark: usize,
    scheme: Scheme,
}

// The choice towards Unicode: the code point that a code reads as, by the line that reads it.
pub fn read_as(found: Option<Mapping>) -> Option<u32>
    ensures { point_read_as result ≡ read_as (line_found found) }
{
    match found {
        Some(line) => Some(line.point),
        None => None,
    }
}

// The choice from Unicode: what a code point is written as under a fallback setting, by the line that says so.
pub fn write_as(found: Option<Mapping>, fallback: bool) -> WrittenAs
    ensures { (written_in result ≡ written_by fallback (line_found found)) × OwnCode found result }
{
    match found {
        Some(line) => {
            // Field by field: copied whole, the code would go through memory, which costs two fifths of a conversion.
            let bits = line.code.bits;
            let len = line.code.len;
            match line.used {
                Use::RoundTrip => WrittenAs::Code(Code { bits, len }),
                Use::Fallback if fallback => WrittenAs::Code(Code { bits, len }),
                Use::Substituted => WrittenAs::Subchar1,
                Use::Fallback | Use::ReverseFallback => WrittenAs::Nothing,
            }
        }
        None => WrittenAs::Nothing,
    }
}

// A byte as the highest of 32 bits.
// No `from_be_bytes`: it would need three zeros beside the byte.
fn on_top(x: u8) -> u32
    ensures { (result ≡ x * 16777216) × (result ≤ 4278190080) }
{
    (x as u32) * TOP
}

// The first n bytes as the bits of a code, the first byte highest.
// The first two bytes straight, for speed: most codes have no more.
pub(crate) fn pack(s: &[u8], n: usize) -> u32
    requires { n ≤ length s.now }
    ensures { result ≡ packed (take n s.now) }
{
    if n == 1 {
        return on_top(s[0]);
    }
    if n == 2 {
        return on_top(s[0]) + on_top(s[1]) / 256;
    }
    let mut v: u32 = 0;
    let mut i = n;
    while 0 < i {
        i -= 1;
        v = on_top(s[i]) + v / 256;
    }
    v
}

// The outcome of an unassigned code of n bytes: U+001A for one byte where the table has subchar1, else U+FFFD.
fn unassigned(subchar1: Option<u8>, n: usize, substitute: bool) -> Sequence
    ensures { result ≡ point_for (byte_given subchar1) substitute n none }
{
    if !substitute {
        return Sequence::Stopped(Stop::Unassigned);
    }
    match subchar1 {
        Some(_) if n == 1 => Sequence::Scalar(0x1a, n),
        _ => Sequence::Scalar(0xfffd, n),
    }
}

// The outcome of an illegal sequence of n bytes: U+FFFD where it is skipped.
fn illegal_point(n: usize, skip: bool) -> Sequence
    ensures { (u : Side) → encoded u 0 result ≡ skipped skip (u.encode 65533) 0 (stop (stopped.Illegal n)) }
{
    if skip {
        return Sequence::Scalar(0xfffd, n);
    }
    Sequence::Stopped(Stop::Illegal(n))
}

// A substitution code for a code point of n bytes, or the stop 53 if substituting is off.
fn substitute_code(bits: u32, len: u32, n: usize, substitute: bool) -> Sent
    ensures { sent_of result ≡ substituted substitute (unpacked len bits) n 0 }
{
    if substitute {
        return Sent::Code(bits, len, n);
    }
    Sent::Stopped(Stop::Unassigned)
}

// The code for a code point of n bytes, by what it is written as.
fn code_for(table: &Table, written: WrittenAs, n: usize, settings: Settings) -> Sent
    ensures { sent_of result ≡ sent_for table.now settings.substitute 0 n (written_in written) }
{
    let sub = table.subchar();
    match written {
        WrittenAs::Code(code) => Sent::Code(code.bits, code.len, n),
        WrittenAs::Nothing => substitute_code(sub.bits, sub.len, n, settings.substitute),
        WrittenAs::Subchar1 => match table.subchar1() {
            Some(byte) => {
                let one = on_top(byte);
                substitute_code(one, 1, n, settings.substitute)
            }
            None => substitute_code(sub.bits, sub.len, n, settings.substitute),
        },
    }
}

// A stop of the Unicode side: an illegal sequence counts as one code unit, however far the decoder had to look.
// No `?`: an illegal sequence is changed on its way, or skipped.
fn one_unit(stop: Stop, scheme: Scheme) -> Stop
    ensures { result ≡ stopped_by (side_of scheme) stop }
{
    match stop {
        Stop::CutShort => Stop::CutShort,
        Stop::Illegal(_) => Stop::Illegal(scheme.unit()),
        Stop::Unassigned => Stop::Unassigned,
    }
}

// What is sent at a stop: subchar for an illegal sequence where it is skipped.
fn sent_stop(sub: Code, why: Stop, skip: bool) -> Sent
    ensures { sent_of result ≡ skipped skip (bytes_of sub) 0 (stop why) }
{
    match why {
        Stop::CutShort => Sent::Stopped(Stop::CutShort),
        Stop::Illegal(n) => {
            if skip {
                return Sent::Code(sub.bits, sub.len, n);
            }
            Sent::Stopped(Stop::Illegal(n))
        }
        Stop::Unassigned => Sent::Stopped(Stop::Unassigned),
    }
}

// Writes the n highest bytes of a code's bits into `out` from `at` on.
// By hand: each byte is taken out of the bits as it is put. Output and place stay two arguments.
pub(crate) fn put_bytes(bits: u32, n: usize, out: &mut [u8], at: usize)
    requires { at + n ≤ length out.old }
    ensures { out.new ≡ sets out.old at (unpacked n bits) }
{
    let mut k = n;
    let mut i = at;
    let mut v = bits;
    while 0 < k {
        out[i] = (v / TOP) as u8;
        v = v % TOP * 256;
        k -= 1;
        i += 1;
    }
}

// The same, with the first two bytes straight: most codes have no more.
fn store_code(bits: u32, n: usize, out: &mut [u8], at: usize)
    requires { at + n ≤ length out.old }
    ensures { out.new ≡ sets out.old at (unpacked n bits) }
{
    if n == 0 {
        return;
    }
    out[at] = (bits / TOP) as u8;
    if n == 1 {
        return;
    }
    let rest = bits % TOP * 256;
    out[at + 1] = (rest / TOP) as u8;
    if n == 2 {
        return;
    }
    put_bytes(rest % TOP * 256, n - 2, out, at + 2);
}

// Writes a code's bytes into `out` from `at` on if they fit, and answers whether they did.
fn put_code(bits: u32, len: u32, out: &mut [u8], at: usize) -> bool
    ensures { let old = out.old in
        let bytes = unpacked len bits in
        (result ≡ fits old at bytes)
        × (out.new ≡ (if fits old at bytes then placed old at bytes else old)) }
{
    let n = len as usize;
    if out.len() < n || out.len() - n < at {
        return false;
    }
    store_code(bits, n, out, at);
    true
}

// The answer of a conversion that ended so, after so many bytes.
fn ended(end: RunEnd, read: usize, written: usize) -> Converted
    ensures { result ≡ record { end = end; read = read; written = written } }
{
    Converted { end, read, written }
}

// How many bytes the mark has that is written before a text.
// A `match`: one scheme of four has a mark.
fn mark_len(scheme: Scheme) -> usize
    ensures { result ≡ length (mark_of scheme) }
{
    match scheme {
        Scheme::Utf8 => 0,
        Scheme::Utf32Be => 0,
        Scheme::Utf32Le => 0,
        Scheme::Utf32 => 4,
    }
}

// Writes that mark to the front of `out` if it fits, and answers whether it did.
pub(crate) fn put_mark(scheme: Scheme, out: &mut [u8]) -> bool
    ensures { let old = out.old in
        let mark = mark_of scheme in
        (result ≡ fits old 0 mark)
        × (out.new ≡ (if fits old 0 mark then placed old 0 mark else old)) }
{
    let Scheme::Utf32 = scheme else {
        return true;
    };
    utf::utf32::put_mark(out)
}

// The conversion of a valid table's bytes to a scheme: plain UTF-32 has its mark first.
// Not one with `from_scheme`: one writes a mark before the run, the other looks for one.
fn to_scheme(
    table: &Table,
    input: &[u8],
    out: &mut [u8],
    settings: Settings,
    scheme: Scheme,
) -> Converted
    ensures answer { result ≡ converted_of (to_run scheme table.now settings input.now (length out.old)) }
    ensures written { out.new ≡ put_out (to_run scheme table.now settings input.now (length out.old)) out.old }
{
    if !put_mark(scheme, out) {
        return ended(RunEnd::OutputFull, 0, 0);
    }
    let mark = mark_len(scheme);
    let way = ToUnicode {
        table: table.copied(),
        settings,
        scheme,
    };
    let done = way::run(way, input, &mut out[mark..]);
    ended(done.end, done.read, done.written + mark)
}

// The front of a text: only plain UTF-32 can have a mark.
fn front_of(scheme: Scheme, input: &[u8]) -> Front
    ensures { (result.mark ≤ length input.now)
        × ((run : Side → List ℕ → ℕ → Run) (room : ℕ)
        → read_in scheme run input.now room
        ≡ after result.mark [] (run (side_of result.scheme) (drop result.mark input.now) room)) }
{
    let Scheme::Utf32 = scheme else {
        return Front { mark: 0, scheme };
    };
    let Some(byte_order) = utf::utf32::mark_at(input) else {
        return Front { mark: 0, scheme };
    };
    Front {
        mark: 4,
        scheme: Scheme::from(byte_order),
    }
}

// The conversion of a scheme to a valid table's bytes: plain UTF-32 may have a mark first.
pub(crate) fn from_scheme(
    table: &Table,
    input: &[u8],
    out: &mut [u8],
    settings: Settings,
    scheme: Scheme,
) -> Converted
    ensures answer { result ≡ converted_of (from_run scheme table.now settings input.now (length out.old)) }
    ensures written { out.new ≡ put_out (from_run scheme table.now settings input.now (length out.old)) out.old }
{
    let front = front_of(scheme, input);
    let mark = front.mark;
    let way = FromUnicode {
        table: table.copied(),
        settings,
        scheme: front.scheme,
    };
    let done = way::run(way, &input[mark..], out);
    ended(done.end, done.read + mark, done.written)
}

// From a table's bytes to Unicode: the test behind number 60 first, then the scheme's mark, then sequence by sequence.
// Not one with `from_unicode`: each has promises of its own, and C calls each.
pub fn to_unicode(
    lent: Lent,
    input: &[u8],
    out: &mut [u8],
    settings: Settings,
    scheme: Scheme,
) -> Converted
    ensures answer { let run =
        to_tested scheme limits lent.entry.rec (memory_of lent.entry) settings input.now (length out.old) in
        result ≡ converted_of run }
    ensures written { let run =
        to_tested scheme limits lent.entry.rec (memory_of lent.entry) settings input.now (length out.old) in
        out.new ≡ put_out run out.old }
    ensures number { let run =
        to_tested scheme limits lent.entry.rec (memory_of lent.entry) settings input.now (length out.old) in
        end_number result.end ≡ run_number run }
    ensures illegal { let run =
        to_tested scheme limits lent.entry.rec (memory_of lent.entry) settings input.now (length out.old) in
        end_length result.end ≡ run_length run }
{
    match Table::new(lent) {
        Ok(table) => to_scheme(&table, input, out, settings, scheme),
        Err(_) => ended(RunEnd::BadTable, 0, 0),
    }
}

// From Unicode to a table's bytes: the test behind number 60 first, then the scheme's mark, then sequence by sequence.
pub fn from_unicode(
    lent: Lent,
    input: &[u8],
    out: &mut [u8],
    settings: Settings,
    scheme: Scheme,
) -> Converted
    ensures answer { let run =
        from_tested scheme limits lent.entry.rec (memory_of lent.entry) settings input.now (length out.old) in
        result ≡ converted_of run }
    ensures written { let run =
        from_tested scheme limits lent.entry.rec (memory_of lent.entry) settings input.now (length out.old) in
        out.new ≡ put_out run out.old }
    ensures number { let run =
        from_tested scheme limits lent.entry.rec (memory_of lent.entry) settings input.now (length out.old) in
        end_number result.end ≡ run_number run }
    ensures illegal { let run =
        from_tested scheme limits lent.entry.rec (memory_of lent.entry) settings input.now (length out.old) in
        end_length result.end ≡ run_length run }
{
    match Table::new(lent) {
        Ok(table) => from_scheme(&table, input, out, settings, scheme),
        Err(_) => ended(RunEnd::BadTable, 0, 0),
    }
}
