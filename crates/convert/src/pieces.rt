// Either conversion in pieces: a frame comes in bursts, and each call is handed what the one before it kept.
ghost use Rattle.std.specs.Prelude.{◌≡◌, true, List, [], ◌++◌, ℕ, ◌+◌, ◌≤◌, None, min, length, take, drop, eqb};
ghost use Rattle.std.proofs.Math.Option.{none};
ghost use Rattle.utf.specs.Scheme.{side_of};
ghost use Rattle.table.specs.Limits.{limits};
ghost use Rattle.table.specs.Codes.{code_of, bytes_of};
ghost use Rattle.table.specs.Meaning.{steps_of};
ghost use Rattle.table.specs.Held.{memory_of};
ghost use Rattle.convert.specs.Run.{Run, run_of, converted_of, put_bytes, put_out};
ghost use Rattle.convert.specs.Pieces.{is_cut_short, standing, stands_as, pieced_by, piece_on, state_at, step_in};
ghost use Rattle.convert.specs.Pieces.{piece_behind, is_short, is_short_cut, trailing, trails_in, is_held, stands_fit};
ghost use Rattle.convert.specs.Pieces.{is_ahead, mark_fits, length_fits, is_nothing, begun, kept_fits, pieced_of};
ghost use Rattle.convert.specs.Pieces.{answered_of};
ghost use Rattle.convert.specs.Pieces.{piece_number, piece_length};
ghost use Rattle.convert.specs.Pieces.{carry_in, close_in, piece_tested, close_tested};
ghost use Rattle.convert.specs.loops.Carried.{ran_of, scheme_behind, plain_after, mark_after, carry_of, is_due};
ghost use Rattle.convert.specs.loops.Carried.{Guards};
ghost use Rattle.lists.specs.Between.{between};
ghost use Rattle.lists.specs.Pick.{◌and◌};

use crate::way::{self, ToUnicode};
use crate::{Converted, RunEnd, Settings};
use table::lent::{Lent, Table};
use table::states::{Code, Cut, CutStop};
use utf::scheme::Scheme;
use utf::utf8::{Sequence, Stop};
use utf::utf32::ByteOrder;

// Which of the two conversions. Kept as an enum: the definitions (`step_in`, `kept_fits`) go by its cases, and `run_in`
// alone chooses the run by it.
#[derive(Clone, Copy)]
pub enum Way {
    ToUnicode,
    FromUnicode,
}

// What is kept between calls: the bytes of a sequence that is not through, at most three; the order of the text once
// the mark of plain UTF-32 is behind (with every other scheme it stays ahead); and the final answer that stands from
// an earlier call, if there is one.
#[derive(Clone, Copy)]
pub struct Kept {
    pub bytes: Code,
    pub mark: Option<ByteOrder>,
    pub standing: Option<Stop>,
}

// No bytes.
const NONE: Code = Code { bits: 0, len: 0 };

// A fresh start.
pub const FRESH: Kept = Kept {
    bytes: NONE,
    mark: None,
    standing: None,
};

// How a call ends, by number.
// No Result, as of `RunEnd`.
#[derive(Clone, Copy)]
pub enum PieceEnd {
    // 0 and 50 to 53, as of a whole conversion, and 60. 0: all of the piece is read; what it left unfinished is kept.
    // 50: call again with fresh space and the unread rest of the piece. 51 to 53 stand until a fresh start.
    Ended(RunEnd),
    // 42: what was handed over as kept is no such thing under this table, scheme and setting of skipping, and nothing
    // is read. Start afresh.
    BadKept,
}

impl PieceEnd {
    // The number of a call's end.
    pub fn number(self) -> u32
        ensures { result ≡ piece_number self }
    {
        match self {
            PieceEnd::Ended(how) => how.number(),
            PieceEnd::BadKept => 42,
        }
    }

    // The length of the illegal sequence that ended a call, or 0.
    pub fn length(self) -> usize
        ensures { result ≡ piece_length self }
    {
        match self {
            PieceEnd::Ended(how) => how.length(),
            PieceEnd::BadKept => 0,
        }
    }
}

// How a call ended, how many bytes of the piece it read, how many it wrote, and what it kept.
#[derive(Clone, Copy)]
pub struct Pieced {
    pub end: PieceEnd,
    pub read: usize,
    pub written: usize,
    pub kept: Kept,
}

// A run through part of a text, and where the mark is behind it.
#[derive(Clone, Copy)]
pub struct Ran {
    done: Converted,
    mark: Option<ByteOrder>,
}

// Whether a run ended inside a sequence.
fn is_cut_short(end: RunEnd) -> bool
    ensures { result ≡ is_cut_short end }
{
    matches!(end, RunEnd::Stopped(Stop::CutShort))
}

// The answer that stands after a run that ended so.
// No `From`: not every end of a run stands.
fn standing_after(end: RunEnd) -> Option<Stop>
    ensures { result ≡ stands_as (standing end) }
{
    match end {
        RunEnd::AllRead | RunEnd::OutputFull | RunEnd::BadTable => None,
        RunEnd::Stopped(stop) => Some(stop),
    }
}

// The scheme of the text from here on.
// A `match` gives a value for each scheme here; no function is chosen.
fn scheme_behind(scheme: Scheme, mark: Option<ByteOrder>) -> Scheme
    ensures { result ≡ scheme_behind scheme mark }
{
    match scheme {
        Scheme::Utf32 => match mark {
            None => Scheme::Utf32,
            Some(byte_order) => Scheme::from(byte_order),
        },
        Scheme::Utf8 | Scheme::Utf32Be | Scheme::Utf32Le => scheme,
    }
}

// Where the mark is behind the first bytes of plain UTF-32.
fn place_behind(input: &[u8], read: usize) -> Option<ByteOrder>
    ensures { result ≡ plain_after None input.now read }
{
    if read == 0 {
        return None;
    }
    Some(utf::utf32::mark_at(input).unwrap_or(ByteOrder::Big))
}

// Where the mark is when `read` bytes of a text are read.
fn mark_after(
    scheme: Scheme,
    mark: Option<ByteOrder>,
    input: &[u8],
    read: usize,
) -> Option<ByteOrder>
    ensures { result ≡ mark_after scheme mark input.now read }
{
    match scheme {
        Scheme::Utf8 | Scheme::Utf32Be | Scheme::Utf32Le => mark,
        Scheme::Utf32 => match mark {
            None => place_behind(input, read),
            Some(_) => mark,
        },
    }
}

// A run of either conversion through part of a text, by a valid table.
fn run_in(
    way: Way,
    mark: Option<ByteOrder>,
    table: &Table,
    input: &[u8],
    out: &mut [u8],
    settings: Settings,
    scheme: Scheme,
) -> Ran
    ensures { let step = step_in way scheme table.now settings in
        let run = run_of step (state_at mark) 0 input.now (length out.old) in
        (result ≡ ran_of run)
        × (out.new ≡ put_out run out.old) }
{
    match way {
        Way::ToUnicode => {
            let way = ToUnicode {
                table: table.copied(),
                settings,
                scheme,
            };
            let done = way::run(way, input, out);
            Ran { done, mark }
        }
        Way::FromUnicode => {
            let behind = scheme_behind(scheme, mark);
            let done = crate::from_scheme(table, input, out, settings, behind);
            let mark = mark_after(scheme, mark, input, done.read);
            Ran { done, mark }
        }
    }
}

// The smaller of two numbers.
fn smaller(a: usize, b: usize) -> usize
    ensures { result ≡ min a b }
{
    if a < b {
        return a;
    }
    b
}

// The bytes of `s` from one place to another, at most four, as a code.
fn code_at(s: &[u8], from: usize, to: usize) -> Code
    requires { (from ≤ to) × (to ≤ length s.now) × (to ≤ from + 4) }
    ensures { result ≡ code_of (drop from (take to s.now)) }
{
    let n = to - from;
    Code {
        bits: crate::pack(&s[from..], n),
        len: n as u32,
    }
}

// A call's answer, by the run through its text `s`, whose first `old` bytes were kept.
// Text and count stay two arguments: it needs the whole, and how much of it was kept.
fn settle(s: &[u8], old: usize, ran: Ran) -> Pieced
    requires { (old ≤ length s.now) × (old ≤ 3) × (ran.done.read ≤ length s.now)
        × (is_cut_short ran.done.end ≡ true → length s.now ≤ ran.done.read + 3) }
    ensures { (run : Run) → ran ≡ ran_of run
        → result ≡ pieced_of (pieced_by (take old s.now) (drop old s.now) run) }
{
    let done = ran.done;
    let end = done.end;
    let place = ran.mark;
    if is_cut_short(end) {
        return Pieced {
            end: PieceEnd::Ended(RunEnd::AllRead),
            read: s.len() - old,
            written: done.written,
            kept: Kept {
                bytes: code_at(s, done.read, s.len()),
                mark: place,
                standing: None,
            },
        };
    }
    let from = smaller(done.read, old);
    Pieced {
        end: PieceEnd::Ended(end),
        read: done.read - from,
        written: done.written,
        kept: Kept {
            bytes: code_at(s, from, old),
            mark: place,
            standing: standing_after(end),
        },
    }
}

// A call with nothing kept.
fn alone(
    way: Way,
    mark: Option<ByteOrder>,
    table: &Table,
    input: &[u8],
    out: &mut [u8],
    settings: Settings,
    scheme: Scheme,
) -> Pieced
    ensures { let step = step_in way scheme table.now settings in
        let run = piece_on step (carry_of [] mark) input.now (length out.old) in
        (result ≡ pieced_of run)
        × (out.new ≡ put_bytes run.bytes out.old) }
{
    let ran = run_in(way, mark, table, input, out, settings, scheme);
    settle(input, 0, ran)
}

// Kept bytes, at most three, and the first three of a piece, put together; answers how many there are.
// At most three bytes are asked, and no type says it: `Kept` may hold any numbers.
fn join(bytes: Code, piece: &[u8], buffer: &mut [u8]) -> usize
    requires { (bytes.len ≤ 3) × (6 ≤ length buffer.old) }
    ensures { (result ≤ length buffer.new)
        × (take result buffer.new ≡ bytes_of bytes ++ take 3 piece.now) }
{
    let n = bytes.len as usize;
    crate::put_bytes(bytes.bits, n, buffer, 0);
    let more = smaller(piece.len(), 3);
    buffer[n..n + more].copy_from_slice(&piece[..more]);
    n + more
}

// A call with kept bytes, where `joined` is those and the first three of the piece: through the kept bytes there, and
// then through the piece itself.
fn through_joined(
    way: Way,
    mark: Option<ByteOrder>,
    table: &Table,
    old: usize,
    joined: &[u8],
    input: &[u8],
    out: &mut [u8],
    settings: Settings,
    scheme: Scheme,
) -> Pieced
    requires { (old ≤ 3) × (old ≤ length joined.now) × (drop old joined.now ≡ take 3 input.now) }
    ensures { let step = step_in way scheme table.now settings in
        let carry = carry_of (take old joined.now) mark in
        let run = piece_on step carry input.now (length out.old) in
        (result ≡ pieced_of run)
        × (out.new ≡ put_bytes run.bytes out.old) }
{
    let over = run_in(way, mark, table, joined, out, settings, scheme);
    let front = over.done;
    let place = over.mark;
    if front.read < old {
        return settle(joined, old, over);
    }
    let used = front.read - old;
    let put = front.written;
    let done = alone(
        way,
        place,
        table,
        &input[used..],
        &mut out[put..],
        settings,
        scheme,
    );
    let end = done.end;
    let kept = done.kept;
    Pieced {
        end: end,
        read: used + done.read,
        written: put + done.written,
        kept: kept,
    }
}

// A call on a piece, behind any mark, where no answer stands.
// An array of fixed size: there is no heap.
fn through(
    way: Way,
    mark: Option<ByteOrder>,
    table: &Table,
    bytes: Code,
    input: &[u8],
    out: &mut [u8],
    settings: Settings,
    scheme: Scheme,
) -> Pieced
    requires { bytes.len ≤ 3 }
    ensures { let step = step_in way scheme table.now settings in
        let carry = carry_of (bytes_of bytes) mark in
        let run = piece_on step carry input.now (length out.old) in
        (result ≡ pieced_of run)
        × (out.new ≡ put_bytes run.bytes out.old) }
{
    if bytes.len == 0 {
        return alone(way, mark, table, input, out, settings, scheme);
    }
    let mut buffer = [0u8; 6];
    let n = join(bytes, input, &mut buffer);
    through_joined(
        way,
        mark,
        table,
        bytes.len as usize,
        &buffer[..n],
        input,
        out,
        settings,
        scheme,
    )
}

// Whether the mark of plain UTF-32 is to be written first.
fn is_due(way: Way, mark: Option<ByteOrder>, scheme: Scheme) -> bool
    ensures { result ≡ is_due way scheme mark }
{
    mark.is_none() && matches!(way, Way::ToUnicode) && matches!(scheme, Scheme::Utf32)
}

// A call that nothing is read or written in, and kept is handed back.
fn idle(end: PieceEnd, kept: Kept) -> Pieced
    ensures { result ≡ record { end = end; read = 0; written = 0; kept = kept } }
{
    Pieced {
        end: end,
        read: 0,
        written: 0,
        kept: kept,
    }
}

// A call on a piece, where no answer stands: plain UTF-32 has its mark first.
fn behind_due(
    way: Way,
    table: &Table,
    kept: Kept,
    input: &[u8],
    out: &mut [u8],
    settings: Settings,
    scheme: Scheme,
) -> Pieced
    requires { (is_held kept.bytes ≡ true) × (is_nothing kept.standing ≡ true)
        × (mark_fits way scheme true kept.mark ≡ true) }
    ensures { let old = out.old in
        let run = piece_behind way scheme table.now settings (carry_in kept) input.now (length old) in
        (result ≡ pieced_of run)
        × (out.new ≡ put_bytes run.bytes old) }
{
    let mark = kept.mark;
    if !is_due(way, mark, scheme) {
        return through(way, mark, table, kept.bytes, input, out, settings, scheme);
    }
    if !utf::utf32::put_mark(out) {
        return idle(PieceEnd::Ended(RunEnd::OutputFull), kept);
    }
    let done = through(
        way,
        Some(ByteOrder::Big),
        table,
        kept.bytes,
        input,
        &mut out[4..],
        settings,
        scheme,
    );
    let end = done.end;
    let left = done.kept;
    Pieced {
        end: end,
        read: done.read,
        written: done.written + 4,
        kept: left,
    }
}

// At most three bytes, with zeros in the unused bits.
// A `Code` may hold any numbers, so this is tested.
fn is_held(bytes: Code) -> bool
    ensures { result ≡ is_held bytes }
{
    if bytes.len == 0 {
        bytes.bits == 0
    } else {
        bytes.len <= 3 && table::valid::is_padded(bytes.len, bytes.bits)
    }
}

// Whether the mark is ahead.
fn is_ahead(mark: Option<ByteOrder>) -> bool
    ensures { result ≡ is_ahead mark }
{
    mark.is_none()
}

// Whether the mark may be there; `untouched` says that nothing is kept and no answer stands.
fn mark_fits(way: Way, scheme: Scheme, untouched: bool, mark: Option<ByteOrder>) -> bool
    ensures { result ≡ mark_fits way scheme untouched mark }
{
    match scheme {
        Scheme::Utf8 | Scheme::Utf32Be | Scheme::Utf32Le => mark.is_none(),
        Scheme::Utf32 => match way {
            Way::FromUnicode => true,
            Way::ToUnicode => match mark {
                None => untouched,
                Some(ByteOrder::Big) => true,
                Some(ByteOrder::Little) => false,
            },
        },
    }
}

// Whether an illegal sequence can have this length, with so many bytes of it kept.
fn length_fits(way: Way, scheme: Scheme, n: usize, length: usize) -> bool
    ensures { result ≡ length_fits way scheme n length }
{
    match way {
        Way::FromUnicode => length == scheme.unit(),
        Way::ToUnicode => { 1 <= length && n <= length && length <= 4 }
    }
}

// Whether the answer may stand beside n kept bytes.
fn standing_fits(way: Way, scheme: Scheme, n: usize, standing: Option<Stop>) -> bool
    ensures { result ≡ stands_fit way scheme n standing }
{
    match standing {
        None | Some(Stop::Unassigned) => true,
        Some(Stop::CutShort) => 0 < n,
        Some(Stop::Illegal(length)) => length_fits(way, scheme, n, length),
    }
}

// Whether no answer stands.
fn is_nothing(standing: Option<Stop>) -> bool
    ensures { result ≡ is_nothing standing }
{
    standing.is_none()
}

// Whether nothing is kept and no answer stands.
fn is_untouched(bytes: Code, standing: Option<Stop>) -> bool
    ensures { result ≡ (eqb bytes.len 0 and is_nothing standing) }
{
    bytes.len == 0 && standing.is_none()
}

// Whether b is a trail byte of UTF-8.
fn is_trail(b: u8) -> bool
    ensures { result ≡ between 128 191 b }
{
    0x80 <= b && b <= 0xbf
}

// Whether these are one or two trail bytes.
fn is_trailing(s: &[u8]) -> bool
    ensures { result ≡ trailing s.now }
{
    match s {
        &[a] => is_trail(a),
        &[a, b] => is_trail(a) && is_trail(b),
        _ => false,
    }
}

// The same where skipping in UTF-8 may keep them.
fn trails_in(scheme: Scheme, skip: bool, s: &[u8]) -> bool
    ensures { result ≡ trails_in scheme skip s.now }
{
    matches!(scheme, Scheme::Utf8) && skip && is_trailing(s)
}

// Whether the states cut a sequence short.
fn is_short_cut(cut: Cut) -> bool
    ensures { result ≡ is_short_cut cut }
{
    matches!(cut, Cut::Stopped(CutStop::CutShort))
}

// Whether a sequence of Unicode is cut short.
fn is_short(sequence: Sequence) -> bool
    ensures { result ≡ is_short sequence }
{
    matches!(sequence, Sequence::Stopped(Stop::CutShort))
}

// Whether kept bytes begin a sequence, or are trail bytes that skipping keeps.
fn is_begun(way: Way, scheme: Scheme, table: &Table, skip: bool, s: &[u8]) -> bool
    ensures { result ≡ begun way scheme (steps_of table.now) skip s.now }
{
    match way {
        Way::ToUnicode => is_short_cut(table.cut(s)),
        Way::FromUnicode => { is_short(scheme.decode(s)) || trails_in(scheme, skip, s) }
    }
}

// The same of the bytes that a code holds, at most three.
fn is_begun_by(way: Way, scheme: Scheme, table: &Table, skip: bool, bytes: Code) -> bool
    requires { bytes.len ≤ 3 }
    ensures { result ≡ begun way scheme (steps_of table.now) skip (bytes_of bytes) }
{
    let mut buffer = [0u8; 3];
    let n = bytes.len as usize;
    crate::put_bytes(bytes.bits, n, &mut buffer, 0);
    is_begun(way, scheme, table, skip, &buffer[..n])
}

// Whether what was handed over is a kept state: the test behind 42.
fn kept_fits(way: Way, scheme: Scheme, table: &Table, settings: Settings, kept: Kept) -> bool
    ensures { result ≡ kept_fits way scheme (steps_of table.now) settings kept }
{
    let bytes = kept.bytes;
    let mark = kept.mark;
    let standing = kept.standing;
    if !is_held(bytes) {
        return false;
    }
    if !mark_fits(way, scheme, is_untouched(bytes, standing), mark) {
        return false;
    }
    if !standing_fits(way, scheme, bytes.len as usize, standing) {
        return false;
    }
    is_begun_by(way, scheme, table, settings.skip, bytes)
}

// What every call asks first: the test behind 60, that behind 42, and whether an answer stands.
fn guard<'a>(
    way: Way,
    lent: Lent<'a>,
    kept: Kept,
    settings: Settings,
    scheme: Scheme,
) -> Result<Table<'a>, PieceEnd>
    ensures { Guards way scheme lent.entry.rec (memory_of lent.entry) settings kept result }
{
    let Ok(table) = Table::new(lent) else {
        return Err(PieceEnd::Ended(RunEnd::BadTable));
    };
    if !kept_fits(way, scheme, &table, settings, kept) {
        return Err(PieceEnd::BadKept);
    }
    let standing = kept.standing;
    match standing {
        Some(stop) => Err(PieceEnd::Ended(RunEnd::Stopped(stop))),
        None => Ok(table),
    }
}

// One call on a piece of a text: 60, 42, the answer that stands; then the mark that plain UTF-32 is written with; then
// kept bytes and piece, as one text.
pub fn convert_piece(
    way: Way,
    lent: Lent,
    kept: Kept,
    input: &[u8],
    out: &mut [u8],
    settings: Settings,
    scheme: Scheme,
) -> Pieced
    ensures answer { let a =
        piece_tested way scheme limits lent.entry.rec (memory_of lent.entry) settings kept input.now (length out.old) in
        result ≡ answered_of a }
    ensures written { let a =
        piece_tested way scheme limits lent.entry.rec (memory_of lent.entry) settings kept input.now (length out.old) in
        out.new ≡ put_bytes a.bytes out.old }
    ensures number { let a =
        piece_tested way scheme limits lent.entry.rec (memory_of lent.entry) settings kept input.now (length out.old) in
        piece_number result.end ≡ piece_number a.end }
    ensures illegal { let a =
        piece_tested way scheme limits lent.entry.rec (memory_of lent.entry) settings kept input.now (length out.old) in
        piece_length result.end ≡ piece_length a.end }
{
    match guard(way, lent, kept, settings, scheme) {
        Ok(table) => behind_due(way, &table, kept, input, out, settings, scheme),
        Err(end) => idle(end, kept),
    }
}

// The close, where no answer stands: 51 where bytes are kept; else plain UTF-32's mark, if it is still ahead, and a
// fresh start.
// Way, scheme and what is kept are all that it needs.
fn close_open(way: Way, kept: Kept, out: &mut [u8], scheme: Scheme) -> Pieced
    requires { (is_held kept.bytes ≡ true) × (is_nothing kept.standing ≡ true) }
    ensures { let old = out.old in
        let run = close_in way scheme (carry_in kept) (length old) in
        (result ≡ pieced_of run)
        × (out.new ≡ put_bytes run.bytes old) }
{
    let bytes = kept.bytes;
    let mark = kept.mark;
    if 0 < bytes.len {
        return idle(
            PieceEnd::Ended(RunEnd::Stopped(Stop::CutShort)),
            Kept {
                bytes: bytes,
                mark: mark,
                standing: Some(Stop::CutShort),
            },
        );
    }
    if !is_due(way, mark, scheme) {
        return idle(PieceEnd::Ended(RunEnd::AllRead), FRESH);
    }
    if !utf::utf32::put_mark(out) {
        return idle(PieceEnd::Ended(RunEnd::OutputFull), kept);
    }
    Pieced {
        end: PieceEnd::Ended(RunEnd::AllRead),
        read: 0,
        written: 4,
        kept: FRESH,
    }
}

// The closing call of a text: 60, 42, the answer that stands; then the close.
pub fn close(
    way: Way,
    lent: Lent,
    kept: Kept,
    out: &mut [u8],
    settings: Settings,
    scheme: Scheme,
) -> Pieced
    ensures answer { let a =
        close_tested way scheme limits lent.entry.rec (memory_of lent.entry) settings kept (length out.old) in
        result ≡ answered_of a }
    ensures written { let a =
        close_tested way scheme limits lent.entry.rec (memory_of lent.entry) settings kept (length out.old) in
        out.new ≡ put_bytes a.bytes out.old }
    ensures number { let a =
        close_tested way scheme limits lent.entry.rec (memory_of lent.entry) settings kept (length out.old) in
        piece_number result.end ≡ piece_number a.end }
    ensures illegal { let a =
        close_tested way scheme limits lent.entry.rec (memory_of lent.entry) settings kept (length out.old) in
        piece_length result.end ≡ piece_length a.end }
{
    match guard(way, lent, kept, settings, scheme) {
        Ok(_) => close_open(way, kept, out, scheme),
        Err(end) => idle(end, kept),
    }
}
