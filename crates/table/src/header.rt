// A line before CHARMAP: its key, value and comment, the conditions 11 to 15, and the header with the value in it.
ghost use Rattle.std.specs.Prelude.{if◌then◌else◌, ◌≡◌, true, false, map, ◌+◌, ◌-◌, ◌≤◌, ◌<◌, length, take, drop};
ghost use Rattle.std.specs.Prelude.{Ok, Err};
ghost use Rattle.table.specs.Limits.{limits, needed};
ghost use Rattle.table.specs.Cells.{cell_number};
ghost use Rattle.lists.specs.Strings.{same};
ghost use Rattle.lists.specs.Tests.{any_of};
ghost use Rattle.table.specs.Text.{flipped, foreign, content_end};
ghost use Rattle.table.specs.Row.{entries_of, row_of};
ghost use Rattle.lists.specs.Place.{fill_range};
ghost use Rattle.table.specs.Header.{key_byte, key_end, is_row, key_line, keyed_line, header_line_of};
ghost use Rattle.table.specs.Numbers.{n11, row_unbuilt, row_over, lowest, key_conditions};
ghost use Rattle.table.specs.Load.{keep_value};
ghost use Rattle.table.specs.loops.Progress.{keys_in, head_of, ProperHead};
ghost use Rattle.table.specs.declared.load.Refusal.TheVariants.{NotBuilt, OutOfRange};
ghost use Rattle.table.specs.loops.Ranges.{Within, NumAtMost, Placed, Stands, Ranged, InLine, InRange};
ghost use Rattle.table.specs.loops.Coded.{put_row};

use crate::load::Refusal;
use crate::row::put_row;
use crate::states::{Code, ROWS};
use crate::text::{ends, is_charmap, skip};
use crate::value::{Key, Value, key_of, value_of};

// A line before CHARMAP, by form. The value's text is line[q..e].
#[derive(Clone, Copy)]
pub enum HeaderLine {
    Blank,
    Charmap,
    Known(Key, Option<Value>, usize, usize),
}

// The header so far: a number is 0, and `sub` has no bytes, while the key is absent. class: 1 SBCS, 2 MBCS; sub1: 1 +
// the byte. Kept as numbers: `load` promises them so in the record, and each Option would only be taken apart again.
#[derive(Clone, Copy)]
pub struct Head {
    pub name: bool,
    pub min: u32,
    pub max: u32,
    pub class: u32,
    pub sub: Code,
    pub sub1: u32,
    pub rows: u32,
}

// A byte that a key may have.
#[tactic(auto, unfolding(crate::specs::Header::key_byte))]
fn key_byte(b: u8) -> bool
    ensures { result ≡ key_byte b }
{
    matches!(b, 33..=126) && !matches!(b, b'<' | b'>' | b'#')
}

// The place of the `>` after a run of key bytes.
// Kept as a loop: it looks for two things at once, the `>` and a byte that ends the search.
// Text and place stay two arguments, as the definitions of the readers speak of both.
// Not inlined: among all that `load` holds, the place would lie in memory.
#[inline(never)]
fn key_end(s: &[u8], at: usize) -> Option<usize>
    requires { at ≤ length s.now }
    ensures { (result ≡ key_end at (drop at s.now)) × Stands result at (length s.now) }
{
    for i in at..s.len() {
        if s[i] == b'>' {
            return Some(i);
        }
        if !key_byte(s[i]) {
            return None;
        }
    }
    None
}

// Whether a quote is open after a byte.
#[tactic(auto, unfolding(crate::specs::Text::flipped))]
fn flip(quoted: bool, b: u8) -> bool
    ensures { result ≡ flipped quoted b }
{
    quoted != (b == b'"')
}

// A byte that may only stand in quotes or a comment.
#[tactic(auto, unfolding(crate::specs::Text::foreign))]
fn foreign_byte(b: u8) -> bool
    ensures { result ≡ foreign b }
{
    b == b'\r' || 128 <= b
}

// The place where the content of a line ends: at a comment, or at the line's end.
// Kept as a loop: what a byte means depends on the quotes before it.
// Not inlined, as `key_end`.
#[inline(never)]
fn content_end(s: &[u8], at: usize) -> Option<usize>
    requires { at ≤ length s.now }
    ensures { (result ≡ content_end false at (drop at s.now)) × Placed result at (length s.now) }
{
    let mut quoted = false;
    for i in at..s.len() {
        let b = s[i];
        if !quoted {
            if b == b'#' {
                return Some(i);
            }
            if foreign_byte(b) {
                return None;
            }
        }
        quoted = flip(quoted, b);
    }
    Some(s.len())
}

// The line of a key whose value starts at q.
fn key_line(s: &[u8], k: Key, q: usize) -> Option<HeaderLine>
    requires { q ≤ length s.now }
    ensures { let text = s.now in
        (result ≡ key_line text k q (content_end false q (drop q text)))
        × InLine result (length text) }
{
    let e = content_end(s, q)?;
    Some(HeaderLine::Known(k, value_of(k, &s[q..e]), q, e))
}

// A line whose key starts at `at`, after the `<`.
fn keyed_line(s: &[u8], at: usize) -> Option<HeaderLine>
    requires { at ≤ length s.now }
    ensures { let text = s.now in
        (result ≡ keyed_line text at (key_end at (drop at text)))
        × InLine result (length text) }
{
    let e = key_end(s, at)?;
    if at == e {
        return None;
    }
    key_line(s, key_of(&s[at..e]), e + 1)
}

// A line before CHARMAP, by form.
pub(crate) fn read_line(s: &[u8]) -> Option<HeaderLine>
    ensures { (result ≡ header_line_of s.now) × InLine result (length s.now) }
{
    let p = skip(s, 0);
    if ends(s, p) {
        return Some(HeaderLine::Blank);
    }
    if s[p] == b'<' {
        return keyed_line(s, p + 1);
    }
    if is_charmap(s, p) {
        return Some(HeaderLine::Charmap);
    }
    None
}

// 11: whether a key that may come once has come before.
fn seen(h: Head, k: Key) -> bool
    ensures { result ≡ n11 (keys_in h) k }
{
    match k {
        Key::CodeSetName => h.name,
        Key::CurMin => 0 < h.min,
        Key::CurMax => 0 < h.max,
        Key::ConvClass => 0 < h.class,
        Key::SubChar => 0 < h.sub.len,
        Key::SubChar1 => 0 < h.sub1,
        Key::State | Key::Base | Key::Other => false,
    }
}

// 14 of a row: `surrogates`, `initial` off row 0, or 14 of an entry.
#[tactic(auto, unfolding(crate::specs::Numbers::row_unbuilt))]
fn row_unbuilt(rows: u32, w: u32, l: bool) -> bool
    ensures { result ≡ row_unbuilt rows w l }
{
    l || w == 2 || w == 1 && 0 < rows
}

// 14 and 15 of a row.
#[tactic(auto, using(crate::proofs::OneMore::rows_over))]
fn judge_row(rows: u32, w: u32, l: bool, o: bool) -> Result<(), Refusal>
    ensures { result ≡ (if row_unbuilt rows w l then Err NotBuilt
        else if row_over limits rows o then Err OutOfRange
        else Ok tt) }
{
    if row_unbuilt(rows, w, l) {
        return Err(Refusal::NotBuilt);
    }
    if o || ROWS <= rows as usize {
        return Err(Refusal::OutOfRange);
    }
    Ok(())
}

// The lowest condition that holds at a key's line.
pub(crate) fn judge_key(h: Head, k: Key, v: Option<Value>) -> Result<(), Refusal>
    ensures { result ≡ lowest (key_conditions limits (keys_in h) h.rows k v) }
{
    if seen(h, k) {
        return Err(Refusal::KeyAgain);
    }
    let Some(value) = v else {
        return Err(Refusal::UnfitValue);
    };
    match value {
        Value::Unbuilt => Err(Refusal::NotBuilt),
        Value::Row(w, l, o) => judge_row(h.rows, w, l, o),
        _ => Ok(()),
    }
}

// A value that is a row.
#[tactic(auto, unfolding(crate::specs::Header::is_row))]
fn is_row(v: Option<Value>) -> bool
    ensures { result ≡ is_row v }
{
    matches!(v, Some(Value::Row(..)))
}

// The header with a value in it.
// `ProperHead` is no invariant of `Head`: it would be proved at each of the values below.
fn keep_value(h: Head, v: Option<Value>) -> Head
    requires { (h.rows ≤ limits.rows) × InRange v × ProperHead h }
    ensures { result ≡ head_of (keep_value (keys_in h) v) (if is_row v then h.rows + 1 else h.rows) }
{
    let Some(value) = v else {
        return h;
    };
    match value {
        Value::Any | Value::Unbuilt => h,
        Value::Name => Head { name: true, ..h },
        Value::Min(d) => Head { min: d, ..h },
        Value::Max(d) => Head { max: d, ..h },
        Value::Class(c) => Head {
            class: c.number(),
            ..h
        },
        Value::Sub(code) => Head { sub: code, ..h },
        Value::Sub1(b) => Head { sub1: 1 + b, ..h },
        Value::Row(..) => Head {
            rows: h.rows + 1,
            ..h
        },
    }
}

// The header with a value in it; a row is also written into the states, after the rows that came before.
pub(crate) fn take_value(
    h: Head,
    v: Option<Value>,
    line: &[u8],
    q: usize,
    e: usize,
    states: &mut [u16],
) -> Head
    requires { (q ≤ e) × (e ≤ length line.now)
        × (needed limits ≤ length states.old)
        × (is_row v ≡ true → h.rows < limits.rows) × (h.rows ≤ limits.rows)
        × InRange v × ProperHead h }
    ensures head { result ≡ head_of (keep_value (keys_in h) v) (if is_row v then h.rows + 1 else h.rows) }
    ensures states { let row = map cell_number (row_of (entries_of (take (e - q) (drop q line.now)))) in
        states.new ≡ (if is_row v then put_row h.rows row states.old else states.old) }
{
    if is_row(v) {
        put_row(line, q, e, states, h.rows as usize);
    }
    keep_value(h, v)
}
