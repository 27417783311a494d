// The lines after CHARMAP.
ghost use Rattle.std.specs.Prelude.{◌≡◌, ◌≤◌, length};
ghost use Rattle.table.specs.Text.{join_at, unicode_at};
ghost use Rattle.table.specs.loops.Ranges.{NumAtMost, MappedFits};
ghost use Rattle.table.specs.Lookup.{indicator_of};
ghost use Rattle.table.specs.Mapping.{points_more, indicator_at, mapping_form, is_end, body_line_of, after_end_of};
ghost use Rattle.table.specs.loops.Coded.{numbered, flag_number, indicator_number, FormAs};

use crate::lookup::Use;
use crate::text::{bytes_run, ends, is_charmap, join, plus, skip, unicode, word};

// A mapping: its code point, the first four bytes of its code, the count of bytes, and how it is used.
// No `Code`: a line may have more than four bytes, and `len` counts them all.
#[derive(Clone, Copy)]
pub struct MappingLine {
    pub point: u32,
    pub bits: u32,
    pub len: usize,
    pub used: Use,
}

// A line of some form after CHARMAP. `Reserved`: well-formed, not built.
#[derive(Clone, Copy)]
pub enum Mapped {
    Reserved,
    Blank,
    End,
    Line(MappingLine),
}

// Whether code points follow the first, and the place after them.
// Text and place stay two arguments, as the definitions of the readers speak of both.
fn more_points(s: &[u8], at: usize) -> Option<(bool, usize)>
    ensures { let text = s.now in
        numbered flag_number result ≡ points_more (length text) text 0 at (unicode_at text (join_at text at)) }
{
    let mut end = at;
    let mut several = false;
    while let Some((_, next)) = unicode(s, join(s, end)) {
        several = true;
        end = next;
    }
    if plus(s, skip(s, end)) {
        return None;
    }
    Some((several, end))
}

// How a line is used by the indicator that ends it: `|0` to `|3`, or `|0` where none stands; none for `|4`.
#[tactic(auto, unfolding(crate::specs::Mapping::indicator_at))]
fn indicator(s: &[u8], at: usize) -> Option<(Option<Use>, usize)>
    ensures { numbered indicator_number result ≡ indicator_at s.now at }
{
    if ends(s, at) {
        return Some((Some(Use::RoundTrip), at));
    }
    let [b'|', digit, ..] = s.get(at..)? else {
        return None;
    };
    let used = match *digit {
        b'0' => Some(Use::RoundTrip),
        b'1' => Some(Use::Fallback),
        b'2' => Some(Use::Substituted),
        b'3' => Some(Use::ReverseFallback),
        b'4' => None,
        _ => return None,
    };
    if ends(s, skip(s, at + 2)) {
        Some((used, at + 2))
    } else {
        None
    }
}

// The indicator of a line that is used so.
pub(crate) fn indicator_of(used: Use) -> u32
    ensures { (result ≡ indicator_of used) × (result ≤ 3) }
{
    match used {
        Use::RoundTrip => 0,
        Use::Fallback => 1,
        Use::Substituted => 2,
        Use::ReverseFallback => 3,
    }
}

// A line whose first token stands at p: code point, bytes, indicator.
fn mapping_line(s: &[u8], p: usize) -> Option<Mapped>
    ensures { let text = s.now in
        FormAs result (mapping_form text (unicode_at text p)) × MappedFits result (length text) }
{
    let (point, q) = unicode(s, p)?;
    let (several, q) = more_points(s, q)?;
    let run = bytes_run(s, q)?;
    let (used, _) = indicator(s, skip(s, run.end))?;
    match used {
        Some(used) if !several && !run.joined => Some(Mapped::Line(MappingLine {
            point,
            bits: run.bits,
            len: run.len,
            used,
        })),
        _ => Some(Mapped::Reserved),
    }
}

// Whether `END CHARMAP` stands at p, alone.
#[tactic(auto, using(crate::proofs::MappingLaws::charmap_none), unfolding(crate::specs::Mapping::is_end))]
fn is_end(s: &[u8], p: usize) -> bool
    requires { p ≤ length s.now }
    ensures { result ≡ is_end s.now p }
{
    // The word first: where it does not stand, the blanks behind its place are not read.
    if !word(s, p, b"END") {
        return false;
    }
    let q = skip(s, p + 3);
    q != p + 3 && q < s.len() && is_charmap(s, q)
}

// A line between CHARMAP and END CHARMAP.
#[tactic(auto, using(crate::proofs::TextLaws::ends_inside), unfolding(crate::specs::Mapping::body_line_of))]
pub(crate) fn read_mapping(s: &[u8]) -> Option<Mapped>
    ensures { FormAs result (body_line_of s.now) × MappedFits result (length s.now) }
{
    let p = skip(s, 0);
    if ends(s, p) {
        return Some(Mapped::Blank);
    }
    if s[p] == b'<' {
        return mapping_line(s, p);
    }
    if is_charmap(s, p) {
        return Some(Mapped::Reserved);
    }
    if is_end(s, p) {
        return Some(Mapped::End);
    }
    None
}

// A line after END CHARMAP.
#[tactic(auto, using(crate::proofs::TextLaws::ends_inside), unfolding(crate::specs::Mapping::after_end_of))]
pub(crate) fn read_last(s: &[u8]) -> Option<Mapped>
    ensures { FormAs result (after_end_of s.now) }
{
    let p = skip(s, 0);
    if ends(s, p) {
        return Some(Mapped::Blank);
    }
    if is_charmap(s, p) {
        return Some(Mapped::Reserved);
    }
    None
}
