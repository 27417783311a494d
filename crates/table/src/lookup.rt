// Look-up in a table's lent memory, from either side: the line that reads a code, and the line that says what becomes
// of a code point.
ghost use Rattle.std.specs.Prelude.{◌≡◌};
ghost use Rattle.table.specs.Stored.{mk};
ghost use Rattle.table.specs.Lookup.{use_in, mapping_in, CodeFound, PointFound};

use crate::lent::Lines;
use crate::states::Code;
use crate::store::{EXTRA, FAR, RANK};
use crate::valid::Record;

// How a line is used, by its indicator: `|0`, `|1`, `|2`, `|3`.
#[derive(Clone, Copy, Debug, PartialEq, Eq)]
pub enum Use {
    RoundTrip,
    Fallback,
    Substituted,
    ReverseFallback,
}

// A mapping line as it was found: its code point, its code, and how it is used.
#[derive(Clone, Copy)]
pub struct Mapping {
    pub point: u32,
    pub code: Code,
    pub used: Use,
}

impl Use {
    // How a stored line is used, by its rank.
    fn of_rank(rank: u32) -> Use
        ensures { result ≡ use_in rank }
    {
        match rank {
            0 => Use::RoundTrip,
            1 => Use::ReverseFallback,
            2 => Use::Fallback,
            _ => Use::Substituted,
        }
    }
}

impl Mapping {
    // A stored line by its two numbers.
    fn of_stored(bits: u32, info: u32) -> Mapping
        ensures { result ≡ mapping_in (mk bits info) }
    {
        Mapping {
            point: info % RANK,
            code: Code {
                bits,
                len: info / EXTRA + 1,
            },
            used: Use::of_rank(info / RANK % 8),
        }
    }
}

// The line that reads a code. It is not read again: the search hands on its rank and code point.
pub fn find_code(rec: Record, lines: Lines<'_>, code: Code) -> Option<Mapping>
    ensures { CodeFound rec lines.entry.codes.now lines.entry.infos.now code result }
{
    let spot = lines.code_place(rec.mappings, code);
    if spot.gap < FAR {
        return Some(Mapping::of_stored(code.bits, (code.len - 1) * EXTRA + spot.gap as u32));
    }
    None
}

// The same, but it looks at one place before it searches. On valid memory only one line reads the code, so the answer
// is the same whatever the place, and is found sooner if the place is right.
// Not one function: test, key and search all differ.
pub fn find_code_near(rec: Record, lines: Lines<'_>, code: Code, at: usize) -> Option<Mapping>
    ensures { CodeFound rec lines.entry.codes.now lines.entry.infos.now code result }
{
    if lines.reads_at(rec.mappings, code, at) {
        return Some(Mapping::of_stored(lines.codes[at], lines.infos[at]));
    }
    find_code(rec, lines, code)
}

// The line that says what becomes of a code point: the first in the second order that has it, unless that is a `|3`
// line.
// No Option from `point_place`: the order may hold any number, so the place is tested here anyway.
pub fn find_point(rec: Record, lines: Lines<'_>, point: u32) -> Option<Mapping>
    ensures { let m = lines.entry in
        PointFound rec m.codes.now m.infos.now m.order.now point result }
{
    let at = lines.point_place(rec.mappings, point);
    if (rec.mappings as usize) <= at {
        return None;
    }
    if lines.infos[at] / RANK % 8 == 1 {
        return None;
    }
    Some(Mapping::of_stored(lines.codes[at], lines.infos[at]))
}

// The same, with one look at a place of the first order before the search.
pub fn find_point_near(rec: Record, lines: Lines<'_>, point: u32, at: usize) -> Option<Mapping>
    ensures { let m = lines.entry in
        PointFound rec m.codes.now m.infos.now m.order.now point result }
{
    if lines.writes_at(rec.mappings, point, at) {
        return Some(Mapping::of_stored(lines.codes[at], lines.infos[at]));
    }
    find_point(rec, lines, point)
}
