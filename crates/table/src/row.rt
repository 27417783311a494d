// State rows, the values of icu:state: reading one entry and the entries of a row, what 14 and 15 refuse in them,
// and writing a row into the lent states.
ghost use Rattle.std.specs.Prelude.{◌≡◌, map, ◌-◌, ◌≤◌, ◌<◌, length, take, drop, replicate, Some};
ghost use Rattle.table.specs.Limits.{limits, needed};
ghost use Rattle.table.specs.Cells.{ends, cell_number};
ghost use Rattle.table.specs.Text.{number_at, skip_at};
ghost use Rattle.table.specs.Row.{to_at, next_at, letter_at, end_at, entry_at, entries_at, unbuilt_entry, over_entry};
ghost use Rattle.table.specs.Row.{meaning, overwritten, open_at, entries_of, row_of};
ghost use Rattle.table.specs.loops.Coded.{sign_after, next_number, end_number, opener_number, numbered};
ghost use Rattle.table.specs.loops.Coded.{entry_of, entry_read, forms_at, put_row};
ghost use Rattle.lists.specs.Place.{fill_range};

use crate::text::{hex_digit, skip, word};

// What a code means that ends at an entry with a point: by no letter, or by `p`, `u`, `i` or `s`.
#[derive(Clone, Copy)]
pub enum EntryEnd {
    Plain,
    Any,
    Unassigned,
    Illegal,
    Shift,
}

// One entry of a state row: the bytes lo to hi, the next row if one is named, and how a code ends if a point says so.
#[derive(Clone, Copy)]
pub struct Entry {
    pub lo: u8,
    pub hi: u8,
    pub next: Option<u8>,
    pub end: Option<EntryEnd>,
}

// The word that may open a row.
#[derive(Clone, Copy)]
pub enum OpeningWord {
    Initial,
    Surrogates,
}

// The entries of a row's text: whether 14 is given for one, whether 15 is.
#[derive(Clone, Copy)]
pub struct Forms {
    pub later: bool,
    pub over: bool,
}

// One or two hexadecimal digits.
// Text and place stay two arguments, as the definitions of the readers speak of both.
#[tactic(auto, unfolding(crate::specs::Text::number_at))]
fn number(s: &[u8], at: usize) -> Option<(u8, usize)>
    ensures { result ≡ number_at s.now at }
{
    let high = hex_digit(*s.get(at)?)?;
    let next = at + 1;
    if s.len() <= next {
        return Some((high as u8, next));
    }
    match hex_digit(s[next]) {
        Some(low) => Some(((high * 16 + low) as u8, at + 2)),
        None => Some((high as u8, next)),
    }
}

// The place after a sign, if it is the next token.
fn after(s: &[u8], q: usize, sign: u8) -> Option<usize>
    ensures { result ≡ sign_after s.now q sign }
{
    let p = skip(s, q);
    if p < s.len() && s[p] == sign {
        Some(p + 1)
    } else {
        None
    }
}

// `- number`, or the byte itself.
#[tactic(auto, unfolding(crate::specs::Row::to_at))]
fn to_part(s: &[u8], from: u8, q: usize) -> Option<(u8, usize)>
    ensures { result ≡ to_at s.now from q }
{
    match after(s, q, b'-') {
        Some(p) => number(s, skip(s, p)),
        None => Some((from, q)),
    }
}

// `: number`, or no next row.
#[tactic(auto, unfolding(crate::specs::Row::next_at))]
fn next_part(s: &[u8], q: usize) -> Option<(Option<u8>, usize)>
    ensures { numbered next_number result ≡ next_at s.now q }
{
    match after(s, q, b':') {
        Some(p) => {
            let (row, q) = number(s, skip(s, p))?;
            Some((Some(row), q))
        }
        None => Some((None, q)),
    }
}

// The letter after a point or none, with the place after it or after the point.
#[tactic(auto, unfolding(crate::specs::Row::letter_at))]
fn letter(s: &[u8], back: usize) -> (EntryEnd, usize)
    ensures { Some (end_number (Some result.0), result.1) ≡ letter_at s.now back (skip_at s.now back) }
{
    let at = skip(s, back);
    if s.len() <= at {
        return (EntryEnd::Plain, back);
    }
    match s[at] {
        b'p' => (EntryEnd::Any, at + 1),
        b'u' => (EntryEnd::Unassigned, at + 1),
        b'i' => (EntryEnd::Illegal, at + 1),
        b's' => (EntryEnd::Shift, at + 1),
        _ => (EntryEnd::Plain, back),
    }
}

// `.` and a letter or nothing, or no point.
#[tactic(auto, unfolding(crate::specs::Row::end_at))]
fn end_part(s: &[u8], q: usize) -> (Option<EntryEnd>, usize)
    ensures { Some (end_number result.0, result.1) ≡ end_at s.now q }
{
    match after(s, q, b'.') {
        Some(back) => {
            let (end, q) = letter(s, back);
            (Some(end), q)
        }
        None => (None, q),
    }
}

// One entry of a row, and where the next one begins if a comma follows.
#[tactic(auto, unfolding(crate::specs::Row::entry_at, crate::specs::Row::entry_sep))]
fn read_entry(s: &[u8], at: usize) -> Option<(Entry, Option<usize>)>
    ensures { entry_read result ≡ entry_at s.now at }
{
    let (lo, q) = number(s, skip(s, at))?;
    let (hi, q) = to_part(s, lo, q)?;
    let (next, q) = next_part(s, q)?;
    let (end, q) = end_part(s, q);
    // Not `after`: blanks before a comma would be skipped twice.
    let p = skip(s, q);
    let more = if s.len() <= p {
        None
    } else if s[p] == b',' {
        Some(p + 1)
    } else {
        return None;
    };
    Some((Entry { lo, hi, next, end }, more))
}

// 14 of an entry: letter `s`, or an end with a next row other than 0.
#[tactic(auto, unfolding(crate::specs::Row::unbuilt_entry))]
fn unbuilt_entry(e: Entry) -> bool
    ensures { result ≡ unbuilt_entry (entry_of e) }
{
    match (e.end, e.next) {
        (Some(EntryEnd::Shift), _) => true,
        (Some(_), Some(row)) => row != 0,
        _ => false,
    }
}

// 15 of an entry: a falling range, or a next row over 7f.
#[tactic(auto, unfolding(crate::specs::Row::over_entry))]
fn over_entry(e: Entry) -> bool
    ensures { result ≡ over_entry (entry_of e) }
{
    e.hi < e.lo || e.next.is_some_and(|row| 127 < row)
}

// The number that the states keep for each byte of an entry.
// No `From`: a cell's number is no other form of an entry.
#[tactic(auto, unfolding(crate::specs::Row::meaning))]
fn mean(e: Entry) -> u16
    ensures { result ≡ cell_number (meaning (entry_of e)) }
{
    match e.end {
        None => match e.next {
            None => 1,
            Some(row) => 16 + row as u16,
        },
        Some(EntryEnd::Plain) => 1,
        Some(EntryEnd::Any) => 2,
        Some(EntryEnd::Unassigned) => 3,
        Some(EntryEnd::Illegal | EntryEnd::Shift) => 0,
    }
}

// The entries from a place on, each as it is read; none where text of no such form stands, and nothing after.
#[derive(Drop)]
struct Entries<'a> {
    text: &'a [u8],
    at: Option<usize>,
}

impl<'a> Iterator for Entries<'a> {
    ghost use Rattle.table.specs.loops.Coded.{GivesEntry, entries_most};

    type Item = Option<Entry>;

    ghost next_gives = { GivesEntry };

    ghost remaining = { entries_most };

    // Inlined: handed back through one more call, each entry would be packed and unpacked once more.
    #[inline(always)]
    fn next(&mut self) -> Option<Option<Entry>> {
        let at = self.at?;
        match read_entry(self.text, at) {
            // Field by field: with each entry copied whole, a row of very many took up to 3 % longer.
            Some((Entry { lo, hi, next, end }, more)) => {
                self.at = more;
                Some(Some(Entry { lo, hi, next, end }))
            }
            None => {
                self.at = None;
                Some(None)
            }
        }
    }
}

// The entries from a place on, if all have the form: whether 14 is given for one, whether 15 is.
#[tactic(auto, unfolding(lists::specs::Tests::any_of))]
pub(crate) fn row_forms(s: &[u8], at: usize) -> Option<Forms>
    ensures { result ≡ forms_at s.now at }
{
    let mut forms = Forms {
        later: false,
        over: false,
    };
    for entry in (Entries {
        text: s,
        at: Some(at),
    }) {
        let e = entry?;
        forms.later |= unbuilt_entry(e);
        forms.over |= over_entry(e);
    }
    Some(forms)
}

// The word that may open a row, and where the entries begin.
#[tactic(auto, unfolding(crate::specs::Row::open_at, crate::specs::Row::comma_at))]
pub(crate) fn opener(s: &[u8], p: usize) -> Option<(Option<OpeningWord>, usize)>
    requires { p ≤ length s.now }
    ensures { numbered opener_number result ≡ open_at s.now p }
{
    if word(s, p, b"initial") {
        Some((Some(OpeningWord::Initial), after(s, p + 7, b',')?))
    } else if word(s, p, b"surrogates") {
        Some((Some(OpeningWord::Surrogates), after(s, p + 10, b',')?))
    } else {
        Some((None, p))
    }
}

// The number of the word that opens a row; 0 for none.
pub(crate) fn opener_number(word: Option<OpeningWord>) -> u32
    ensures { result ≡ opener_number word }
{
    match word {
        None => 0,
        Some(OpeningWord::Initial) => 1,
        Some(OpeningWord::Surrogates) => 2,
    }
}

// Writes v into the places `from` to `to`; a falling range has none.
fn fill_range(row: &mut [u16], from: usize, to: usize, v: u16)
    requires { to < length row.old }
    ensures { row.new ≡ fill_range from to v row.old }
{
    if from <= to {
        row[from..=to].fill(v);
    }
}

// Writes the entries from a place on into a row; a later entry overwrites an earlier one.
#[tactic(auto, unfolding(crate::specs::Row::overwritten))]
fn overwrite(s: &[u8], at: usize, row: &mut [u16])
    requires { 256 ≤ length row.old }
    ensures { let columns = entries_at s.now at in
        row.new ≡ overwritten (λ e. cell_number (meaning e)) columns row.old }
{
    for entry in (Entries {
        text: s,
        at: Some(at),
    }) {
        let Some(e) = entry else {
            return;
        };
        fill_range(row, e.lo as usize, e.hi as usize, mean(e));
    }
}

// Writes a row of 256 numbers from its text.
fn take_row(s: &[u8], row: &mut [u16])
    requires { length row.old ≡ 256 }
    ensures { row.new ≡ map cell_number (row_of (entries_of s.now)) }
{
    row.fill(0);
    let p = skip(s, 0);
    if s.len() <= p {
        return;
    }
    if let Some((_, q)) = opener(s, p) {
        overwrite(s, q, row);
    }
}

// Writes row r of the lent states from the text line[q..e].
pub(crate) fn put_row(line: &[u8], q: usize, e: usize, states: &mut [u16], r: usize)
    requires { (r < limits.rows) × (q ≤ e) × (e ≤ length line.now) × (needed limits ≤ length states.old) }
    ensures { let row = map cell_number (row_of (entries_of (take (e - q) (drop q line.now)))) in
        states.new ≡ put_row r row states.old }
{
    let a = r * 256;
    let b = a + 256;
    take_row(&line[q..e], &mut states[a..b]);
}

// Writes the row `0-ff` of an SBCS table without rows.
// The states are lent, of any length, so that they are enough is asked.
pub(crate) fn full_row(states: &mut [u16])
    requires { needed limits ≤ length states.old }
    ensures { states.new ≡ put_row 0 (replicate 256 (cell_number ends)) states.old }
{
    states[..256].fill(1);
}
