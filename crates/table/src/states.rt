// State rows in a lent slice of 16-bit numbers: the step of a byte, the cutting of an input into codes, and the test of
// all rows.
ghost use Rattle.std.specs.Prelude.{if◌then◌else◌, ◌≡◌, true, false, ℕ, ◌+◌, ◌-◌, ◌*◌};
ghost use Rattle.std.specs.Prelude.{◌<◌, ◌≤◌, ltb, length, get_or, take, drop, Some, None, fold};
ghost use Rattle.std.specs.Int.Bits.{bit_or};
ghost use Rattle.table.specs.Limits.{limits, needed};
ghost use Rattle.table.specs.States.{step_at, broken_length, cut_from, cut_of, end_kind};
ghost use Rattle.table.specs.Codes.{unpacked, bytes_of};
ghost use Rattle.table.specs.Rules.{t3};
ghost use Rattle.lists.specs.Tests.{all_of, zeros};
ghost use Rattle.table.specs.Valid.{state_ok, states_ok};
ghost use Rattle.table.specs.loops.LeadMarks.{lead_marks, marked, marked_within};
ghost use Rattle.lists.specs.Pick.{◌and◌};

// The cells of a row.
const ROW: usize = 256;

// The rows that a table can have.
pub(crate) const ROWS: usize = 16;

// The numbers that the states of a table need.
pub(crate) const NEEDED: usize = ROWS * ROW;

// A cell of LEADS + n leads on to row n.
const LEADS: u16 = 16;

// A mark for each row and each row that it may lead on to.
// Marks are arrays of fixed size: there is no heap.
const MARKS: usize = ROWS * ROWS;

// How a complete code ends.
#[derive(Clone, Copy)]
pub enum EndKind {
    // Assigned, up to U+FFFF.
    Assigned,
    // `p`: any code point.
    AnyPoint,
    // `u`: legal, but unassigned.
    Unassigned,
}

// The step of a byte in a row.
#[derive(Clone, Copy)]
pub enum Step {
    Illegal,
    Ends(EndKind),
    Leads(u16),
}

// Why a sequence is no complete code. Like `Cut` it is no Result: to be stopped is an answer as documents 01 and 02 ask
// for it (`cut_of`), and no failure.
#[derive(Clone, Copy)]
pub enum CutStop {
    // The input ends inside the sequence. Put more bytes after it and try again.
    CutShort,
    // No code begins like this. The length goes up to the byte that rules it out, and takes it in where that byte is
    // illegal as a first byte too: skip that many.
    Illegal(usize),
}

// The sequence at the front of an input: a complete code, with its length and how it ends, or none.
#[derive(Clone, Copy)]
pub enum Cut {
    Complete(usize, EndKind),
    Stopped(CutStop),
}

// 2^24: the unit of a code's first byte.
pub const TOP: u32 = 16777216;

// A byte string of at most four bytes: the first is the highest byte of `bits`, unused bits are zeros. As a position,
// no bytes means the beginning. (Any numbers may come, so it has no invariant: look-ups answer on all.)
#[derive(Clone, Copy, PartialEq, Eq)]
pub struct Code {
    pub bits: u32,
    pub len: u32,
}

// The cell of a row at a byte: 0 where the row does not exist.
// 0 and no Option: `step_at` (specs) reads 0 past the end, which is no code.
fn cell_number(states: &[u16], row: u16, b: u8) -> u16
    ensures { result ≡ get_or states.now (row * 256 + b) 0 }
{
    states
        .get(row as usize * ROW + b as usize)
        .copied()
        .unwrap_or(0)
}

// The step of a byte in a row.
pub fn step_at(states: &[u16], row: u16, b: u8) -> Step
    ensures { result ≡ step_at states.now row b }
{
    // In this order for speed: with the ends first, a walk of full rows takes some 3 % more instructions.
    // The numbers 4 to 15 are kept free.
    match cell_number(states, row, b) {
        0 => Step::Illegal,
        e if LEADS <= e => Step::Leads(e - LEADS),
        1 => Step::Ends(EndKind::Assigned),
        2 => Step::Ends(EndKind::AnyPoint),
        3 => Step::Ends(EndKind::Unassigned),
        4.. => Step::Illegal,
    }
}

// The length of an illegal sequence from the row `first` on, which byte b broke behind k others.
fn broken_length(states: &[u16], first: u16, b: u8, k: usize) -> usize
    requires { k ≤ 4 }
    ensures { result ≡ broken_length (step_at states.now first b) k }
{
    match step_at(states, first, b) {
        Step::Illegal => k + 1,
        Step::Ends(_) => k,
        Step::Leads(_) => k,
    }
}

// The rest of a sequence that began in the row `first`, and whose first `from` bytes led on to a row.
// Text and place stay two arguments, as `cut_from` speaks of both.
fn cut_on(states: &[u16], first: u16, row: u16, s: &[u8], from: usize) -> Cut
    requires { from ≤ 4 }
    ensures { let step = step_at states.now in
        result ≡ cut_from step first (4 - from) row from (drop from s.now) }
{
    let mut at_row = row;
    let mut at = from;
    // No `for`: the rest of the bytes may end before the four do, and the row changes with each.
    while at < 4 {
        if s.len() <= at {
            return Cut::Stopped(CutStop::CutShort);
        }
        match step_at(states, at_row, s[at]) {
            Step::Illegal => {
                return Cut::Stopped(CutStop::Illegal(broken_length(states, first, s[at], at)));
            }
            Step::Ends(kind) => {
                return Cut::Complete(at + 1, kind);
            }
            Step::Leads(n) => {
                at_row = n;
                at += 1;
            }
        }
    }
    Cut::Stopped(CutStop::Illegal(at))
}

// The sequence at the front of an input, from its initial row on; often its first byte decides.
pub fn cut_one(states: &[u16], row: u16, s: &[u8]) -> Cut
    ensures { result ≡ cut_of (step_at states.now) row s.now }
{
    if s.len() == 0 {
        return Cut::Stopped(CutStop::CutShort);
    }
    match step_at(states, row, s[0]) {
        Step::Illegal => Cut::Stopped(CutStop::Illegal(1)),
        Step::Ends(kind) => Cut::Complete(1, kind),
        Step::Leads(n) => cut_on(states, row, n, s, 1),
    }
}

// How a code's last byte, the highest of 32 bits, ends it from a row on.
pub(crate) fn last_kind(states: &[u16], row: u16, bits: u32) -> Option<EndKind>
    ensures { result ≡ end_kind (step_at states.now) row (unpacked 1 bits) }
{
    match step_at(states, row, (bits / TOP) as u8) {
        Step::Illegal => None,
        Step::Ends(kind) => Some(kind),
        Step::Leads(_) => None,
    }
}

// How a code ends from a row on, where it is a complete code.
pub fn end_kind(states: &[u16], row: u16, code: Code) -> Option<EndKind>
    ensures { result ≡ end_kind (step_at states.now) row (bytes_of code) }
{
    if code.len == 0 {
        return None;
    }
    let mut at_row = row;
    let mut bits = code.bits;
    // Each byte but the last has to lead on.
    for _ in 1..code.len {
        match step_at(states, at_row, (bits / TOP) as u8) {
            Step::Illegal => return None,
            Step::Ends(_) => return None,
            Step::Leads(n) => at_row = n,
        }
        bits = bits % TOP * 256;
    }
    last_kind(states, at_row, bits)
}

// Which row leads on to which, where the cells of the rows are of the form and keep T2. Each cell is read once.
// Count and length are asked in a clause each: states and rows are lent, of any size.
fn mark_rows(states: &[u16], rows: u32) -> Option<[bool; MARKS]>
    requires { (rows ≤ limits.rows) × (needed limits ≤ length states.now) }
    ensures { let ok = all_of (state_ok rows) (take (rows * 256) states.now) in
        result ≡ (if ok then Some (lead_marks rows (step_at states.now)) else None) }
{
    let mut marks = [false; MARKS];
    let count = rows as usize;
    for i in 0..count * ROW {
        let e = states[i];
        if e <= 3 {
            continue;
        }
        if e <= LEADS {
            return None;
        }
        let k = (e - LEADS) as usize;
        if count <= k {
            return None;
        }
        marks[i / ROW * ROWS + k] = true;
    }
    Some(marks)
}

// All bits that are set in some number. It reads them all, so that the compiler can vectorise it.
fn any_bits(s: &[u16]) -> u16
    ensures { result ≡ fold bit_or 0 s.now }
{
    s.iter().fold(0, |any, &e| any | e)
}

// Whether the needed numbers from a place on are zeros.
// Not one with `zeros_ok` in store.rt: that stops at the first that is no zero; this reads all, for speed.
fn zeros_from(states: &[u16], from: usize) -> bool
    requires { (from ≤ needed limits) × (needed limits ≤ length states.now) }
    ensures { result ≡ zeros (take (needed limits - from) (drop from states.now)) }
{
    any_bits(&states[from..NEEDED]) == 0
}

// For each row: whether `below` holds of every row that it leads on to. A row past the last leads nowhere.
fn level(marks: &[bool; MARKS], rows: u32, below: [bool; ROWS]) -> [bool; ROWS]
    requires { rows ≤ limits.rows }
    ensures { let holds = marked marks.now (λ j. get_or below j false) in
        (k : ℕ) → k < limits.rows → get_or result k false ≡ (if ltb k rows then holds k else true) }
{
    let mut out = [true; ROWS];
    for j in 0..rows as usize * ROWS {
        if marks[j] && !below[j % ROWS] {
            out[j / ROWS] = false;
        }
    }
    out
}

// Whether every way from row 0 leads on fewer than `max` times, by the marks.
fn marked_within(marks: &[bool; MARKS], rows: u32, max: u32) -> bool
    requires { rows ≤ limits.rows }
    ensures { result ≡ marked_within rows marks.now max 0 }
{
    let mut reach = [false; ROWS];
    for _ in 0..max {
        reach = level(marks, rows, reach);
    }
    reach[0]
}

// The states of the test behind number 60: the form, T2, and T3.
pub(crate) fn states_ok(states: &[u16], rows: u32, max: u32) -> bool
    requires { (rows ≤ limits.rows) × (max ≤ 4) }
    ensures { let step = step_at (take (needed limits) states.now) in
        result ≡ (states_ok limits rows states.now and t3 step max) }
{
    if states.len() < NEEDED {
        return false;
    }
    let Some(marks) = mark_rows(states, rows) else {
        return false;
    };
    zeros_from(states, rows as usize * ROW) && marked_within(&marks, rows, max)
}
