// The complete codes of the state rows, one after the other in byte order.
ghost use Rattle.std.specs.Prelude.{◌≡◌, false, ◌<◌, ◌≤◌, get_or, drop};
ghost use Rattle.table.specs.States.{step_at};
ghost use Rattle.table.specs.Codes.{codes_on, bytes_of, first_code};
ghost use Rattle.lists.specs.Strings.{after};
ghost use Rattle.table.specs.loops.Marks.{ends_or_leads, row_productive, marks_of, is_marked, codes_marked, codes_led};
ghost use Rattle.table.specs.loops.Marks.{next_marked, put_first};
ghost use Rattle.table.specs.loops.Marks.{Starts};

use crate::states::{Code, ROWS, Step, TOP, step_at};

// The marks of the rows: one for each row and each number of bytes to come, from none to three. They are bytes and no
// bools, since `next_code` takes any bytes for marks.
// An array of fixed size: there is no heap.
pub(crate) const MARKS: usize = 64;

// The position of no bytes.
const BEGINNING: Code = Code { bits: 0, len: 0 };

impl Code {
    // The first byte, 0 where there is none.
    // 0 and no Option where there is none: a walk from the beginning starts at byte 0.
    fn first_byte(self) -> u8
        ensures { result ≡ get_or (bytes_of self) 0 0 }
    {
        if self.len == 0 {
            return 0;
        }
        (self.bits / TOP) as u8
    }

    // All bytes but the first.
    fn rest(self) -> Code
        ensures { bytes_of result ≡ drop 1 (bytes_of self) }
    {
        // No test for no bytes: there the bits say nothing.
        Code {
            bits: self.bits % TOP * 256,
            len: self.len.saturating_sub(1),
        }
    }

    // The code with one more byte in front.
    fn put_first(self, b: u8) -> Code
        requires { self.len < 4 }
        ensures { result ≡ put_first b self }
    {
        Code {
            bits: (b as u32) * TOP + self.bits / 256,
            len: self.len + 1,
        }
    }
}

// Whether a row is marked with `left` bytes to come.
// States and marks stay apart: `next_code` takes any of both. `Codes` holds them for callers.
fn is_marked(marks: &[u8], left: u32, row: u16) -> bool
    ensures { result ≡ is_marked marks.now left row }
{
    let i = (row as usize) * 4 + (left as usize);
    i < marks.len() && marks[i] != 0
}

// Whether a byte of a row ends a code, or leads on to a row that is marked with `left` bytes to come.
fn ends_or_leads(states: &[u16], marks: &[u8], left: u32, row: u16, b: u8) -> bool
    ensures { result ≡ ends_or_leads (is_marked marks.now left) (step_at states.now row b) }
{
    match step_at(states, row, b) {
        Step::Illegal => false,
        Step::Ends(_) => true,
        Step::Leads(n) => is_marked(marks, left, n),
    }
}

// Whether a code can still end from a row on, by the marks of the rows that it leads on to.
fn is_productive(states: &[u16], marks: &[u8], left: u32, row: u16) -> bool
    ensures { result ≡ row_productive (step_at states.now) (is_marked marks.now left) row }
{
    for b in 0..=u8::MAX {
        if ends_or_leads(states, marks, left, row, b) {
            return true;
        }
    }
    false
}

// Marks the rows from which a code can still end, for each number of bytes to come. The marks for one byte more are
// made from the marks for one byte less, so each cell is read at most three times.
pub fn mark_rows(states: &[u16]) -> [u8; MARKS]
    ensures { result ≡ marks_of (step_at states.now) }
{
    let mut marks = [0; MARKS];
    for i in ROWS..MARKS {
        let (row, left) = (i % ROWS, i / ROWS);
        let productive = is_productive(states, &marks, left as u32 - 1, row as u16);
        marks[row * 4 + left] = u8::from(productive);
    }
    marks
}

// The first code of a row after `pos` that starts with b; `pos` is the beginning or starts with b. `left` bytes may
// follow b.
#[cycle(next_in_next_on)]
fn next_on(states: &[u16], marks: &[u8], row: u16, b: u8, pos: Code, left: u32) -> Option<Code>
    requires { (left < 4) × Starts b (bytes_of pos) }
    ensures { let step = step_at states.now in
        let codes = codes_on (codes_led marks.now step left) b (step row b) in
        result ≡ first_code (after (bytes_of pos) codes) }
{
    match step_at(states, row, b) {
        Step::Illegal => None,
        Step::Ends(_) => {
            if pos.len == 0 {
                return Some(BEGINNING.put_first(b));
            }
            None
        }
        Step::Leads(n) => {
            if !is_marked(marks, left, n) {
                return None;
            }
            let code = next_in(states, marks, n, pos.rest(), left)?;
            Some(code.put_first(b))
        }
    }
}

// The first code of at most `left` bytes of a row after a position, by recursion through the rows.
#[cycle(next_in_next_on)]
fn next_in(states: &[u16], marks: &[u8], row: u16, pos: Code, left: u32) -> Option<Code>
    requires { left ≤ 4 }
    ensures { let codes = codes_marked marks.now (step_at states.now) left row in
        result ≡ first_code (after (bytes_of pos) codes) }
{
    if left == 0 {
        return None;
    }
    let mut at = pos;
    for b in pos.first_byte()..=u8::MAX {
        if let Some(code) = next_on(states, marks, row, b, at, left - 1) {
            return Some(code);
        }
        at = BEGINNING;
    }
    None
}

// The first complete code after a position, from a row on, through marked rows only. The position of no bytes is the
// beginning. With the marks of `mark_rows` on valid memory no code is left out, and rows that never end a code are
// not walked.
pub fn next_code(states: &[u16], marks: &[u8], row: u16, pos: Code) -> Option<Code>
    ensures { result ≡ next_marked marks.now (step_at states.now) row (bytes_of pos) }
{
    next_in(states, marks, row, pos, 4)
}
