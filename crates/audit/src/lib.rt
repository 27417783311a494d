// The audit of codes: which complete codes of a table do not round-trip, a page at a time.
#![tactic(auto)]

ghost use Rattle.std.specs.Prelude.{if◌then◌else◌, ◌≡◌, true, eqb, length};
ghost use Rattle.lists.specs.Paging.{page_from};
ghost use Rattle.lists.specs.Options.{is_none};
ghost use Rattle.table.specs.Limits.{limits};
ghost use Rattle.table.specs.States.{end_kind};
ghost use Rattle.table.specs.Codes.{code_of, bytes_of};
ghost use Rattle.lists.specs.Strings.{same};
ghost use Rattle.table.specs.Stored.{padded};
ghost use Rattle.table.specs.Meaning.{steps_of};
ghost use Rattle.table.specs.Held.{memory_of};
ghost use Rattle.audit.specs.Audit.{is_unassigned, number_of, cause_number, cause_of, next_bytes, pageable_codes};
ghost use Rattle.audit.specs.Audit.{ending_number, audit_number, ending_of, looked, page_handed, audited_of};
ghost use Rattle.audit.specs.Audit.{is_position, audit_on, audit_tested, entry_number, entry_in, space_after};
ghost use Rattle.audit.specs.loops.Inner.{looked_to};

use convert::{WrittenAs, read_as, write_as};
use table::lent::{Lent, Table};
use table::states::{Code, EndKind};

// Why an audit call is refused, by number: no code was looked at, and the space for entries is untouched.
#[derive(Clone, Copy)]
pub enum AuditRefusal {
    // The position is neither the beginning nor a complete code. Call with one that a call handed back.
    BadPosition = 40,
    // The record and the memory are no valid table. Load the table again.
    BadTable = 60,
}

impl AuditRefusal {
    ghost use Rattle.audit.specs.Audit.{ending_number, ending_refused};

    // The number of a refusal.
    pub fn number(self) -> u32
        ensures { result ≡ ending_number (ending_refused self) }
    {
        self as u32
    }
}

// What a call that looked at codes hands back: how many entries it wrote, the position of the last code looked at (or
// the old position), whether no complete code follows it, and how many codes were looked at. Unless `finished`, call
// again from the position that came back.
#[derive(Clone, Copy)]
pub struct Audited {
    pub written: usize,
    pub position: Code,
    pub finished: bool,
    pub count: u64,
}

// Why a code does not round-trip, by number: the lowest that holds.
#[derive(Clone, Copy, Debug, PartialEq, Eq)]
pub enum Cause {
    // It is ended by `u`.
    Unassigned = 1,
    // No line reads it.
    NotRead = 2,
    // Its code point is written as another code.
    OtherCode = 3,
    // Its code point is not written.
    NotWritten = 4,
}

impl Cause {
    ghost use Rattle.audit.specs.Audit.{number_of};

    // The number of a cause.
    pub fn number(self) -> u8
        ensures { result ≡ number_of self }
    {
        self as u8
    }
}

// A code that does not round-trip, and the number of its cause: an entry that no call wrote may have any.
#[derive(Clone, Copy, PartialEq, Eq)]
pub struct AuditEntry {
    pub code: Code,
    pub cause: u32,
}

// The units of an entry's length and of its cause, above the 32 bits of its code.
const LENGTH: u64 = 4294967296;

const CAUSE: u64 = LENGTH * 256;

// Whether a position is the beginning, or a complete code with zeros in its unused bits.
fn is_position(table: &Table, pos: Code) -> bool
    ensures { result ≡ is_position (steps_of table.now) pos }
{
    if pos.len == 0 {
        return pos.bits == 0;
    }
    if !table::valid::is_padded(pos.len, pos.bits) {
        return false;
    }
    table.end_kind(pos).is_some()
}

// The lowest cause of a code that does not round-trip: ended by `u`, else the other.
fn lowest_cause(table: &Table, code: Code, other: Cause) -> Option<Cause>
    ensures { let kind = end_kind (steps_of table.now) 0 (bytes_of code) in
        cause_number result ≡ (if is_unassigned kind then 1 else number_of other) }
{
    if let Some(EndKind::Unassigned) = table.end_kind(code) {
        return Some(Cause::Unassigned);
    }
    Some(other)
}

// Why a complete code does not round-trip, if it does not: one look-up of the code, and one of its code point.
fn find_cause(table: &Table, fallback: bool, code: Code) -> Option<Cause>
    requires { padded code.len code.bits ≡ true }
    ensures { cause_number result ≡ cause_of table.now fallback (bytes_of code) }
{
    let Some(point) = read_as(table.find_code(code)) else {
        return lowest_cause(table, code, Cause::NotRead);
    };
    let found = table.find_point(point);
    match write_as(found, fallback) {
        WrittenAs::Code(back) if back == code => None,
        WrittenAs::Code(_) => lowest_cause(table, code, Cause::OtherCode),
        WrittenAs::Subchar1 => lowest_cause(table, code, Cause::NotWritten),
        WrittenAs::Nothing => lowest_cause(table, code, Cause::NotWritten),
    }
}

// An entry as a number of 64 bits.
// No `From`: code and cause are two values; and `entry_in` answers on any number.
fn entry_number(code: Code, cause: Cause) -> u64
    requires { padded code.len code.bits ≡ true }
    ensures { result ≡ entry_number (record { code = bytes_of code; cause = number_of cause }) }
{
    u64::from(code.bits) + LENGTH * u64::from(code.len) + CAUSE * u64::from(cause.number())
}

// An entry taken apart: the code, and the cause.
pub fn entry_in(number: u64) -> AuditEntry
    ensures { result ≡ entry_in number }
{
    AuditEntry {
        code: Code {
            bits: (number % LENGTH) as u32,
            len: (number / LENGTH % 256) as u32,
        },
        cause: (number / CAUSE) as u32,
    }
}

// A call that looked at codes, as it is handed back.
fn handed_back(written: usize, position: Code, finished: bool, count: u64) -> Audited
    ensures { result ≡ looked_to written position finished count }
{
    Audited {
        written,
        position,
        finished,
        count,
    }
}

// Looks at the codes after a position. It marks the rows that can still end a code once, so that each step costs the
// same.
fn walk(
    table: &Table,
    fallback: bool,
    position: Code,
    allowance: u64,
    entries: &mut [u64],
) -> Audited
    requires { position ≡ code_of (bytes_of position) }
    ensures { let room = length entries.old in
        let a = looked (page_from (pageable_codes table.now fallback) allowance room (bytes_of position)) in
        (result ≡ page_handed a.page)
        × (entries.new ≡ space_after a entries.old) }
{
    let codes = table.codes();
    let mut at = position;
    let mut written = 0;
    for count in 0..allowance {
        let Some(code) = codes.after(at) else {
            return handed_back(written, at, true, count);
        };
        let Some(cause) = find_cause(table, fallback, code) else {
            at = code;
            continue;
        };
        if written == entries.len() {
            return handed_back(written, at, false, count);
        }
        entries[written] = entry_number(code, cause);
        written += 1;
        at = code;
    }
    let last = codes.after(at).is_none();
    handed_back(written, at, last, allowance)
}

// One audit call on a table: 40 for a position that is none.
fn audit_table(
    table: &Table,
    fallback: bool,
    position: Code,
    allowance: u64,
    entries: &mut [u64],
) -> Result<Audited, AuditRefusal>
    ensures { let a = audit_on table.now fallback position allowance (length entries.old) in
        (result ≡ audited_of a)
        × (entries.new ≡ space_after a entries.old)
        × (ending_number (ending_of result) ≡ audit_number a) }
{
    if !is_position(table, position) {
        return Err(AuditRefusal::BadPosition);
    }
    Ok(walk(table, fallback, position, allowance, entries))
}

// One audit call. A position is the beginning (no bytes) or a complete code. Each code looked at takes one from the
// allowance, and each code that does not round-trip takes one place of the entries. Unused places keep their values.
pub fn audit(
    lent: Lent,
    fallback: bool,
    position: Code,
    allowance: u64,
    entries: &mut [u64],
) -> Result<Audited, AuditRefusal>
    ensures { let m = memory_of lent.entry in
        let a = audit_tested limits lent.entry.rec m fallback position allowance (length entries.old) in
        (result ≡ audited_of a)
        × (entries.new ≡ space_after a entries.old)
        × (ending_number (ending_of result) ≡ audit_number a) }
{
    let Ok(table) = Table::new(lent) else {
        return Err(AuditRefusal::BadTable);
    };
    audit_table(&table, fallback, position, allowance, entries)
}
