// The audit's findings as lines, a page at a time, and the closing line.
ghost use Rattle.std.specs.Prelude.{◌≡◌, ◌<◌, ◌≤◌, true, length, take};
ghost use Rattle.table.specs.Held.{memory_of};
ghost use Rattle.frames.specs.Lines.{closing_line, put_into, put_count};
ghost use Rattle.audit.specs.Audit.{ending_by};
ghost use Rattle.frames.specs.Pages.{finding_lines, page_space, page_in, more_after, listed_of, codes_left};
ghost use Rattle.frames.specs.loops.Inner.{entry_lines};

use crate::lines;
use audit::{AuditRefusal, Audited};
use table::lent::Lent;
use table::states::Code;

// How far the audit's list has come: the position, codes looked at, findings listed.
#[derive(Clone, Copy)]
pub struct ListedSoFar {
    pub position: Code,
    pub looked: u64,
    pub listed: u64,
}

// One page of the list: why the audit's call is refused, if it is, how far the list has come, bytes put, and whether
// there is more.
#[derive(Clone, Copy)]
pub struct Listed {
    pub refused: Option<AuditRefusal>,
    pub reached: ListedSoFar,
    pub put: usize,
    pub more: bool,
}

// How many findings a page asks for, where `out` has `room` bytes: 11 bytes are enough for each.
fn page_space(room: usize) -> usize
    ensures space { result ≡ page_space room }
    ensures few { result ≤ 1024 }
{
    (room / 11).min(1024)
}

// Whether the list goes on after a page.
fn is_more(refused: Option<AuditRefusal>, finished: bool) -> bool
    ensures { result ≡ more_after (ending_by refused) finished }
{
    refused.is_none() && !finished
}

// Puts the lines of entries, for which there is room, to the front of `out`.
fn put_findings(entries: &[u64], out: &mut [u8]) -> usize
    requires { length (entry_lines entries.now) ≤ length out.old }
    ensures count { result ≡ length (entry_lines entries.now) }
    ensures written { out.new ≡ put_into out.old 0 (entry_lines entries.now) }
{
    let mut put = 0;
    for &number in entries {
        let entry = audit::entry_in(number);
        let Some(next) = lines::put_finding(entry.code.bits, entry.code.len, entry.cause, out, put)
        else {
            break;
        };
        put = next;
    }
    put
}

// One page of the list, fallback off: the audit from the position on, the findings' lines at the front of `out`.
// A page of fixed size: there is no heap.
pub fn list_codes(lent: Lent<'_>, done: ListedSoFar, out: &mut [u8]) -> Listed
    ensures page { let a = page_in lent.entry.rec (memory_of lent.entry) done.position (length out.old) in
        (result ≡ listed_of done a)
        × (out.new ≡ put_into out.old 0 (finding_lines a.page.entries)) }
    ensures fewer_left { let left = codes_left lent.entry.rec (memory_of lent.entry) in
        result.more ≡ true → 11 ≤ length out.old → left result.reached.position < left done.position }
    ensures put_in_bounds { (result.put ≤ length out.new) × (result.put ≡ length (take result.put out.new)) }
{
    let mut entries = [0u64; 1024];
    let space = page_space(out.len());
    let audited = audit::audit(lent, false, done.position, u64::MAX, &mut entries[..space]);
    let page = audited.unwrap_or(Audited {
        written: 0,
        position: done.position,
        finished: false,
        count: 0,
    });
    let refused = audited.err();
    let put = put_findings(&entries[..page.written], out);
    Listed {
        refused,
        reached: ListedSoFar {
            position: page.position,
            looked: done.looked.wrapping_add(page.count),
            listed: done.listed.wrapping_add(page.written as u64),
        },
        put,
        more: is_more(refused, page.finished),
    }
}

// Puts the closing line to the front of `out`; answers how many bytes.
pub fn report_closing(done: ListedSoFar, out: &mut [u8]) -> usize
    ensures report { let line = closing_line done.looked done.listed in
        (result ≡ put_count out.old line)
        × (out.new ≡ put_into out.old 0 line) }
    ensures put_in_bounds { (result ≤ length out.new) × (result ≡ length (take result out.new)) }
{
    let put = lines::put_closing(done.looked, done.listed, out, 0);
    lines::count_put(put)
}
