// The test behind number 60: record and memory keep the rules and the form.
ghost use Rattle.std.specs.Prelude.{◌≡◌, true, [], ℕ, ◌+◌, ◌-◌, ◌≤◌, ◌<◌, length, take, drop, leb, eqb};
ghost use Rattle.lists.specs.Order.{rises};
ghost use Rattle.table.specs.Limits.{limits};
ghost use Rattle.table.specs.States.{step_at, end_kind};
ghost use Rattle.table.specs.Codes.{bytes_of};
ghost use Rattle.table.specs.Rules.{t4_sub, t4_sub1, t5_kind, t6, t7, t8, t10};
ghost use Rattle.lists.specs.Tests.{all_of, zeros};
ghost use Rattle.table.specs.Stored.{mk, line_in, padded, is_rank, stored_ok, order_key_in, write_next, read_next};
ghost use Rattle.table.specs.Stored.{rank_in};
ghost use Rattle.table.specs.Held.{memory_of};
ghost use Rattle.table.specs.Memory.{stored_list, sub1_in, lines_in};
ghost use Rattle.table.specs.loops.Backed.{backed_by, first_backed, backed, line_next};
ghost use Rattle.table.specs.loops.Common.{CommonCode};
ghost use Rattle.table.specs.Valid.{ordered, record_ok, line_ok, store_ok, valid};
ghost use Rattle.lists.specs.Pick.{◌and◌};

use crate::lent::{Lent, Lines};
use crate::states::{
    Code, EndKind, NEEDED, ROWS, Step, TOP, end_kind, last_kind, states_ok, step_at,
};
use crate::store::{EXTRA, RANK, order_key, point_less, stored_less, zeros_ok};

// The mappings that a table can have, and the numbers that each mapping slice needs.
pub(crate) const MAPPINGS: usize = 2048;

// The record that an accepted text gives beside the memory. `subchar1` is 0 if the table has none, else 1 + the byte.
// `subchar1` is no Option: a record may hold any numbers, and the test behind 60 answers on all.
#[derive(Clone, Copy)]
pub struct Record {
    pub rows: u32,
    pub mappings: u32,
    pub min: u32,
    pub max: u32,
    pub subchar: Code,
    pub subchar1: u32,
}

// The test of neighbours in the first order: they rise, and do not both read the same bytes.
// A line's two numbers stay two arguments, and a rank a number, as in store.rt.
fn read_next(c: u32, i: u32, d: u32, j: u32) -> bool
    ensures { result ≡ read_next (mk c i) (mk d j) }
{
    if c < d {
        return true;
    }
    if !stored_less(c, i, d, j) {
        return false;
    }
    i / EXTRA != j / EXTRA || 1 < i / RANK % 8 || 1 < j / RANK % 8
}

// Whether the second number of a stored mapping is that of a line that is written and not read (`|1`).
fn only_writes(info: u32) -> bool
    ensures { result ≡ eqb (rank_in info) 2 }
{
    info / RANK % 8 == 2
}

// T10 of neighbours in the first order: if the second is only written, both have one code.
#[tactic(auto, unfolding(crate::specs::loops::Backed::backed_by))]
fn backed_by(c: u32, i: u32, d: u32, j: u32) -> bool
    ensures { result ≡ backed_by (mk c i) (mk d j) }
{
    !only_writes(j) || c == d && i / EXTRA == j / EXTRA
}

// All that neighbours in the first order are tested for.
fn line_next(c: u32, i: u32, d: u32, j: u32) -> bool
    ensures { result ≡ line_next (mk c i) (mk d j) }
{
    backed_by(c, i, d, j) && read_next(c, i, d, j)
}

// T10 of stored mappings that rise: each that is only written stands behind one of its own code.
// The slices stay apart: the loader lends parts of slices that it writes.
pub(crate) fn all_backed(codes: &[u32], infos: &[u32]) -> bool
    requires { length codes.now ≡ length infos.now }
    ensures { result ≡ backed (stored_list codes.now infos.now) }
{
    if codes.len() == 0 {
        return true;
    }
    let mut c = codes[0];
    let mut i = infos[0];
    if only_writes(i) {
        return false;
    }
    for k in 1..codes.len() {
        let d = codes[k];
        let j = infos[k];
        if !backed_by(c, i, d, j) {
            return false;
        }
        c = d;
        i = j;
    }
    true
}

// The test of neighbours in the second order: they rise, and do not both write the same code point.
fn write_next(c: u32, i: u32, d: u32, j: u32) -> bool
    ensures { result ≡ write_next (mk c i) (mk d j) }
{
    if !point_less(c, i, d, j) {
        return false;
    }
    i % RANK != j % RANK || i / RANK % 8 == 1 || j / RANK % 8 == 1
}

// The same for a caller that has both keys of the second order; mostly they decide.
fn keys_next(key: u32, next: u32, c: u32, i: u32, d: u32, j: u32) -> bool
    requires { (key ≡ order_key_in i) × (next ≡ order_key_in j) }
    ensures { result ≡ write_next (mk c i) (mk d j) }
{
    key < next || write_next(c, i, d, j)
}

// A code has 1 to 4 bytes, and its unused bits are zero.
// Two numbers and no `Code`: callers ask it of any two.
#[tactic(auto, unfolding(crate::specs::Stored::padded))]
pub fn is_padded(len: u32, bits: u32) -> bool
    ensures { result ≡ padded len bits }
{
    match len {
        1 => bits % TOP == 0,
        2 => bits % 65536 == 0,
        3 => bits % 256 == 0,
        _ => len == 4,
    }
}

// Whether a number is the rank of a line: 0, 1, 2 or 4.
fn is_rank(rank: u32) -> bool
    ensures { result ≡ is_rank rank }
{
    matches!(rank, 0..=2 | 4)
}

// Whether the two numbers of a stored mapping encode a line.
#[tactic(auto, unfolding(crate::specs::Stored::stored_ok))]
fn stored_ok(bits: u32, info: u32) -> bool
    ensures { result ≡ stored_ok (mk bits info) }
{
    is_rank(info / RANK % 8) && is_padded(info / EXTRA + 1, bits)
}

// T5 of a line that is not `|2`.
// Bounds and states come from a record or from a header, the code from a line.
pub(crate) fn keeps_t5(steps: &[u16], min: u32, max: u32, point: u32, code: Code) -> bool
    ensures { let kind = end_kind (step_at steps.now) 0 (bytes_of code) in
        result ≡ (leb min code.len and leb code.len max and t5_kind point kind) }
{
    if code.len < min || max < code.len {
        return false;
    }
    match end_kind(steps, 0, code) {
        Some(EndKind::Assigned) => point <= 0xffff,
        Some(EndKind::AnyPoint) => true,
        _ => false,
    }
}

// T6: a code point that is no surrogate.
// Not one with `is_scalar` of utf: neither crate knows the other, and lists, below both, has no code.
pub(crate) fn keeps_t6(point: u32) -> bool
    ensures { result ≡ t6 (record { point = point; code = []; indicator = 0 }) }
{
    matches!(point, 0..=0xd7ff | 0xe000..=0x10ffff)
}

// T7 and T8 of a stored line that is of the form.
fn keeps_t7_t8(sub1: u32, bits: u32, info: u32) -> bool
    requires { stored_ok (mk bits info) ≡ true }
    ensures { let line = line_in (mk bits info) in result ≡ (t7 line and t8 (sub1_in sub1) line) }
{
    let rank = info / RANK % 8;
    let extra = info / EXTRA;
    match rank {
        1 => true,
        4 if sub1 == 0 => false,
        4 => extra == 0 && bits / TOP == sub1 - 1,
        _ => extra == 0 || bits / TOP != 0,
    }
}

// Whether a code that ends so may stand for every code point up to U+FFFF.
fn is_assigned(kind: Option<EndKind>) -> bool
    ensures { (point : ℕ) → point ≤ 0xffff → result ≡ t5_kind point kind }
{
    matches!(kind, Some(EndKind::Assigned | EndKind::AnyPoint))
}

// The rules of a common line for a code of one byte.
// Each takes only what it tests: a struct of the four would be built for every line.
fn one_byte_ok(steps: &[u16], min: u32, max: u32, bits: u32) -> bool
    ensures { result ≡ true → CommonCode (step_at steps.now) min max 1 bits }
{
    if 1 < min || max < 1 || bits % TOP != 0 {
        return false;
    }
    is_assigned(last_kind(steps, 0, bits))
}

// The rules of a common line for a code of two bytes.
fn two_bytes_ok(steps: &[u16], min: u32, max: u32, bits: u32) -> bool
    ensures { result ≡ true → CommonCode (step_at steps.now) min max 2 bits }
{
    if 2 < min || max < 2 || bits % 65536 != 0 || bits / TOP == 0 {
        return false;
    }
    match step_at(steps, 0, (bits / TOP) as u8) {
        Step::Leads(row) => is_assigned(last_kind(steps, row, bits % TOP * 256)),
        _ => false,
    }
}

// A first test for the common line, which has one or two bytes, is no `|2` line and stands for a code point up to
// U+FFFF: a line that passes keeps the rules; a line that fails may keep them too.
fn common_ok(steps: &[u16], rec: Record, bits: u32, info: u32) -> bool
    ensures { result ≡ true → line_ok (step_at steps.now) rec (mk bits info) ≡ true }
{
    let point = info % RANK;
    if 0xffff < point || !keeps_t6(point) || 2 < info / RANK % 8 {
        return false;
    }
    match info / EXTRA {
        0 => one_byte_ok(steps, rec.min, rec.max, bits),
        1 => two_bytes_ok(steps, rec.min, rec.max, bits),
        _ => false,
    }
}

// A stored line, rule by rule: of the form, and T5 to T8.
fn rules_ok(steps: &[u16], rec: Record, bits: u32, info: u32) -> bool
    ensures { result ≡ line_ok (step_at steps.now) rec (mk bits info) }
{
    if !stored_ok(bits, info) {
        return false;
    }
    if !keeps_t6(info % RANK) {
        return false;
    }
    if !keeps_t7_t8(rec.subchar1, bits, info) {
        return false;
    }
    if info / RANK % 8 == 4 {
        return true;
    }
    let code = Code {
        bits,
        len: info / EXTRA + 1,
    };
    keeps_t5(steps, rec.min, rec.max, info % RANK, code)
}

// A stored line: of the form, and T5 to T8.
fn line_ok(steps: &[u16], rec: Record, bits: u32, info: u32) -> bool
    ensures { result ≡ line_ok (step_at steps.now) rec (mk bits info) }
{
    common_ok(steps, rec, bits, info) || rules_ok(steps, rec, bits, info)
}

// One pass over the stored mappings: each is a line that keeps T5 to T8, they rise, no two neighbours read the same
// bytes, and one that is only written stands behind one of its own code.
// The slices stay apart: `mappings_ok`, which has `Lines`, lends the parts in use.
fn lines_ok(steps: &[u16], rec: Record, codes: &[u32], infos: &[u32]) -> bool
    requires { length codes.now ≡ length infos.now }
    ensures { let all = stored_list codes.now infos.now in
        result ≡ (first_backed all and rises line_next all and all_of (line_ok (step_at steps.now) rec) all) }
{
    if codes.len() == 0 {
        return true;
    }
    let mut c = codes[0];
    let mut i = infos[0];
    if only_writes(i) {
        return false;
    }
    if !rules_ok(steps, rec, c, i) {
        return false;
    }
    // No pairs of `windows(2)`: the line before stays at hand, so that each line is read once (speed).
    for k in 1..codes.len() {
        let d = codes[k];
        let j = infos[k];
        if !line_next(c, i, d, j) {
            return false;
        }
        if !line_ok(steps, rec, d, j) {
            return false;
        }
        c = d;
        i = j;
    }
    true
}

// The indices are in range and rise in the second order, and no two neighbours write the same code point.
fn order_ok(codes: &[u32], infos: &[u32], order: &[u32]) -> bool
    requires { length codes.now ≡ length infos.now }
    ensures { result ≡ ordered codes.now infos.now order.now }
{
    if order.len() == 0 {
        return true;
    }
    let mut p = order[0] as usize;
    if codes.len() <= p {
        return false;
    }
    let mut key = order_key(infos[p]);
    // No pairs of `windows(2)`: the key before stays at hand (speed).
    for k in 1..order.len() {
        let q = order[k] as usize;
        if codes.len() <= q {
            return false;
        }
        let next = order_key(infos[q]);
        if !keys_next(key, next, codes[p], infos[p], codes[q], infos[q]) {
            return false;
        }
        p = q;
        key = next;
    }
    true
}

impl<'a> Lines<'a> {
    // Whether each slice has a place for every mapping that a table can have.
    fn are_long(self) -> bool
        ensures answer { result ≡ (leb limits.mappings (length self.entry.codes.now)
            and leb limits.mappings (length self.entry.infos.now)
            and leb limits.mappings (length self.entry.order.now)) }
        ensures codes { result ≡ true → limits.mappings ≤ length self.entry.codes.now }
        ensures infos { result ≡ true → limits.mappings ≤ length self.entry.infos.now }
        ensures order { result ≡ true → limits.mappings ≤ length self.entry.order.now }
    {
        MAPPINGS <= self.codes.len() && MAPPINGS <= self.infos.len() && MAPPINGS <= self.order.len()
    }

    // Zeros after the last mapping.
    fn are_zeros_from(self, n: usize) -> bool
        requires count { n ≤ limits.mappings }
        requires codes { limits.mappings ≤ length self.codes.now }
        requires infos { limits.mappings ≤ length self.infos.now }
        requires order { limits.mappings ≤ length self.order.now }
        ensures { let left = limits.mappings - n in
            result ≡ (zeros (take left (drop n self.entry.codes.now))
            and zeros (take left (drop n self.entry.infos.now))
            and zeros (take left (drop n self.entry.order.now))) }
    {
        zeros_ok(&self.codes[n..MAPPINGS])
            && zeros_ok(&self.infos[n..MAPPINGS])
            && zeros_ok(&self.order[n..MAPPINGS])
    }
}

// The mapping slices: long enough, every mapping and the order right, zeros after the last mapping.
fn mappings_ok(steps: &[u16], rec: Record, lines: Lines<'_>) -> bool
    requires { rec.mappings ≤ limits.mappings }
    ensures { let n = rec.mappings in
        let m = lines.entry in
        let all = stored_list (take n m.codes.now) (take n m.infos.now) in
        result ≡ (store_ok limits.mappings n m.codes.now m.infos.now m.order.now
        and t10 (lines_in rec m.codes.now m.infos.now)
        and all_of (line_ok (step_at steps.now) rec) all) }
{
    if !lines.are_long() {
        return false;
    }
    let Lines {
        codes,
        infos,
        order,
    } = lines;
    let n = rec.mappings as usize;
    lines_ok(steps, rec, &codes[..n], &infos[..n])
        && order_ok(&codes[..n], &infos[..n], &order[..n])
        && lines.are_zeros_from(n)
}

// The record: T1, a subchar of 1 to 4 bytes, and for subchar1 none or a byte.
#[tactic(auto, unfolding(crate::specs::Valid::record_ok))]
fn record_ok(rec: Record) -> bool
    ensures answer { result ≡ record_ok limits rec }
    ensures rows { result ≡ true → rec.rows ≤ limits.rows }
    ensures mappings { result ≡ true → rec.mappings ≤ limits.mappings }
    ensures most_bytes { result ≡ true → rec.max ≤ 4 }
    ensures subchar1 { result ≡ true → rec.subchar1 ≤ 256 }
{
    let Record {
        rows,
        mappings,
        min,
        max,
        subchar,
        subchar1,
    } = rec;
    1 <= rows
        && rows as usize <= ROWS
        && mappings as usize <= MAPPINGS
        && 1 <= min
        && min <= max
        && max <= 4
        && is_padded(subchar.len, subchar.bits)
        && subchar1 <= 256
}

// T4: subchar is a complete code, and subchar1 too, if there is one.
// Not inlined: it runs once a test, and inlined it took registers from the test of the lines, which runs for each.
#[inline(never)]
pub(crate) fn keeps_t4(steps: &[u16], rec: Record) -> bool
    requires { rec.subchar1 ≤ 256 }
    ensures { let step = step_at steps.now in
        result ≡ (t4_sub step (bytes_of rec.subchar) and t4_sub1 step (sub1_in rec.subchar1)) }
{
    if end_kind(steps, 0, rec.subchar).is_none() {
        return false;
    }
    if rec.subchar1 == 0 {
        return true;
    }
    let one = Code {
        bits: (rec.subchar1 - 1) * TOP,
        len: 1,
    };
    end_kind(steps, 0, one).is_some()
}

// The test behind number 60.
pub fn memory_valid(lent: Lent<'_>) -> bool
    ensures { result ≡ valid limits lent.entry.rec (memory_of lent.entry) }
{
    let Lent { rec, states, lines } = lent;
    if !record_ok(rec) || !states_ok(states, rec.rows, rec.max) {
        return false;
    }
    let steps = &states[..NEEDED];
    keeps_t4(steps, rec) && mappings_ok(steps, rec, lines)
}
