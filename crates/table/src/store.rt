// Mappings in lent slices of 32-bit numbers, sorted for search from either side: `codes` and `infos` hold the stored
// mappings rising by code, `order` their indices rising by code point.
ghost use Rattle.std.specs.Prelude.{if◌then◌else◌, ◌≡◌, true, List, ◌++◌, map, ℕ, ◌+◌};
ghost use Rattle.std.specs.Prelude.{◌-◌, ◌≤◌, ◌<◌, ltb, length, take, drop, get_or};
ghost use Rattle.lists.specs.Order.{All, Rising, insert};
ghost use Rattle.table.specs.Stored.{mk, bits_of, info_of, extra_in, order_key_in, less, point_less};
ghost use Rattle.table.specs.Limits.{limits};
ghost use Rattle.table.specs.Memory.{stored_list, stored_at, order_of};
ghost use Rattle.table.specs.loops.Search.{reads_code, writes_point, is_at, holds_at};
ghost use Rattle.table.specs.loops.Search.{FirstAt, place_in, point_place_in};
ghost use Rattle.table.specs.loops.Search.{picked, read_taken, write_taken, Ready, Kept};
ghost use Rattle.table.specs.loops.Search.{stored_key, far, GapAt, CodeGap, PointGap, GapTells, HasPoint};
ghost use Rattle.table.specs.loops.Search.{WindowOf, after_look, point_seen, Tells, Halved};
ghost use Rattle.lists.specs.Pick.{◌and◌};
ghost use Rattle.lists.specs.Place.{shift_in, bump};
ghost use Rattle.table.specs.Valid.{store_ok};
ghost use Rattle.lists.specs.Tests.{zeros};

use crate::lent::Lines;
use crate::states::Code;

// A stored mapping's second number is the code point, plus RANK (2^21) times the rank, plus EXTRA (2^24) times the
// count of bytes after the first.
// A rank stays a number: lent memory may hold any, and the test behind 60 answers on all.
pub const RANK: u32 = 2097152;

pub(crate) const EXTRA: u32 = RANK * 8;

// The key of the second order: the code point, then lines that write before `|3` lines.
#[tactic(auto, unfolding(crate::specs::Stored::order_key_in))]
pub(crate) fn order_key(info: u32) -> u32
    ensures { result ≡ order_key_in info }
{
    let key = info % RANK * 2;
    if info / RANK % 8 == 1 { key + 1 } else { key }
}

// The first order: by code, then by the second number.
// A line's two numbers stay two arguments: they lie in two slices, and no struct holds them.
pub(crate) fn stored_less(c: u32, i: u32, d: u32, j: u32) -> bool
    ensures { result ≡ less (mk c i) (mk d j) }
{
    c < d || c == d && i < j
}

// The second order: by code point, lines that write first, then by code and the second number.
pub(crate) fn point_less(c: u32, i: u32, d: u32, j: u32) -> bool
    ensures { result ≡ point_less (mk c i) (mk d j) }
{
    let p = order_key(i);
    let q = order_key(j);
    p < q || p == q && stored_less(c, i, d, j)
}

// Whether all are zeros.
pub(crate) fn zeros_ok(xs: &[u32]) -> bool
    ensures { result ≡ zeros xs.now }
{
    // No `all`: it takes 5 times as long (speed).
    for k in 0..xs.len() {
        if xs[k] != 0 {
            return false;
        }
    }
    true
}

// Before a code in the key of the first order: 2^32.
const CODE: u64 = 4294967296;

// The key of the first order: the code, then the second number.
fn stored_key(c: u32, i: u32) -> u64
    ensures { result ≡ stored_key (mk c i) }
{
    c as u64 * CODE + i as u64
}

// A search by halving keeps a window of places, one of which is sought: where it begins, and the gap, by how much the
// key of the line at its last place (in `first_of_point` the code point) is more than the one sought. At the end one
// place is left, and its gap; FAR if it is behind the last line. The first look leaves the largest power of two of
// places, each look after it half of them, so at most `looks_for n` of n lines are looked at; the line that the search
// ends at is among them.
// No Option for FAR: it is more than any gap that is looked for, so one comparison answers.
#[derive(Clone, Copy)]
pub(crate) struct Spot {
    pub at: usize,
    pub gap: u64,
}

// The gap behind the last line. A line that is looked for has less: a rank of 0 or 1 and a code point.
pub(crate) const FAR: u64 = RANK as u64 * 2;

// Behind the last of n lines.
fn behind(n: usize) -> Spot
    ensures { (result.at ≡ n) × (result.gap ≡ far) }
{
    Spot { at: n, gap: FAR }
}

// The largest power of two that is at most n.
fn window(n: usize) -> usize
    requires { 0 < n }
    ensures { WindowOf n result }
{
    1 << (63 - usize::leading_zeros(n))
}

// The window after a look at a line: it begins at `next` if the line's key is less than the one sought, else it ends at
// that line.
fn looked(key: u64, sought: u64, spot: Spot, next: usize) -> Spot
    ensures { result ≡ after_look key sought spot next }
{
    if key < sought {
        return Spot {
            at: next,
            gap: spot.gap,
        };
    }
    Spot {
        at: spot.at,
        gap: key - sought,
    }
}

// Where a search by halving among n lines ends. `key` tells the key of the line at a place.
fn halve<F: Fn(usize) -> u64>(n: usize, sought: u64, key: F) -> Spot
    requires { (k : ℕ) → k < n → F.pre key k }
    ensures { (keys : ℕ → ℕ) → Tells n (F.post key) keys → Halved keys sought n result }
{
    if n == 0 {
        return behind(0);
    }
    let mut size = window(n);
    let last = size - 1;
    let all = Spot { at: 0, gap: FAR };
    let mut spot = looked(key(last), sought, all, n - last);
    // By hand: the bound on the looks is its measure, and std's searches promise none, nor a gap.
    while 1 < size {
        size = size / 2;
        let next = spot.at + size;
        spot = looked(key(next - 1), sought, spot, next);
    }
    spot
}

// The key of the line at a place.
// The slices stay apart: `insert_stored` lends parts of slices that it then writes.
fn key_at(codes: &[u32], infos: &[u32], at: usize) -> u64
    requires { (at < length codes.now) × (length codes.now ≡ length infos.now) }
    ensures { result ≡ stored_key (stored_at codes.now infos.now at) }
{
    stored_key(codes[at], infos[at])
}

// The place of the first stored mapping that is not less than (c, i), or their count, if they rise.
fn place(codes: &[u32], infos: &[u32], c: u32, i: u32) -> Spot
    requires { length codes.now ≡ length infos.now }
    ensures { let all = stored_list codes.now infos.now in
        (result.at ≤ length codes.now)
        × GapAt (CodeGap codes.now infos.now (mk c i))
        (length codes.now) result.at result.gap
        × (Rising less all → result.at ≡ place_in (mk c i) all)
        × (get_or infos.now result.at 0 < 4294967296) }
{
    halve(codes.len(), stored_key(c, i), |at| key_at(codes, infos, at))
}

// The same place, for a new line: a table's lines often come in order, and behind the last one it needs no search.
fn place_new(codes: &[u32], infos: &[u32], c: u32, i: u32) -> usize
    requires { length codes.now ≡ length infos.now }
    ensures { let all = stored_list codes.now infos.now in
        (result ≤ length codes.now) × (Rising less all → result ≡ place_in (mk c i) all) }
{
    let n = codes.len();
    if 0 < n && stored_less(codes[n - 1], infos[n - 1], c, i) {
        return n;
    }
    place(codes, infos, c, i).at
}

// Whether the line at a place of the second order comes before (c, i); not where its index is out of range.
fn before_at(codes: &[u32], infos: &[u32], order: &[u32], at: usize, c: u32, i: u32) -> bool
    requires { (at < length order.now) × (length codes.now ≡ length infos.now) }
    ensures { let k = get_or order.now at 0 in
        result ≡ (ltb k (length codes.now)
        and point_less (stored_at codes.now infos.now k) (mk c i)) }
{
    let k = order[at] as usize;
    k < codes.len() && point_less(codes[k], infos[k], c, i)
}

// The place of a new line in the second order.
fn place_point(codes: &[u32], infos: &[u32], order: &[u32], c: u32, i: u32) -> usize
    requires { length codes.now ≡ length infos.now }
    ensures { let all = picked codes.now infos.now order.now in
        (result ≤ length order.now)
        × (All (λ k. k < length codes.now) order.now
        → Rising point_less all → result ≡ point_place_in (mk c i) all) }
{
    let n = order.len();
    if 0 < n && before_at(codes, infos, order, n - 1, c, i) {
        return n;
    }
    halve(n, 1, |at| !before_at(codes, infos, order, at, c, i) as u64).at
}

// The code point of the line at a place of the second order; RANK, more than any, where its index is out of range.
// RANK and no Option: a key for `halve`, more than any code point.
fn point_at(infos: &[u32], order: &[u32], at: usize) -> u64
    requires { at < length order.now }
    ensures { result ≡ point_seen infos.now order.now at }
{
    let k = order[at] as usize;
    if k < infos.len() {
        return (infos[k] % RANK) as u64;
    }
    RANK as u64
}

// The place in the second order of the first mapping whose code point is not less, or the count of mappings, if they
// rise. Lines that write stand first, so a code point's first line says what becomes of it, if any does.
fn first_of_point(infos: &[u32], order: &[u32], point: u32) -> Spot
    requires { point < 2097152 }
    ensures { (result.at ≤ length order.now)
        × GapAt (PointGap infos.now order.now point)
        (length order.now) result.at result.gap
        × ((codes : List ℕ) → All (λ k. k < length infos.now) order.now
        → Rising point_less (picked codes infos.now order.now)
        → result.at ≡ point_place_in (mk 0 point) (picked codes infos.now order.now)) }
{
    halve(order.len(), point as u64, |at| point_at(infos, order, at))
}

// Whether a stored line reads a code. Length and rank are one test: divided by 2 RANKs, the second number is 4 for each
// byte after the first, plus half the rank, rounded down, which is 0 for the ranks 0 and 1. No line has more than 256
// bytes.
fn reads_code(c: u32, i: u32, code: Code) -> bool
    ensures { result ≡ reads_code code.bits code.len (mk c i) }
{
    if c != code.bits || code.len < 1 || 256 < code.len {
        return false;
    }
    i / (RANK * 2) == (code.len - 1) * 4
}

// Whether the stored line with the second number i says what becomes of a code point.
#[tactic(auto, unfolding(crate::specs::loops::Search::writes_point))]
fn writes_point(i: u32, point: u32) -> bool
    ensures { (c : ℕ) → result ≡ writes_point point (mk c i) }
{
    i % RANK == point && i / RANK % 8 != 1
}

impl<'a> Lines<'a> {
    // Where the stored mapping that reads a code is, if one of the first n does and they rise. The line there reads the
    // code if and only if the gap is less than FAR; the gap is then its rank and code point.
    pub(crate) fn code_place(self, n: u32, code: Code) -> Spot
        ensures { let codes = self.entry.codes.now in
            let infos = self.entry.infos.now in
            (Rising less (stored_list (take n codes) (take n infos))
            → n ≤ length codes → n ≤ length infos → code.len ≤ 4
            → FirstAt (reads_code code.bits code.len) n codes infos result.at)
            × GapTells code.bits code.len n codes infos result.at result.gap }
    {
        let m = n as usize;
        if self.codes.len() < m || self.infos.len() < m || code.len < 1 || 4 < code.len {
            return behind(m);
        }
        place(
            &self.codes[..m],
            &self.infos[..m],
            code.bits,
            (code.len - 1) * EXTRA,
        )
    }

    // The place, in the first order, of the stored mapping that says what becomes of a code point, if one does and the
    // mappings pass the test behind 60. A place below n is that of a line that has the code point.
    pub(crate) fn point_place(self, n: u32, point: u32) -> usize
        ensures { let m = self.entry in
            ((limit : ℕ)
            → store_ok limit n m.codes.now m.infos.now m.order.now ≡ true
            → FirstAt (writes_point point) n m.codes.now m.infos.now result)
            × HasPoint point n m.codes.now m.infos.now result }
    {
        let m = n as usize;
        if self.codes.len() < m || self.infos.len() < m || self.order.len() < m || RANK <= point {
            return m;
        }
        let spot = first_of_point(&self.infos[..m], &self.order[..m], point);
        if spot.gap != 0 {
            return m;
        }
        self.order[spot.at] as usize
    }

    // Whether a place is one of the first n stored mappings.
    #[tactic(auto, unfolding(crate::specs::loops::Search::is_at))]
    fn stored_at(self, n: u32, at: usize) -> bool
        ensures answer { result ≡ is_at n self.entry.codes.now self.entry.infos.now at }
        ensures in_codes { result ≡ true → at < length self.entry.codes.now }
        ensures in_infos { result ≡ true → at < length self.entry.infos.now }
    {
        at < n as usize && at < self.codes.len() && at < self.infos.len()
    }

    // Whether the stored mapping at a place reads a code.
    // Not one function: each is one line over `stored_at`.
    #[tactic(auto, unfolding(crate::specs::loops::Search::holds_at))]
    pub(crate) fn reads_at(self, n: u32, code: Code, at: usize) -> bool
        ensures answer { let m = self.entry in
            result ≡ holds_at (reads_code code.bits code.len) n m.codes.now m.infos.now at }
        ensures in_codes { result ≡ true → at < length self.entry.codes.now }
        ensures in_infos { result ≡ true → at < length self.entry.infos.now }
    {
        self.stored_at(n, at) && reads_code(self.codes[at], self.infos[at], code)
    }

    // Whether the stored mapping at a place says what becomes of a code point.
    #[tactic(auto, unfolding(crate::specs::loops::Search::holds_at))]
    pub(crate) fn writes_at(self, n: u32, point: u32, at: usize) -> bool
        ensures answer { result ≡ holds_at (writes_point point) n self.entry.codes.now self.entry.infos.now at }
        ensures in_codes { result ≡ true → at < length self.entry.codes.now }
        ensures in_infos { result ≡ true → at < length self.entry.infos.now }
    {
        self.stored_at(n, at) && writes_point(self.infos[at], point)
    }
}

// Whether a stored line reads the same bytes as the new one.
pub(crate) fn read_taken(lines: Lines<'_>, n: u32, c: u32, i: u32) -> bool
    requires { let codes = lines.codes.now in
        let infos = lines.infos.now in
        (n ≤ length codes) × (n ≤ length infos)
        × Rising less (stored_list (take n codes) (take n infos))
        × (extra_in i < 4) }
    ensures { result ≡ read_taken (mk c i)
        (stored_list (take n lines.entry.codes.now) (take n lines.entry.infos.now)) }
{
    if 1 < i / RANK % 8 {
        return false;
    }
    let code = Code {
        bits: c,
        len: i / EXTRA + 1,
    };
    lines.code_place(n, code).gap < FAR
}

// Whether a stored line writes the same code point as the new one.
pub(crate) fn write_taken(lines: Lines<'_>, n: u32, c: u32, i: u32) -> bool
    requires { Kept limits.mappings n lines.codes.now lines.infos.now lines.order.now }
    ensures { result ≡ write_taken (mk c i)
        (stored_list (take n lines.entry.codes.now) (take n lines.entry.infos.now)) }
{
    if i / RANK % 8 == 1 {
        return false;
    }
    let point = i % RANK;
    let at = lines.point_place(n, point);
    lines.writes_at(n, point, at)
}

// Inserts x at a place of the first n numbers; the numbers from there on move up by one, the last into a free place.
fn shift_in(xs: &mut [u32], n: usize, at: usize, x: u32)
    requires { (at ≤ n) × (n < length xs.old) }
    ensures { xs.new ≡ shift_in n at x xs.old }
{
    xs.copy_within(at..n, at + 1);
    xs[at] = x;
}

// An index after an insertion at a place: one more at or past it.
fn bump_index(at: u32, v: u32) -> u32
    requires { v < 4294967295 }
    ensures { result ≡ bump at v }
{
    if at <= v { v + 1 } else { v }
}

// Adds one to every index at or past a place, without a branch, so that the compiler can vectorise it; if the place is
// past all stored mappings, there is nothing to do.
fn renumber(order: &mut [u32], n: usize, at: usize)
    requires { (n ≤ length order.old) × (n < 4294967296) × All (λ k. k < n) (take n order.old) }
    ensures { order.new ≡ map (bump at) (take n order.old) ++ drop n order.old }
{
    if n <= at {
        return;
    }
    let from = at as u32;
    // By index: a write through `iter_mut` left a goal.
    for k in 0..n {
        order[k] = bump_index(from, order[k]);
    }
}

// Inserts a new mapping into all three slices.
// Three slices, as it writes them; `Loader` holds them.
pub(crate) fn insert_stored(
    codes: &mut [u32],
    infos: &mut [u32],
    order: &mut [u32],
    n: u32,
    c: u32,
    i: u32,
)
    requires { Ready n codes.old infos.old order.old (mk c i) }
    ensures { let old = stored_list (take n codes.old) (take n infos.old) in
        let all = insert less (mk c i) old in
        (codes.new ≡ map bits_of all ++ drop (n + 1) codes.old)
        × (infos.new ≡ map info_of all ++ drop (n + 1) infos.old)
        × (order.new ≡ order_of all ++ drop (n + 1) order.old) }
{
    let m = n as usize;
    let at = place_new(&codes[..m], &infos[..m], c, i);
    let pos = place_point(&codes[..m], &infos[..m], &order[..m], c, i);
    renumber(order, m, at);
    shift_in(order, m, pos, at as u32);
    shift_in(codes, m, at, c);
    shift_in(infos, m, at, i);
}
