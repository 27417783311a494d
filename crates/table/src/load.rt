// Loading: a table's text into lent memory.
ghost use Rattle.std.specs.Prelude.{if◌then◌else◌, ◌≡◌, ◌++◌, leb, not, List, [], ◌∷◌, ℕ, ◌+◌, ◌-◌};
ghost use Rattle.std.specs.Prelude.{◌*◌, ◌≤◌, ◌<◌, length, take, drop, replicate, Ok, Err, OnOk};
ghost use Rattle.table.specs.Limits.{limits, needed};
ghost use Rattle.table.specs.Cells.{Cell};
ghost use Rattle.table.specs.States.{step_at};
ghost use Rattle.table.specs.Codes.{packed, AllByte};
ghost use Rattle.table.specs.Meaning.{Line};
ghost use Rattle.table.specs.Rules.{t5};
ghost use Rattle.table.specs.Stored.{mk, extra_in, rank_of, less};
ghost use Rattle.lists.specs.Order.{insert};
ghost use Rattle.table.specs.Slices.{Slices, slices, Lent};
ghost use Rattle.table.specs.loops.Ranges.{InRange};
ghost use Rattle.table.specs.Numbers.{answer_number, n1, n13, n16, n20, n22, n23, cond, lowest};
ghost use Rattle.table.specs.Numbers.{rows_at, key_conditions, charmap_conditions, mapping_conditions, end_conditions};
ghost use Rattle.table.specs.Load.{judged, reading, keep_value, keep_row, line_as, line_step, read, load_of};
ghost use Rattle.table.specs.Load.{loaded_as, given_number, loaded_by, given, left_in};
ghost use Rattle.table.specs.loops.Progress.{keys_in, empty_head, head_at, ProperHead, Holding, Held, Beyond};
ghost use Rattle.table.specs.loops.Progress.{StepTaken, Taken, IsHeader, IsBody};
ghost use Rattle.table.specs.loops.Progress.{slices_in, SameSlices, stored_in, KeptIn};
ghost use Rattle.table.specs.Memory.{stored_list};
ghost use Rattle.table.specs.loops.Backed.{backed};
ghost use Rattle.table.specs.loops.Search.{read_taken, write_taken, Kept};
ghost use Rattle.table.specs.declared.load.Refusal.TheVariants.{BytesTaken, PointTaken, TooMany};
ghost use Rattle.table.specs.loops.Progress.{record_in};
ghost use Rattle.table.specs.declared.load.Refusal.TheVariants.{NoScalar, NoSuchCode, LeadingZero, NoSubchar1};
ghost use Rattle.table.specs.declared.load.Phase.TheVariants.{Header, Mappings, Ended};

use crate::header::{Head, HeaderLine, judge_key, read_line, take_value};
use crate::lent::Lines;
use crate::mapping::{Mapped, indicator_of, read_last, read_mapping};
use crate::row::full_row;
use crate::states::{Code, NEEDED, TOP, states_ok};
use crate::store::{EXTRA, RANK, insert_stored, read_taken, write_taken};
use crate::text::{cut_line, zero_mappings, zero_states};
use crate::valid::{MAPPINGS, Record, all_backed, keeps_t4, keeps_t5, keeps_t6};
use crate::value::{Key, Value};

// The longest text.
const TEXT: usize = 1048576;

// The header before the first line.
const NO_KEYS: Head = Head {
    name: false,
    min: 0,
    max: 0,
    class: 0,
    sub: Code { bits: 0, len: 0 },
    sub1: 0,
    rows: 0,
};

// Why a text is refused, by the number in documents 01 and 02, and what its author does next.
#[derive(Clone, Copy, Debug, PartialEq, Eq)]
pub enum Refusal {
    // A lent slice is too short. Lend 4,096 numbers for the states and 2,048 in each other slice.
    MemoryTooSmall = 1,
    // The text has more than 1,048,576 bytes. Shorten it.
    TextTooLong = 2,
    // The line has no form that may stand here. Mend its spelling or move it.
    NoForm = 10,
    // A key that may come once comes again. Keep one of the two lines.
    KeyAgain = 11,
    // The value is malformed for its key. Mend it.
    UnfitValue = 12,
    // At CHARMAP a required key or row is absent. Add it to the header.
    KeyAbsent = 13,
    // The line is well-formed but asks for what is not built. The table cannot be used.
    NotBuilt = 14,
    // A falling range, a next row over 7f, or a 17th row. Mend the row.
    OutOfRange = 15,
    // At CHARMAP the sizes, rows or substitution characters break T1 to T4. Mend the header.
    StatesBroken = 16,
    // The code point is no scalar value. Mend the mapping.
    NoScalar = 20,
    // The bytes are no code of the states that this code point may have. Mend the mapping or the rows.
    NoSuchCode = 21,
    // A code of several bytes that starts with 00 is written. Mend the indicator.
    LeadingZero = 22,
    // A `|2` line has other bytes than subchar1. Mend the one or the other.
    NoSubchar1 = 23,
    // An earlier line reads the same bytes. Keep one of the two.
    BytesTaken = 24,
    // An earlier line writes the same code point. Keep one, or make it `|3`.
    PointTaken = 25,
    // It is the 2,049th mapping. Split the table.
    TooMany = 26,
    // The text ends before END CHARMAP. Look whether it was cut off.
    NoEnd = 27,
    // At END CHARMAP: some `|1` line writes a code that no `|0` or `|3` line reads. Add the line that reads it, or
    // mend or drop the `|1` line.
    NotReadBack = 28,
}

impl Refusal {
    ghost use Rattle.table.specs.Numbers.{refusal_number};

    // The number of a refusal in documents 01 and 02.
    pub fn number(self) -> u32
        ensures { result ≡ refusal_number self }
    {
        self as u32
    }
}

// A refused text: why, and the line that is refused, or 0 where it is the memory or the whole text. The slices hold no
// table. Show the number and the line, mend the text and load it again.
#[derive(Clone, Copy, Debug, PartialEq, Eq)]
pub struct Refused {
    pub why: Refusal,
    pub line: usize,
}

// Which part of the text is being read.
// Nothing compares or prints it, so it derives no more.
#[derive(Clone, Copy)]
pub enum Phase {
    Header,
    Mappings,
    Ended,
}

// A text that is being read: the lent memory, which holds the rows and the mappings so far; the part being read; the
// header so far, and the count of mappings.
#[derive(Drop)]
struct Loader<'a> {
    states: &'a mut [u16],
    codes: &'a mut [u32],
    infos: &'a mut [u32],
    order: &'a mut [u32],
    phase: Phase,
    head: Head,
    mappings: u32,
}

// The number of the answer to a text: 0 where it is accepted.
pub fn answer_number(loaded: Result<Record, Refused>) -> u32
    ensures { result ≡ answer_number loaded }
{
    match loaded {
        Ok(_) => 0,
        Err(refused) => refused.why.number(),
    }
}

// 13, at CHARMAP: a required key or row is absent; SBCS may be without rows.
#[tactic(auto, using(crate::proofs::HeaderSteps::absent_is))]
fn lacks_key(h: Head) -> bool
    ensures { result ≡ n13 (keys_in h) h.rows }
{
    if !h.name || h.min == 0 || h.max == 0 || h.class == 0 || h.sub.len == 0 {
        return true;
    }
    h.class != 1 && h.rows == 0
}

// The header at CHARMAP: an SBCS table without rows gets the row `0-ff`.
fn default_row(h: Head, states: &mut [u16]) -> Head
    requires { ProperHead h × (h.rows ≤ limits.rows) × (needed limits ≤ length states.old) }
    ensures row { (rows : List (List Cell)) (codes infos order : List ℕ)
        → Holding limits h 0 rows [] (slices states.old codes infos order)
        → let all = rows_at (keys_in h) rows in
        (result ≡ head_at h all) × Holding limits (head_at h all) 0 all [] (slices states.new codes infos order) }
    ensures proper { ProperHead result × (result.rows ≤ limits.rows) }
    ensures beyond { drop (needed limits) states.new ≡ drop (needed limits) states.old }
{
    if h.class == 1 && h.rows == 0 {
        full_row(states);
        let mut g = h;
        g.rows = 1;
        return g;
    }
    h
}

// The record of a header and a count of mappings.
// No `From`: it takes a header and a count.
fn record_of(h: Head, n: u32) -> Record
    ensures { result ≡ record_in h n }
{
    let sub = h.sub;
    Record {
        rows: h.rows,
        mappings: n,
        min: h.min,
        max: h.max,
        subchar: sub,
        subchar1: h.sub1,
    }
}

// The second number of a stored mapping: code point, rank and count of bytes.
fn info_of(u: u32, len: usize, d: u32) -> u32
    requires { (u < 2097152) × (1 ≤ len) × (len ≤ 4) }
    ensures { (result ≡ u + 2097152 * rank_of d + 16777216 * (len - 1)) × (extra_in result < 4) }
{
    let base = u + (len as u32 - 1) * EXTRA;
    if d == 0 {
        return base;
    }
    if d == 3 {
        return base + RANK;
    }
    if d == 1 {
        return base + 2 * RANK;
    }
    base + 4 * RANK
}

// Reads a line after END CHARMAP, where only blank lines may stand.
fn take_last(line: &[u8]) -> Result<(), Refusal>
    ensures { (h : Head) (n : ℕ) (rows : List (List Cell)) (ls : List Line) (m : Slices) → Holding limits h n rows ls m
        → StepTaken limits (line_step lowest limits (reading Ended (keys_in h) rows ls) line.now) result Ended h n m }
{
    match read_last(line) {
        Some(Mapped::Blank) => Ok(()),
        Some(Mapped::Reserved) => Err(Refusal::NotBuilt),
        Some(Mapped::End) => Err(Refusal::NoForm),
        Some(Mapped::Line(_)) => Err(Refusal::NoForm),
        None => Err(Refusal::NoForm),
    }
}

impl<'a> Loader<'a> {
    // Sets all needed places to zero.
    fn wipe(&mut self)
        requires { Lent limits (slices_in self.old) }
        ensures states { self.new.states.now ≡ replicate (needed limits) 0 ++ drop (needed limits) self.old.states.now }
        ensures codes { self.new.codes.now ≡ replicate limits.mappings 0 ++ drop limits.mappings self.old.codes.now }
        ensures infos { self.new.infos.now ≡ replicate limits.mappings 0 ++ drop limits.mappings self.old.infos.now }
        ensures order { self.new.order.now ≡ replicate limits.mappings 0 ++ drop limits.mappings self.old.order.now }
        ensures reading { (self.new.phase ≡ self.old.phase) × (self.new.head ≡ self.old.head)
            × (self.new.mappings ≡ self.old.mappings) }
        ensures same { SameSlices self.old self.new }
    {
        zero_states(self.states, NEEDED);
        zero_mappings(self.codes, MAPPINGS);
        zero_mappings(self.infos, MAPPINGS);
        zero_mappings(self.order, MAPPINGS);
    }

    // The stored lines so far.
    fn lines(&self) -> Lines<'_>
        ensures { (result.codes.now ≡ self.now.codes.now) × (result.infos.now ≡ self.now.infos.now)
            × (result.order.now ≡ self.now.order.now) }
    {
        Lines {
            codes: self.codes,
            infos: self.infos,
            order: self.order,
        }
    }

    // 24: a stored line reads the same bytes.
    fn read_taken(&self, c: u32, i: u32) -> bool
        requires { KeptIn self.now × (extra_in i < 4) }
        ensures { result ≡ read_taken (mk c i) (stored_in self.now) }
    {
        read_taken(self.lines(), self.mappings, c, i)
    }

    // 25: a stored line writes the same code point.
    fn write_taken(&self, c: u32, i: u32) -> bool
        requires { KeptIn self.now }
        ensures { result ≡ write_taken (mk c i) (stored_in self.now) }
    {
        write_taken(self.lines(), self.mappings, c, i)
    }

    // 24 to 26; if none holds, the mapping is inserted.
    fn add(&mut self, c: u32, i: u32) -> Result<(), Refusal>
        requires { KeptIn self.old × (extra_in i < 4) }
        ensures answer { let old = stored_in self.old in
            result ≡ (if read_taken (mk c i) old then Err BytesTaken
            else if write_taken (mk c i) old then Err PointTaken
            else if leb limits.mappings self.old.mappings then Err TooMany
            else Ok tt) }
        ensures kept { result ≡ Ok tt
            → Kept limits.mappings (self.old.mappings + 1) self.new.codes.now self.new.infos.now self.new.order.now }
        ensures inserted { let old = stored_in self.old in
            result ≡ Ok tt
            → stored_list (take (self.old.mappings + 1) self.new.codes.now)
            (take (self.old.mappings + 1) self.new.infos.now)
            ≡ insert less (mk c i) old }
        ensures states { self.new.states.now ≡ self.old.states.now }
        ensures reading { (self.new.phase ≡ self.old.phase) × (self.new.head ≡ self.old.head) }
        ensures count { result ≡ Ok tt → self.new.mappings ≡ self.old.mappings + 1 }
        ensures beyond { Beyond limits (slices_in self.old) (slices_in self.new) }
        ensures same { SameSlices self.old self.new }
    {
        let n = self.mappings;
        if self.read_taken(c, i) {
            return Err(Refusal::BytesTaken);
        }
        if self.write_taken(c, i) {
            return Err(Refusal::PointTaken);
        }
        if MAPPINGS <= n as usize {
            return Err(Refusal::TooMany);
        }
        insert_stored(self.codes, self.infos, self.order, n, c, i);
        self.mappings = n + 1;
        Ok(())
    }

    // T10 of the stored lines.
    fn all_backed(&self) -> bool
        requires { Lent limits (slices_in self.now) × (self.now.mappings ≤ limits.mappings) }
        ensures { result ≡ backed (stored_in self.now) }
    {
        let n = self.mappings as usize;
        all_backed(&self.codes[..n], &self.infos[..n])
    }

    // 16 does not hold: the sizes are in order, the states keep T2 and T3, subchar and subchar1 keep T4.
    fn keeps_states(&self) -> bool
        requires head { ProperHead self.now.head × (self.now.head.rows ≤ limits.rows) }
        requires long { needed limits ≤ length self.now.states.now }
        ensures { (rows : List (List Cell)) (codes infos order : List ℕ)
            → Holding limits self.now.head 0 rows [] (slices self.now.states.now codes infos order)
            → result ≡ not (n16 (keys_in self.now.head) rows) }
    {
        let h = self.head;
        if h.max < h.min {
            return false;
        }
        states_ok(self.states, h.rows, h.max) && keeps_t4(&self.states[..NEEDED], record_of(h, 0))
    }

    // Reads the line CHARMAP.
    fn take_charmap(&mut self) -> Result<(), Refusal>
        requires header { IsHeader self.old }
        ensures taken { (rows : List (List Cell)) → Holding limits self.old.head 0 rows [] (slices_in self.old)
            → let next = reading Mappings (keys_in self.old.head) (rows_at (keys_in self.old.head) rows) [] in
            Taken (judged (lowest (charmap_conditions (keys_in self.old.head) rows)) next) result self.new }
        ensures beyond { Beyond limits (slices_in self.old) (slices_in self.new) }
        ensures same { SameSlices self.old self.new }
    {
        if lacks_key(self.head) {
            return Err(Refusal::KeyAbsent);
        }
        self.head = default_row(self.head, self.states);
        if !self.keeps_states() {
            return Err(Refusal::StatesBroken);
        }
        self.phase = Phase::Mappings;
        Ok(())
    }

    // Reads the line of a key; the value's text is line[q..e].
    fn take_key(
        &mut self,
        k: Key,
        v: Option<Value>,
        line: &[u8],
        q: usize,
        e: usize,
    ) -> Result<(), Refusal>
        requires header { IsHeader self.old }
        requires value { (q ≤ e) × (e ≤ length line.now) × InRange v }
        ensures taken { (rows : List (List Cell)) → Holding limits self.old.head 0 rows [] (slices_in self.old)
            → let text = take (e - q) (drop q line.now) in
            let keys = keys_in self.old.head in
            let next = reading Header (keep_value keys v) (keep_row v text rows) [] in
            Taken (judged (lowest (key_conditions limits keys (length rows) k v)) next) result self.new }
        ensures beyond { Beyond limits (slices_in self.old) (slices_in self.new) }
        ensures same { SameSlices self.old self.new }
    {
        judge_key(self.head, k, v)?;
        self.head = take_value(self.head, v, line, q, e, self.states);
        Ok(())
    }

    // Reads a line before CHARMAP.
    fn take_header(&mut self, line: &[u8]) -> Result<(), Refusal>
        requires header { IsHeader self.old }
        ensures taken { (rows : List (List Cell)) → Holding limits self.old.head 0 rows [] (slices_in self.old)
            → Taken (line_step lowest limits (reading Header (keys_in self.old.head) rows []) line.now)
            result self.new }
        ensures beyond { Beyond limits (slices_in self.old) (slices_in self.new) }
        ensures same { SameSlices self.old self.new }
    {
        match read_line(line) {
            None => Err(Refusal::NoForm),
            Some(HeaderLine::Blank) => Ok(()),
            Some(HeaderLine::Charmap) => self.take_charmap(),
            Some(HeaderLine::Known(k, v, q, e)) => self.take_key(k, v, line, q, e),
        }
    }

    // 20 to 23: the mapping of a code point, a code of `len` bytes and an indicator, by itself.
    fn judge_mapping(&self, u: u32, bits: u32, len: usize, d: u32) -> Result<(), Refusal>
        requires { (self.now.head.max ≤ 4) × Lent limits (slices_in self.now) × (1 ≤ len) × (d ≤ 3) }
        ensures answer { (c : List ℕ) → AllByte c → bits ≡ packed c → len ≡ length c
            → let step = step_at (take (needed limits) self.now.states.now) in
            let new = line_as u c d in
            result ≡ lowest (cond NoScalar (n20 new)
            ∷ cond NoSuchCode (not (t5 step self.now.head.min self.now.head.max new))
            ∷ cond LeadingZero (n22 new)
            ∷ cond NoSubchar1 (n23 (keys_in self.now.head) new) ∷ []) }
        ensures fits { result ≡ Ok tt → (u < 2097152) × (len ≤ 4) }
    {
        if !keeps_t6(u) {
            return Err(Refusal::NoScalar);
        }
        if d == 2 {
            if self.head.sub1 == 0 {
                return Err(Refusal::NoSubchar1);
            }
            if len != 1 {
                return Err(Refusal::NoSubchar1);
            }
            if bits / TOP != self.head.sub1 - 1 {
                return Err(Refusal::NoSubchar1);
            }
            return Ok(());
        }
        if 4 < len {
            return Err(Refusal::NoSuchCode);
        }
        let code = Code {
            bits,
            len: len as u32,
        };
        if !keeps_t5(
            &self.states[..NEEDED],
            self.head.min,
            self.head.max,
            u,
            code,
        ) {
            return Err(Refusal::NoSuchCode);
        }
        if d != 3 && len != 1 && bits / TOP == 0 {
            return Err(Refusal::LeadingZero);
        }
        Ok(())
    }

    // Adds a mapping of a code point, a code of `len` bytes and an indicator, if no condition holds.
    fn add_mapping(&mut self, u: u32, bits: u32, len: usize, d: u32) -> Result<(), Refusal>
        requires body { IsBody self.old }
        requires line { (1 ≤ len) × (d ≤ 3) }
        ensures taken { (rows : List (List Cell)) (ls : List Line) (c : List ℕ)
            → Holding limits self.old.head self.old.mappings rows ls (slices_in self.old)
            → AllByte c → bits ≡ packed c → len ≡ length c
            → let new = line_as u c d in
            let keys = keys_in self.old.head in
            let next = reading Mappings keys rows (new ∷ ls) in
            Taken (judged (lowest (mapping_conditions limits keys rows ls new)) next) result self.new }
        ensures beyond { Beyond limits (slices_in self.old) (slices_in self.new) }
        ensures same { SameSlices self.old self.new }
    {
        self.judge_mapping(u, bits, len, d)?;
        self.add(bits, info_of(u, len, d))?;
        Ok(())
    }

    // Reads the line END CHARMAP.
    fn take_end(&mut self) -> Result<(), Refusal>
        requires body { IsBody self.old }
        ensures taken { (rows : List (List Cell)) (ls : List Line)
            → Holding limits self.old.head self.old.mappings rows ls (slices_in self.old)
            → let next = reading Ended (keys_in self.old.head) rows ls in
            Taken (judged (lowest (end_conditions ls)) next) result self.new }
        ensures beyond { Beyond limits (slices_in self.old) (slices_in self.new) }
        ensures same { SameSlices self.old self.new }
    {
        if !self.all_backed() {
            return Err(Refusal::NotReadBack);
        }
        self.phase = Phase::Ended;
        Ok(())
    }

    // Reads a line between CHARMAP and END CHARMAP.
    fn take_mapping(&mut self, line: &[u8]) -> Result<(), Refusal>
        requires body { IsBody self.old }
        ensures taken { (rows : List (List Cell)) (ls : List Line)
            → Holding limits self.old.head self.old.mappings rows ls (slices_in self.old)
            → Taken (line_step lowest limits (reading Mappings (keys_in self.old.head) rows ls) line.now)
            result self.new }
        ensures beyond { Beyond limits (slices_in self.old) (slices_in self.new) }
        ensures same { SameSlices self.old self.new }
    {
        match read_mapping(line) {
            None => Err(Refusal::NoForm),
            Some(Mapped::Reserved) => Err(Refusal::NotBuilt),
            Some(Mapped::Blank) => Ok(()),
            Some(Mapped::End) => self.take_end(),
            Some(Mapped::Line(l)) => self.add_mapping(l.point, l.bits, l.len, indicator_of(l.used)),
        }
    }

    // Reads one line, by the part of the text that it stands in.
    // A `match` and no closure: each part of a text has one reader, chosen here alone.
    fn take_line(&mut self, line: &[u8]) -> Result<(), Refusal>
        requires lent { Lent limits (slices_in self.old) }
        requires held { Held limits self.old.head self.old.mappings (slices_in self.old) }
        requires none_yet { self.old.phase ≡ Header → self.old.mappings ≡ 0 }
        ensures taken { (rows : List (List Cell)) (ls : List Line)
            → Holding limits self.old.head self.old.mappings rows ls (slices_in self.old)
            → Taken (line_step lowest limits (reading self.old.phase (keys_in self.old.head) rows ls) line.now)
            result self.new }
        ensures beyond { Beyond limits (slices_in self.old) (slices_in self.new) }
        ensures same { SameSlices self.old self.new }
    {
        match self.phase {
            Phase::Header => self.take_header(line),
            Phase::Mappings => self.take_mapping(line),
            Phase::Ended => take_last(line),
        }
    }

    // Reads the lines of a text.
    fn read(&mut self, text: &[u8]) -> Result<Record, Refused>
        requires size { length text.now ≤ limits.text }
        requires lent { Lent limits (slices_in self.old) }
        requires start { (self.old.phase ≡ Header) × (self.old.mappings ≡ 0)
            × Holding limits empty_head 0 [] [] (slices_in self.old) × (self.old.head ≡ empty_head) }
        ensures answer { result ≡ loaded_as (load_of limits text.now) }
        ensures left { OnOk result
            (slices_in self.new ≡ left_in limits (read (load_of limits text.now)) (slices_in self.old)) }
        ensures beyond { Beyond limits (slices_in self.old) (slices_in self.new) }
        ensures same { SameSlices self.old self.new }
    {
        // Kept as a loop: no plain index, as a line's end decides where the next begins.
        let mut at: usize = 0;
        let mut line: usize = 0;
        // No `for`: each line says where the next begins.
        while at < text.len() {
            let c = cut_line(text, at);
            line += 1;
            if let Err(why) = self.take_line(&text[at..c.stop]) {
                return Err(Refused { why, line });
            }
            at = c.next;
        }
        match self.phase {
            Phase::Ended => Ok(record_of(self.head, self.mappings)),
            _ => Err(Refused {
                why: Refusal::NoEnd,
                line: line + 1,
            }),
        }
    }

    // Reads a text into the memory, which is set to zero before; after a refusal it is zero again.
    // The slices come one by one, as C lends them; `Loader` holds them within.
    fn load(&mut self, text: &[u8]) -> Result<Record, Refused>
        requires size { length text.now ≤ limits.text }
        requires lent { Lent limits (slices_in self.old) }
        requires start { (self.old.phase ≡ Header) × (self.old.mappings ≡ 0) × (self.old.head ≡ empty_head) }
        ensures answer { result ≡ loaded_as (load_of limits text.now) }
        ensures left { slices_in self.new ≡ left_in limits (read (load_of limits text.now)) (slices_in self.old) }
        ensures same { SameSlices self.old self.new }
    {
        self.wipe();
        let loaded = self.read(text);
        if loaded.is_err() {
            self.wipe();
        }
        loaded
    }
}

// 1: a lent slice is too short.
// Four lengths, as `n1` takes them.
fn too_small(s: usize, c: usize, i: usize, o: usize) -> bool
    ensures { result ≡ n1 limits s c i o }
{
    s < NEEDED || c < MAPPINGS || i < MAPPINGS || o < MAPPINGS
}

// Reads a table's text into lent memory: 4,096 numbers for its states, 2,048 in each of the other slices, all of them
// set. A refused text leaves zeros there; if the memory is too small or the text too long, nothing is written.
pub fn load(
    text: &[u8],
    states: &mut [u16],
    codes: &mut [u32],
    infos: &mut [u32],
    order: &mut [u32],
) -> Result<Record, Refused>
    ensures answer { let old = slices states.old codes.old infos.old order.old in
        result ≡ loaded_by (given limits text.now old) }
    ensures number { let old = slices states.old codes.old infos.old order.old in
        answer_number result ≡ given_number (given limits text.now old) }
    ensures memory { let old = slices states.old codes.old infos.old order.old in
        slices states.new codes.new infos.new order.new ≡ left_in limits (given limits text.now old) old }
{
    if too_small(states.len(), codes.len(), infos.len(), order.len()) {
        return Err(Refused {
            why: Refusal::MemoryTooSmall,
            line: 0,
        });
    }
    if TEXT < text.len() {
        return Err(Refused {
            why: Refusal::TextTooLong,
            line: 0,
        });
    }
    let mut loader = Loader {
        states,
        codes,
        infos,
        order,
        phase: Phase::Header,
        head: NO_KEYS,
        mappings: 0,
    };
    loader.load(text)
}
