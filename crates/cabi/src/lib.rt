// The functions for C and Rust: each takes its arguments apart, calls the library, and writes the results into lent
// slices. C lends slices one by one, so the exported functions take them one by one; inside they go together.
#![tactic(auto)]

pub mod pieces;

ghost use Rattle.std.specs.Prelude.{if◌then◌else◌, ◌≡◌, [], ◌∷◌, ◌≤◌, length, OnOk};
ghost use Rattle.table.specs.Limits.{limits};
ghost use Rattle.table.specs.Slices.{slices};
ghost use Rattle.table.specs.Numbers.{answer_number};
ghost use Rattle.table.specs.Load.{given_number, record_handed, loaded_by, given, left_in};
ghost use Rattle.convert.specs.Run.{end_number, end_length, converted_of, put_out};
ghost use Rattle.audit.specs.Audit.{page_handed, space_after, ending_number, ending_of, handed_on};
ghost use Rattle.cabi.specs.Exported.{record_in, record_numbers};
ghost use Rattle.cabi.specs.Exported.{if_short, with_numbers, loaded_numbers, check_number};
ghost use Rattle.cabi.specs.Exported.{scheme_in, settings_in, answered, to_exported, from_exported};
ghost use Rattle.cabi.specs.Exported.{audited_numbers, audit_exported};
ghost use Rattle.cabi.specs.loops.Asked.{record_of, record_beside, asked, number_of, memory_in, run_exported};

use audit::{AuditRefusal, Audited};
use convert::pieces::Way;
use convert::{Converted, Settings};
use table::lent::{Lent, Lines};
use table::load::Refused;
use table::states::Code;
use table::valid::Record;
use utf::scheme::Scheme;

// This layer's own numbers. Nothing else happened then.
#[derive(Clone, Copy)]
pub(crate) enum Misuse {
    // A record, a kept state or a result slice is too short.
    Short = 70,
    // A number is no scheme.
    NoScheme = 71,
}

// UTF-8 as a number.
const UTF8: u32 = 0;

// The numbers of a record.
const RECORD: usize = 7;

// The record that the numbers at the front stand for.
#[tactic(auto, unfolding(crate::specs::Exported::if_fewer))]
fn record_in(numbers: &[u32]) -> Option<Record>
    ensures { result ≡ record_of numbers.now }
{
    let &[rows, mappings, min, max, bits, len, subchar1, ..] = numbers else {
        return None;
    };
    Some(Record {
        rows,
        mappings,
        min,
        max,
        subchar: Code { bits, len },
        subchar1,
    })
}

// The record, where there is space for `n` results too.
#[tactic(auto, unfolding(crate::specs::Exported::if_fewer, crate::specs::Exported::if_short))]
fn record_beside(numbers: &[u32], res: &[u64], n: usize) -> Result<Record, Misuse>
    ensures value { result ≡ record_beside n numbers.now res.now }
    ensures space { OnOk result (n ≤ length res.now) }
{
    let held = record_in(numbers).ok_or(Misuse::Short)?;
    if res.len() < n {
        return Err(Misuse::Short);
    }
    Ok(held)
}

// The scheme that a number names. No `TryFrom`: the numbers are of the C interface, and `Scheme` is another crate's.
#[tactic(auto, unfolding(crate::specs::Exported::scheme_in))]
fn scheme_in(number: u32) -> Option<Scheme>
    ensures { result ≡ scheme_in number }
{
    match number {
        0 => Some(Scheme::Utf8),
        1 => Some(Scheme::Utf32Be),
        2 => Some(Scheme::Utf32Le),
        3 => Some(Scheme::Utf32),
        _ => None,
    }
}

// The record and the scheme of a conversion, which has three results.
pub(crate) fn asked(numbers: &[u32], scheme: u32, res: &[u64]) -> Result<(Record, Scheme), Misuse>
    ensures value { result ≡ asked numbers.now scheme res.now }
    ensures space { OnOk result (3 ≤ length res.now) }
{
    let held = record_beside(numbers, res, 3)?;
    let chosen = scheme_in(scheme).ok_or(Misuse::NoScheme)?;
    Ok((held, chosen))
}

// The settings: 0 is off, anything else on.
pub(crate) fn settings_in(fallback: u32, substitute: u32, skip: u32) -> Settings
    ensures { result ≡ settings_in fallback substitute skip }
{
    Settings {
        fallback: fallback != 0,
        substitute: substitute != 0,
        skip: skip != 0,
    }
}

// The number that C is given.
pub(crate) fn number_of(answer: Result<u32, Misuse>) -> u32
    ensures { result ≡ number_of answer }
{
    match answer {
        Ok(number) => number,
        Err(misuse) => misuse as u32,
    }
}

// A table as C lends it: the record still as numbers.
#[derive(Clone, Copy)]
pub(crate) struct RawTable<'a> {
    rec: &'a [u32],
    states: &'a [u16],
    lines: Lines<'a>,
}

impl<'a> RawTable<'a> {
    pub(crate) fn new(
        rec: &'a [u32],
        states: &'a [u16],
        codes: &'a [u32],
        infos: &'a [u32],
        order: &'a [u32],
    ) -> RawTable<'a>
        ensures numbers { result.rec.now ≡ rec.now }
        ensures memory { memory_in result ≡ slices states.now codes.now infos.now order.now }
    {
        let lines = Lines {
            codes,
            infos,
            order,
        };
        RawTable { rec, states, lines }
    }
}

// Writes numbers to the front of a result slice.
pub(crate) fn put_numbers(numbers: &[u64], res: &mut [u64])
    requires { length numbers.now ≤ length res.old }
    ensures { res.new ≡ with_numbers numbers.now res.old }
{
    res[..numbers.len()].copy_from_slice(numbers);
}

// Writes the counts of a conversion and the length of the illegal sequence, and answers its number.
// Not one with `put_pieced`: counts of two types, and a trait of them would be longer than both.
fn put_done(done: Converted, res: &mut [u64]) -> u32
    requires { 3 ≤ length res.old }
    ensures number { result ≡ end_number done.end }
    ensures written { res.new
        ≡ with_numbers (done.read ∷ done.written ∷ end_length done.end ∷ []) res.old }
{
    let illegal = done.end.length();
    let numbers = [done.read as u64, done.written as u64, illegal as u64];
    put_numbers(&numbers, res);
    done.end.number()
}

// Writes a record to the front of a slice.
fn put_record(held: Record, numbers: &mut [u32])
    requires { 7 ≤ length numbers.old }
    ensures { numbers.new ≡ with_numbers (record_numbers held) numbers.old }
{
    let Record {
        rows,
        mappings,
        min,
        max,
        subchar,
        subchar1,
    } = held;
    let Code { bits, len } = subchar;
    numbers[..RECORD].copy_from_slice(&[rows, mappings, min, max, bits, len, subchar1]);
}

// The record of a refused text.
const NO_RECORD: Record = Record {
    rows: 0,
    mappings: 0,
    min: 0,
    max: 0,
    subchar: Code { bits: 0, len: 0 },
    subchar1: 0,
};

// Writes the record and the line of a loaded text, and answers its number; zeros stand for what there is none of.
fn put_loaded(loaded: Result<Record, Refused>, rec: &mut [u32], res: &mut [u64]) -> u32
    requires seven { 7 ≤ length rec.old }
    requires one { 1 ≤ length res.old }
    ensures number { result ≡ answer_number loaded }
    ensures held { rec.new ≡ with_numbers (record_numbers (record_handed loaded)) rec.old }
    ensures line { res.new ≡ with_numbers (loaded_numbers loaded) res.old }
{
    let (held, line) = match loaded {
        Ok(held) => (held, 0),
        Err(refused) => (NO_RECORD, refused.line),
    };
    put_record(held, rec);
    put_numbers(&[line as u64], res);
    table::load::answer_number(loaded)
}

// Loads a table's text into lent memory.
#[tactic(auto, unfolding(crate::specs::Exported::if_short, crate::specs::Exported::if_fewer))]
pub fn oboepond_load(
    text: &[u8],
    rec: &mut [u32],
    states: &mut [u16],
    codes: &mut [u32],
    infos: &mut [u32],
    order: &mut [u32],
    res: &mut [u64],
) -> u32
    ensures { let old =
        slices states.old codes.old infos.old order.old in
        let g = given limits text.now old in
        let numbers = rec.old in
        let before = res.old in
        (result ≡ if_short 1 numbers before 70 (given_number g))
        × (rec.new
        ≡ if_short 1 numbers before numbers (with_numbers (record_numbers (record_handed (loaded_by g))) numbers))
        × (slices states.new codes.new infos.new order.new
        ≡ if_short 1 numbers before old (left_in limits g old))
        × (res.new ≡ if_short 1 numbers before before (with_numbers (loaded_numbers (loaded_by g)) before)) }
{
    if rec.len() < RECORD || res.is_empty() {
        return Misuse::Short as u32;
    }
    let loaded = table::load::load(text, states, codes, infos, order);
    put_loaded(loaded, rec, res)
}

// The test behind number 60.
#[tactic(auto, unfolding(crate::specs::Exported::check_number, crate::specs::Exported::if_fewer))]
pub fn oboepond_check(
    rec: &[u32],
    states: &[u16],
    codes: &[u32],
    infos: &[u32],
    order: &[u32],
) -> u32
    ensures { let m =
        slices states.now codes.now infos.now order.now in
        result ≡ check_number rec.now m }
{
    let Some(rec) = record_in(rec) else {
        return Misuse::Short as u32;
    };
    let lines = Lines {
        codes,
        infos,
        order,
    };
    if table::valid::memory_valid(Lent { rec, states, lines }) {
        return 0;
    }
    60
}

// A conversion, either way.
fn converted(
    way: Way,
    held: Record,
    table: RawTable<'_>,
    input: &[u8],
    output: &mut [u8],
    settings: Settings,
    scheme: Scheme,
) -> Converted
    ensures { let old =
        output.old in
        let run = run_exported way held (memory_in table.entry) settings input.now (length old) scheme in
        (result ≡ converted_of run) × (output.new ≡ put_out run old) }
{
    let lent = Lent {
        rec: held,
        states: table.states,
        lines: table.lines,
    };
    match way {
        Way::ToUnicode => convert::to_unicode(lent, input, output, settings, scheme),
        Way::FromUnicode => convert::from_unicode(lent, input, output, settings, scheme),
    }
}

// The same, with the record and the scheme still as numbers, and its results written.
fn convert_by(
    way: Way,
    table: RawTable<'_>,
    input: &[u8],
    output: &mut [u8],
    scheme: u32,
    settings: Settings,
    res: &mut [u64],
) -> Result<u32, Misuse>
    ensures { let rec =
        table.entry.rec.now in
        let old = output.old in
        let run = run_exported way (record_in rec) (memory_in table.entry) settings input.now (length old) in
        let a = answered rec scheme run old res.old in
        (number_of result ≡ a.number) × (output.new ≡ a.output) × (res.new ≡ a.result) }
{
    let (held, chosen) = asked(table.rec, scheme, res)?;
    let done = converted(way, held, table, input, output, settings, chosen);
    Ok(put_done(done, res))
}

// From a table's bytes to Unicode.
pub fn oboepond_to_unicode(
    rec: &[u32],
    states: &[u16],
    codes: &[u32],
    infos: &[u32],
    order: &[u32],
    input: &[u8],
    output: &mut [u8],
    scheme: u32,
    substitute: u32,
    skip: u32,
    res: &mut [u64],
) -> u32
    ensures { let m =
        slices states.now codes.now infos.now order.now in
        let old = output.old in
        let run = to_exported rec.now m substitute skip input.now (length old) in
        let a = answered rec.now scheme run old res.old in
        (result ≡ a.number) × (output.new ≡ a.output) × (res.new ≡ a.result) }
{
    let table = RawTable::new(rec, states, codes, infos, order);
    let settings = settings_in(0, substitute, skip);
    number_of(convert_by(Way::ToUnicode, table, input, output, scheme, settings, res))
}

// From Unicode to a table's bytes.
pub fn oboepond_from_unicode(
    rec: &[u32],
    states: &[u16],
    codes: &[u32],
    infos: &[u32],
    order: &[u32],
    input: &[u8],
    output: &mut [u8],
    scheme: u32,
    fallback: u32,
    substitute: u32,
    skip: u32,
    res: &mut [u64],
) -> u32
    ensures { let m =
        slices states.now codes.now infos.now order.now in
        let old = output.old in
        let run = from_exported rec.now m fallback substitute skip input.now (length old) in
        let a = answered rec.now scheme run old res.old in
        (result ≡ a.number) × (output.new ≡ a.output) × (res.new ≡ a.result) }
{
    let table = RawTable::new(rec, states, codes, infos, order);
    let settings = settings_in(fallback, substitute, skip);
    number_of(convert_by(
        Way::FromUnicode,
        table,
        input,
        output,
        scheme,
        settings,
        res,
    ))
}

// From a table's bytes to UTF-8.
pub fn oboepond_to_utf8(
    rec: &[u32],
    states: &[u16],
    codes: &[u32],
    infos: &[u32],
    order: &[u32],
    input: &[u8],
    output: &mut [u8],
    substitute: u32,
    skip: u32,
    res: &mut [u64],
) -> u32
    ensures { let m =
        slices states.now codes.now infos.now order.now in
        let old = output.old in
        let run = to_exported rec.now m substitute skip input.now (length old) in
        let a = answered rec.now 0 run old res.old in
        (result ≡ a.number) × (output.new ≡ a.output) × (res.new ≡ a.result) }
{
    oboepond_to_unicode(
        rec, states, codes, infos, order, input, output, UTF8, substitute, skip, res,
    )
}

// From UTF-8 to a table's bytes.
pub fn oboepond_from_utf8(
    rec: &[u32],
    states: &[u16],
    codes: &[u32],
    infos: &[u32],
    order: &[u32],
    input: &[u8],
    output: &mut [u8],
    fallback: u32,
    substitute: u32,
    skip: u32,
    res: &mut [u64],
) -> u32
    ensures { let m =
        slices states.now codes.now infos.now order.now in
        let old = output.old in
        let run = from_exported rec.now m fallback substitute skip input.now (length old) in
        let a = answered rec.now 0 run old res.old in
        (result ≡ a.number) × (output.new ≡ a.output) × (res.new ≡ a.result) }
{
    oboepond_from_unicode(
        rec, states, codes, infos, order, input, output, UTF8, fallback, substitute, skip, res,
    )
}

// Writes the results of an audit call at a position, and answers its number. A refusal writes no entries, the position
// as it came, not finished, count 0.
fn put_audited(audited: Result<Audited, AuditRefusal>, position: Code, res: &mut [u64]) -> u32
    requires { 5 ≤ length res.old }
    ensures number { result ≡ ending_number (ending_of audited) }
    ensures written { res.new ≡ with_numbers (audited_numbers (handed_on position audited)) res.old }
{
    let page = audited.unwrap_or(Audited {
        written: 0,
        position,
        finished: false,
        count: 0,
    });
    let numbers = [
        page.written as u64,
        u64::from(page.position.bits),
        u64::from(page.position.len),
        u64::from(page.finished),
        page.count,
    ];
    put_numbers(&numbers, res);
    match audited {
        Ok(_) => 0,
        Err(refusal) => refusal.number(),
    }
}

// One call of the audit.
#[tactic(auto, unfolding(crate::specs::Exported::if_short, crate::specs::Exported::if_fewer))]
pub fn oboepond_audit(
    rec: &[u32],
    states: &[u16],
    codes: &[u32],
    infos: &[u32],
    order: &[u32],
    fallback: u32,
    bits: u32,
    len: u32,
    allowance: u64,
    entries: &mut [u64],
    res: &mut [u64],
) -> u32
    ensures { let m =
        slices states.now codes.now infos.now order.now in
        let numbers = rec.now in
        let old = entries.old in
        let before = res.old in
        let a = audit_exported numbers m fallback bits len allowance (length old) in
        (result ≡ if_short 5 numbers before 70 (ending_number a.ending))
        × (entries.new ≡ if_short 5 numbers before old (space_after a old))
        × (res.new
        ≡ if_short 5 numbers before before (with_numbers (audited_numbers (page_handed a.page)) before)) }
{
    let held = match record_beside(rec, res, 5) {
        Ok(held) => held,
        Err(misuse) => return misuse as u32,
    };
    let lines = Lines {
        codes,
        infos,
        order,
    };
    let lent = Lent {
        rec: held,
        states,
        lines,
    };
    let position = Code { bits, len };
    let audited = audit::audit(lent, fallback != 0, position, allowance, entries);
    put_audited(audited, position, res)
}
