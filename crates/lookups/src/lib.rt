// The two look-ups of `table`, many at a time, exported for the tests in tests/ and the benchmarks in bench/, which
// link liblookups.a. No part of the library that users link (libcabi.a).
#![tactic(auto)]

ghost use Rattle.std.specs.Prelude.{◌≡◌, ◌≤◌};
ghost use Rattle.table.specs.Lookup.{indicator_of};
ghost use Rattle.lookups.specs.Lookups.{record_in, code_in, code_number, point_number, shorter};
ghost use Rattle.lookups.specs.Lookups.{AnswersCode, AnswersPoint, AllAnswered};

use table::lent::Lines;
use table::lookup::{Mapping, Use, find_code, find_point};
use table::states::Code;
use table::valid::Record;

// 2^32: the unit of what stands above the lower 32 bits.
const UPPER: u64 = 4294967296;

// The record that seven numbers stand for.
// Seven numbers, as C hands them over one by one.
fn record_in(rows: u32, mappings: u32, min: u32, max: u32, bits: u32, len: u32, sub1: u32) -> Record
    ensures { result ≡ record_in rows mappings min max bits len sub1 }
{
    Record {
        rows,
        mappings,
        min,
        max,
        subchar: Code { bits, len },
        subchar1: sub1,
    }
}

// The code that a number asks for.
// No `From`: the number's form is of this interface, and `Code` is another crate's.
fn code_in(number: u64) -> Code
    ensures { result ≡ code_in number }
{
    Code {
        bits: (number % UPPER) as u32,
        len: (number / UPPER) as u32,
    }
}

// The indicator's digit of a use.
// `Use` has no numbers of its own: the digits are those of a table's text.
fn digit_of(used: Use) -> u64
    ensures { (result ≡ indicator_of used) × (result ≤ 3) }
{
    match used {
        Use::RoundTrip => 0,
        Use::Fallback => 1,
        Use::Substituted => 2,
        Use::ReverseFallback => 3,
    }
}

// The line that reads a code, as a number.
// 0 for no line is what C is given.
fn code_number(found: Option<Mapping>) -> u64
    ensures { result ≡ code_number found }
{
    match found {
        Some(line) => line.point as u64 + UPPER * (1 + digit_of(line.used)),
        None => 0,
    }
}

// The line of a code point, as a number.
fn point_number(found: Option<Mapping>) -> u64
    ensures { result ≡ point_number found }
{
    match found {
        Some(line) => line.code.bits as u64 + UPPER * line.code.len as u64,
        None => 0,
    }
}

// One look-up of a code.
fn answer_code(rec: Record, codes: &[u32], infos: &[u32], wanted: u64) -> u64
    ensures { AnswersCode rec codes.now infos.now wanted result }
{
    // A search by code reads no order.
    let lines = Lines {
        codes,
        infos,
        order: &[],
    };
    code_number(find_code(rec, lines, code_in(wanted)))
}

// One look-up of a code point.
fn answer_point(rec: Record, codes: &[u32], infos: &[u32], order: &[u32], wanted: u32) -> u64
    ensures { AnswersPoint rec codes.now infos.now order.now wanted result }
{
    point_number(find_point(
        rec,
        Lines {
            codes,
            infos,
            order,
        },
        wanted,
    ))
}

// The shorter of two lengths.
fn shorter_of(a: usize, b: usize) -> usize
    ensures { (result ≡ shorter a b) × (result ≤ a) × (result ≤ b) }
{
    if a < b { a } else { b }
}

// Looks up each code that is wanted.
fn each_code(rec: Record, codes: &[u32], infos: &[u32], wanted: &[u64], found: &mut [u64])
    ensures { AllAnswered (AnswersCode rec codes.now infos.now)
        wanted.now found.old found.new }
{
    let n = shorter_of(wanted.len(), found.len());
    for k in 0..n {
        found[k] = answer_code(rec, codes, infos, wanted[k]);
    }
}

// Looks up codes, as many as both slices hold. A code is asked for as its bits + 2^32 * its length; the answer is 0 for
// no line, else the line's code point + 2^32 * (1 + its indicator's digit).
// C lends slices and numbers one by one, and has a name for each look-up.
#[unsafe(no_mangle)]
pub extern "C" fn lookups_codes(
    rows: u32,
    mappings: u32,
    min: u32,
    max: u32,
    sub_bits: u32,
    sub_len: u32,
    sub1: u32,
    codes: &[u32],
    infos: &[u32],
    wanted: &[u64],
    found: &mut [u64],
)
    ensures { let rec = record_in rows mappings min max sub_bits sub_len sub1 in
        AllAnswered (AnswersCode rec codes.now infos.now)
        wanted.now found.old found.new }
{
    let rec = record_in(rows, mappings, min, max, sub_bits, sub_len, sub1);
    each_code(rec, codes, infos, wanted, found);
}

// Looks up each code point that is wanted.
fn each_point(
    rec: Record,
    codes: &[u32],
    infos: &[u32],
    order: &[u32],
    wanted: &[u32],
    found: &mut [u64],
)
    ensures { AllAnswered (AnswersPoint rec codes.now infos.now order.now)
        wanted.now found.old found.new }
{
    let n = shorter_of(wanted.len(), found.len());
    for k in 0..n {
        found[k] = answer_point(rec, codes, infos, order, wanted[k]);
    }
}

// Looks up code points, as many as both slices hold. The answer is 0 for no line, else the bits of the line's code
// + 2^32 * its length.
#[unsafe(no_mangle)]
pub extern "C" fn lookups_points(
    rows: u32,
    mappings: u32,
    min: u32,
    max: u32,
    sub_bits: u32,
    sub_len: u32,
    sub1: u32,
    codes: &[u32],
    infos: &[u32],
    order: &[u32],
    wanted: &[u32],
    found: &mut [u64],
)
    ensures { let rec = record_in rows mappings min max sub_bits sub_len sub1 in
        AllAnswered (AnswersPoint rec codes.now infos.now order.now)
        wanted.now found.old found.new }
{
    let rec = record_in(rows, mappings, min, max, sub_bits, sub_len, sub1);
    each_point(rec, codes, infos, order, wanted, found);
}
