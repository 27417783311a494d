// The functions for C and Rust that convert in pieces: the kept state is five numbers in a lent slice.
ghost use Rattle.std.specs.Prelude.{if◌then◌else◌, ◌≡◌, false, [], ◌∷◌, ◌≤◌, length, Some, OnSome, option_copied};
ghost use Rattle.table.specs.Slices.{slices};
ghost use Rattle.convert.specs.Run.{put_bytes};
ghost use Rattle.convert.specs.Pieces.{state_at, answered_of, piece_number, piece_length};
ghost use Rattle.convert.specs.loops.Carried.{is_refused, FewBytes};
ghost use Rattle.convert.specs.declared.pieces.Way.TheVariants.{ToUnicode, FromUnicode};
ghost use Rattle.cabi.specs.Exported.{with_numbers, settings_in, record_in, kept_in, kept_numbers};
ghost use Rattle.cabi.specs.Exported.{kept_after, standing_number, standing_length, piece_answered};
ghost use Rattle.cabi.specs.Exported.{piece_exported, close_exported};
ghost use Rattle.cabi.specs.loops.Asked.{number_of, memory_in, kept_of, kept_from, place_of, standing_of};
ghost use Rattle.cabi.specs.loops.Asked.{call_exported};

use crate::{Misuse, RawTable};
use convert::pieces::{Kept, PieceEnd, Pieced, Way};
use convert::{RunEnd, Settings};
use table::lent::Lent;
use table::states::Code;
use table::valid::Record;
use utf::scheme::Scheme;
use utf::utf8::Stop;
use utf::utf32::ByteOrder;

// The numbers of a kept state.
const KEPT: usize = 5;

// A state that no call hands back.
// No Option: C is answered 42 for it, by the test that all kept states pass.
const NO_KEPT: Kept = Kept {
    bytes: Code { bits: 0, len: 4 },
    mark: None,
    standing: None,
};

// The place of the mark, where a number stands for one. (No `TryFrom`, as for the scheme.)
fn mark_in(number: u32) -> Option<Option<ByteOrder>>
    ensures { result ≡ place_of number }
{
    match number {
        0 => Some(None),
        1 => Some(Some(ByteOrder::Big)),
        2 => Some(Some(ByteOrder::Little)),
        _ => None,
    }
}

// The answer that stands, where a number and a length stand for one or for none.
// The numbers are C's, as for the scheme.
fn standing_in(number: u32, length: u32) -> Option<Option<Stop>>
    ensures { result ≡ standing_of number length }
{
    match (number, length) {
        (0, 0) => Some(None),
        (51, 0) => Some(Some(Stop::CutShort)),
        (52, n) => Some(Some(Stop::Illegal(n as usize))),
        (53, 0) => Some(Some(Stop::Unassigned)),
        _ => None,
    }
}

// The kept state that five numbers stand for, if they stand for one.
fn kept_by(bytes: Code, mark: u32, number: u32, length: u32) -> Option<Kept>
    ensures { result ≡ kept_from bytes (place_of mark) (standing_of number length) }
{
    let mark = mark_in(mark)?;
    let standing = standing_in(number, length)?;
    Some(Kept {
        bytes,
        mark,
        standing,
    })
}

// The kept state that the numbers at the front stand for.
#[tactic(auto, using(crate::proofs::Kept::kept_in_parts), unfolding(crate::specs::Exported::if_fewer))]
fn kept_in(numbers: &[u32]) -> Option<Kept>
    ensures value { result ≡ kept_of numbers.now }
    ensures enough { OnSome result (5 ≤ length numbers.now) }
{
    let &[bits, len, mark, number, length, ..] = numbers else {
        return None;
    };
    Some(kept_by(Code { bits, len }, mark, number, length).unwrap_or(NO_KEPT))
}

// The number of the place of the mark.
fn mark_number(mark: Option<ByteOrder>) -> u32
    ensures { result ≡ state_at mark }
{
    match mark {
        None => 0,
        Some(ByteOrder::Big) => 1,
        Some(ByteOrder::Little) => 2,
    }
}

// The number of the answer that stands, or 0.
fn standing_number(standing: Option<Stop>) -> u32
    ensures { result ≡ standing_number standing }
{
    match standing {
        None => 0,
        Some(stop) => stop.number(),
    }
}

// The length beside a 52 that stands, or 0.
// 0 and no Option: C is given 0 beside each other answer.
fn standing_length(standing: Option<Stop>) -> u32
    requires { FewBytes standing }
    ensures { result ≡ standing_length standing }
{
    match standing {
        Some(Stop::Illegal(n)) => n as u32,
        _ => 0,
    }
}

// Writes a kept state to the front of a slice.
fn put_kept(kept: Kept, numbers: &mut [u32])
    requires five { 5 ≤ length numbers.old }
    requires few { FewBytes kept.standing }
    ensures { numbers.new ≡ with_numbers (kept_numbers kept) numbers.old }
{
    let Code { bits, len } = kept.bytes;
    let place = mark_number(kept.mark);
    let number = standing_number(kept.standing);
    let length = standing_length(kept.standing);
    numbers[..KEPT].copy_from_slice(&[bits, len, place, number, length]);
}

// Whether a call ended by 60 or 42.
fn is_refused(end: PieceEnd) -> bool
    ensures { result ≡ is_refused end }
{
    matches!(end, PieceEnd::BadKept | PieceEnd::Ended(RunEnd::BadTable))
}

// Writes the kept state back, but where the call was refused.
fn keep(done: Pieced, numbers: &mut [u32])
    requires five { 5 ≤ length numbers.old }
    requires few { is_refused done.end ≡ false → FewBytes done.kept.standing }
    ensures { numbers.new ≡ kept_after done.end done.kept numbers.old }
{
    if !is_refused(done.end) {
        put_kept(done.kept, numbers);
    }
}

// Writes the counts of a call and the length of the illegal sequence, and answers its number.
fn put_pieced(done: Pieced, res: &mut [u64]) -> u32
    requires { 3 ≤ length res.old }
    ensures number { result ≡ piece_number done.end }
    ensures written { res.new
        ≡ with_numbers (done.read ∷ done.written ∷ piece_length done.end ∷ []) res.old }
{
    let illegal = done.end.length();
    let numbers = [done.read as u64, done.written as u64, illegal as u64];
    crate::put_numbers(&numbers, res);
    done.end.number()
}

// A call on a piece; the closing call where there is none.
fn called(
    way: Way,
    held: Record,
    table: RawTable<'_>,
    came: Kept,
    piece: Option<&[u8]>,
    output: &mut [u8],
    settings: Settings,
    scheme: Scheme,
) -> Pieced
    ensures { let old =
        output.old in
        let given = option_copied piece.entry in
        let a = call_exported way held (memory_in table.entry) came settings given (length old) scheme in
        (result ≡ answered_of a) × (output.new ≡ put_bytes a.bytes old)
        × (is_refused result.end ≡ false → FewBytes result.kept.standing) }
{
    let lent = Lent {
        rec: held,
        states: table.states,
        lines: table.lines,
    };
    match piece {
        Some(input) => {
            convert::pieces::convert_piece(way, lent, came, input, output, settings, scheme)
        }
        None => convert::pieces::close(way, lent, came, output, settings, scheme),
    }
}

// The same, with the record, the kept state and the scheme still as numbers, and what it gives written.
fn call_by(
    way: Way,
    table: RawTable<'_>,
    kept: &mut [u32],
    piece: Option<&[u8]>,
    output: &mut [u8],
    scheme: u32,
    settings: Settings,
    res: &mut [u64],
) -> Result<u32, Misuse>
    ensures { let rec =
        table.entry.rec.now in
        let old = output.old in
        let before = kept.old in
        let given = option_copied piece.entry in
        let m = memory_in table.entry in
        let run = call_exported way (record_in rec) m (kept_in before) settings given (length old) in
        let a = piece_answered rec scheme run before old res.old in
        (number_of result ≡ a.number) × (kept.new ≡ a.kept) × (output.new ≡ a.output)
        × (res.new ≡ a.result) }
{
    let came = kept_in(kept).ok_or(Misuse::Short)?;
    let (held, chosen) = crate::asked(table.rec, scheme, res)?;
    let done = called(way, held, table, came, piece, output, settings, chosen);
    keep(done, kept);
    Ok(put_pieced(done, res))
}

// One call on a piece, from a table's bytes to Unicode.
pub fn oboepond_to_unicode_piece(
    rec: &[u32],
    states: &[u16],
    codes: &[u32],
    infos: &[u32],
    order: &[u32],
    kept: &mut [u32],
    input: &[u8],
    output: &mut [u8],
    scheme: u32,
    substitute: u32,
    skip: u32,
    res: &mut [u64],
) -> u32
    ensures { let m =
        slices states.now codes.now infos.now order.now in
        let old = output.old in
        let before = kept.old in
        let settings = settings_in 0 substitute skip in
        let run = piece_exported ToUnicode rec.now m before settings input.now (length old) in
        let a = piece_answered rec.now scheme run before old res.old in
        (result ≡ a.number) × (kept.new ≡ a.kept) × (output.new ≡ a.output)
        × (res.new ≡ a.result) }
{
    let table = RawTable::new(rec, states, codes, infos, order);
    let settings = crate::settings_in(0, substitute, skip);
    crate::number_of(call_by(
        Way::ToUnicode,
        table,
        kept,
        Some(input),
        output,
        scheme,
        settings,
        res,
    ))
}

// One call on a piece, from Unicode to a table's bytes.
pub fn oboepond_from_unicode_piece(
    rec: &[u32],
    states: &[u16],
    codes: &[u32],
    infos: &[u32],
    order: &[u32],
    kept: &mut [u32],
    input: &[u8],
    output: &mut [u8],
    scheme: u32,
    fallback: u32,
    substitute: u32,
    skip: u32,
    res: &mut [u64],
) -> u32
    ensures { let m =
        slices states.now codes.now infos.now order.now in
        let old = output.old in
        let before = kept.old in
        let settings = settings_in fallback substitute skip in
        let run = piece_exported FromUnicode rec.now m before settings input.now (length old) in
        let a = piece_answered rec.now scheme run before old res.old in
        (result ≡ a.number) × (kept.new ≡ a.kept) × (output.new ≡ a.output)
        × (res.new ≡ a.result) }
{
    let table = RawTable::new(rec, states, codes, infos, order);
    let settings = crate::settings_in(fallback, substitute, skip);
    crate::number_of(call_by(
        Way::FromUnicode,
        table,
        kept,
        Some(input),
        output,
        scheme,
        settings,
        res,
    ))
}

// The closing call, from a table's bytes to Unicode.
pub fn oboepond_to_unicode_close(
    rec: &[u32],
    states: &[u16],
    codes: &[u32],
    infos: &[u32],
    order: &[u32],
    kept: &mut [u32],
    output: &mut [u8],
    scheme: u32,
    substitute: u32,
    skip: u32,
    res: &mut [u64],
) -> u32
    ensures { let m =
        slices states.now codes.now infos.now order.now in
        let old = output.old in
        let before = kept.old in
        let settings = settings_in 0 substitute skip in
        let run = close_exported ToUnicode rec.now m before settings (length old) in
        let a = piece_answered rec.now scheme run before old res.old in
        (result ≡ a.number) × (kept.new ≡ a.kept) × (output.new ≡ a.output)
        × (res.new ≡ a.result) }
{
    let table = RawTable::new(rec, states, codes, infos, order);
    let settings = crate::settings_in(0, substitute, skip);
    crate::number_of(call_by(
        Way::ToUnicode,
        table,
        kept,
        None,
        output,
        scheme,
        settings,
        res,
    ))
}

// The closing call, from Unicode to a table's bytes.
pub fn oboepond_from_unicode_close(
    rec: &[u32],
    states: &[u16],
    codes: &[u32],
    infos: &[u32],
    order: &[u32],
    kept: &mut [u32],
    output: &mut [u8],
    scheme: u32,
    fallback: u32,
    substitute: u32,
    skip: u32,
    res: &mut [u64],
) -> u32
    ensures { let m =
        slices states.now codes.now infos.now order.now in
        let old = output.old in
        let before = kept.old in
        let settings = settings_in fallback substitute skip in
        let run = close_exported FromUnicode rec.now m before settings (length old) in
        let a = piece_answered rec.now scheme run before old res.old in
        (result ≡ a.number) × (kept.new ≡ a.kept) × (output.new ≡ a.output)
        × (res.new ≡ a.result) }
{
    let table = RawTable::new(rec, states, codes, infos, order);
    let settings = crate::settings_in(fallback, substitute, skip);
    crate::number_of(call_by(
        Way::FromUnicode,
        table,
        kept,
        None,
        output,
        scheme,
        settings,
        res,
    ))
}
