// The two ways of a conversion: what becomes of one sequence, and the run, which is one for both.
ghost use Rattle.std.specs.Prelude.{◌≡◌, ◌≤◌, length};
ghost use Rattle.utf.specs.Scheme.{Side, side_of};
ghost use Rattle.table.specs.Limits.{limits};
ghost use Rattle.table.specs.Rules.{Keeps};
ghost use Rattle.convert.specs.Run.{run_of, converted_of, put_out};
ghost use Rattle.convert.specs.Step.{encoded, to_step, from_step};
ghost use Rattle.convert.specs.loops.Inner.{sent_of};
ghost use Rattle.convert.specs.loops.Ways.{Advances};

use crate::{
    Converted, RunEnd, Sent, Settings, code_for, ended, hints, illegal_point, one_unit, pack,
    put_code, read_as, sent_stop, unassigned, write_as,
};
use table::lent::Table;
use table::states::{Code, Cut, CutStop};
use utf::scheme::Scheme;
use utf::utf8::{PutError, Sequence, Stop};

// An input of fewer bytes is converted without hints: filling them in would cost more than they save.
const SHORT: usize = 64;

// How many bytes a sequence has, and how many were written for it.
#[derive(Clone, Copy)]
pub struct Moved {
    pub read: usize,
    pub written: usize,
}

// One of the two ways.
pub(crate) trait Conversion {
    ghost use Rattle.std.specs.Prelude.{◌≡◌, length};
    ghost use Rattle.convert.specs.Run.{SequenceStep};
    ghost use Rattle.convert.specs.loops.Ways.{Advances};

    ghost step: { Self → SequenceStep };

    // Fills in the hints of this way.
    fn fill_hints(&self, hints: &mut [u16])
        ensures { length hints.new ≡ length hints.old };

    // One sequence, from the front of `s`: what it gives is put into `out` from `at` on. Or how the run ends there.
    fn advance(&self, hints: &[u16], s: &[u8], out: &mut [u8], at: usize) -> Result<Moved, RunEnd>
        ensures { Advances (step self.now) s.now out.old at result out.new };
}

// From a table's bytes to Unicode.
#[derive(Drop)]
pub(crate) struct ToUnicode<'a> {
    pub(crate) table: Table<'a>,
    pub(crate) settings: Settings,
    pub(crate) scheme: Scheme,
}

impl<'a> ToUnicode<'a> {
    // One sequence of the table's bytes, the same on every side of Unicode.
    fn sequence(&self, hints: &[u16], s: &[u8]) -> Sequence
        ensures step { (u : Side) → encoded u 0 result ≡ to_step u self.now.table self.now.settings 0 s.now }
        ensures keeps { Keeps limits self.now.table }
    {
        match self.table.cut(s) {
            Cut::Stopped(CutStop::CutShort) => Sequence::Stopped(Stop::CutShort),
            Cut::Stopped(CutStop::Illegal(n)) => illegal_point(n, self.settings.skip),
            Cut::Complete(n, _) => {
                let bits = pack(s, n);
                let at = hints::hint_at(hints, hints::code_slot(bits));
                let code = Code {
                    bits,
                    len: n as u32,
                };
                match read_as(self.table.find_code_near(code, at)) {
                    Some(c) => Sequence::Scalar(c, n),
                    None => unassigned(self.table.subchar1(), n, self.settings.substitute),
                }
            }
        }
    }
}

impl<'a> Conversion for ToUnicode<'a> {
    ghost use Rattle.utf.specs.Scheme.{side_of};
    ghost use Rattle.convert.specs.Step.{to_step};

    ghost step = { λ w. to_step (side_of w.scheme) w.table w.settings };

    fn fill_hints(&self, hints: &mut [u16]) {
        hints::fill(hints::code_slot, self.table.line_codes(), hints);
    }

    fn advance(&self, hints: &[u16], s: &[u8], out: &mut [u8], at: usize) -> Result<Moved, RunEnd> {
        match self.sequence(hints, s) {
            Sequence::Stopped(stop) => Err(RunEnd::Stopped(stop)),
            Sequence::Scalar(c, read) => match self.scheme.encode(c, out, at) {
                Ok(written) => Ok(Moved { read, written }),
                Err(PutError::NoRoom) => Err(RunEnd::OutputFull),
                // Not with a table (T6).
                Err(PutError::NotScalar) => Err(RunEnd::BadTable),
            },
        }
    }
}

// From Unicode, behind any mark, to a table's bytes.
#[derive(Drop)]
pub(crate) struct FromUnicode<'a> {
    pub(crate) table: Table<'a>,
    pub(crate) settings: Settings,
    pub(crate) scheme: Scheme,
}

impl<'a> FromUnicode<'a> {
    // One sequence of Unicode.
    fn sequence(&self, hints: &[u16], s: &[u8]) -> Sent
        ensures { sent_of result ≡ from_step (side_of self.now.scheme) self.now.table self.now.settings 0 s.now }
    {
        match self.scheme.decode(s) {
            Sequence::Stopped(stop) => {
                let why = one_unit(stop, self.scheme);
                sent_stop(self.table.subchar(), why, self.settings.skip)
            }
            Sequence::Scalar(c, n) => {
                let at = hints::hint_at(hints, hints::point_slot(c));
                let found = self.table.find_point_near(c, at);
                code_for(
                    &self.table,
                    write_as(found, self.settings.fallback),
                    n,
                    self.settings,
                )
            }
        }
    }
}

impl<'a> Conversion for FromUnicode<'a> {
    ghost use Rattle.utf.specs.Scheme.{side_of};
    ghost use Rattle.convert.specs.Step.{from_step};

    ghost step = { λ w. from_step (side_of w.scheme) w.table w.settings };

    fn fill_hints(&self, hints: &mut [u16]) {
        hints::fill(hints::written_slot, self.table.line_infos(), hints);
    }

    fn advance(&self, hints: &[u16], s: &[u8], out: &mut [u8], at: usize) -> Result<Moved, RunEnd> {
        match self.sequence(hints, s) {
            Sent::Stopped(stop) => Err(RunEnd::Stopped(stop)),
            Sent::Code(bits, len, read) => {
                if put_code(bits, len, out, at) {
                    Ok(Moved {
                        read,
                        written: len as usize,
                    })
                } else {
                    Err(RunEnd::OutputFull)
                }
            }
        }
    }
}

// The run through a whole input. Inlined into its callers it took up to 1.7 times as long. The way is taken by value
// and holds its table so: behind a reference, the table's slices are read again at each turn.
#[inline(never)]
fn run_by<W: Conversion + Drop>(way: W, hints: &[u16], input: &[u8], out: &mut [u8]) -> Converted
    ensures answer { result ≡ converted_of (run_of (W.step way) 0 0 input.now (length out.old)) }
    ensures written { out.new ≡ put_out (run_of (W.step way) 0 0 input.now (length out.old)) out.old }
    ensures within { result.read ≤ length input.now }
{
    let mut at = 0;
    let mut w = 0;
    // Kept as `while`: each turn goes on by as many bytes as the sequence has, so there is no plain index.
    while at < input.len() {
        match way.advance(hints, &input[at..], out, w) {
            // Field by field: copied whole, the two numbers would go through memory.
            Ok(Moved { read, written }) => {
                at += read;
                w += written;
            }
            Err(end) => return ended(end, at, w),
        }
    }
    ended(RunEnd::AllRead, at, w)
}

// The same, with hints if the input is long enough to repay filling them in.
// Hints are an array of fixed size: there is no heap.
pub(crate) fn run<W: Conversion + Drop>(way: W, input: &[u8], out: &mut [u8]) -> Converted
    ensures answer { result ≡ converted_of (run_of (W.step way) 0 0 input.now (length out.old)) }
    ensures written { out.new ≡ put_out (run_of (W.step way) 0 0 input.now (length out.old)) out.old }
    ensures within { result.read ≤ length input.now }
{
    if input.len() < SHORT {
        return run_by(way, &[], input, out);
    }
    let mut filled = [0u16; hints::SLOTS];
    way.fill_hints(&mut filled);
    run_by(way, &filled, input, out)
}
