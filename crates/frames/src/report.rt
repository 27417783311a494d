// The table's line, and a line for each frame of an input that comes in pieces.
ghost use Rattle.std.specs.Prelude.{◌≡◌, ◌<◌, ◌≤◌, length, take, drop};
ghost use Rattle.std.proofs.Math.Option.{some};
ghost use Rattle.table.specs.Held.{memory_of};
ghost use Rattle.frames.specs.Lines.{parsed, put_into, put_count, Puts};
ghost use Rattle.frames.specs.Stream.{partial_in, last_line, partial_of};
ghost use Rattle.frames.specs.Report.{table_line, convert_in, frame_line, line_report, lines_report, reporting_of};
ghost use Rattle.frames.specs.Report.{progress_of};

use crate::lines;
use crate::lines::Taken;
use table::lent::Lent;
use table::load::Refused;
use table::valid::Record;
use utf::scheme::Scheme;

// How far a call came through a piece of input: the place after the bytes it took, the next line so far, bytes put.
#[derive(Clone, Copy)]
pub struct Progress {
    pub at: usize,
    pub held: Option<usize>,
    pub put: usize,
}

// Working space for a frame's bytes, and for what they become.
// Arrays of fixed size, and a count beside lent memory: there is no heap.
#[derive(Drop)]
struct Space {
    frame: [u8; 4096],
    text: [u8; 16384],
}

// How frames are converted: fallback off, substitute on, skipping off.
const SETTINGS: convert::Settings = convert::Settings {
    fallback: false,
    substitute: true,
    skip: false,
};

// Puts the line of a frame. `text` is working space.
fn report_frame(
    lent: Lent<'_>,
    frame: &[u8],
    text: &mut [u8],
    out: &mut [u8],
    at: usize,
) -> Option<usize>
    requires { length text.old ≡ 16384 }
    ensures { let shown = frame_line (convert_in lent.entry.rec (memory_of lent.entry)) (some frame.now) in
        Puts out.old at shown result out.new }
{
    let done = convert::to_unicode(lent, frame, text, SETTINGS, Scheme::Utf8);
    lines::put_answer(done.end.number(), done.read, &text[..done.written], out, at)
}

// Puts the line of the frame whose digits a line holds, or BAD FRAME. `space` is working space.
fn report_line(
    lent: Lent<'_>,
    line: &[u8],
    space: &mut Space,
    out: &mut [u8],
    at: usize,
) -> Option<usize>
    ensures { let shown = frame_line (convert_in lent.entry.rec (memory_of lent.entry)) (parsed line.now) in
        Puts out.old at shown result out.new }
{
    match lines::parse_frame(line, &mut space.frame) {
        Some(n) => report_frame(lent, &space.frame[..n], &mut space.text, out, at),
        None => lines::put_fixed(b"BAD FRAME", out, at),
    }
}

// Puts the report line of the line that `line` and `held` give. `space` is working space.
fn report_held(
    lent: Lent<'_>,
    line: &[u8],
    held: Option<usize>,
    space: &mut Space,
    out: &mut [u8],
    at: usize,
) -> Option<usize>
    ensures { let shown = line_report (convert_in lent.entry.rec (memory_of lent.entry)) (partial_in line.now held) in
        Puts out.old at shown result out.new }
{
    let Some(len) = held else {
        return lines::put_fixed(b"BAD FRAME", out, at);
    };
    if line.len() < len {
        return lines::put_fixed(b"BAD FRAME", out, at);
    }
    report_line(lent, &line[..len], space, out, at)
}

// The line so far; a count past the memory means a line that is too long.
fn normalise(line: &[u8], held: Option<usize>) -> Option<usize>
    ensures count { result ≡ partial_of (partial_in line.now held) }
    ensures same_line { partial_in line.now result ≡ partial_in line.now held }
{
    if line.len() < held? {
        return None;
    }
    held
}

// Takes the bytes of `chunk` from `from` on, line by line. `space` is working space. The loop goes from line to line
// and has no index to count; a call of `take_line` says where the next line begins.
fn take_frames(
    lent: Lent<'_>,
    chunk: &[u8],
    from: usize,
    line: &mut [u8],
    held: Option<usize>,
    space: &mut Space,
    out: &mut [u8],
) -> Progress
    ensures { let old = line.old in
        let rest = drop from chunk.now in
        let room = length out.old in
        let write = line_report (convert_in lent.entry.rec (memory_of lent.entry)) in
        let call = reporting_of write old (partial_in old held) rest room in
        (result ≡ progress_of from call)
        × (line.new ≡ call.memory)
        × (out.new ≡ put_into out.old 0 call.text) }
{
    let mut done = Progress {
        at: from,
        held: normalise(line, held),
        put: 0,
    };
    while done.at < chunk.len() {
        match lines::take_line(chunk, done.at, line, done.held) {
            Taken::More(held) => {
                return Progress {
                    at: chunk.len(),
                    held,
                    put: done.put,
                };
            }
            Taken::Line(next, held) => {
                let Some(put) = report_held(lent, line, held, space, out, done.put) else {
                    return Progress {
                        at: next - 1,
                        held,
                        put: done.put,
                    };
                };
                done = Progress {
                    at: next,
                    held: lines::EMPTY,
                    put,
                };
            }
        }
    }
    done
}

// Takes the bytes of `chunk` from `from` on, and puts a report line for each line that ends, to the front of `out`. If
// a report line does not fit, the call stops before the LF of its line and keeps that line for the next call. The
// widest report line has 32,777 bytes.
pub fn report_frames(
    lent: Lent<'_>,
    chunk: &[u8],
    from: usize,
    line: &mut [u8],
    held: Option<usize>,
    out: &mut [u8],
) -> Progress
    ensures call { let old = line.old in
        let rest = drop from chunk.now in
        let room = length out.old in
        let write = line_report (convert_in lent.entry.rec (memory_of lent.entry)) in
        let call = reporting_of write old (partial_in old held) rest room in
        (result ≡ progress_of from call)
        × (line.new ≡ call.memory)
        × (out.new ≡ put_into out.old 0 call.text) }
    ensures moves_on { (from < length chunk.now → 32777 ≤ length out.old → from < result.at)
        × (from ≤ length chunk.now → result.at ≤ length chunk.now) }
    ensures put_in_bounds { (result.put ≤ length out.new) × (result.put ≡ length (take result.put out.new)) }
{
    let mut space = Space {
        frame: [0u8; 4096],
        text: [0u8; 16384],
    };
    take_frames(lent, chunk, from, line, held, &mut space, out)
}

// Puts the report line of the last line, if it has bytes and no LF, to the front of `out`; answers how many bytes.
pub fn report_last(lent: Lent<'_>, line: &[u8], held: Option<usize>, out: &mut [u8]) -> usize
    ensures report { let write = line_report (convert_in lent.entry.rec (memory_of lent.entry)) in
        let shown = lines_report write (last_line (partial_in line.now held)) in
        (result ≡ put_count out.old shown)
        × (out.new ≡ put_into out.old 0 shown) }
    ensures put_in_bounds { (result ≤ length out.new) × (result ≡ length (take result out.new)) }
{
    let mut space = Space {
        frame: [0u8; 4096],
        text: [0u8; 16384],
    };
    let kept = normalise(line, held);
    if kept == lines::EMPTY {
        return 0;
    }
    let put = report_held(lent, line, kept, &mut space, out, 0);
    lines::count_put(put)
}

// Puts the first line of the report, that of the table, to the front of `out`; answers how many bytes.
pub fn report_table(loaded: Result<Record, Refused>, out: &mut [u8]) -> usize
    ensures report { (result ≡ put_count out.old (table_line loaded))
        × (out.new ≡ put_into out.old 0 (table_line loaded)) }
    ensures put_in_bounds { (result ≤ length out.new) × (result ≡ length (take result out.new)) }
{
    let put = match loaded {
        Ok(held) => lines::put_ok(held.mappings, out, 0),
        Err(refused) => lines::put_refused(refused.why.number(), refused.line, out, 0),
    };
    lines::count_put(put)
}
