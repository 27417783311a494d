// The keys of the header and their values, by form.
ghost use Rattle.std.specs.Prelude.{◌≡◌, ◌≤◌, length, drop};
ghost use Rattle.table.specs.Text.{skip_at, quote_end, bytes_at};
ghost use Rattle.table.specs.Header.{key_of, quoted_of, name_in, class_name, class_in};
ghost use Rattle.table.specs.Header.{digit_in, sub_in};
ghost use Rattle.table.specs.Header.{sub1_value, row_in, value_of};
ghost use Rattle.lists.specs.Strings.{same};
ghost use Rattle.table.specs.loops.Ranges.{Ranged, RunAtMost};
ghost use Rattle.table.specs.loops.Coded.{byte_run_of, digit_read, lone_run};

use crate::row::{opener, opener_number, row_forms};
use crate::states::{Code, TOP};
use crate::text::{ByteRun, bytes_run, skip};

// Nothing compares or prints it, so it derives no more.
#[derive(Clone, Copy)]
pub enum Key {
    CodeSetName,
    CurMin,
    CurMax,
    ConvClass,
    SubChar,
    SubChar1,
    State,
    Base,
    Other,
}

// A class that is built, with its number in the header so far.
#[derive(Clone, Copy)]
pub enum Class {
    Sbcs = 1,
    Mbcs = 2,
}

impl Class {
    ghost use Rattle.table.specs.Keys.{number_of_class};

    pub(crate) fn number(self) -> u32
        ensures { result ≡ number_of_class self }
    {
        self as u32
    }
}

// The value of a key. `Unbuilt`: well-formed, not built; `Any`: the key is ignored.
// `Row`: the word that opens it (0 none, 1 `initial`, 2 `surrogates`), whether 14 is given for an entry, whether 15 is.
#[derive(Clone, Copy)]
pub enum Value {
    Any,
    Unbuilt,
    Name,
    Min(u32),
    Max(u32),
    Class(Class),
    Sub(Code),
    Sub1(u32),
    Row(u32, bool, bool),
}

// Whether two texts are the same bytes.
// Kept: a `match` on names, or `==` with `.as_slice()` behind each, is no plainer and leaves goals that no search
// closes.
#[tactic(auto, using(crate::proofs::TextLaws::same_pointwise))]
fn same(text: &[u8], name: &[u8]) -> bool
    ensures { result ≡ same text.now name.now }
{
    // The lengths first: `==` of slices is a call, and most keys differ in length.
    text.len() == name.len() && text == name
}

// A key by its name.
#[tactic(auto, unfolding(crate::specs::Header::key_of))]
pub(crate) fn key_of(k: &[u8]) -> Key
    ensures { result ≡ key_of k.now }
{
    if same(k, b"code_set_name") {
        Key::CodeSetName
    } else if same(k, b"mb_cur_min") {
        Key::CurMin
    } else if same(k, b"mb_cur_max") {
        Key::CurMax
    } else if same(k, b"uconv_class") {
        Key::ConvClass
    } else if same(k, b"subchar") {
        Key::SubChar
    } else if same(k, b"subchar1") {
        Key::SubChar1
    } else if same(k, b"icu:state") {
        Key::State
    } else if same(k, b"icu:base") {
        Key::Base
    } else {
        Key::Other
    }
}

// The place of the next `"`, or the end.
// Kept as a loop: `position(..).unwrap_or(len)` leaves a goal that no search closes.
// Text and place stay two arguments, as `quote_end` (specs) speaks of both.
fn quote_end(s: &[u8], at: usize) -> usize
    requires { at ≤ length s.now }
    ensures { (result ≡ quote_end at (drop at s.now)) × (at ≤ result) × (result ≤ length s.now) }
{
    for i in at..s.len() {
        if s[i] == b'"' {
            return i;
        }
    }
    s.len()
}

// Where a value in quotes starts and ends, if there is nothing else; an open quote ends with the line.
fn find_quoted(v: &[u8]) -> Option<(usize, usize)>
    ensures { (result ≡ quoted_of v.now) × Ranged result (length v.now) }
{
    let p = skip(v, 0);
    if v.len() <= p || v[p] != b'"' {
        return None;
    }
    let a = p + 1;
    let e = quote_end(v, a);
    if skip(v, e + 1) < v.len() {
        return None;
    }
    Some((a, e))
}

// A digit 1 to 4 alone.
#[tactic(auto, using(crate::proofs::TextLaws::scan), unfolding(crate::specs::Header::digit_in))]
fn digit_value(v: &[u8]) -> Option<u32>
    ensures { result ≡ digit_read (digit_in v.now (skip_at v.now 0)) }
{
    let p = skip(v, 0);
    // The digit first: where none stands, the blanks behind its place are not read.
    if p < v.len() && matches!(v[p], b'1'..=b'4') && v.len() <= skip(v, p + 1) {
        Some(v[p] as u32 - 48)
    } else {
        None
    }
}

// A run of at most `most` bytes, and nothing else.
fn lone_run(v: &[u8], most: usize) -> Option<ByteRun>
    ensures { (result ≡ lone_run v.now most (byte_run_of (bytes_at v.now 0))) × RunAtMost result most }
{
    let run = bytes_run(v, 0)?;
    if run.joined || most < run.len || skip(v, run.end) < v.len() {
        return None;
    }
    Some(run)
}

// The value of code_set_name: quoted, not empty.
fn name_value(v: &[u8]) -> Option<Value>
    ensures { result ≡ name_in (quoted_of v.now) }
{
    let (a, e) = find_quoted(v)?;
    if a == e { None } else { Some(Value::Name) }
}

// The classes by name.
#[tactic(auto, unfolding(crate::specs::Header::class_name))]
fn class_name(w: &[u8]) -> Option<Value>
    ensures { result ≡ class_name w.now }
{
    if same(w, b"SBCS") {
        Some(Value::Class(Class::Sbcs))
    } else if same(w, b"MBCS") {
        Some(Value::Class(Class::Mbcs))
    } else if same(w, b"DBCS") || same(w, b"EBCDIC_STATEFUL") {
        Some(Value::Unbuilt)
    } else {
        None
    }
}

// The value of uconv_class.
fn class_value(v: &[u8]) -> Option<Value>
    ensures { result ≡ class_in v.now (quoted_of v.now) }
{
    let (a, e) = find_quoted(v)?;
    class_name(&v[a..e])
}

// The value of subchar: 1 to 4 bytes, and nothing else.
fn sub_value(v: &[u8]) -> Option<Value>
    ensures { result ≡ sub_in v.now (bytes_at v.now 0) }
{
    let run = lone_run(v, 4)?;
    let code = Code {
        bits: run.bits,
        len: run.len as u32,
    };
    Some(Value::Sub(code))
}

// The value of subchar1: one byte, and nothing else.
fn sub1_value(v: &[u8]) -> Option<Value>
    ensures { result ≡ sub1_value v.now (bytes_at v.now 0) }
{
    let run = lone_run(v, 1)?;
    Some(Value::Sub1(run.bits / TOP))
}

// The value of icu:state: a row.
#[tactic(auto, unfolding(crate::specs::Header::row_in, crate::specs::Header::row_from))]
fn row_value(s: &[u8]) -> Option<Value>
    ensures { result ≡ row_in s.now }
{
    let p = skip(s, 0);
    if s.len() <= p {
        return Some(Value::Row(0, false, false));
    }
    let (word, q) = opener(s, p)?;
    let f = row_forms(s, q)?;
    Some(Value::Row(opener_number(word), f.later, f.over))
}

// The value of a key, by the text after it.
// A `match` and no closure: each key has one reader, chosen here alone.
pub(crate) fn value_of(k: Key, v: &[u8]) -> Option<Value>
    ensures { result ≡ value_of k v.now }
{
    match k {
        Key::CodeSetName => name_value(v),
        Key::CurMin => Some(Value::Min(digit_value(v)?)),
        Key::CurMax => Some(Value::Max(digit_value(v)?)),
        Key::ConvClass => class_value(v),
        Key::SubChar => sub_value(v),
        Key::SubChar1 => sub1_value(v),
        Key::State => row_value(v),
        Key::Base => Some(Value::Unbuilt),
        Key::Other => Some(Value::Any),
    }
}
