// What a caller lends for a table, and a table: lent memory that passed the test behind number 60, seen as the table
// that it holds.
ghost use Rattle.std.specs.Prelude.{◌≡◌, ◌<◌, ◌≤◌, true, is_ok, IfOk, length};
ghost use Rattle.lists.specs.Order.{All};
ghost use Rattle.table.specs.Limits.{limits};
ghost use Rattle.table.specs.States.{end_kind, cut_of};
ghost use Rattle.table.specs.Rules.{Keeps};
ghost use Rattle.table.specs.Slices.{slices};
ghost use Rattle.table.specs.Memory.{table_in};
ghost use Rattle.table.specs.Valid.{valid};
ghost use Rattle.table.specs.Codes.{bytes_of, next_of};
ghost use Rattle.table.specs.Meaning.{steps_of, writer};
ghost use Rattle.table.specs.Lookup.{line_found, reader_of};
ghost use Rattle.table.specs.Held.{is_valid, table_of, IsPadded, HasCode, IsNextCode, byte_given};

use crate::codes::MARKS;
use crate::lookup::Mapping;
use crate::states::{Code, Cut, EndKind};
use crate::valid::{Record, memory_valid};
use std::marker::Model;

// The stored lines.
#[derive(Clone, Copy)]
pub struct Lines<'a> {
    pub codes: &'a [u32],
    pub infos: &'a [u32],
    pub order: &'a [u32],
}

// A record and the memory that is lent with it: any numbers.
#[derive(Clone, Copy)]
pub struct Lent<'a> {
    pub rec: Record,
    pub states: &'a [u16],
    pub lines: Lines<'a>,
}

// The record and the memory are no valid table. Load the table again.
#[derive(Clone, Copy, Debug, PartialEq, Eq, Hash)]
pub struct BadTable {}

// Lent memory that passed the test.
#[derive(Drop)]
pub struct Table<'a> {
    lent: Lent<'a>,
}

impl<'a> Model for Table<'a> {
    ghost use Rattle.table.specs.Meaning.{Table as Meaning};
    ghost use Rattle.table.specs.Held.{table_of, IsTable};

    ghost Value = { Meaning };

    ghost view = { λ t. table_of t.lent };

    ghost invariant = { λ t. IsTable t.lent };
}

// A table with the marks of its rows, which are made once: each next code then costs the same.
#[derive(Drop)]
pub struct Codes<'a> {
    lent: Lent<'a>,
    marks: [u8; MARKS],
}

impl<'a> Model for Codes<'a> {
    ghost use Rattle.std.specs.Prelude.{◌≡◌, true};
    ghost use Rattle.table.specs.States.{step_at};
    ghost use Rattle.table.specs.loops.Marks.{marks_of};
    ghost use Rattle.table.specs.Meaning.{Table as Meaning};
    ghost use Rattle.table.specs.Held.{is_valid, table_of};

    ghost Value = { Meaning };

    ghost view = { λ t. table_of t.lent };

    ghost invariant = { λ t. (is_valid t.lent ≡ true) × (t.marks ≡ marks_of (step_at t.lent.states.now)) };
}

// That the numbers of a slice fit in 32 bits, which a proof knows of a parameter.
fn fits(xs: &[u32])
    ensures { All (λ x. x < 4294967296) xs.now }
{}

impl<'a> Table<'a> {
    // The test behind number 60.
    pub fn new(lent: Lent<'a>) -> Result<Table<'a>, BadTable>
        ensures valid { is_ok result ≡ is_valid lent.entry }
        ensures table { IfOk result (λ t. t ≡ table_of lent.entry) }
    {
        if !memory_valid(lent) {
            return Err(BadTable {});
        }
        fits(lent.lines.codes);
        Ok(Table { lent })
    }

    // The same table, to be held by value.
    pub fn copied(&self) -> Table<'a>
        ensures { result ≡ self.now }
    {
        Table { lent: self.lent }
    }

    // How a code ends, where it is a complete code.
    pub fn end_kind(&self, code: Code) -> Option<EndKind>
        ensures { result ≡ end_kind (steps_of self.now) 0 (bytes_of code) }
    {
        crate::states::end_kind(self.lent.states, 0, code)
    }

    // The sequence at the front of bytes.
    pub fn cut(&self, s: &[u8]) -> Cut
        ensures cut { result ≡ cut_of (steps_of self.now) 0 s.now }
        ensures keeps { Keeps limits self.now }
    {
        crate::states::cut_one(self.lent.states, 0, s)
    }

    // The line that reads a code; it looks at one place before it searches.
    pub fn find_code_near(&self, code: Code, at: usize) -> Option<Mapping>
        ensures reads { line_found result ≡ reader_of code self.now.lines }
        ensures code { HasCode code result }
    {
        crate::lookup::find_code_near(self.lent.rec, self.lent.lines, code, at)
    }

    // The line that says what becomes of a code point; it looks at one place before it searches.
    pub fn find_point_near(&self, point: u32, at: usize) -> Option<Mapping>
        ensures writes { line_found result ≡ writer point self.now.lines }
        ensures padded { IsPadded result }
    {
        crate::lookup::find_point_near(self.lent.rec, self.lent.lines, point, at)
    }

    // subchar, the code that stands for what has no mapping.
    pub fn subchar(&self) -> Code
        ensures { bytes_of result ≡ self.now.subchar }
    {
        self.lent.rec.subchar
    }

    // subchar1, the byte that stands for what a `|2` line has, where the table gives one.
    pub fn subchar1(&self) -> Option<u8>
        ensures { byte_given result ≡ self.now.subchar1 }
    {
        let given = self.lent.rec.subchar1;
        if given == 0 {
            return None;
        }
        Some((given - 1) as u8)
    }

    // The bits of its lines' codes, for hints.
    pub fn line_codes(&self) -> &'a [u32]
        ensures { length result.now ≤ limits.mappings }
    {
        &self.lent.lines.codes[..self.lent.rec.mappings as usize]
    }

    // What else its lines hold, each with its code point, for hints.
    pub fn line_infos(&self) -> &'a [u32]
        ensures { length result.now ≤ limits.mappings }
    {
        &self.lent.lines.infos[..self.lent.rec.mappings as usize]
    }

    // The line that reads a code.
    pub fn find_code(&self, code: Code) -> Option<Mapping>
        ensures reads { line_found result ≡ reader_of code self.now.lines }
        ensures code { HasCode code result }
    {
        crate::lookup::find_code(self.lent.rec, self.lent.lines, code)
    }

    // The line that says what becomes of a code point.
    pub fn find_point(&self, point: u32) -> Option<Mapping>
        ensures writes { line_found result ≡ writer point self.now.lines }
        ensures padded { IsPadded result }
    {
        crate::lookup::find_point(self.lent.rec, self.lent.lines, point)
    }

    // Its complete codes, to be walked in byte order.
    pub fn codes(&self) -> Codes<'a>
        ensures { result ≡ self.now }
    {
        Codes {
            lent: self.lent,
            marks: crate::codes::mark_rows(self.lent.states),
        }
    }
}

impl<'a> Codes<'a> {
    // The first complete code after a position. The position of no bytes is the beginning.
    pub fn after(&self, position: Code) -> Option<Code>
        ensures next { result ≡ next_of (steps_of self.now) 0 (bytes_of position) }
        ensures code { IsNextCode result }
    {
        crate::codes::next_code(self.lent.states, &self.marks, 0, position)
    }
}
