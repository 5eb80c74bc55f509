// A list of numbers put as text by the table: the numbers of a line, a line, the lines of a row, the rows.
ghost use Rattle.std.specs.Prelude.{◌≡◌, ◌+◌, ◌*◌, ◌<◌, ◌≤◌, length, take, drop};
ghost use Rattle.text.specs.Buffer.{buffer, append};
ghost use Rattle.form.specs.Lines.{line_text};
ghost use Rattle.form.specs.Table.{key_of, row_text, span};
ghost use Rattle.form.specs.Chip.{IsChip, form_text};
ghost use Rattle.numbers.specs.Tables.{row_of};
ghost use Rattle.saved.specs.Reading.{run_text};

use crate::{key, scan};
use numbers::table::{self, Row};
use text::{buffer, bytes, decimal};

// The numbers of a line, each with the byte after it.
// An index: which byte follows goes by the place.
// Buffer and place stay two parameters here and below (D230).
fn put_numbers(numbers: &[u64], from: usize, width: usize, into: &mut [u8], at: usize) -> usize
    requires width_in_bounds { from + width ≤ length numbers.now }
    requires numbers_in_bounds { at + length (run_text (take width (drop from numbers.now))) ≤ length into.old }
    ensures { buffer into.new result ≡ append (buffer into.old at) (run_text (take width (drop from numbers.now))) }
{
    let mut end = at;
    for j in 0..width {
        let digits = decimal::put_decimal(numbers[from + j], into, end);
        let mark = scan::mark_after(j, width);
        end = buffer::put_one(mark, into, digits);
    }
    end
}

// Line i of a row.
fn put_line(
    row: Row,
    i: usize,
    numbers: &[u64],
    from: usize,
    width: usize,
    into: &mut [u8],
    at: usize,
) -> usize
    requires i_bound { i < 32 }
    requires width_nonzero { 0 < width }
    requires width_in_bounds { from + width ≤ length numbers.now }
    requires numbers_in_bounds { at + length (line_text (key_of (row_of row) i) (take width (drop from numbers.now))) ≤ length into.old }
    ensures { buffer into.new result ≡ append (buffer into.old at) (line_text (key_of (row_of row) i) (take width (drop from numbers.now))) }
{
    let mut head = [0u8; key::HEAD_LIMIT];
    let n = key::put_head(row, i as u64, &mut head);
    let begun = buffer::put(bytes::first(&head, n), into, at);
    put_numbers(numbers, from, width, into, begun)
}

// The lines of a row.
fn put_row(
    row: Row,
    lines: usize,
    numbers: &[u64],
    from: usize,
    into: &mut [u8],
    at: usize,
) -> usize
    requires lines_bound { lines ≤ 32 }
    requires row_in_bounds { from + lines * (row_of row).width ≤ length numbers.now }
    requires numbers_in_bounds { at + length (row_text (row_of row) lines 0 from numbers.now) ≤ length into.old }
    ensures { buffer into.new result ≡ append (buffer into.old at) (row_text (row_of row) lines 0 from numbers.now) }
{
    let width = row.width();
    let mut end = at;
    let mut place = from;
    for i in 0..lines {
        end = put_line(row, i, numbers, place, width, into, end);
        place += width;
    }
    end
}

// All rows, from the buffer's beginning; how long the text is.
pub fn put_rows(numbers: &[u64], into: &mut [u8]) -> usize
    requires chip { IsChip numbers.now }
    requires numbers_in_bounds { length (form_text numbers.now) ≤ length into.old }
    ensures { buffer into.new result ≡ append (buffer into.old 0) (form_text numbers.now) }
{
    let part = numbers[0];
    let mut end: usize = 0;
    let mut place: usize = 0;
    for row in &table::ROWS {
        let lines = row.lines(part);
        end = put_row(*row, lines, numbers, place, into, end);
        place += lines * row.width();
    }
    end
}
