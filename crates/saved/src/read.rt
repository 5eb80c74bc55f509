// A text read by the table into a list of numbers: the numbers of a line, the lines of a row, the rows. What has not come is 0.
ghost use Rattle.std.specs.Prelude.{◌≡◌, List, [], ◌++◌, ℕ, ◌+◌, ◌*◌, ◌<◌, ◌≤◌, length, take, IfOk, IfErr};
ghost use Rattle.form.specs.Table.{good_after, span};
ghost use Rattle.numbers.specs.declared.table.Row.TheVariants.{Reg};
ghost use Rattle.numbers.specs.Tables.{row_count, number_limit, row_of};
ghost use Rattle.saved.specs.Reading.{got, settled, run_of, line_read, row_read, rows_read, text_read};
ghost use Rattle.saved.specs.Place.{reading_at, reading_of, stopped_at, filled, Holds, RowRead, rows_in, most, RowsRead, TextRead};

use crate::{Bad, Place, key, scan};
use numbers::table::{self, Row};
use text::bytes;

// The first row of the event inputs.
const EVENTS: usize = 21;

// The place after a row, and how many numbers there are.
#[derive(Clone, Copy)]
pub struct Read {
    pub place: Place,
    pub count: usize,
}

// The numbers of a line and its end, put behind those before it.
// An index: the contract speaks of the place of each number in the row and in the list.
fn read_numbers(
    text: &[u8],
    p: Place,
    row: Row,
    first: usize,
    width: usize,
    numbers: &mut [u64; table::NUMBERS],
    count: usize,
) -> Result<Place, Bad>
    requires lines_bound { p.lines < 1000 }
    requires width_bound { count + width ≤ number_limit }
    requires width_bound_2 { first + width ≤ 1000 }
    requires width_bound_3 { row ≡ Reg → first + width ≤ 32 }
    requires holds { Holds numbers.old count }
    ensures numbers_after { numbers.new ≡ filled (take count numbers.old ++ (run_of width (reading_at text.now p)).numbers) }
    ensures result_value { reading_of text.now result ≡ settled (good_after (row_of row) (take count numbers.old) first (run_of width (reading_at text.now p)).numbers) (run_of width (reading_at text.now p)).after }
{
    let mut place = p;
    let mut good = true;
    for j in 0..width {
        let found = scan::number_at(text, place)?;
        let value = found.value;
        let passes = row.good(numbers, first + j, value);
        numbers[count + j] = value;
        good = good & passes;
        let mark = scan::mark_after(j, width);
        place = scan::past_byte(text, found.place, mark)?;
    }
    scan::settle(place, good)
}

// Line i of a row.
fn read_line(
    text: &[u8],
    p: Place,
    row: Row,
    i: usize,
    width: usize,
    numbers: &mut [u64; table::NUMBERS],
    count: usize,
) -> Result<Place, Bad>
    requires width_value { width ≡ (row_of row).width }
    requires width_bound { count + width ≤ number_limit }
    requires i_bound { i < 32 }
    requires lines_le_count { p.lines ≤ count }
    requires holds { Holds numbers.old count }
    ensures numbers_after { numbers.new ≡ filled (line_read (row_of row) i (got (take count numbers.old) (reading_at text.now p))).numbers }
    ensures result_value { reading_of text.now result ≡ (line_read (row_of row) i (got (take count numbers.old) (reading_at text.now p))).after }
{
    let mut head = [0u8; key::HEAD_LIMIT];
    let n = key::put_head(row, i as u64, &mut head);
    let begun = scan::past_word(text, p, bytes::first(&head, n))?;
    read_numbers(text, begun, row, i * width, width, numbers, count)
}

// The lines of a row.
fn read_row(
    text: &[u8],
    p: Place,
    row: Row,
    numbers: &mut [u64; table::NUMBERS],
    count: usize,
) -> Result<Read, Bad>
    requires numbers_bound { count + span (row_of row) (take count numbers.old) ≤ number_limit }
    requires lines_le_count { p.lines ≤ count }
    requires holds { Holds numbers.old count }
    ensures read { IfOk result (λ r. RowRead (row_of row) (got (take count numbers.old) (reading_at text.now p)) numbers.new (reading_at text.now r.place) r.count) }
    ensures bad { IfErr result (λ e. (stopped_at text.now e ≡ (row_read (row_of row) ((row_of row).lines (take count numbers.old)) 0 (got (take count numbers.old) (reading_at text.now p))).after) × (e.place.lines ≤ number_limit)) }
{
    let width = row.width();
    let lines = row.lines(numbers[0]);
    let mut place = p;
    let mut at = count;
    for i in 0..lines {
        place = read_line(text, place, row, i, width, numbers, at)?;
        at += width;
    }
    Ok(Read { place, count: at })
}

// The rows from one to before another.
// An index: the contract speaks of places in the table.
fn read_between(
    text: &[u8],
    p: Place,
    first: usize,
    end: usize,
    numbers: &mut [u64; table::NUMBERS],
    count: usize,
) -> Result<Read, Bad>
    requires first_le_end { first ≤ end }
    requires end_le_row_count { end ≤ row_count }
    requires count_bound { count ≤ most first }
    requires lines_le_count { p.lines ≤ count }
    requires holds { Holds numbers.old count }
    ensures read { IfOk result (λ r. RowsRead (rows_in first end) end (got (take count numbers.old) (reading_at text.now p)) numbers.new (reading_at text.now r.place) r.count) }
    ensures bad { IfErr result (λ e. (stopped_at text.now e ≡ (rows_read (rows_in first end) (got (take count numbers.old) (reading_at text.now p))).after) × (e.place.lines ≤ number_limit)) }
{
    let mut place = p;
    let mut at = count;
    for i in first..end {
        let row = table::ROWS[i];
        let read = read_row(text, place, row, numbers, at)?;
        at = read.count;
        place = read.place;
    }
    Ok(Read { place, count: at })
}

// A whole text into an empty list. One that ends before the event inputs has them at 0, as the array has.
pub fn read_rows(text: &[u8], numbers: &mut [u64; table::NUMBERS]) -> Result<Read, Bad>
    requires { numbers.old ≡ filled [] }
    ensures read { IfOk result (λ r. TextRead text.now numbers.new (reading_at text.now r.place) r.count) }
    ensures bad { IfErr result (λ e. (stopped_at text.now e ≡ (text_read text.now).after) × (e.place.lines ≤ number_limit)) }
{
    let begun = Place { at: 0, lines: 0 };
    let older = read_between(text, begun, 0, EVENTS, numbers, 0)?;
    let place = older.place;
    if place.at < text.len() {
        return read_between(text, place, EVENTS, table::ROWS.len(), numbers, older.count);
    }
    Ok(Read {
        place,
        count: older.count + 5,
    })
}
