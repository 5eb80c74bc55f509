// The beginning of a line: the key of its row, its number where the row has several lines, and `=`.
ghost use Rattle.std.specs.Prelude.{◌≡◌, [], ◌+◌, ◌<◌, ◌≤◌, length, take};
ghost use Rattle.base.specs.Words.{pick};
ghost use Rattle.text.specs.Buffer.{buffer, append};
ghost use Rattle.text.specs.Bytes.{bytes_of};
ghost use Rattle.text.specs.Decimal.{decimal_text};
ghost use Rattle.form.specs.Lines.{head_of};
ghost use Rattle.form.specs.Table.{key_of};
ghost use Rattle.numbers.specs.Tables.{row_of};

use numbers::table::Row;
use text::{buffer, decimal};

// The longest head: a key of eight letters or a shorter one with its number, and `=`.
pub const HEAD_LIMIT: usize = 12;

// Rows of several lines.
fn is_numbered(row: Row) -> bool
    ensures { result ≡ (row_of row).numbered }
{
    matches!(row, Row::Reg | Row::Sram | Row::Ee | Row::Id)
}

// Buffer and place stay two parameters (D230).
fn put_index(numbered: bool, i: u64, into: &mut [u8], at: usize) -> usize
    requires at_in_bounds { at + 2 ≤ length into.old }
    requires i_bound { i < 100 }
    ensures { buffer into.new result ≡ append (buffer into.old at) (pick numbered (decimal_text i) []) }
{
    if numbered {
        return decimal::put_decimal(i, into, at);
    }
    at
}

// The key of a row.
fn key_of(row: Row) -> &'static [u8]
    ensures { result.now ≡ bytes_of (row_of row).key }
{
    match row {
        Row::Part => b"part",
        Row::Reg => b"reg",
        Row::Sram => b"sram",
        Row::Divider => b"divider",
        Row::Startup => b"startup",
        Row::Watchdog => b"watchdog",
        Row::Delay => b"delay",
        Row::Pulse => b"pulse",
        Row::Power => b"power",
        Row::Mark => b"mark",
        Row::Wel => b"wel",
        Row::Bp => b"bp",
        Row::Lock => b"lock",
        Row::Stage => b"stage",
        Row::Offsets => b"offsets",
        Row::Load => b"load",
        Row::Next => b"next",
        Row::Target => b"target",
        Row::Left => b"left",
        Row::Ee => b"ee",
        Row::Id => b"id",
        Row::Evls => b"evls",
        Row::Evhs => b"evhs",
        Row::Edges => b"edges",
        Row::Since => b"since",
        Row::Debounce => b"debounce",
    }
}

// Puts the head of line i of a row; its length is answered.
pub fn put_head(row: Row, i: u64, into: &mut [u8; HEAD_LIMIT]) -> usize
    requires { i < 100 }
    ensures { take result into.new ≡ head_of (key_of (row_of row) i) }
{
    let key = key_of(row);
    let numbered = is_numbered(row);
    let a = buffer::put(key, into, 0);
    let b = put_index(numbered, i, into, a);
    buffer::put_one(b'=', into, b)
}
