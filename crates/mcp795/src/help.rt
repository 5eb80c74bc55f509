// What --help tells, in seven pieces, and --version. A text is written as it stands. Each function answers whether standard
// output took it.
use std::io;

const USE: &str = "Use: mcp795 [--load FILE] [--save FILE] [TAPE...]

Answers each tape as an MCP795XX clock chip would. A TAPE is a file, or - for
standard input. With no TAPE, standard input is the tape. Each tape starts
without a part.

    --load FILE  the tape starts with the chip that was saved in FILE
    --save FILE  saves the chip in FILE after the last line of the tape
    -h, --help   writes this text
    --version    writes the version, and the kit that it was proved with
    --           after it every argument is a TAPE, whatever it begins with

Of the last options but -- the first is obeyed, wherever it stands before --,
and no tape is answered. Where - is named twice, the second gets what is left of
the input.
";

const FILES: &str = "
With --load or --save there is one tape at most. A tape that starts with a saved
chip has its part: every line that names one is refused. A FILE that is no saved
chip is refused by 8, with its first bad line, and the tape is not answered.

A chip is saved once its tape was read and answered to its end. It is written
into a new file, FILE.new0 or the next free digit, which then takes FILE's name.
Whatever fails, the old FILE stays as it was. That FILE can be replaced is tried
before the tape is answered.
";

const FORM: &str = "
A tape has a line for each act:

    op=NAME arg=N

with one blank, nothing after N, and at most 64 characters. N has 1 to 8 digits
and no needless zero. The first line names the part. A line ends at a newline;
a carriage return is a character like any other, and makes its line bad.
";

const ACTS: &str = "
    NAME    N              what happens
    part    1 to 4         a fresh chip: 1 W 1 Kbit, 2 W 2 Kbit, 3 B 1 Kbit,
                           4 B 2 Kbit; once, before all else
    select  0              CS falls: a frame opens
    byte    0 to 255       eight bits in, eight bits out
    end     0 to 7         CS rises, after so many bits of a byte not finished;
                           those that had left SO are its reply
    wait    0 to 16777216  so many ticks of 1/32768 s pass, or fewer: it stops
                           after the first that changes IRQ, WDO, WIP or an
                           event's flag
    cut     0 to 255       power fails; of a page being written, the offsets
                           whose bit is set got stored
    up      0              power comes back
    evls    0 or 1         the level of EVLS, the low-speed event input
    evhs    0 or 1         the level of EVHS, the high-speed event input
";

const ANSWERS: &str = "
Each line gives one answer, written before the program waits for more input:

    no=R out=V irq=L wdo=L

    R  0: done; 1 to 6: the act is refused, 71 to 75: the line is bad, and
       nothing has changed
    V  a byte's reply; an end's bits as a number, most significant first;
       the ticks that a wait used; how many bytes a cut stored; for a bad line
       the column that is to blame, from 1, or 0; z: none
    L  the level of the line after the act, 0 or 1
";

const REFUSALS: &str = "
    R  refused because
    1  select, and a frame is open already
    2  byte or end, and no frame is open
    3  the act does not take this argument, or there is no such part
    4  a memory has not the part's length (no tape causes it)
    5  there is no power for select, byte, end or cut; or there is, and it is up
    6  the chip's record is out of range (no tape causes it)
   71  the line is longer than 64 characters; V is 65
           op=byte arg=6 # the enable, without which the write stores nothing
   72  it is not op= with a name in letters a to z, a single space, and arg= with
       a number in digits; V is the first column where no such line can go on
           op=up                  V is 6, one past its end: it stops short
   73  there is no such act; V is 4
           op=foo arg=1
   74  an act comes before the part, or a part again; V is 0
           op=select arg=0        as the first line
   75  N has a needless zero, and V is the column of its first digit; or N has
       more than 8 digits, and V is the column of the ninth
           op=byte arg=07         V is 13
           op=wait arg=123456789  V is 21

Of several reasons the first in this order is given: 71, 72, 73, 75, 74, 3 for
the part, 4, 6, 3, 5, then 1 or 2.
";

const PROBLEMS: &str = "
What cannot be read, written or understood is told on standard error, a line for
each:

    mcp795: WHAT: REASON

A tape that cannot be read, or not to its end, is left there, and the next one
is answered. Where standard output cannot be written, the program stops. An
option that is not known stops it before the first tape.

The exit status of mcp795 is 0, and 141 where nobody reads its output any more.
That of ./run, the script that starts it, is 1 where anything was told or the
program could not be built, 141 as well where nobody reads, and else 0; it is
128 and the signal's number where a signal ended the program.
";

// What --help tells, piece by piece.
const PIECES: [&str; 7] = [USE, FILES, FORM, ACTS, ANSWERS, REFUSALS, PROBLEMS];

pub fn print(rt: HostRuntime) -> io::Result<()> {
    for piece in PIECES {
        rt.write_all(piece.as_bytes())?;
    }
    Ok(())
}

// The version of this copy, and the kit as `rt version` names it: .ci/run compares the two.
pub fn print_version(rt: HostRuntime) -> io::Result<()> {
    rt.write_all(b"mcp795 1.0, proved with rattle-kit-13f logic dac8208d650f15bf\n")
}
