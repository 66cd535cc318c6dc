// The program: what a workbook stream on standard input says, a line for each sheet and each cell.
#![tactic(auto)]

ghost use Rattle.std.specs.Prelude.{◌≡◌, ◌+◌, ◌≤◌, length, IfOk};
ghost use Rattle.globals.specs.Sheets.{sheets_from};
ghost use Rattle.reading.specs.Cells.{listed_from};
ghost use Rattle.station.specs.Totals.{cell_total};

use cell::Cell;
use reading::Place;
use refusal::Refusal;
use std::io::{Print, Read, Result, Stdin, Stdout};
use value::{CellValue, FormulaResult};

const DIGITS: [u8; 16] = *b"0123456789ABCDEF";

// ---- what is to be written

// The decimal digits of a number, at the end of the text; the answer is where they start.
fn put_digits(n: u64, text: &mut [u8; 20]) -> usize
    ensures { result ≤ 20 }
{
    let mut rest = n;
    for i in 0..20 {
        let at = 19 - i;
        text[at] = b'0' + (rest % 10) as u8;
        rest /= 10;
        if rest == 0 {
            return at;
        }
    }
    // Not reached: a number of 64 bits has at most 20 digits.
    0
}

// Lines wait here until there is room for no other, so that they take few calls of the system, each with whole lines. A line has at most 96 bytes: each method says
// how many bytes more wait after it at most. It stands on the stack, where `BufWriter` needs the heap.
#[derive(Drop)]
struct Waiting {
    to: Stdout,
    bytes: [u8; 4096],
    used: usize,
    ghost within: { used ≤ 4096 },
}

impl Waiting {
    fn flush(&mut self) -> Result<()>
        ensures { self.new.used ≡ 0 }
    {
        let used = self.used;
        self.used = 0;
        self.to.write_all(&self.bytes[..used])
    }

    // Writes out what waits where the next line might not fit.
    fn room(&mut self) -> Result<()>
        ensures { IfOk result (λ _. self.new.used + 96 ≤ 4096) }
    {
        if self.used <= 4000 {
            return Ok(());
        }
        self.flush()
    }

    fn word(&mut self, word: &[u8])
        requires { self.old.used + length word.now ≤ 4096 }
        ensures { self.new.used ≡ self.old.used + length word.now }
    {
        self.bytes[self.used..self.used + word.len()].copy_from_slice(word);
        self.used += word.len();
    }

    fn decimal(&mut self, n: u64)
        requires { self.old.used + 20 ≤ 4096 }
        ensures { self.new.used ≤ self.old.used + 20 }
    {
        let mut text = [0u8; 20];
        let first = put_digits(n, &mut text);
        self.word(&text[first..]);
    }

    // So many hexadecimal digits, as document 01 prints them.
    fn hex(&mut self, n: u64, width: usize)
        requires { (self.old.used + width ≤ 4096) × (width ≤ 16) }
        ensures { self.new.used ≡ self.old.used + width }
    {
        let mut text = [0u8; 16];
        for i in 0..16 {
            text[i] = DIGITS[(n >> (60 - 4 * i)) as usize % 16];
        }
        self.word(&text[16 - width..]);
    }

    fn number(&mut self, bits: u64)
        requires { self.old.used + 24 ≤ 4096 }
        ensures { self.new.used ≤ self.old.used + 24 }
    {
        self.word(b"number ");
        self.hex(bits, 16);
    }

    fn truth(&mut self, truth: u8)
        requires { self.old.used + 26 ≤ 4096 }
        ensures { self.new.used ≤ self.old.used + 26 }
    {
        self.word(b"truth ");
        self.decimal(u64::from(truth));
    }

    fn error(&mut self, code: u8)
        requires { self.old.used + 26 ≤ 4096 }
        ensures { self.new.used ≤ self.old.used + 26 }
    {
        self.word(b"error ");
        self.hex(u64::from(code), 2);
    }

    // What a formula gave.
    fn outcome(&mut self, res: FormulaResult)
        requires { self.old.used + 26 ≤ 4096 }
        ensures { self.new.used ≤ self.old.used + 26 }
    {
        match res {
            FormulaResult::Number(x) => self.number(number::bits_of(x)),
            FormulaResult::NotNumber(bits) => self.number(bits),
            FormulaResult::Text => self.word(b"text"),
            FormulaResult::Truth(truth) => self.truth(truth),
            FormulaResult::Error(code) => self.error(code),
            FormulaResult::Empty => self.word(b"empty"),
        }
    }

    fn value(&mut self, value: CellValue)
        requires { self.old.used + 34 ≤ 4096 }
        ensures { self.new.used ≤ self.old.used + 34 }
    {
        match value {
            CellValue::Blank => self.word(b"blank"),
            CellValue::Number(x) => self.number(number::bits_of(x)),
            CellValue::NotNumber(bits) => self.number(bits),
            CellValue::Text(index) => {
                self.word(b"text ");
                self.decimal(u64::from(index));
            }
            CellValue::Truth(truth) => self.truth(truth),
            CellValue::Error(code) => self.error(code),
            CellValue::Formula(result) => {
                self.word(b"formula ");
                self.outcome(result);
            }
        }
    }

    // ---- a line each

    fn cell(&mut self, cell: Cell)
        requires { self.old.used + 96 ≤ 4096 }
        ensures { self.new.used ≤ self.old.used + 96 }
    {
        self.decimal(u64::from(cell.row));
        self.word(b" ");
        self.decimal(u64::from(cell.column));
        self.word(b" ");
        self.value(cell.value);
        self.word(b"\n");
    }

    fn sheet(&mut self, n: u64, rows: u32)
        requires { self.old.used + 96 ≤ 4096 }
        ensures { self.new.used ≤ self.old.used + 96 }
    {
        self.word(b"sheet ");
        self.decimal(n);
        self.word(b" rows ");
        self.decimal(u64::from(rows));
        self.word(b"\n");
    }

    fn counts(&mut self, sheets: usize, strings: u32, cells: u64)
        requires { self.old.used + 96 ≤ 4096 }
        ensures { self.new.used ≤ self.old.used + 96 }
    {
        self.word(b"sheets ");
        self.decimal(sheets as u64);
        self.word(b" strings ");
        self.decimal(u64::from(strings));
        self.word(b" cells ");
        self.decimal(cells);
        self.word(b"\n");
    }

    fn refused(&mut self, refusal: Refusal)
        requires { self.old.used + 96 ≤ 4096 }
        ensures { self.new.used ≤ self.old.used + 96 }
    {
        self.word(b"refused ");
        self.decimal(u64::from(refusal.number));
        self.word(b" at ");
        self.decimal(refusal.offset as u64);
        self.word(b"\n");
    }
}

// ---- the walks over sheets and cells

fn print_cells(out: &mut Waiting, s: &[u8], from: Place) -> Result<()> {
    let mut place = from;
    // The cell itself says where the next one is listed: there is no index to count.
    while let Some(listed) = listing::next_cell(s, place) {
        out.room()?;
        out.cell(listed.cell);
        place = listed.next;
    }
    Ok(())
}

fn print_sheets(out: &mut Waiting, s: &[u8], from: usize) -> Result<()> {
    let mut n: u64 = 0;
    let mut place = from;
    // The sheet itself says where the next one stands.
    while let Some(sheet) = listing::next_sheet(s, place) {
        out.room()?;
        out.sheet(n, listing::rows(s, sheet.cells));
        print_cells(out, s, sheet.cells)?;
        n += 1;
        place = sheet.next;
    }
    Ok(())
}

fn count_cells(s: &[u8], from: Place) -> u64
    requires { length s.now ≤ 65536 }
    ensures { (result ≡ length (listed_from s.now from)) × (result ≤ 16843009) }
{
    let mut n = 0;
    let mut place = from;
    // The cell itself says where the next one is listed.
    while let Some(listed) = listing::next_cell(s, place) {
        n += 1;
        place = listed.next;
    }
    n
}

fn count_all(s: &[u8], from: usize) -> u64
    requires { length s.now ≤ 65536 }
    ensures { result ≡ cell_total s.now (sheets_from s.now from) }
{
    let mut n = 0;
    let mut place = from;
    // The sheet itself says where the next one stands.
    while let Some(sheet) = listing::next_sheet(s, place) {
        n += count_cells(s, sheet.cells);
        place = sheet.next;
    }
    n
}

// ---- the program

fn print(out: &mut Waiting, s: &[u8]) -> Result<()> {
    out.room()?;
    if 65536 < s.len() {
        out.word(b"too long\n");
        return Ok(());
    }
    match workbook::check(s) {
        Ok(passed) => {
            let first = listing::first_sheet();
            out.counts(passed.sheets, passed.strings, count_all(s, first));
            print_sheets(out, s, first)
        }
        Err(refusal) => {
            out.refused(refusal);
            Ok(())
        }
    }
}

// Reads until the input ends or the buffer is full; how many bytes that were.
fn read_full(input: &mut Stdin, into: &mut [u8]) -> Result<usize>
    ensures { IfOk result (λ n. n ≤ length into.new) }
{
    let mut n = 0;
    // What was read says how far the next read starts.
    while n < into.len() {
        let more = input.read(&mut into[n..])?;
        if more == 0 {
            return Ok(n);
        }
        n += more;
    }
    Ok(n)
}

fn main(rt: HostRuntime) -> Result<()> {
    let mut input = [0u8; 65537];
    let n = read_full(&mut rt.stdin(), &mut input)?;
    let mut out = Waiting {
        to: rt.stdout(),
        bytes: [0; 4096],
        used: 0,
    };
    print(&mut out, &input[..n])?;
    out.flush()
}
