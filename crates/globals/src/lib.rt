// The globals: the first substream, with the sheet list and the string table. Called by the check of the stream, which has judged its length.
#![tactic(auto)]

ghost use Rattle.std.specs.Prelude.{◌≡◌, ◌+◌, ◌*◌, ◌≤◌, length};
ghost use Rattle.globals.specs.Globals.{past, past_table, sheet_fits, boundsheet_fits, boundsheet_record, sst_record, bof_record, eof_record, continue_record, record_in, step_of, records_from, is_globals_bof, globals_of};
ghost use Rattle.segments.specs.Segments.{width_of};
ghost use Rattle.globals.specs.Sheets.{type_kind, sheet_at, bound_at, next_sheet_of};

use record::Header;
use refusal::Refusal;
use sheet_agreement::SheetKind;

// Where the next record stands, whether a CONTINUE there would have no parent, where the SST stands (0 where none has come: the BOF stands
// there), and how many unique strings there are.
#[derive(Clone, Copy)]
pub struct Globals {
    pub at: usize,
    pub orphan: bool,
    pub table: usize,
    pub unique: u32,
}

// What a record that is right leads to: on to the next, or the end of the globals.
#[derive(Clone, Copy)]
pub enum Step {
    More(Globals),
    Close(Globals),
}

// What a BOUNDSHEET says: where its header stands, the BOF position that it names, and the sheet's kind; and where the next record stands.
#[derive(Clone, Copy)]
pub struct Boundsheet {
    pub header: usize,
    pub position: u32,
    pub kind: SheetKind,
    pub next: usize,
}

// What a record of the globals is to the sheet list: a BOUNDSHEET, another, or no more of them.
#[derive(Clone, Copy)]
pub enum Bound {
    Sheet(Boundsheet),
    Other(usize),
    Done,
}

// Goes past a record: it compares and converts nothing.
#[tactic(auto, unfolding(crate::specs::Globals::past))]
fn past(v: Globals, orphan: bool, end: usize) -> Globals
    ensures { result ≡ past v orphan end }
{
    Globals {
        at: end,
        orphan,
        ..v
    }
}

#[tactic(auto, unfolding(crate::specs::Globals::past_table))]
fn past_table(v: Globals, strings: u32, end: usize) -> Globals
    ensures { result ≡ past_table v strings end }
{
    Globals {
        at: end,
        orphan: false,
        table: v.at,
        unique: strings,
    }
}

// The size of a BOUNDSHEET whose name has this length.
fn sheet_size(name: u8, flags: u8) -> usize
    requires { name ≤ 31 }
    ensures { result ≡ 8 + name * width_of flags }
{
    8 + usize::from(name) * segments::width_of(flags)
}

#[tactic(auto, unfolding(crate::specs::Globals::sheet_fits, steps::specs::Choice::pick))]
fn sheet_fits(size: usize, kind: u8, name: u8, flags: u8) -> bool
    ensures { result ≡ sheet_fits size kind name flags }
{
    kind <= 2 && 1 <= name && name <= 31 && sheet_size(name, flags) == size
}

#[tactic(auto, unfolding(crate::specs::Globals::boundsheet_fits, steps::specs::Choice::pick))]
fn boundsheet_fits(s: &[u8], at: usize, size: usize) -> bool
    requires { at + 4 + size ≤ length s.now }
    ensures { result ≡ boundsheet_fits s.now at size }
{
    8 <= size && sheet_fits(size, s[at + 9], s[at + 10], s[at + 11])
}

#[tactic(auto, unfolding(crate::specs::Globals::boundsheet_record, steps::specs::Choice::pick))]
fn boundsheet_record(s: &[u8], v: Globals, size: usize, end: usize) -> Result<Step, Refusal>
    requires { v.at + 4 + size ≤ length s.now }
    ensures { result ≡ boundsheet_record s.now v size end }
{
    if boundsheet_fits(s, v.at, size) {
        Ok(Step::More(past(v, true, end)))
    } else {
        Err(Refusal {
            number: 6,
            offset: v.at,
        })
    }
}

#[tactic(auto, unfolding(crate::specs::Globals::sst_record, steps::specs::Choice::pick))]
fn sst_record(s: &[u8], v: Globals, end: usize) -> Result<Step, Refusal>
    requires { (v.at + 4 ≤ end) × (end ≤ length s.now) }
    ensures { result ≡ sst_record s.now v end }
{
    if v.table != 0 {
        return Err(Refusal {
            number: 8,
            offset: v.at,
        });
    }
    let table = strings::check_strings(s, v.at, end)?;
    Ok(Step::More(past_table(v, table.strings, table.end)))
}

#[tactic(auto, unfolding(crate::specs::Globals::bof_record, steps::specs::Choice::pick))]
fn bof_record(at: usize, size: usize) -> Result<Step, Refusal>
    ensures { result ≡ bof_record at size }
{
    Err(Refusal {
        number: if size == 16 { 4 } else { 6 },
        offset: at,
    })
}

#[tactic(auto, unfolding(crate::specs::Globals::eof_record, steps::specs::Choice::pick))]
fn eof_record(v: Globals, size: usize, end: usize) -> Result<Step, Refusal>
    ensures { result ≡ eof_record v size end }
{
    if size == 0 {
        Ok(Step::Close(past(v, false, end)))
    } else {
        Err(Refusal {
            number: 6,
            offset: v.at,
        })
    }
}

#[tactic(auto, unfolding(crate::specs::Globals::continue_record, steps::specs::Choice::pick))]
fn continue_record(v: Globals, end: usize) -> Result<Step, Refusal>
    ensures { result ≡ continue_record v end }
{
    if v.orphan {
        Err(Refusal {
            number: 7,
            offset: v.at,
        })
    } else {
        Ok(Step::More(past(v, false, end)))
    }
}

#[tactic(auto, unfolding(crate::specs::Globals::record_in, steps::specs::Choice::pick))]
fn record_in(s: &[u8], v: Globals, id: u16, size: usize, end: usize) -> Result<Step, Refusal>
    requires { (v.at + 4 + size ≤ length s.now) × (end ≡ v.at + 4 + size) }
    ensures { result ≡ record_in s.now v id size end }
{
    match id {
        0x0085 => boundsheet_record(s, v, size, end),
        0x00FC => sst_record(s, v, end),
        0x002F => Err(Refusal {
            number: 5,
            offset: v.at,
        }),
        0x0809 => bof_record(v.at, size),
        0x000A => eof_record(v, size, end),
        0x003C => continue_record(v, end),
        _ => Ok(Step::More(past(v, false, end))),
    }
}

#[tactic(auto, using(record::proofs::Laws::body_within, record::proofs::Laws::body_end), unfolding(crate::specs::Globals::step_of))]
fn step_at(s: &[u8], v: Globals) -> Result<Step, Refusal>
    ensures { result ≡ step_of s.now v }
{
    match record::header_at(s, v.at) {
        Header::Record {
            kind: id,
            size,
            end,
        } => record_in(s, v, id, size, end),
        Header::Cut => Err(Refusal {
            number: 2,
            offset: v.at,
        }),
        Header::End => Err(Refusal {
            number: 4,
            offset: s.len(),
        }),
    }
}

#[tactic(auto, using(crate::proofs::Laws::walk_laws))]
fn records(s: &[u8], from: Globals) -> Result<Globals, Refusal>
    ensures { result ≡ records_from s.now from }
{
    let mut v = from;
    // The record itself says where the next one starts, and may be refused: there is no index to count.
    loop {
        match step_at(s, v)? {
            Step::More(next) => v = next,
            Step::Close(last) => return Ok(last),
        }
    }
}

#[tactic(auto, unfolding(crate::specs::Globals::is_globals_bof, steps::specs::Choice::pick))]
fn is_globals_bof(s: &[u8], id: u16, size: usize) -> bool
    requires { 4 + size ≤ length s.now }
    ensures { result ≡ is_globals_bof s.now id size }
{
    id == 0x0809
        && size == 16
        && byte_numbers::u16_at(s, 4) == 0x0600
        && byte_numbers::u16_at(s, 6) == 0x0005
}

// The globals; `unique` is the unique count of strings where the stream has no SST.
#[tactic(auto, using(record::proofs::Laws::body_within, record::proofs::Laws::body_end), unfolding(crate::specs::Globals::globals_of, crate::specs::Globals::opened, steps::specs::Choice::pick))]
pub fn walk(s: &[u8], unique: u32) -> Result<Globals, Refusal>
    ensures { result ≡ globals_of s.now unique }
{
    match record::header_at(s, 0) {
        Header::Record {
            kind: id,
            size,
            end: _,
        } if is_globals_bof(s, id, size) => {
            let opened = Globals {
                at: 20,
                orphan: true,
                table: 0,
                unique,
            };
            records(s, opened)
        }
        Header::Cut => Err(Refusal {
            number: 2,
            offset: 0,
        }),
        _ => Err(Refusal {
            number: 3,
            offset: 0,
        }),
    }
}

// By the type byte of a BOUNDSHEET; the kind that a BOF says has other numbers, so the two have a match each.
#[tactic(auto, unfolding(crate::specs::Sheets::type_kind, steps::specs::Choice::pick))]
fn type_kind(t: u8) -> SheetKind
    ensures { result ≡ type_kind t }
{
    match t {
        0 => SheetKind::Worksheet,
        1 => SheetKind::Macro,
        2 => SheetKind::Chart,
        _ => SheetKind::Other,
    }
}

#[tactic(auto, unfolding(crate::specs::Sheets::sheet_at))]
fn sheet_at(s: &[u8], at: usize, size: usize, end: usize) -> Boundsheet
    requires { (at + 4 + size ≤ length s.now) × (8 ≤ size) }
    ensures { result ≡ sheet_at s.now at end }
{
    Boundsheet {
        header: at,
        position: byte_numbers::u32_at(s, at + 4),
        kind: type_kind(s[at + 9]),
        next: end,
    }
}

// The record at a place of the globals, as the sheet list takes it.
#[tactic(auto, using(record::proofs::Laws::body_within, record::proofs::Laws::body_end), unfolding(crate::specs::Sheets::bound_at, steps::specs::Choice::pick))]
pub fn boundsheet_at(s: &[u8], at: usize) -> Bound
    ensures { result ≡ bound_at s.now at }
{
    match record::header_at(s, at) {
        Header::Record {
            kind: 0x0085,
            size,
            end,
        } if 8 <= size => Bound::Sheet(sheet_at(s, at, size, end)),
        Header::Record { kind, end, .. } if kind != 0x0085 && kind != 0x000A => Bound::Other(end),
        _ => Bound::Done,
    }
}

// The next BOUNDSHEET from a place on.
#[tactic(auto, using(crate::proofs::Sheets::seek_laws))]
pub fn next_sheet(s: &[u8], from: usize) -> Option<Boundsheet>
    ensures { result ≡ next_sheet_of s.now from }
{
    let mut p = from;
    // The record itself says where the next one starts: there is no index to count.
    loop {
        match boundsheet_at(s, p) {
            Bound::Sheet(sheet) => return Some(sheet),
            Bound::Other(next) => p = next,
            Bound::Done => return None,
        }
    }
}

// The BOUNDSHEETs from a place of the globals on, in order.
#[derive(Clone, Copy)]
pub struct Boundsheets<'a> {
    pub stream: &'a [u8],
    pub at: usize,
}

impl<'a> Boundsheets<'a> {
    ghost use Rattle.globals.specs.Sheets.{sheets_of};
    ghost use Rattle.globals.specs.Left.{left};

    // All of them: those after the globals' BOF.
    pub fn of(stream: &'a [u8]) -> Boundsheets<'a>
        ensures { left result ≡ sheets_of stream.now }
    {
        Boundsheets { stream, at: 20 }
    }
}

impl<'a> Iterator for Boundsheets<'a> {
    ghost use Rattle.std.specs.Iterator.{YieldsFirstBy, item_count};
    ghost use Rattle.globals.specs.Sheets.{declared};
    ghost use Rattle.globals.specs.Left.{left};

    type Item = Boundsheet;

    ghost next_gives = { YieldsFirstBy declared left };

    ghost remaining = { item_count left };

    #[tactic(auto, using(crate::proofs::Sheets::sheets_none, crate::proofs::Sheets::sheets_some))]
    fn next(&mut self) -> Option<Boundsheet> {
        let sheet = next_sheet(self.stream, self.at)?;
        self.at = sheet.next;
        Some(sheet)
    }
}
