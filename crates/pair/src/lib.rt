// One template workbook, and a session over it: the session's sheets hide the template's by their number, and its text indices resolve in the template
// where it has no string table.
#![tactic(auto)]

ghost use Rattle.std.specs.Prelude.{◌≡◌, ◌+◌, ◌≤◌, length, Option, IfSome, IfOk};
ghost use Rattle.new_value.specs.Change.{Held};
ghost use Rattle.reading.specs.Cells.{listed_from};
ghost use Rattle.reading.specs.Reading.{type_at, width_at, start_by, rows_of};
ghost use Rattle.workbook.specs.Check.{checked_of};
ghost use Rattle.pair.specs.Refused.{of_stream, stream_refusal, question_refusal};
ghost use Rattle.pair.specs.Pair.{pair_of, pair_sheet_of, pair_name_of, pair_cells_of, pair_correction_of, answer_of, session_after};
ghost use Rattle.pair.specs.Parts.{checked_for, stream_of, globals_in, where_of, Within, found_of};

use globals::Globals;
use listing::Sought;
use new_value::NewValue;
use reading::Place;
use refusal::Refusal;

#[derive(Clone, Copy, Debug, PartialEq, Eq)]
pub enum Whose {
    Session,
    Template,
}

// What a refusal is of: one of the streams, or the question itself (11, 12, 16, 17, 18, at 0).
#[derive(Clone, Copy, Debug, PartialEq, Eq)]
pub enum Of {
    Session,
    Template,
    Question,
}

// Why the check refuses a pair.
#[derive(Clone, Copy, Debug, PartialEq, Eq)]
pub struct StreamRefusal {
    pub whose: Whose,
    pub number: u8,
    pub offset: usize,
}

// Why a question over a pair gets no answer.
#[derive(Clone, Copy, Debug, PartialEq, Eq)]
pub struct PairRefusal {
    pub of: Of,
    pub number: u8,
    pub offset: usize,
}

// What the globals of both hold.
#[derive(Clone, Copy)]
pub struct PairChecked {
    pub template: Globals,
    pub session: Globals,
}

// A sheet, its BOUNDSHEET's header, and whose it is.
#[derive(Clone, Copy)]
pub struct PairSheet {
    pub whose: Whose,
    pub header: usize,
    pub type_byte: u8,
    pub width: usize,
    pub rows: u32,
}

// Where a listing starts, and in whose stream.
#[derive(Clone, Copy)]
pub struct PairCells {
    pub whose: Whose,
    pub place: Place,
}

// A BOUNDSHEET of the one stream or the other.
#[derive(Clone, Copy)]
pub struct Where {
    pub whose: Whose,
    pub sheet: Sought,
}

impl PairChecked {
    // Those of the one stream or the other.
    pub fn globals(self, whose: Whose) -> Globals
        ensures { result ≡ globals_in self whose }
    {
        match whose {
            Whose::Session => self.session,
            Whose::Template => self.template,
        }
    }
}

impl Whose {
    // The one stream or the other.
    pub fn stream<'a>(self, template: &'a [u8], session: &'a [u8]) -> &'a [u8]
        ensures { result.now ≡ stream_of self template.now session.now }
    {
        match self {
            Whose::Session => session,
            Whose::Template => template,
        }
    }
}

impl From<Whose> for Of {
    ghost from_gives = { λ w o. o ≡ of_stream w };

    fn from(whose: Whose) -> Of {
        match whose {
            Whose::Session => Of::Session,
            Whose::Template => Of::Template,
        }
    }
}

impl From<StreamRefusal> for PairRefusal {
    ghost from_gives = { λ r e. e ≡ stream_refusal r };

    fn from(refusal: StreamRefusal) -> PairRefusal {
        PairRefusal {
            of: Of::from(refusal.whose),
            number: refusal.number,
            offset: refusal.offset,
        }
    }
}

impl From<Refusal> for PairRefusal {
    ghost from_gives = { λ r e. e ≡ question_refusal r };

    fn from(refusal: Refusal) -> PairRefusal {
        PairRefusal {
            of: Of::Question,
            number: refusal.number,
            offset: refusal.offset,
        }
    }
}

fn checked_for(whose: Whose, s: &[u8], unique: u32) -> Result<Globals, StreamRefusal>
    ensures { result ≡ checked_for whose (checked_of s.now unique) }
{
    workbook::check_with(s, unique).map_err(|r| StreamRefusal {
        whose,
        number: r.number,
        offset: r.offset,
    })
}

// Check the template, then the session.
#[tactic(auto, using(crate::proofs::Laws::pair_by))]
pub fn pair_check(template: &[u8], session: &[u8]) -> Result<PairChecked, StreamRefusal>
    ensures { result ≡ pair_of template.now session.now }
{
    let g = checked_for(Whose::Template, template, 0)?;
    let h = checked_for(Whose::Session, session, g.unique)?;
    Ok(PairChecked {
        template: g,
        session: h,
    })
}

// Sheet n, counted from 0.
#[tactic(auto, using(crate::proofs::Laws::where_by))]
pub fn whose_sheet(template: &[u8], session: &[u8], n: u32) -> Option<Where>
    ensures value { result ≡ where_of template.now session.now n }
    ensures within { IfSome result (Within template.now session.now) }
{
    if let Some(sheet) = listing::find_sheet(session, n) {
        return Some(Where {
            whose: Whose::Session,
            sheet,
        });
    }
    let sheet = listing::find_sheet(template, n)?;
    Some(Where {
        whose: Whose::Template,
        sheet,
    })
}

// Sheet n after the check.
#[tactic(auto, using(crate::proofs::Laws::found_by))]
pub fn find_sheet(template: &[u8], session: &[u8], n: u32) -> Result<Where, PairRefusal>
    ensures value { result ≡ found_of template.now session.now n }
    ensures within { IfOk result (Within template.now session.now) }
{
    pair_check(template, session)?;
    whose_sheet(template, session, n).ok_or(PairRefusal {
        of: Of::Question,
        number: 11,
        offset: 0,
    })
}

// The name of sheet n, a part of the one stream or the other (`pair_sheet` says of which); empty where the question is refused.
#[tactic(auto, using(crate::proofs::Laws::name_by))]
pub fn pair_sheet_name<'a>(template: &'a [u8], session: &'a [u8], n: u32) -> &'a [u8]
    ensures { result.now ≡ pair_name_of template.now session.now n }
{
    match find_sheet(template, session, n) {
        Ok(found) => listing::name_at(found.whose.stream(template, session), found.sheet.header),
        Err(_) => &session[0..0],
    }
}

// Sheet n, and whose it is.
#[tactic(auto, using(crate::proofs::Laws::sheet_by))]
pub fn pair_sheet(template: &[u8], session: &[u8], n: u32) -> Result<PairSheet, PairRefusal>
    ensures { result ≡ pair_sheet_of template.now session.now n }
{
    let found = find_sheet(template, session, n)?;
    let s = found.whose.stream(template, session);
    Ok(PairSheet {
        whose: found.whose,
        header: found.sheet.header,
        type_byte: s[found.sheet.header + 9],
        width: segments::width_of(s[found.sheet.header + 11]),
        rows: listing::rows(
            s,
            listing::first_place(s, found.sheet.position, found.sheet.kind),
        ),
    })
}

// Where the listing of sheet n starts, and in whose stream: `listing::next_cell` goes on from there on that stream.
#[tactic(auto, using(crate::proofs::Laws::cells_by))]
pub fn pair_cells(template: &[u8], session: &[u8], n: u32) -> Result<PairCells, PairRefusal>
    ensures { result ≡ pair_cells_of template.now session.now n }
{
    let found = find_sheet(template, session, n)?;
    let s = found.whose.stream(template, session);
    Ok(PairCells {
        whose: found.whose,
        place: listing::first_place(s, found.sheet.position, found.sheet.kind),
    })
}

// ---- a correction

// Correct a cell of the session. A sheet number that only the template has is 17.
#[tactic(auto, using(crate::proofs::Correcting::asked_laws, crate::proofs::Laws::session_short), unfolding(crate::specs::Pair::pair_correction_of))]
pub fn pair_correct(
    template: &[u8],
    session: &mut [u8],
    sheet: u32,
    row: u32,
    column: u32,
    value: NewValue,
) -> Result<(), PairRefusal>
    ensures value { result ≡ answer_of (pair_correction_of template.now session.old sheet row column value) }
    ensures session_after { session.new ≡ session_after session.old (pair_correction_of template.now session.old sheet row column value) }
    ensures held { Held value }
{
    let unique = pair_check(template, &session[..])?.session.unique;
    let sheets = workbook::sheet_count(template);
    correction::correct_in(session, unique, sheets, sheet, row, column, value)?;
    Ok(())
}
