// The strings and texts of a template and a session.
#![tactic(auto)]

ghost use Rattle.std.specs.Prelude.{◌≡◌, ◌*◌, ltb, length};
ghost use Rattle.pair_texts.specs.Texts.{table_of, pair_fetch_of, pair_buffer_of, pair_text_of, pair_text_buffer};
ghost use Rattle.pair_texts.specs.Tables.{pair_fill_of, template_table_after, session_table_after};

use globals::Globals;
use pair::{Of, PairRefusal, Whose};

// How many units were written, and of whose table or sheet.
#[derive(Clone, Copy, Debug, PartialEq, Eq)]
pub struct PairFetched {
    pub whose: Whose,
    pub units: usize,
}

// Of how many strings of each the tables have the places.
#[derive(Clone, Copy, Debug, PartialEq, Eq)]
pub struct PairFilled {
    pub template: u32,
    pub session: u32,
}

// ---- a fetch

// In whose table an index resolves.
#[tactic(auto, unfolding(steps::specs::Choice::pick))]
pub fn whose_table(whose: Whose, session: Globals) -> Whose
    ensures { result ≡ table_of whose session }
{
    match whose {
        Whose::Session if session.table != 0 => Whose::Session,
        _ => Whose::Template,
    }
}

// The units of a string: the session's index or the template's, as `whose` says; the answer says of whose table.
#[tactic(auto, using(crate::proofs::Fetching::fetch_laws))]
pub fn pair_fetch(
    template: &[u8],
    session: &[u8],
    whose: Whose,
    index: u32,
    buf: &mut [u16],
) -> Result<PairFetched, PairRefusal>
    ensures value { result ≡ pair_fetch_of template.now session.now whose index buf.old }
    ensures buf_after { buf.new ≡ pair_buffer_of template.now session.now whose index buf.old }
{
    let both = pair::pair_check(template, session)?;
    let owner = whose_table(whose, both.session);
    let g = both.globals(owner);
    let n = string_places::count_of(g.table, g.unique);
    let s = owner.stream(template, session);
    let units = fetch::fetch_known(s, g.table, n, index, buf)?;
    Ok(PairFetched {
        whose: owner,
        units,
    })
}

// ---- the text result of a formula

// The units of the text result of the first cell of an address in sheet n; the answer says whose sheet it is.
#[tactic(auto, using(crate::proofs::Text::text_laws))]
pub fn pair_text(
    template: &[u8],
    session: &[u8],
    n: u32,
    row: u32,
    column: u32,
    buf: &mut [u16],
) -> Result<PairFetched, PairRefusal>
    ensures value { result ≡ pair_text_of template.now session.now n row column buf.old }
    ensures buf_after { buf.new ≡ pair_text_buffer template.now session.now n row column buf.old }
{
    let found = pair::find_sheet(template, session, n)?;
    let s = found.whose.stream(template, session);
    let units = cell_text::fetch_in(s, found.sheet.position, found.sheet.kind, row, column, buf)?;
    Ok(PairFetched {
        whose: found.whose,
        units,
    })
}

// ---- string places

// Whether a table has under two numbers for each of n strings.
fn too_short(table: &[u32], n: u32) -> bool
    ensures { result ≡ ltb (length table.now) (2 * n) }
{
    table.len() < 2 * (n as usize)
}

// Fill a table for each stream with the place of each string: `first` is the template's, `second` the session's. `string_places::fetch_through` then fetches from a stream by its table.
#[tactic(auto, using(crate::proofs::Filling::fill_laws), unfolding(steps::specs::Choice::pick))]
pub fn pair_fill(
    template: &[u8],
    session: &[u8],
    first: &mut [u32],
    second: &mut [u32],
) -> Result<PairFilled, PairRefusal>
    ensures value { result ≡ pair_fill_of template.now session.now first.old second.old }
    ensures first_after { first.new ≡ template_table_after template.now session.now first.old second.old }
    ensures second_after { second.new ≡ session_table_after template.now session.now first.old second.old }
{
    let both = pair::pair_check(template, session)?;
    let p = both.template.table;
    let n = string_places::count_of(p, both.template.unique);
    let q = both.session.table;
    let m = string_places::count_of(q, both.session.unique);
    if too_short(first, n) || too_short(second, m) {
        return Err(PairRefusal {
            of: Of::Question,
            number: 12,
            offset: 0,
        });
    }
    // Neither is refused: both tables are long enough.
    let _ = string_places::fill_checked(template, p, n, first);
    let _ = string_places::fill_checked(session, q, m, second);
    Ok(PairFilled {
        template: n,
        session: m,
    })
}
