// The top-level substreams after the globals: what stands between them, their BOFs, and the walk of them with the sheet list held against it: refusal 10.
// Sheets that name the BOFs in their order, as writers write them, are settled inside the walk; for any other order the BOFs are put into slots of 24
// positions, 53,248 slots at a time, so that the stack holds them: each window walks its own BOFs once more, and all sheets once.
#![tactic(auto)]

ghost use Rattle.std.specs.Prelude.{◌≡◌, ℕ, ◌≤◌, length, drop, true, unwrap_or};
ghost use Rattle.top_level.specs.TopLevel.{all_zero, bof_kind, top_of, bof_at, bofs_from};
ghost use Rattle.sheet_agreement.specs.Agreement.{agreement_of};
ghost use Rattle.sheet_agreement.specs.Slots.{Marked, Empty};
ghost use Rattle.globals.specs.Sheets.{sheets_of};
ghost use Rattle.top_level.specs.Parts.{NamedAll, NoneLeft, EachNamed, Filled, PassedAll, Lefts, Windowed};
ghost use Rattle.top_level.specs.Tops.{followed, tail_of};

use globals::Boundsheets;
use record::Header;
use refusal::Refusal;
use sheet_agreement::SheetKind;

// A BOF between the top-level substreams: its kind, and where its substream ends.
#[derive(Clone, Copy)]
pub struct Found {
    pub kind: SheetKind,
    pub end: usize,
}

// Whether all bytes from `at` on are zero.
#[tactic(auto, unfolding(crate::specs::TopLevel::all_zero))]
fn zeros_from(s: &[u8], at: usize) -> bool
    ensures { result ≡ all_zero (drop at s.now) }
{
    s.len() <= at || s[at..].iter().all(|byte| *byte == 0)
}

// By the kind that a BOF says; the type byte of a BOUNDSHEET has other numbers, so the two have a match each.
#[tactic(auto, unfolding(crate::specs::TopLevel::bof_kind, steps::specs::Choice::pick))]
fn bof_kind(kind: u16) -> SheetKind
    ensures { result ≡ bof_kind kind }
{
    match kind {
        0x0010 => SheetKind::Worksheet,
        0x0020 => SheetKind::Chart,
        0x0040 => SheetKind::Macro,
        _ => SheetKind::Other,
    }
}

// The kind of the BOF that stands between the top-level substreams, as the BOF says it; none at their end.
#[tactic(auto, using(record::proofs::Laws::body_within), unfolding(crate::specs::TopLevel::top_of, steps::specs::Choice::pick))]
pub fn top_at(s: &[u8], at: usize) -> Result<Option<u16>, Refusal>
    ensures { result ≡ top_of s.now at }
{
    if zeros_from(s, at) {
        return Ok(None);
    }
    match record::header_at(s, at) {
        Header::Record {
            kind: 0x0809,
            size: 16,
            end: _,
        } => {
            let kind = byte_numbers::u16_at(s, at + 6);
            if bof_kind(kind) == SheetKind::Other {
                return Err(Refusal {
                    number: 4,
                    offset: at,
                });
            }
            Ok(Some(kind))
        }
        Header::Record { kind, .. } => Err(Refusal {
            number: if kind == 0x0809 { 6 } else { 4 },
            offset: at,
        }),
        Header::Cut => Err(Refusal {
            number: 2,
            offset: at,
        }),
        Header::End => Ok(None),
    }
}

// The BOF at a place between the top-level substreams.
#[tactic(auto, using(crate::proofs::Bofs::room_open), unfolding(crate::specs::TopLevel::bof_at))]
fn bof_at(s: &[u8], unique: u32, at: usize) -> Option<Found>
    ensures { result ≡ bof_at s.now unique at }
{
    let Ok(Some(kind)) = top_at(s, at) else {
        return None;
    };
    let end = substream::walk(s, kind, unique, at, 4).ok()?;
    Some(Found {
        kind: bof_kind(kind),
        end,
    })
}

// The BOFs of a window that are left: they are all named, and the next BOF, if there is one, stands at this place; or the first that no sheet names.
#[derive(Clone, Copy)]
pub enum Remaining {
    Named(usize),
    Free(usize),
}

// What a window gives: the first of its sheets that isn't right; if all are, the first of its BOFs that no sheet names; where the next window starts, if
// there is one; and the place of the next BOF.
#[derive(Clone, Copy)]
pub struct Window {
    pub fault: Option<usize>,
    pub free: Option<usize>,
    pub next: Option<usize>,
    pub at: usize,
}

// Puts each BOF from a place on into its slot, up to the window's last slot. Gives the place of the next BOF, if there is one.
// Here and below the window's start and the place stay two parameters: the place moves, and a type of both would say again at each step that the window stays.
#[tactic(auto, using(crate::proofs::Laws::fill_laws))]
fn fill(s: &[u8], unique: u32, from: usize, lo: usize, slots: &mut [u8; 53248]) -> Option<usize>
    requires { Empty slots.old × (lo ≤ from) }
    ensures { Filled s.now unique from lo slots.new result }
{
    let mut at = from;
    // The BOF's own substream says where the next one stands, and the window may be full before it is walked: there is no index to count.
    while at < s.len() {
        let d = at - lo;
        if 1277952 <= d {
            return Some(at);
        }
        let bof = bof_at(s, unique, at)?;
        slots[d / 24] = sheet_agreement::slot_of(d, bof.kind);
        at = bof.end;
    }
    None
}

// Takes the BOF that each sheet of the window names out of its slot, up to a sheet whose BOF isn't there.
#[tactic(auto, using(crate::proofs::Laws::pass_laws))]
fn pass(s: &[u8], lo: usize, hi: Option<usize>, slots: &mut [u8; 53248]) -> Option<usize>
    ensures { PassedAll slots.old slots.new lo hi (sheets_of s.now) result }
{
    for sheet in Boundsheets::of(s) {
        let q = sheet.position as usize;
        if sheet_agreement::in_window(lo, hi, q) {
            if !sheet_agreement::slot_has(slots, lo, q, sheet.kind) {
                return Some(sheet.header);
            }
            slots[(q - lo) / 24] = 0;
        }
    }
    None
}

// The first BOF of the window that is still in its slot.
#[tactic(auto, using(crate::proofs::Laws::left_laws))]
fn left(
    s: &[u8],
    unique: u32,
    from: usize,
    lo: usize,
    hi: Option<usize>,
    slots: &[u8; 53248],
) -> Remaining
    requires { (lo ≤ from) × ((h : ℕ) → hi ≡ Some h → h ≤ length s.now) × Marked slots.now lo hi (bofs_from s.now unique from) (sheets_of s.now) }
    ensures { Lefts s.now unique from hi result }
{
    let mut at = from;
    // The BOF's own substream says where the next one stands: there is no index to count.
    while sheet_agreement::in_window(lo, hi, at) {
        let Some(bof) = bof_at(s, unique, at) else {
            return Remaining::Named(s.len());
        };
        if sheet_agreement::slot_has(slots, lo, at, bof.kind) {
            return Remaining::Free(at);
        }
        at = bof.end;
    }
    Remaining::Named(at)
}

// Whether all slots are empty. Every one is looked at, without a branch: this is done sixteen at a time.
fn none_left(slots: &[u8; 53248]) -> bool
    ensures { result ≡ true → NoneLeft slots.now }
{
    slots.iter().fold(0, |any, slot| any | slot) == 0
}

// What is left of the window. Only where a slot isn't empty are its BOFs walked again, for the first that no sheet names.
#[tactic(auto, using(crate::proofs::Laws::none_each))]
fn unnamed(
    s: &[u8],
    unique: u32,
    from: usize,
    lo: usize,
    hi: Option<usize>,
    slots: &[u8; 53248],
) -> Remaining
    requires { (lo ≤ from) × ((h : ℕ) → hi ≡ Some h → h ≤ length s.now) × Marked slots.now lo hi (bofs_from s.now unique from) (sheets_of s.now) × (EachNamed s.now unique from lo hi → NamedAll s.now unique from hi (unwrap_or hi (length s.now))) }
    ensures { Lefts s.now unique from hi result }
{
    if none_left(slots) {
        return Remaining::Named(hi.unwrap_or(s.len()));
    }
    left(s, unique, from, lo, hi, slots)
}

// With empty slots.
fn with_slots(s: &[u8], unique: u32, from: usize, lo: usize, slots: &mut [u8; 53248]) -> Window
    requires { Empty slots.old × (lo ≤ from) }
    ensures { Windowed s.now unique from lo result }
{
    let next = fill(s, unique, from, lo, slots);
    let fault = pass(s, lo, next, slots);
    let end = next.unwrap_or(s.len());
    if fault.is_some() {
        return Window {
            fault,
            free: None,
            next,
            at: end,
        };
    }
    match unnamed(s, unique, from, lo, next, slots) {
        Remaining::Named(at) => Window {
            fault,
            free: None,
            next,
            at,
        },
        Remaining::Free(start) => Window {
            fault,
            free: Some(start),
            next,
            at: end,
        },
    }
}

fn window_from(s: &[u8], unique: u32, from: usize, lo: usize) -> Window
    requires { lo ≤ from }
    ensures { Windowed s.now unique from lo result }
{
    // No heap: a window's slots are what the stack has room for.
    let mut slots = [0u8; 53248];
    with_slots(s, unique, from, lo, &mut slots)
}

// A window after the other; of their faults the sooner. Not inlined: the slots would lie in the frame of whoever checks a stream, also where its sheets stand in order.
#[inline(never)]
#[tactic(auto, using(crate::proofs::Laws::going_laws))]
fn by_slots(s: &[u8], unique: u32, from: usize) -> Option<usize>
    ensures { result ≡ agreement_of (sheets_of s.now) (bofs_from s.now unique from) }
{
    let mut lo: usize = 0;
    let mut at = from;
    let mut fault = None;
    let mut free = None;
    // Each window says where the next one starts, if there is one: there is no index to count.
    loop {
        let w = window_from(s, unique, at, lo);
        fault = sheet_agreement::first_in_stream(fault, w.fault);
        free = free.or(w.free);
        match w.next {
            Some(next) => {
                lo = next;
                at = w.at;
            }
            None => return fault.or(free),
        }
    }
}

// The place after the next sheet, if it names the BOF at `at` with its kind; none if not, and from then on.
#[tactic(auto, unfolding(crate::specs::Tops::followed, steps::specs::Choice::pick))]
fn follow(s: &[u8], p: Option<usize>, at: usize, of: SheetKind) -> Option<usize>
    ensures { result ≡ followed s.now p at of }
{
    let sheet = globals::next_sheet(s, p?)?;
    if sheet.position as usize == at && sheet.kind == of {
        Some(sheet.next)
    } else {
        None
    }
}

// The top-level substreams after the globals: how far the sheets were followed as the BOFs came by.
#[tactic(auto, using(crate::proofs::Following::tail_laws))]
pub fn walk_top_level(s: &[u8], unique: u32, from: usize) -> Result<Option<usize>, Refusal>
    ensures { result ≡ tail_of s.now unique from }
{
    let mut at = from;
    let mut sheets = Some(20);
    // The substream itself says where the next one starts, and may be refused: there is no index to count.
    while let Some(kind) = top_at(s, at)? {
        let end = substream::walk(s, kind, unique, at, 4)?;
        sheets = follow(s, sheets, at, bof_kind(kind));
        at = end;
    }
    Ok(sheets)
}

// The first BOUNDSHEET or BOF at fault. Sheets that named the BOFs in their order need no slots.
#[tactic(auto, using(crate::proofs::Following::settled_agree))]
pub fn sheet_list_agreement(
    s: &[u8],
    unique: u32,
    from: usize,
    sheets: Option<usize>,
) -> Option<usize>
    requires { Ok sheets ≡ tail_of s.now unique from }
    ensures { result ≡ agreement_of (sheets_of s.now) (bofs_from s.now unique from) }
{
    if let Some(p) = sheets {
        if globals::next_sheet(s, p).is_none() {
            return None;
        }
    }
    by_slots(s, unique, from)
}
