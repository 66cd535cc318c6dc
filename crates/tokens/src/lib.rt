// Judging formula bytes: tokens over a stack of operands.
#![tactic(auto)]

ghost use Rattle.std.specs.Prelude.{◌≡◌, ◌+◌, ◌-◌, ◌^◌, ◌≤◌, ◌<◌, length, take, drop};
ghost use Rattle.tokens.specs.Tokens.{size_of, operand_of, text_of, choice_of, attribute_of, error_of, truth_of, whole_of, base_of, column_clear, reference_of, area_of, fixed_of, called_of, variable_of, inner_of, memory_of, classified_of, any_of, token_of};
ghost use Rattle.tokens.specs.Judge.{at_end, tokens_judged};
ghost use Rattle.tokens.specs.Parts.{plain_step, Right, RightStep, StepWithin};

use function_counts::Counts;
use refusal::Refusal;

// Where a token stands.
#[derive(Clone, Copy)]
pub struct Place<'a> {
    // from the token byte on to the end of its formula
    pub bytes: &'a [u8],
    // of the token byte, in the outermost bytes
    pub offset: usize,
    // how many memory tokens it lies inside
    pub depth: u8,
    ghost fits: { offset + length bytes.now < 2 ^ 32 },
}

// A token, before the stack is looked at.
#[derive(Clone, Copy, Debug, PartialEq, Eq)]
pub enum Token {
    // its bytes, the operands that it takes off the stack, and those that it gives
    Plain(usize, usize, usize),
    // a memory token, which gives one operand: its bytes, and how many of them come before its inner formula
    Memory(usize, usize),
}

impl Token {
    // Its bytes, a memory token's inner ones included.
    pub fn size(self) -> usize
        ensures { result ≡ size_of self }
    {
        match self {
            Token::Plain(size, _, _) => size,
            Token::Memory(size, _) => size,
        }
    }
}

// What a token leads to: the bytes passed and the operands on the stack there.
#[derive(Clone, Copy)]
struct Step {
    size: usize,
    stack: usize,
}

// A token of a known size that gives one operand, or the number of its refusal. Here and below t is the bytes from the token byte on to the end of its formula.
#[tactic(auto, using(steps::proofs::Choice::picks), unfolding(crate::specs::Tokens::operand_of))]
fn operand(size: usize, t: &[u8]) -> Result<Token, u8>
    ensures { result ≡ operand_of size t.now }
{
    if t.len() < size {
        return Err(13);
    }
    Ok(Token::Plain(size, 0, 1))
}

// 0x17: a count, a flags byte, and the characters, of two bytes each where bit 0 of the flags is set.
#[tactic(auto, using(steps::proofs::Choice::picks, crate::proofs::Tokens::characters), unfolding(crate::specs::Tokens::text_of))]
fn text(t: &[u8]) -> Result<Token, u8>
    ensures { result ≡ text_of t.now }
{
    let [_, count, flags, ..] = *t else {
        return Err(13);
    };
    let width = 1 + usize::from(flags & 1);
    operand(3 + usize::from(count) * width, t)
}

// 0x19 of kind 0x04: a table of n + 1 words after the first four bytes.
#[tactic(auto, using(steps::proofs::Choice::picks), unfolding(crate::specs::Tokens::choice_of))]
fn choice(n: u16, t: &[u8]) -> Result<Token, u8>
    ensures { result ≡ choice_of n t.now }
{
    let size = 4 + 2 * (usize::from(n) + 1);
    if t.len() < size {
        return Err(13);
    }
    Ok(Token::Plain(size, 0, 0))
}

// 0x19: a kind byte and two bytes.
#[tactic(auto, using(steps::proofs::Choice::arms), unfolding(crate::specs::Tokens::attribute_of, crate::specs::Tokens::attribute_by))]
fn attribute(t: &[u8]) -> Result<Token, u8>
    ensures { result ≡ attribute_of t.now }
{
    if t.len() < 4 {
        return Err(13);
    }
    match t[1] {
        0x10 => Ok(Token::Plain(4, 1, 1)),
        0x01 | 0x02 | 0x08 | 0x40 | 0x41 => Ok(Token::Plain(4, 0, 0)),
        0x04 => choice(byte_numbers::u16_at(t, 2), t),
        _ => Err(13),
    }
}

// The next two differ in a test; as a parameter it would need a contract of its own, longer than either.
// 0x1C: an error code.
#[tactic(auto, using(crate::proofs::Tokens::tested), unfolding(crate::specs::Tokens::error_of))]
fn error(t: &[u8]) -> Result<Token, u8>
    ensures { result ≡ error_of t.now }
{
    match *t {
        [_, code, ..] if truth_error::is_error(code) => Ok(Token::Plain(2, 0, 1)),
        _ => Err(13),
    }
}

// 0x1D: a truth.
#[tactic(auto, using(crate::proofs::Tokens::tested), unfolding(crate::specs::Tokens::truth_of))]
fn truth(t: &[u8]) -> Result<Token, u8>
    ensures { result ≡ truth_of t.now }
{
    match *t {
        [_, truth, ..] if truth_error::is_truth(truth) => Ok(Token::Plain(2, 0, 1)),
        _ => Err(13),
    }
}

// 0x01 and 0x02: only as the whole outermost formula, which alone starts at offset 0.
#[tactic(auto, using(steps::proofs::Choice::picks), unfolding(crate::specs::Tokens::whole_of))]
fn whole(offset: usize, t: &[u8]) -> Result<Token, u8>
    ensures { result ≡ whole_of offset t.now }
{
    if offset == 0 && t.len() == 5 {
        return Ok(Token::Plain(5, 0, 1));
    }
    Err(13)
}

// The base tokens, below 0x20.
#[tactic(auto, using(steps::proofs::Choice::arms), unfolding(crate::specs::Tokens::base_of))]
fn base_token(id: u8, offset: usize, t: &[u8]) -> Result<Token, u8>
    ensures { result ≡ base_of id offset t.now }
{
    match id {
        0x01..=0x02 => whole(offset, t),
        0x03..=0x11 => Ok(Token::Plain(1, 2, 1)),
        0x12..=0x15 => Ok(Token::Plain(1, 1, 1)),
        0x16 => Ok(Token::Plain(1, 0, 1)),
        0x17 => text(t),
        0x19 => attribute(t),
        0x1C => error(t),
        0x1D => truth(t),
        0x1E => operand(3, t),
        0x1F => operand(9, t),
        _ => Err(13),
    }
}

// Bits 8 to 13 of a column word are clear.
#[tactic(auto, using(crate::proofs::Tokens::clear_mask))]
fn column_clear(word: u16) -> bool
    ensures { result ≡ column_clear word }
{
    word & 0x3F00 == 0
}

// A reference to a cell: the column word is the token's last.
#[tactic(auto, using(crate::proofs::Tokens::tested), unfolding(crate::specs::Tokens::reference_of))]
fn reference(size: usize, t: &[u8]) -> Result<Token, u8>
    requires { 2 ≤ size }
    ensures { result ≡ reference_of size t.now }
{
    if t.len() < size {
        return Err(13);
    }
    if column_clear(byte_numbers::u16_at(t, size - 2)) {
        return Ok(Token::Plain(size, 0, 1));
    }
    Err(13)
}

// A reference to an area: the two column words are the token's last.
#[tactic(auto, using(crate::proofs::Tokens::tested), unfolding(crate::specs::Tokens::area_of))]
fn area(size: usize, t: &[u8]) -> Result<Token, u8>
    requires { 4 ≤ size }
    ensures { result ≡ area_of size t.now }
{
    if t.len() < size {
        return Err(13);
    }
    if column_clear(byte_numbers::u16_at(t, size - 4)) {
        return reference(size, t);
    }
    Err(13)
}

// 0x21: an index, of a function with a fixed count of arguments.
#[tactic(auto, using(crate::proofs::Tokens::tested), unfolding(crate::specs::Tokens::fixed_of))]
fn fixed_function(t: &[u8]) -> Result<Token, u8>
    ensures { result ≡ fixed_of t.now }
{
    if t.len() < 3 {
        return Err(13);
    }
    match function_counts::counts_at(byte_numbers::u16_at(t, 1)) {
        Some(counts) if counts.least == counts.greatest => {
            Ok(Token::Plain(3, usize::from(counts.least), 1))
        }
        _ => Err(15),
    }
}

// A call with so many arguments.
#[tactic(auto, using(steps::proofs::Choice::picks), unfolding(crate::specs::Tokens::called_of))]
fn called(counts: Counts, count: u8) -> Result<Token, u8>
    ensures { result ≡ called_of counts.least counts.greatest count }
{
    if count < counts.least || counts.greatest < count {
        return Err(15);
    }
    Ok(Token::Plain(4, usize::from(count), 1))
}

// 0x22: a count, whose upper bit is ignored, and an index.
#[tactic(auto, using(steps::proofs::Choice::picks, crate::proofs::Tokens::counted), unfolding(crate::specs::Tokens::variable_of))]
fn variable_function(t: &[u8]) -> Result<Token, u8>
    ensures { result ≡ variable_of t.now }
{
    if t.len() < 4 {
        return Err(13);
    }
    let Some(counts) = function_counts::counts_at(byte_numbers::u16_at(t, 2)) else {
        return Err(15);
    };
    called(counts, t[1] & 0x7F)
}

// A memory token of `head` bytes with an inner formula of `inner` bytes after them.
#[tactic(auto, using(steps::proofs::Choice::picks), unfolding(crate::specs::Tokens::inner_of))]
fn inner_formula(head: usize, inner: usize, t: &[u8]) -> Result<Token, u8>
    requires { (head < 2 ^ 32) × (inner < 2 ^ 32) }
    ensures { result ≡ inner_of head inner t.now }
{
    if inner == 0 || t.len() < head + inner {
        return Err(13);
    }
    Ok(Token::Memory(head + inner, head))
}

// A memory token inside `depth` others: the last two of its `head` bytes are the inner formula's length.
#[tactic(auto, using(steps::proofs::Choice::picks), unfolding(crate::specs::Tokens::memory_of))]
fn memory(head: usize, depth: u8, t: &[u8]) -> Result<Token, u8>
    requires { (2 ≤ head) × (head < 2 ^ 32) }
    ensures { result ≡ memory_of head depth t.now }
{
    if t.len() < head || 8 <= depth {
        return Err(13);
    }
    inner_formula(head, usize::from(byte_numbers::u16_at(t, head - 2)), t)
}

// The classified tokens, from 0x20 to 0x7F, as in 0x20 plus.
#[tactic(auto, using(steps::proofs::Choice::arms, crate::proofs::Tokens::known), unfolding(crate::specs::Tokens::classified_of, steps::specs::Choice::pick))]
fn classified_token(id: u8, depth: u8, t: &[u8]) -> Result<Token, u8>
    ensures { result ≡ classified_of id depth t.now }
{
    match id {
        0x20 => operand(8, t),
        0x21 => fixed_function(t),
        0x22 => variable_function(t),
        0x23 | 0x2A | 0x2C => operand(5, t),
        0x24 => reference(5, t),
        0x25 => area(9, t),
        0x26..=0x28 => memory(7, depth, t),
        0x29 => memory(3, depth, t),
        0x2B | 0x2D => operand(9, t),
        0x39 | 0x3C => operand(7, t),
        0x3A => reference(7, t),
        0x3B => area(11, t),
        0x3D => operand(11, t),
        _ => Err(13),
    }
}

// Any token. Bits 5 and 6 of its byte are the operand class.
#[tactic(auto, using(crate::proofs::Tokens::classes), unfolding(crate::specs::Tokens::any_of))]
fn any_token(t: &[u8], offset: usize, depth: u8) -> Result<Token, u8>
    requires { 0 < length t.now }
    ensures { result ≡ any_of t.now offset depth }
{
    let byte = t[0];
    match byte >> 5 {
        0 => base_token(byte, offset, t),
        1..=3 => classified_token(0x20 + (byte & 0x1F), depth, t),
        _ => Err(13),
    }
}

impl<'a> Place<'a> {
    // The token that starts there.
    #[tactic(auto, using(crate::proofs::Tokens::stands), unfolding(crate::specs::Tokens::token_of))]
    pub fn first_token(self) -> Result<Token, Refusal>
        requires { 0 < length self.bytes.now }
        ensures { result ≡ token_of self.entry.bytes.now self.entry.offset self.entry.depth }
    {
        any_token(self.bytes, self.offset, self.depth).map_err(|number| Refusal {
            number,
            offset: self.offset,
        })
    }

    // So many bytes further on in the same formula.
    pub fn after(self, size: usize) -> Place<'a>
        requires { size ≤ length self.bytes.now }
        ensures bytes { result.bytes.now ≡ drop size self.entry.bytes.now }
        ensures offset { result.offset ≡ self.entry.offset + size }
        ensures depth { result.depth ≡ self.entry.depth }
    {
        Place {
            bytes: &self.bytes[size..],
            offset: self.offset + size,
            depth: self.depth,
        }
    }

    // The inner formula of a memory token that starts there: the bytes from `head` of it up to `size`.
    pub fn inside(self, head: usize, size: usize) -> Place<'a>
        requires start { head ≤ size }
        requires end { size ≤ length self.bytes.now }
        requires deeper { self.depth < 255 }
        ensures bytes { result.bytes.now ≡ take (size - head) (drop head self.entry.bytes.now) }
        ensures offset { result.offset ≡ self.entry.offset + head }
        ensures depth { result.depth ≡ self.entry.depth + 1 }
    {
        Place {
            bytes: &self.bytes[head..size],
            offset: self.offset + head,
            depth: self.depth + 1,
        }
    }
}

// A token that takes operands off the stack and gives some, or finds too few.
#[tactic(auto, using(steps::proofs::Choice::picks))]
fn plain_step(
    offset: usize,
    stack: usize,
    size: usize,
    takes: usize,
    gives: usize,
) -> Result<Step, Refusal>
    requires { (stack < 2 ^ 32) × (gives < 2 ^ 32) }
    ensures { result ≡ plain_step offset stack size takes gives }
{
    if stack < takes {
        return Err(Refusal { number: 14, offset });
    }
    Ok(Step {
        size,
        stack: stack - takes + gives,
    })
}

// The token judge: a token over `stack` operands. A memory token's inner bytes go to the formula judge.
#[cycle(judge_formula_judge_token)]
#[tactic(auto, using(crate::proofs::Formula::on_token_lem))]
fn judge_token(place: Place, stack: usize) -> Result<Step, Refusal>
    requires some { 0 < length place.bytes.now }
    requires stack_le_offset { stack ≤ place.offset }
    ensures right_step { RightStep place.entry.bytes.now place.entry.offset stack place.entry.depth result }
    ensures step_within { StepWithin (length place.entry.bytes.now) stack result }
{
    match place.first_token()? {
        Token::Plain(size, takes, gives) => plain_step(place.offset, stack, size, takes, gives),
        Token::Memory(size, head) => {
            judge_formula(place.inside(head, size))?;
            Ok(Step {
                size,
                stack: stack + 1,
            })
        }
    }
}

// One operand is left at the end of a formula.
#[tactic(auto, using(steps::proofs::Choice::picks), unfolding(crate::specs::Judge::at_end))]
fn at_end(stack: usize, offset: usize) -> Result<(), Refusal>
    ensures { result ≡ at_end stack offset }
{
    if stack == 1 {
        return Ok(());
    }
    Err(Refusal { number: 14, offset })
}

// The formula judge: a whole formula, from its first token on, with its own empty stack.
#[cycle(judge_formula_judge_token)]
#[tactic(auto, using(crate::proofs::Formula::on_step_laws))]
fn judge_formula(formula: Place) -> Result<(), Refusal>
    ensures { Right formula.entry.bytes.now formula.entry.offset 0 formula.entry.depth result }
{
    let mut place = formula;
    let mut stack = 0;
    // Each token says how many bytes it takes up: the next one starts there, and no index is counted.
    while !place.bytes.is_empty() {
        let step = judge_token(place, stack)?;
        place = place.after(step.size);
        stack = step.stack;
    }
    at_end(stack, place.offset)
}

// The answer on the tokens alone, for any bytes; a formula has 1 to 1,800.
#[tactic(auto, using(steps::proofs::Choice::picks, crate::proofs::Formula::judged), unfolding(crate::specs::Judge::tokens_judged))]
pub fn judge_tokens(b: &[u8]) -> Result<(), Refusal>
    ensures { result ≡ tokens_judged b.now }
{
    if b.is_empty() || 1800 < b.len() {
        return Err(Refusal {
            number: 13,
            offset: 0,
        });
    }
    judge_formula(Place {
        bytes: b,
        offset: 0,
        depth: 0,
    })
}
