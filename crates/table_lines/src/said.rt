// What one line of a table says, whatever its names mean.
ghost use Rattle.std.specs.Prelude.{◌≡◌, ◌+◌, ◌<◌, ◌&&◌, [], ◌∷◌, map, IfOk, IfSome, option_map, Ok, None};
ghost use Rattle.std.specs.Prelude.{Some};
ghost use Rattle.table_lines.specs.Reading.{texts, plain_value};
ghost use Rattle.ij_text.specs.Words.{is_name};
ghost use Rattle.table_lines.specs.Words.{named, number, decimal, plain, closed, bracketed, entry, part_of};
ghost use Rattle.table_lines.specs.Words.{two_decimals, slice, path};
ghost use Rattle.std.specs.List.{list_all};
ghost use Rattle.ij_text.specs.Parts.{split};
ghost use Rattle.ij_text.specs.Options.{both};
ghost use Rattle.table_lines.specs.Said.{cond_of, old_cond, starts_of, with_reset, front_cond, entry_of};
ghost use Rattle.table_lines.specs.Said.{entry_in, slot, amount, entry_amount, plus_minus, set_words, parts};
ghost use Rattle.table_lines.specs.Said.{sets, conds_sets, row, row_of, starts, instrument, instrument_text};
ghost use Rattle.table_lines.specs.Said.{version_of, version};
ghost use Rattle.table_lines.specs.Parted.{part_list, after_parts, with_conds, do_sets};
ghost use Rattle.table_lines.specs.SeenSaid.{seen_front, seen_bracketed, seen_entry, seen_slot, seen_amount};
ghost use Rattle.table_lines.specs.SeenSaid.{seen_cond, seen_set, seen_row, seen_starts, seen_slice};

use crate::bytes::cut_at;
use crate::parts::{LinePart, next_part};
use crate::word::{decimal, is, number, plain};
use ij_bits::OutOfMemory;
use ij_text::{Number, is_name};
use std::alloc::Global;

/// A condition `NAME = NUMBER`, or `old NAME = NUMBER`.
#[derive(Drop)]
pub struct SaidCond<'a> {
    pub old: bool,
    pub name: &'a [u8],
    pub number: Number,
}

/// An entry `MEM[NAME]`.
#[derive(Clone, Copy)]
pub struct SaidEntry<'a> {
    pub memory: &'a [u8],
    pub index: &'a [u8],
}

#[derive(Clone, Copy)]
pub enum SaidSlot<'a> {
    Word(&'a [u8]),
    Entry(SaidEntry<'a>),
}

/// A number of an amount has no x.
#[derive(Drop)]
pub enum SaidAmount<'a> {
    Number(Number),
    Copy(&'a [u8]),
    Plus(&'a [u8], u128),
    Minus(&'a [u8], u128),
    Entry(SaidEntry<'a>),
}

#[derive(Drop)]
pub struct SaidSet<'a> {
    pub slot: SaidSlot<'a>,
    pub amount: SaidAmount<'a>,
}

#[derive(Drop)]
pub struct SaidRow<'a> {
    pub conds: Vec<SaidCond<'a>>,
    pub sets: Vec<SaidSet<'a>>,
}

/// The numbers at power-up and at a reset, without x.
#[derive(Drop)]
pub struct StartNumbers {
    pub init: Number,
    pub reset: Option<Number>,
}

/// A word, whole or from index to index.
#[derive(Clone, Copy)]
pub struct Slice<'a> {
    pub word: &'a [u8],
    pub bounds: Option<(u128, u128)>,
}

/// A line of a block.
#[derive(Drop)]
pub enum SaidLine<'a> {
    Input {
        name: &'a [u8],
        width: u128,
    },
    Word {
        name: &'a [u8],
        width: u128,
        starts: StartNumbers,
    },
    Memory {
        name: &'a [u8],
        depth: u128,
        width: u128,
        starts: StartNumbers,
    },
    Output {
        name: &'a [u8],
        slice: Slice<'a>,
    },
    Change(SaidRow<'a>),
    Run(SaidRow<'a>),
    End,
}

/// A condition and the words after it.
#[derive(Drop)]
struct FrontCond<'a, 'w> {
    cond: SaidCond<'a>,
    rest: &'w [&'a [u8]],
}

fn cond_of<'a>(
    alloc: Global,
    old: bool,
    name: &'a [u8],
    equals: &[u8],
    n: &[u8],
) -> Result<Option<SaidCond<'a>>, OutOfMemory>
    ensures { IfOk result (λ c. option_map seen_cond c ≡ cond_of old name.now equals.now n.now) }
{
    if !(is_name(name) && is(equals, b"=")) {
        return Ok(None);
    }
    match number(alloc, n)? {
        Some(number) => Ok(Some(SaidCond { old, name, number })),
        None => Ok(None),
    }
}

/// A name and what is in brackets after it.
#[derive(Clone, Copy)]
pub(crate) struct InBrackets<'a> {
    pub name: &'a [u8],
    pub inside: &'a [u8],
}

/// The text before the `]` that ends it.
fn closed<'a>(text: &'a [u8]) -> Option<&'a [u8]>
    ensures { option_map (λ inside. inside.now) result ≡ closed (split 93 text.now) }
{
    let cut = cut_at(text, b']');
    let after = cut.after?;
    if after.is_empty() {
        Some(cut.front)
    } else {
        None
    }
}

fn opened<'a>(name: &'a [u8], rest: &'a [u8]) -> Option<InBrackets<'a>>
    ensures { option_map seen_bracketed result ≡ named name.now (closed (split 93 rest.now)) }
{
    let inside = closed(rest)?;
    if is_name(name) {
        Some(InBrackets { name, inside })
    } else {
        None
    }
}

fn bracketed<'a>(text: &'a [u8]) -> Option<InBrackets<'a>>
    ensures { option_map seen_bracketed result ≡ bracketed text.now }
{
    let cut = cut_at(text, b'[');
    let rest = cut.after?;
    let second = cut_at(rest, b'[');
    match second.after {
        Some(_) => None,
        None => opened(cut.front, rest),
    }
}

/// `MEM[NAME]`.
#[tactic(auto, unfolding(crate::specs::Words::entry))]
fn entry<'a>(text: &'a [u8]) -> Option<SaidEntry<'a>>
    ensures { option_map seen_entry result ≡ option_map entry_of (entry text.now) }
{
    let found = bracketed(text)?;
    if is_name(found.inside) {
        Some(SaidEntry {
            memory: found.name,
            index: found.inside,
        })
    } else {
        None
    }
}

fn entry_in<'a>(second: bool, text: &'a [u8]) -> Option<SaidEntry<'a>>
    ensures { option_map seen_entry result ≡ entry_in second text.now }
{
    if second { entry(text) } else { None }
}

fn slot<'a>(second: bool, text: &'a [u8]) -> Option<SaidSlot<'a>>
    ensures { option_map seen_slot result ≡ slot second text.now }
{
    if is_name(text) {
        return Some(SaidSlot::Word(text));
    }
    let entry = entry_in(second, text)?;
    Some(SaidSlot::Entry(entry))
}

fn entry_amount<'a>(slot: SaidSlot, entry: Option<SaidEntry<'a>>) -> Option<SaidAmount<'a>>
    ensures { option_map seen_amount result
        ≡ entry_amount (seen_slot slot.entry) (option_map seen_entry entry.entry) }
{
    let entry = entry?;
    match slot {
        SaidSlot::Word(_) => Some(SaidAmount::Entry(entry)),
        SaidSlot::Entry(_) => None,
    }
}

/// An amount of one word.
fn amount<'a>(
    alloc: Global,
    second: bool,
    slot: SaidSlot,
    text: &'a [u8],
) -> Result<Option<SaidAmount<'a>>, OutOfMemory>
    ensures { IfOk result (λ a. option_map seen_amount a ≡ amount second (seen_slot slot.entry) text.now) }
{
    if is_name(text) {
        return Ok(Some(SaidAmount::Copy(text)));
    }
    match plain(alloc, text)? {
        Some(n) => Ok(Some(SaidAmount::Number(n))),
        None => Ok(entry_amount(slot, entry_in(second, text))),
    }
}

/// A sum or a difference.
fn plus_minus<'a>(name: &'a [u8], sign: &[u8], n: Option<u128>) -> Option<SaidAmount<'a>>
    ensures { option_map seen_amount result ≡ plus_minus name.now sign.now n }
{
    let n = n?;
    if is(sign, b"+") {
        Some(SaidAmount::Plus(name, n))
    } else if is(sign, b"-") {
        Some(SaidAmount::Minus(name, n))
    } else {
        None
    }
}

fn plain_assignment<'a>(
    alloc: Global,
    second: bool,
    a: &'a [u8],
    e: &[u8],
    b: &'a [u8],
) -> Result<Option<SaidSet<'a>>, OutOfMemory>
    ensures { IfOk result (λ x. option_map seen_set x ≡ set_words second (a.now ∷ e.now ∷ b.now ∷ [])) }
{
    if !is(e, b"=") {
        return Ok(None);
    }
    let Some(slot) = slot(second, a) else {
        return Ok(None);
    };
    match amount(alloc, second, slot, b)? {
        Some(amount) => Ok(Some(SaidSet { slot, amount })),
        None => Ok(None),
    }
}

fn sum_assignment<'a>(
    alloc: Global,
    second: bool,
    a: &'a [u8],
    e: &[u8],
    b: &'a [u8],
    sign: &[u8],
    n: &[u8],
) -> Result<Option<SaidSet<'a>>, OutOfMemory>
    ensures { IfOk result (λ x. option_map seen_set x
        ≡ set_words second (a.now ∷ e.now ∷ b.now ∷ sign.now ∷ n.now ∷ [])) }
{
    if !(is(e, b"=") && is_name(b)) {
        return Ok(None);
    }
    let Some(slot) = slot(second, a) else {
        return Ok(None);
    };
    let n = decimal(alloc, n)?;
    match plus_minus(b, sign, n) {
        Some(amount) => Ok(Some(SaidSet { slot, amount })),
        None => Ok(None),
    }
}

/// An assignment.
fn set_words<'a>(
    alloc: Global,
    second: bool,
    words: &[&'a [u8]],
) -> Result<Option<SaidSet<'a>>, OutOfMemory>
    ensures { IfOk result (λ x. option_map seen_set x ≡ set_words second (texts words.now)) }
{
    match words {
        [a, e, b] => plain_assignment(alloc, second, a, e, b),
        [a, e, b, sign, n] => sum_assignment(alloc, second, a, e, b, sign, n),
        _ => Ok(None),
    }
}

fn starts_of(init: Option<Number>, reset: Option<Number>) -> Option<StartNumbers>
    ensures { option_map seen_starts result
        ≡ starts_of (option_map plain_value init) (option_map plain_value reset) }
{
    let init = init?;
    Some(StartNumbers { init, reset })
}

fn with_reset(init: Option<Number>, reset: Option<Number>) -> Option<StartNumbers>
    ensures { option_map seen_starts result
        ≡ with_reset (option_map plain_value init) (option_map plain_value reset) }
{
    let reset = reset?;
    starts_of(init, Some(reset))
}

fn one_start(alloc: Global, w: &[u8], n: &[u8]) -> Result<Option<StartNumbers>, OutOfMemory>
    ensures { IfOk result (λ s. option_map seen_starts s ≡ starts (w.now ∷ n.now ∷ [])) }
{
    if is(w, b"init") {
        let init = plain(alloc, n)?;
        return Ok(starts_of(init, None));
    }
    if is(w, b"reset") {
        let reset = plain(alloc, n)?;
        return Ok(with_reset(Some(Number::Decimal(0)), reset));
    }
    Ok(None)
}

fn two_starts(
    alloc: Global,
    w: &[u8],
    n: &[u8],
    v: &[u8],
    m: &[u8],
) -> Result<Option<StartNumbers>, OutOfMemory>
    ensures { IfOk result (λ s. option_map seen_starts s ≡ starts (w.now ∷ n.now ∷ v.now ∷ m.now ∷ [])) }
{
    if !(is(w, b"init") && is(v, b"reset")) {
        return Ok(None);
    }
    let init = plain(alloc, n)?;
    let reset = plain(alloc, m)?;
    Ok(with_reset(init, reset))
}

/// `[init NUMBER] [reset NUMBER]`.
pub(crate) fn starts(alloc: Global, words: &[&[u8]]) -> Result<Option<StartNumbers>, OutOfMemory>
    ensures { IfOk result (λ s. option_map seen_starts s ≡ starts (texts words.now)) }
{
    match words {
        [] => Ok(starts_of(Some(Number::Decimal(0)), None)),
        [w, n] => one_start(alloc, w, n),
        [w, n, v, m] => two_starts(alloc, w, n, v, m),
        _ => Ok(None),
    }
}

/// Assignments, one in each part.
fn sets<'w, 'a>(
    alloc: Global,
    second: bool,
    first: LinePart<'w, 'a>,
) -> Result<Option<Vec<SaidSet<'a>>>, OutOfMemory>
    ensures { IfOk result (λ o. option_map (λ xs. map seen_set xs.items) o
        ≡ sets second (part_list first.entry)) }
{
    let mut all = Vec::new(alloc);
    let mut part = first;
    loop {
        let Some(set) = set_words(alloc, second, part.front)? else {
            return Ok(None);
        };
        all.push(set)?;
        match part.after {
            Some(after) => part = next_part(after),
            None => return Ok(Some(all)),
        }
    }
}

/// The condition at the front of a part.
fn front_cond<'w, 'a>(
    alloc: Global,
    change: bool,
    words: &'w [&'a [u8]],
) -> Result<Option<FrontCond<'a, 'w>>, OutOfMemory>
    ensures { IfOk result (λ c. option_map seen_front c ≡ front_cond change (texts words.now)) }
{
    match words {
        [a, b, c, rest @ ..] => {
            if change && is(a, b"old") && !is(b, b"=") {
                return old_cond(alloc, b, c, rest);
            }
            match cond_of(alloc, false, a, b, c)? {
                Some(cond) => Ok(Some(FrontCond { cond, rest })),
                None => Ok(None),
            }
        }
        _ => Ok(None),
    }
}

fn old_cond<'w, 'a>(
    alloc: Global,
    name: &'a [u8],
    equals: &[u8],
    words: &'w [&'a [u8]],
) -> Result<Option<FrontCond<'a, 'w>>, OutOfMemory>
    ensures { IfOk result (λ c. option_map seen_front c ≡ old_cond name.now equals.now (texts words.now)) }
{
    match words {
        [n, rest @ ..] => match cond_of(alloc, true, name, equals, n)? {
            Some(cond) => Ok(Some(FrontCond { cond, rest })),
            None => Ok(None),
        },
        [] => Ok(None),
    }
}

fn instrument_words<'a>(words: &[&'a [u8]]) -> Option<&'a [u8]>
    ensures { option_map (λ p. p.now) result ≡ instrument_text (texts words.now) }
{
    match words {
        [w, p] => { if is(w, b"instrument") { Some(p) } else { None } }
        _ => None,
    }
}

fn version_of(n: &[u8]) -> Option<bool>
    ensures { result ≡ version_of n.now }
{
    if is(n, b"1") {
        Some(false)
    } else if is(n, b"2") {
        Some(true)
    } else {
        None
    }
}

/// Whether a first line says version 2 and not 1.
#[tactic(auto, unfolding(crate::specs::Said::version))]
pub fn version(words: &[&[u8]]) -> Option<bool>
    ensures { result ≡ version (texts words.now) }
{
    match words {
        [w, n] => {
            if is(w, b"tables") {
                version_of(n)
            } else {
                None
            }
        }
        _ => None,
    }
}

fn bounds<'a>(word: &'a [u8], l: Option<u128>, r: Option<u128>) -> Option<Slice<'a>>
    ensures { option_map seen_slice result ≡ part_of word.now (both l r) }
{
    let left = l?;
    let right = r?;
    Some(Slice {
        word,
        bounds: Some((left, right)),
    })
}

fn bounded<'a>(alloc: Global, found: InBrackets<'a>) -> Result<Option<Slice<'a>>, OutOfMemory>
    ensures { IfOk result (λ s. option_map seen_slice s
        ≡ part_of found.entry.name.now (two_decimals (split 58 found.entry.inside.now))) }
{
    let cut = cut_at(found.inside, b':');
    let Some(after) = cut.after else {
        return Ok(None);
    };
    let second = cut_at(after, b':');
    match second.after {
        Some(_) => Ok(None),
        None => {
            let left = decimal(alloc, cut.front)?;
            let right = decimal(alloc, after)?;
            Ok(bounds(found.name, left, right))
        }
    }
}

/// `NAME` or `NAME[L:R]`.
#[tactic(auto, unfolding(crate::specs::Words::slice))]
pub(crate) fn slice_words<'a>(
    alloc: Global,
    text: &'a [u8],
) -> Result<Option<Slice<'a>>, OutOfMemory>
    ensures { IfOk result (λ s. option_map seen_slice s ≡ slice text.now) }
{
    if is_name(text) {
        return Ok(Some(Slice {
            word: text,
            bounds: None,
        }));
    }
    match bracketed(text) {
        Some(found) => bounded(alloc, found),
        None => Ok(None),
    }
}

/// A row of these conditions and of assignments, one in each part.
fn row_with<'w, 'a>(
    alloc: Global,
    second: bool,
    conds: Vec<SaidCond<'a>>,
    first: LinePart<'w, 'a>,
) -> Result<Option<SaidRow<'a>>, OutOfMemory>
    ensures { IfOk result (λ o. option_map seen_row o
        ≡ with_conds (map seen_cond conds.entry.items) (row_of (sets second (part_list first.entry)))) }
{
    match sets(alloc, second, first)? {
        Some(sets) => Ok(Some(SaidRow { conds, sets })),
        None => Ok(None),
    }
}

/// `do` and assignments after these conditions.
fn do_sets<'w, 'a>(
    alloc: Global,
    second: bool,
    conds: Vec<SaidCond<'a>>,
    words: &'w [&'a [u8]],
    after: Option<&'w [&'a [u8]]>,
) -> Result<Option<SaidRow<'a>>, OutOfMemory>
    ensures { IfOk result (λ o. option_map seen_row o
        ≡ do_sets second (map seen_cond conds.entry.items) (texts words.now) (after_parts after.entry)) }
{
    match words {
        [w, front @ ..] => {
            if is(w, b"do") {
                return row_with(alloc, second, conds, LinePart { front, after });
            }
            Ok(None)
        }
        [] => Ok(None),
    }
}

/// Conditions, and after the last one `do` and assignments.
fn conds_sets<'w, 'a>(
    alloc: Global,
    second: bool,
    change: bool,
    first: LinePart<'w, 'a>,
) -> Result<Option<SaidRow<'a>>, OutOfMemory>
    ensures { IfOk result (λ o. option_map seen_row o ≡ conds_sets second change (part_list first.entry)) }
{
    let mut conds = Vec::new(alloc);
    let mut part = first;
    loop {
        let Some(front) = front_cond(alloc, change, part.front)? else {
            return Ok(None);
        };
        let FrontCond { cond, rest } = front;
        conds.push(cond)?;
        if !rest.is_empty() {
            return do_sets(alloc, second, conds, rest, part.after);
        }
        match part.after {
            Some(after) => part = next_part(after),
            None => return Ok(None),
        }
    }
}

/// A row without conditions.
fn do_row<'a>(
    alloc: Global,
    second: bool,
    words: &[&'a [u8]],
) -> Result<Option<SaidRow<'a>>, OutOfMemory>
    ensures { IfOk result (λ o. option_map seen_row o ≡ row_of (sets second (parts (texts words.now)))) }
{
    match sets(alloc, second, next_part(words))? {
        Some(sets) => Ok(Some(SaidRow {
            conds: Vec::new(alloc),
            sets,
        })),
        None => Ok(None),
    }
}

/// `do` and assignments, or `when`, conditions, `do` and assignments.
pub(crate) fn row<'a>(
    alloc: Global,
    second: bool,
    change: bool,
    words: &[&'a [u8]],
) -> Result<Option<SaidRow<'a>>, OutOfMemory>
    ensures { IfOk result (λ o. option_map seen_row o ≡ row second change (texts words.now)) }
{
    match words {
        [w, rest @ ..] => {
            if is(w, b"do") {
                return do_row(alloc, second, rest);
            }
            if is(w, b"when") {
                return conds_sets(alloc, second, change, next_part(rest));
            }
            Ok(None)
        }
        [] => Ok(None),
    }
}

/// The pieces of a text between dots.
fn pieces<'a>(alloc: Global, text: &'a [u8]) -> Result<Vec<&'a [u8]>, OutOfMemory>
    ensures { IfOk result (λ ps. texts ps.items ≡ split 46 text.now) }
{
    let mut all = Vec::new(alloc);
    let mut text = text;
    loop {
        let cut = cut_at(text, b'.');
        all.push(cut.front)?;
        match cut.after {
            Some(after) => text = after,
            None => return Ok(all),
        }
    }
}

fn all_names(pieces: &[&[u8]]) -> bool
    ensures { result ≡ list_all is_name (texts pieces.now) }
{
    for piece in pieces {
        if !is_name(piece) {
            return false;
        }
    }
    true
}

/// The names of a path.
#[tactic(auto, unfolding(crate::specs::Words::path))]
fn path<'a>(alloc: Global, text: &'a [u8]) -> Result<Option<Vec<&'a [u8]>>, OutOfMemory>
    ensures value { IfOk result (λ p. option_map (λ ps. texts ps.items) p ≡ path text.now) }
    ensures pieces { IfOk result (λ p. IfSome p (λ ps. texts ps.items ≡ split 46 text.now)) }
{
    let pieces = pieces(alloc, text)?;
    if all_names(&pieces) {
        Ok(Some(pieces))
    } else {
        Ok(None)
    }
}

/// The instance names of an instrument, and the text that has them with dots between.
#[derive(Drop)]
pub struct InstrumentPath<'a> {
    /// The whole path.
    pub text: &'a [u8],
    /// Its names, outermost first.
    pub names: Vec<&'a [u8]>,
}

/// The first line of a block.
#[tactic(auto, unfolding(crate::specs::Said::instrument, crate::specs::Words::path))]
pub fn instrument<'a>(
    alloc: Global,
    words: &[&'a [u8]],
) -> Result<Option<InstrumentPath<'a>>, OutOfMemory>
    ensures value { IfOk result
        (λ p. option_map (λ path. texts path.names.items) p ≡ instrument (texts words.now)) }
    ensures text { IfOk result (λ p. IfSome p (λ path. texts path.names.items ≡ split 46 path.text.now)) }
{
    let Some(text) = instrument_words(words) else {
        return Ok(None);
    };
    match path(alloc, text)? {
        Some(names) => Ok(Some(InstrumentPath { text, names })),
        None => Ok(None),
    }
}
