// Expressions, signals and properties of a made design, which are at no place of a text.
ghost use Rattle.std.specs.Prelude.{◌≡◌, ◌≤◌, ◌++◌, [], ◌∷◌, length, map, option_map, IfOk, OnOk};
ghost use Rattle.icl_lexer.specs.Views.{bytes_of, seen_expr, seen_range, seen_sig};
ghost use Rattle.design_maker.specs.Parts.{lowest_bit_range, ranged, signal, the_width, whole_width};

use icl_lexer::{Ends, Expr, OneOrMore, Range, Sig, SigWhat, Sign, SmallText};
use ij_bits::{List, OutOfMemory};
use ij_text::Place;
use std::alloc::Global;

/// No place of a text.
pub(crate) const NOWHERE: Place = Place { line: 0, col: 0 };

/// A list of one thing.
pub(crate) fn one<T: Drop>(alloc: Global, t: T) -> Result<List<T>, OutOfMemory>
    ensures { IfOk result (λ list. list.items ≡ t ∷ []) }
{
    let mut list = List::new(alloc);
    list.push(t)?;
    Ok(list)
}

/// The parameter `W`.
pub(crate) fn the_width(alloc: Global) -> Result<Expr, OutOfMemory>
    ensures { IfOk result (λ expr. seen_expr expr ≡ the_width) }
{
    Ok(Expr::Param(NOWHERE, SmallText::of(alloc, b"W")?))
}

/// `[$W-1:0]`
pub(crate) fn whole_width(alloc: Global) -> Result<Range, OutOfMemory>
    ensures { IfOk result (λ range. seen_range range ≡ whole_width) }
{
    let width = Box::new(alloc, the_width(alloc)?)?;
    let one = Box::new(alloc, Expr::Decimal(1))?;
    let ends = Ends {
        left: Expr::Op(NOWHERE, Sign::Minus, width, one),
        right: Some(Expr::Decimal(0)),
    };
    Ok(Range {
        at: NOWHERE,
        ends: Box::new(alloc, ends)?,
    })
}

/// `[0]`
pub(crate) fn lowest_bit_range(alloc: Global) -> Result<Range, OutOfMemory>
    ensures { IfOk result (λ range. seen_range range ≡ lowest_bit_range) }
{
    let ends = Ends {
        left: Expr::Decimal(0),
        right: None,
    };
    Ok(Range {
        at: NOWHERE,
        ends: Box::new(alloc, ends)?,
    })
}

/// Adds a name of these bytes.
fn push_name(alloc: Global, names: &mut List<SmallText>, word: &[u8]) -> Result<(), OutOfMemory>
    ensures { OnOk result (map bytes_of names.new.items ≡ map bytes_of names.old.items ++ word.now ∷ []) }
{
    names.push(SmallText::of(alloc, word)?)
}

/// Names of these bytes.
pub(crate) fn names_from_bytes(
    alloc: Global,
    words: &[&[u8]],
) -> Result<List<SmallText>, OutOfMemory>
    ensures { IfOk result (λ names. map bytes_of names.items ≡ map (λ word. word.now) words.now) }
{
    let mut names = List::new(alloc);
    for word in words {
        push_name(alloc, &mut names, word)?;
    }
    Ok(names)
}

/// A path with one more name.
fn path_with_name(
    alloc: Global,
    path: OneOrMore<SmallText>,
    word: &[u8],
) -> Result<OneOrMore<SmallText>, OutOfMemory>
    ensures { IfOk result (λ more. map bytes_of more.items ≡ map bytes_of path.items ++ word.now ∷ []) }
{
    let Ok(word) = SmallText::of(alloc, word) else {
        drop(path);
        return Err(OutOfMemory);
    };
    path.with(alloc, word)
}

/// A path of these bytes.
fn path_of(alloc: Global, words: &[&[u8]]) -> Result<OneOrMore<SmallText>, OutOfMemory>
    requires { 1 ≤ length words.now }
    ensures { IfOk result (λ path. map bytes_of path.items ≡ map (λ word. word.now) words.now) }
{
    let mut path = OneOrMore::one(SmallText::of(alloc, words[0])?);
    for word in &words[1..] {
        path = path_with_name(alloc, path, word)?;
    }
    Ok(path)
}

/// A signal: names with dots between them, and a range.
pub(crate) fn ranged(
    alloc: Global,
    path: &[&[u8]],
    range: Option<Range>,
) -> Result<Sig, OutOfMemory>
    requires { 1 ≤ length path.now }
    ensures { IfOk result (λ sig. seen_sig sig
        ≡ ranged (map (λ word. word.now) path.now) (option_map seen_range range)) }
{
    Ok(Sig {
        at: NOWHERE,
        inverted: false,
        what: SigWhat::Named {
            path: path_of(alloc, path)?,
            range,
        },
    })
}

/// A signal: names with dots between them.
pub(crate) fn signal(alloc: Global, path: &[&[u8]]) -> Result<Sig, OutOfMemory>
    requires { 1 ≤ length path.now }
    ensures { IfOk result (λ sig. seen_sig sig ≡ signal (map (λ word. word.now) path.now)) }
{
    ranged(alloc, path, None)
}
