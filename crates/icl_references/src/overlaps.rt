// Overlaps of the rows of a multiplexer.
ghost use Rattle.std.specs.Prelude.{◌≡◌, ◌++◌, ◌∷◌, [], length, map, IfOk, OnOk};
ghost use Rattle.std.specs.List.{list_any};
ghost use Rattle.ij_text.specs.Numbers.{tern_bits};
ghost use Rattle.icl_references.specs.Muxes.{meet, meet_at, some_meet};
ghost use Rattle.icl_references.specs.Overlaps.{AreAlike, AreRowsAlike, AreWide, IsSeen, digit, key_of};
ghost use Rattle.icl_references.specs.Overlaps.{values_meet, values_of};
ghost use Rattle.icl_references.specs.Roles.{seen_row};

use crate::hier::Ref;
use crate::values::is_closed;
use icl_frames::Scope;
use ij_bits::{List, OutOfMemory, Tern};
use ij_text::bit_at;
use std::alloc::Global;

/// A row: the values that select it, and its source.
pub(crate) type Row = (List<Tern>, Ref);

/// The values of the rows up to here. Of two without x it takes one look-up to see whether they are equal;
/// one with an x is compared with all others.
#[derive(Drop)]
pub(crate) struct Seen<'a> {
    pub all: Vec<&'a Tern>,
    pub with_x: Vec<&'a Tern>,
    /// The keys of those without x.
    pub closed: Scope,
}

/// Whether a bit matches both digits.
fn meet_at(a: Option<bool>, b: Option<bool>) -> bool
    ensures { result ≡ meet_at a b }
{
    match (a, b) {
        (Some(a), Some(b)) => a == b,
        _ => true,
    }
}

/// Whether some bits match both values.
fn meet(a: &Tern, b: &Tern) -> bool
    ensures { result ≡ meet (tern_bits a.now) (tern_bits b.now) }
{
    for k in 0..a.len().min(b.len()) {
        if !meet_at(bit_at(a, k), bit_at(b, k)) {
            return false;
        }
    }
    true
}

/// Whether one of these values meets another one.
fn one_meets(values: &[&Tern], v: &Tern) -> bool
    ensures { result ≡ list_any (λ u. meet u (tern_bits v.now)) (map (λ u. tern_bits u.now) values.now) }
{
    for u in values {
        if meet(u, v) {
            return true;
        }
    }
    false
}

/// A digit as a byte.
fn digit(bit: Option<bool>) -> u8
    ensures { result ≡ digit bit }
{
    match bit {
        Some(true) => 1,
        Some(false) => 0,
        None => 2,
    }
}

/// The digits of a value as bytes.
fn key_of(alloc: Global, v: &Tern) -> Result<Vec<u8>, OutOfMemory>
    ensures { IfOk result (λ key. key.items ≡ key_of (tern_bits v.now)) }
{
    let mut key = Vec::new(alloc);
    for k in 0..v.len() {
        key.push(digit(bit_at(v, k)))?;
    }
    Ok(key)
}

impl<'a> Seen<'a> {
    /// No values.
    fn new(alloc: Global) -> Seen<'a>
        ensures seen { IsSeen result }
        ensures none { values_of result ≡ [] }
    {
        Seen {
            all: Vec::new(alloc),
            with_x: Vec::new(alloc),
            closed: Scope::new(alloc),
        }
    }

    /// Whether one of the values, which are as wide as this one, meets it.
    fn meets(&self, alloc: Global, v: &Tern) -> Result<bool, OutOfMemory>
        requires seen { IsSeen self.now }
        requires wide { AreWide (length (tern_bits v.now)) (values_of self.now) }
        ensures { IfOk result (λ b. b ≡ list_any (λ u. meet u (tern_bits v.now)) (values_of self.now)) }
    {
        if !is_closed(v) {
            return Ok(one_meets(&self.all, v));
        }
        let key = key_of(alloc, v)?;
        if self.closed.has(&key) {
            return Ok(true);
        }
        Ok(one_meets(&self.with_x, v))
    }

    /// One value more.
    fn note(&mut self, alloc: Global, v: &'a Tern) -> Result<(), OutOfMemory>
        requires { IsSeen self.old }
        ensures seen { OnOk result (IsSeen self.new) }
        ensures all { OnOk result (values_of self.new ≡ values_of self.old ++ tern_bits v.now ∷ []) }
    {
        self.all.push(v)?;
        if !is_closed(v) {
            self.with_x.push(v)?;
            return Ok(());
        }
        let key = key_of(alloc, v)?;
        self.closed.note(alloc, &key)?;
        Ok(())
    }

    /// The values of one row more.
    fn note_row(&mut self, alloc: Global, row: &'a [Tern]) -> Result<(), OutOfMemory>
        requires { IsSeen self.old }
        ensures seen { OnOk result (IsSeen self.new) }
        ensures all { OnOk result (values_of self.new ≡ values_of self.old ++ map tern_bits row.now) }
    {
        for v in row {
            self.note(alloc, v)?;
        }
        Ok(())
    }
}

/// Whether a row overlaps with one of those up to here.
fn row_meets(alloc: Global, seen: &Seen, row: &[Tern]) -> Result<bool, OutOfMemory>
    requires seen { IsSeen seen.now }
    requires alike { AreAlike (values_of seen.now) (map tern_bits row.now) }
    ensures { IfOk result (λ b. b ≡ values_meet (values_of seen.now) (map tern_bits row.now)) }
{
    for v in row {
        if seen.meets(alloc, v)? {
            return Ok(true);
        }
    }
    Ok(false)
}

/// Whether two of these rows overlap, whose values have one width. It takes time in the number of values, and
/// of those with an x times all.
pub(crate) fn some_meet(alloc: Global, rows: &[Row]) -> Result<bool, OutOfMemory>
    requires { AreRowsAlike [] (map seen_row rows.now) }
    ensures { IfOk result (λ b. b ≡ some_meet (map seen_row rows.now)) }
{
    let mut seen = Seen::new(alloc);
    for row in rows {
        if row_meets(alloc, &seen, row.0.as_slice())? {
            return Ok(true);
        }
        seen.note_row(alloc, row.0.as_slice())?;
    }
    Ok(false)
}
