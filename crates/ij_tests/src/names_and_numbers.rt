// Names with numbers, and texts of numbers.
use crate::checks::{check_text, show_bytes};
use ij_bits::Tern;
use ij_io::SureSink;
use ij_text::{FitFault, Names, Number, NumberFault, Place, fit, name_of, read_number};
use std::alloc::Global;
use std::test::Fail;

#[test]
fn a_known_name_keeps_its_number(rt: HostRuntime) -> Result<(), Fail> {
    let alloc = rt.alloc();
    let mut names = Names::new(alloc);
    let (a, b) = (name_of(alloc, b"SI")?, name_of(alloc, b"chip")?);
    assert_eq!(rt; names.find(&a), None);
    assert_eq!(rt; names.intern(&a)?, 0);
    assert_eq!(rt; names.intern(&b)?, 1);
    assert_eq!(rt; names.intern(&a)?, 0);
    assert_eq!(rt; names.find(&b), Some(1));
    assert_eq!(rt; names.len(), 2);
    assert_eq!(rt; names.name(1).as_slice(), b"chip".as_slice());
    Ok(())
}

/// The bits of a number, position 0 first, as digits.
fn show_digits(text: &mut SureSink, t: &Tern) {
    for i in 0..t.len() {
        let digit = match t.get(i) {
            Some(true) => b"1",
            Some(false) => b"0",
            None => b"x",
        };
        show_bytes(text, digit);
    }
}

/// A decimal in 8 bits, or `W`.
fn show_fitted(text: &mut SureSink, alloc: Global, number: &Number) {
    match fit(alloc, number, 8) {
        Ok(t) => show_digits(text, &t),
        Err(FitFault::Wide) => show_bytes(text, b"W"),
        Err(FitFault::OutOfMemory) => show_bytes(text, b"no memory"),
    }
}

fn show_number(text: &mut SureSink, alloc: Global, number: &Number) {
    if let Number::Digits(t) = number {
        show_digits(text, t);
    } else {
        show_fitted(text, alloc, number);
    }
}

/// The bits of a text's number, or of a decimal in 8 bits, and `B`, `T` or `W` for a fault.
fn bits_of(alloc: Global, number: &[u8]) -> SureSink {
    let mut text = SureSink::new(alloc);
    match read_number(alloc, number, Place { line: 2, col: 7 }) {
        Ok(number) => show_number(&mut text, alloc, &number),
        Err(NumberFault::BadNumber { .. }) => show_bytes(&mut text, b"B"),
        Err(NumberFault::TooWide { .. }) => show_bytes(&mut text, b"T"),
        Err(NumberFault::OutOfMemory) => show_bytes(&mut text, b"no memory"),
    }
    text
}

const NUMBERS: [(&str, &str); 20] = [
    ("", "B"),
    ("0", "00000000"),
    ("255", "11111111"),
    ("25_6", "W"),
    ("0_12", "00110000"),
    ("1__0", "01010000"),
    ("1_", "B"),
    ("_1", "B"),
    ("0b1_x0", "0x1"),
    ("0b", "B"),
    ("0b_1", "B"),
    ("0b2", "B"),
    ("0bX", "B"),
    ("0B1", "B"),
    ("0xx5", "1010xxxx"),
    ("0xA_f", "11110101"),
    ("0x1_", "B"),
    ("0xg", "B"),
    ("340282366920938463463374607431768211455", "W"),
    ("340282366920938463463374607431768211456", "T"),
];

#[test]
fn numbers_are_those_of_the_format(rt: HostRuntime) {
    for (number, wanted) in &NUMBERS {
        check_text(&rt, number, &bits_of(rt.alloc(), number.as_bytes()), wanted);
    }
}
