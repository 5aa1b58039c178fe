// Lists of bits, lists of values and rings: the upper and the lower hexadecimal digit of parts.
ghost use Rattle.std.specs.Prelude.{◌≡◌, length, IfOk};

use ij_bits::{Bits, Buffer, OutOfMemory, Ring};
use std::alloc::Global;
use std::process::Abort;

/// The two digits of 5 to 8 bits, and dots for others.
fn digits(part: &Bits) -> [u8; 2] {
    if part.len() > 4 {
        [part.hex_digit(1), part.hex_digit(0)]
    } else {
        *b".."
    }
}

/// The two digits of a part of 5 to 8 bits, and dots where there is none.
fn digits_of_part(alloc: Global, bits: &Bits, from: u32, to: u32) -> [u8; 2] {
    if from <= to && to <= bits.len() {
        if let Ok(part) = bits.slice(alloc, from, to) {
            return digits(&part);
        }
    }
    *b".."
}

/// The bit at a position, where there is one.
fn bit(bits: &Bits, i: u32) -> Option<bool> {
    if i < bits.len() {
        Some(bits.get(i))
    } else {
        None
    }
}

/// 72 bits: two numbers, the first of 64 bits.
fn two_numbers(alloc: Global) -> Result<Bits, OutOfMemory>
    ensures { IfOk result (λ bits. length bits.items ≡ 72) }
{
    let mut bits = Bits::zeros(alloc, 0)?;
    bits.append_number(0x0123_4567_89AB_CDEF, 64)?;
    bits.append_number(0x5A, 8)?;
    Ok(bits)
}

/// Parts of some bits, each with its two digits.
fn check_parts(rt: &impl Abort, alloc: Global, bits: &Bits, parts: &[(u32, u32, &[u8; 2])]) {
    for (from, to, wanted) in parts {
        assert_eq!(rt;
            digits_of_part(alloc, bits, *from, *to),
            **wanted,
            "bits from {from} to {to}"
        );
    }
}

const PARTS: [(u32, u32, &[u8; 2]); 7] = [
    (0, 8, b"EF"),
    (4, 12, b"DE"),
    (60, 68, b"A0"),
    (64, 72, b"5A"),
    (62, 67, b"08"),
    (68, 76, b"F5"),
    (132, 140, b"A0"),
];

#[test]
fn parts_keep_their_order_over_the_border_of_a_word(rt: HostRuntime) {
    let alloc = rt.alloc();
    let bits = two_numbers(alloc).expect(&rt, "two numbers");
    let mut twice = two_numbers(alloc).expect(&rt, "two numbers");
    twice.append(&bits).expect(&rt, "append");
    check_parts(&rt, alloc, &twice, &PARTS);
}

#[test]
fn bits_are_written_copied_and_shifted(rt: HostRuntime) {
    let alloc = rt.alloc();
    let bits = two_numbers(alloc).expect(&rt, "two numbers");
    let mut copy = Bits::zeros(alloc, 72).expect(&rt, "zeros");
    copy.fill(true);
    check_parts(&rt, alloc, &copy, &[(64, 72, b"FF")]);
    copy.copy_from(&bits);
    assert!(rt; copy.shift(false));
    copy.set(0, false);
    copy.push(true).expect(&rt, "push");
    check_parts(&rt, alloc, &copy, &[(0, 8, b"F6"), (65, 73, b"96")]);
}

#[test]
fn a_part_is_copied_and_grows(rt: HostRuntime) {
    let alloc = rt.alloc();
    let bits = two_numbers(alloc).expect(&rt, "two numbers");
    let mut part = Bits::zeros(alloc, 8).expect(&rt, "zeros");
    part.copy_part(&bits, 60);
    part.reserve(1).expect(&rt, "reserve");
    part.push_reserved(true);
    check_parts(&rt, alloc, &part, &[(1, 9, b"D0")]);
    assert!(rt; bit(&part, 5) == Some(true));
}

#[test]
fn bits_made_with_room_take_the_bits_they_were_made_for(rt: HostRuntime) {
    let alloc = rt.alloc();
    let bits = two_numbers(alloc).expect(&rt, "two numbers");
    let mut copy = Bits::with_room(alloc, 72).expect(&rt, "with room");
    assert!(rt; copy.len() == 0);
    copy.append_part_reserved(&bits, 0, 72);
    check_parts(&rt, alloc, &copy, &[(62, 67, b"08"), (64, 72, b"5A")]);
}

#[test]
fn a_ring_gives_its_bits_in_order_while_it_turns(rt: HostRuntime) {
    let alloc = rt.alloc();
    let bits = two_numbers(alloc).expect(&rt, "two numbers");
    let mut ring = Ring::zeros(alloc, 72).expect(&rt, "zeros");
    ring.copy_from(&bits);
    let shifted = [
        ring.shift(true),
        ring.shift(true),
        ring.shift(true),
        ring.shift(true),
    ];
    assert!(rt; shifted == [true; 4]);
    let mut part = Bits::zeros(alloc, 8).expect(&rt, "zeros");
    ring.part_into(60, &mut part);
    check_parts(&rt, alloc, &part, &[(0, 8, b"5A")]);
    ring.part_into(64, &mut part);
    check_parts(&rt, alloc, &part, &[(0, 8, b"F5")]);
}

#[test]
fn a_ring_shifts_many_bits_at_once_over_its_end(rt: HostRuntime) {
    let alloc = rt.alloc();
    let bits = two_numbers(alloc).expect(&rt, "two numbers");
    let mut ring = Ring::zeros(alloc, 72).expect(&rt, "zeros");
    ring.copy_from(&bits);
    assert!(rt; ring.shift_number(0x7654_3210_FEDC_BA98, 60) == 0x0123_4567_89AB_CDEF);
    assert!(rt; ring.len() == 72);
    assert!(rt; ring.shift_number(0x0FED_CBA9_8765_4321, 64) == 0x4321_0FED_CBA9_85A0);
    assert!(rt; ring.len() == 72);
    let mut part = Bits::zeros(alloc, 8).expect(&rt, "zeros");
    ring.part_into(0, &mut part);
    check_parts(&rt, alloc, &part, &[(0, 8, b"65")]);
    ring.part_into(64, &mut part);
    check_parts(&rt, alloc, &part, &[(0, 8, b"0F")]);
}

#[test]
fn a_ring_made_with_room_takes_the_bits_it_was_made_for(rt: HostRuntime) {
    let alloc = rt.alloc();
    let bits = two_numbers(alloc).expect(&rt, "two numbers");
    let mut filled = Ring::with_room(alloc, 73).expect(&rt, "with room");
    filled.append_reserved(&bits);
    filled.push_reserved(true);
    let found = [filled.shift(false), filled.get(71), filled.get(72)];
    assert!(rt; found == [true, true, false]);
}

#[test]
fn a_buffer_takes_what_it_has_room_for(rt: HostRuntime) {
    let mut buffer = Buffer::new(rt.alloc());
    buffer.reserve(3).expect(&rt, "reserve");
    buffer.push_reserved(8);
    buffer.push_reserved(9);
    buffer.set(0, 7);
    buffer.reverse();
    let mut list = buffer.into_list();
    list.push(6).expect(&rt, "push");
    assert!(rt; list.as_slice() == [9, 7, 6].as_slice());
}
