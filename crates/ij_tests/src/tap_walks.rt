// The walk of a controller through its states, and the clocks of a play.
ghost use Rattle.std.specs.Prelude.{◌≡◌, ◌+◌, ◌<◌, ◌≤◌, ◌^◌, length, IfOk, IsSomeAnd};
ghost use Rattle.tap_machine.specs.Play.{scans_in};

use ij_bits::{Bits, OutOfMemory};
use std::alloc::Global;
use std::test::Fail;
use svf_writer::{Command, Commands, Scan, ScanPart};
use tap_machine::{Piece, Pins, Player, Stable, Tap, TapState};

/// The levels of TMS from Test-Logic-Reset on, and the state to which each leads: through a data and an
/// instruction scan, and back.
const WALK: [(bool, TapState); 20] = [
    (false, TapState::RunTestIdle),
    (true, TapState::SelectDrScan),
    (false, TapState::CaptureDr),
    (false, TapState::ShiftDr),
    (false, TapState::ShiftDr),
    (true, TapState::Exit1Dr),
    (true, TapState::UpdateDr),
    (false, TapState::RunTestIdle),
    (true, TapState::SelectDrScan),
    (true, TapState::SelectIrScan),
    (false, TapState::CaptureIr),
    (false, TapState::ShiftIr),
    (true, TapState::Exit1Ir),
    (false, TapState::PauseIr),
    (true, TapState::Exit2Ir),
    (true, TapState::UpdateIr),
    (true, TapState::SelectDrScan),
    (true, TapState::SelectIrScan),
    (true, TapState::TestLogicReset),
    (true, TapState::TestLogicReset),
];

/// Whether a clock comes in the state in which the controller is, and leads to this one.
fn is_walked(tap: &mut Tap, tms: bool, wanted: TapState) -> bool {
    let before = tap.state();
    let act = tap.clock(tms);
    act.before == before && act.after == wanted
}

#[test]
fn a_controller_walks_to_reset_and_through_a_data_scan(rt: HostRuntime) {
    let mut tap = Tap::power_up();
    assert!(rt; tap.state() == TapState::TestLogicReset);
    for (number, (tms, wanted)) in WALK.iter().enumerate() {
        assert!(rt; is_walked(&mut tap, *tms, *wanted), "clock {number}");
    }
}

/// Two bits, position 0 first.
fn two(alloc: Global, a: bool, b: bool) -> Result<ScanPart, OutOfMemory>
    ensures { IfOk result (λ part. IsSomeAnd part (λ bits. length bits ≡ 2)) }
{
    let mut bits = Bits::zeros(alloc, 2)?;
    bits.set(0, a);
    bits.set(1, b);
    ScanPart::of_bits(alloc, bits)
}

/// The clock that shifts a bit.
fn shifts(scan: u32, bit: u32, tms: bool, tdi: bool, expect: Option<bool>) -> Pins {
    Pins {
        tms,
        tdi,
        expect,
        scan,
        bit,
    }
}

/// Two scans of two bits, the second without TDI and MASK, one of one bit, a run of three cycles, and a
/// reset.
fn commands_to_play(alloc: Global) -> Result<Commands, OutOfMemory>
    ensures { IfOk result (λ commands. scans_in commands ≡ 3) }
{
    let tdo = two(alloc, false, true)?;
    let mask = two(alloc, false, true)?;
    let mut commands = Commands::new(alloc);
    commands.push(Command::Sdr(Scan {
        len: 2,
        tdi: ScanPart::of_number(2, 0b01),
        tdo,
        mask,
        smask: ScanPart::absent(),
    }))?;
    commands.push(Command::Sdr(Scan {
        len: 2,
        tdi: ScanPart::absent(),
        tdo: ScanPart::of_number(2, 0b01),
        mask: ScanPart::absent(),
        smask: ScanPart::absent(),
    }))?;
    commands.push(Command::Sdr(Scan {
        len: 1,
        tdi: ScanPart::of_number(1, 1),
        tdo: ScanPart::of_number(1, 1),
        mask: ScanPart::absent(),
        smask: ScanPart::absent(),
    }))?;
    commands.push(Command::Run(3))?;
    commands.push(Command::Reset)?;
    Ok(commands)
}

// The clocks of a play from Test-Logic-Reset, after seven scans: the levels of TMS where no bit is shifted,
// the clocks that shift a bit, and the state in which it ends.
#[derive(Drop)]
struct Clocks {
    quiet: Vec<bool>,
    shifted: Vec<Pins>,
    ended: Stable,
}

fn played(alloc: Global, commands: &Commands) -> Clocks
    requires { 7 + scans_in commands.now < 2 ^ 32 }
{
    let mut player = Player::new(Stable::Reset, 7, commands);
    let mut shifted = Vec::new(alloc);
    let mut quiet = Vec::new(alloc);
    while let Some(pins) = player.next() {
        // Without memory a clock is missing, and the test fails.
        if pins.scan > 0 {
            let _ = shifted.push(pins);
        } else {
            let _ = quiet.push(pins.tms);
        }
    }
    Clocks {
        quiet,
        shifted,
        ended: player.end_state(),
    }
}

/// To Run-Test/Idle; three scans, each led in by three clocks and out by two; three clocks to run; five to
/// reset.
const QUIET: [bool; 24] = [
    LOW, HIGH, LOW, LOW, HIGH, LOW, HIGH, LOW, LOW, HIGH, LOW, HIGH, LOW, LOW, HIGH, LOW, LOW, LOW,
    LOW, HIGH, HIGH, HIGH, HIGH, HIGH,
];

const LOW: bool = false;

const HIGH: bool = true;

#[test]
fn tdi_and_mask_hold_up_to_a_new_length(rt: HostRuntime) -> Result<(), Fail> {
    let commands = commands_to_play(rt.alloc())?;
    let clocks = played(rt.alloc(), &commands);
    assert!(rt; clocks.ended == Stable::Reset);
    assert!(rt; clocks.quiet.as_slice() == QUIET.as_slice());
    let shifted = [
        shifts(8, 0, false, true, None),
        shifts(8, 1, true, false, Some(true)),
        shifts(9, 0, false, true, None),
        shifts(9, 1, true, false, Some(false)),
        shifts(10, 0, true, true, Some(true)),
    ];
    assert_eq!(rt; clocks.shifted.as_slice(), shifted.as_slice());
    Ok(())
}

/// Seventy bits, the lowest 64 in the first number.
fn seventy(alloc: Global, low: u64, high: u64) -> Result<ScanPart, OutOfMemory>
    ensures { IfOk result (λ part. IsSomeAnd part (λ bits. length bits ≡ 70)) }
{
    let mut bits = Bits::with_room(alloc, 70)?;
    bits.append_number_reserved(low, 64);
    bits.append_number_reserved(high, 6);
    ScanPart::of_bits(alloc, bits)
}

/// Scans of seventy bits with TDO and MASK, and without them; and an instruction scan of 5 bits without MASK.
fn long_commands(alloc: Global) -> Result<Commands, OutOfMemory>
    ensures { IfOk result (λ commands. scans_in commands ≡ 3) }
{
    let tdi = seventy(alloc, 0x0123_4567_89AB_CDEF, 0x2A)?;
    let tdo = seventy(alloc, 0xFEDC_BA98_7654_3210, 0x15)?;
    let mask = seventy(alloc, 0x00FF_FF00_F0F0_0FF0, 0x33)?;
    let mut commands = Commands::new(alloc);
    commands.push(Command::Sdr(Scan {
        len: 70,
        tdi,
        tdo,
        mask,
        smask: ScanPart::absent(),
    }))?;
    commands.push(Command::Sdr(Scan {
        len: 70,
        tdi: ScanPart::absent(),
        tdo: ScanPart::absent(),
        mask: ScanPart::absent(),
        smask: ScanPart::absent(),
    }))?;
    commands.push(Command::Sir(Scan {
        len: 5,
        tdi: ScanPart::of_number(5, 0b10110),
        tdo: ScanPart::of_number(5, 0b01101),
        mask: ScanPart::absent(),
        smask: ScanPart::absent(),
    }))?;
    Ok(commands)
}

/// Whether the next clocks of a play are those of a piece.
fn are_next(player: &mut Player, piece: &Piece) -> bool
    requires few { piece.now.count ≤ 64 }
    requires short { piece.now.bit + piece.now.count < 2 ^ 32 }
{
    for at in 0..piece.count {
        if player.next() != Some(piece.at(at)) {
            return false;
        }
    }
    true
}

/// The position and the number of the clocks of each piece that shifts, up to the first one that isn't what a
/// play has clock by clock.
fn pieces(alloc: Global, commands: &Commands, most: u32) -> Vec<(u32, u32)>
    requires { scans_in commands.now < 2 ^ 32 }
{
    let mut many = Player::new(Stable::Reset, 0, commands);
    let mut single = Player::new(Stable::Reset, 0, commands);
    let mut shifted = Vec::new(alloc);
    while let Some(piece) = many.next_piece(most) {
        if !are_next(&mut single, &piece) {
            return shifted;
        }
        if piece.scan > 0 {
            let _ = shifted.push((piece.bit, piece.count));
        }
    }
    shifted
}

#[test]
fn clocks_that_come_at_once_are_those_that_come_one_by_one(rt: HostRuntime) -> Result<(), Fail> {
    let commands = long_commands(rt.alloc())?;
    let all = pieces(rt.alloc(), &commands, 64);
    assert!(rt; all.as_slice() == [(0, 64), (64, 6), (0, 64), (64, 6), (0, 5)].as_slice());
    let few = pieces(rt.alloc(), &commands, 40);
    assert!(rt; few.as_slice() == [(0, 40), (40, 30), (0, 40), (40, 30), (0, 5)].as_slice());
    assert!(rt; pieces(rt.alloc(), &commands, 0).len() == 145);
    Ok(())
}
