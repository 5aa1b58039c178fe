// How far a play has come in its list of commands.
ghost use Rattle.std.specs.Prelude.{◌≡◌, ◌<◌, ◌≤◌, ◌+◌, ◌^◌, ◌∷◌, ◌++◌, [], length, drop, get_or};
ghost use Rattle.std.specs.Prelude.{slice_range, replicate, true, false, Some, None, unwrap_or, IfSome};
ghost use Rattle.std.specs.Prelude.{IsNone, MatchOption};
ghost use Rattle.ij_bits.specs.BitLists.{bits_of};
ghost use Rattle.svf_writer.specs.Fits.{FitsAfter, HasLength};
ghost use Rattle.svf_writer.specs.Lent.{lent};
ghost use Rattle.svf_writer.specs.SeenCommands.{SIR, SDR, seen_scan, seen_command};
ghost use Rattle.tap_machine.specs.Remaining.{seen_held, last_length, AreHeldBits, scan_under_way};
ghost use Rattle.tap_machine.specs.Remaining.{shifted_to, phase_pins, pins_at_hand, later_pins};
ghost use Rattle.tap_machine.specs.Remaining.{remaining_pins, rests_at_end, remaining_commands, to_begin};
ghost use Rattle.tap_machine.specs.Remaining.{IsWithin, IsUnderWay, first_of};
ghost use Rattle.tap_machine.specs.Play.{no_shift, after_scan, masked};
ghost use Rattle.tap_machine.specs.Pieces.{piece_pins};

use crate::{Piece, Pins, Stable};
use svf_writer::{Command, Commands, Scan, ScanPart, part_if_given};

/// The length of the last scan of a kind, and the bits of the commands that it took its TDI and MASK from.
/// Without MASK each bit is compared.
#[derive(Clone, Copy)]
pub(crate) struct HeldBits<'a> {
    pub len: u32,
    pub tdi: Option<&'a ScanPart>,
    pub mask: Option<&'a ScanPart>,
}

/// What is left of the command at hand.
#[derive(Clone, Copy)]
pub(crate) enum Phase {
    /// This many clocks with one TMS that shift nothing.
    Quiet { tms: bool, left: u32 },
    /// A scan of the instruction register, from Run-Test/Idle on.
    BeforeIr,
    /// A scan from Run-Test/Idle or Select-DR-Scan on.
    BeforeDr,
    /// A scan from Select-DR-Scan or Select-IR-Scan on, to its capture.
    Select,
    /// A scan from its capture on.
    Enter,
    /// A scan from the shift of a position on.
    Shift(u32),
    /// A scan from Exit1-DR or Exit1-IR on.
    Exit,
    /// A scan from its update on.
    Update,
}

/// A play under way: the commands, the number of those that are begun, the state in which the command at hand
/// leaves the controller, and the number of scans so far; of the scan at hand what it shifts and what it
/// expects; and what the last scan of each kind leaves to the next.
#[derive(Drop)]
pub(crate) struct Progress<'a> {
    pub commands: &'a Commands,
    pub at: usize,
    pub rests_in: Stable,
    pub scans: u32,
    pub phase: Phase,
    pub scan: HeldBits<'a>,
    pub tdo: Option<&'a ScanPart>,
    pub ir: HeldBits<'a>,
    pub dr: HeldBits<'a>,
}

/// The bits of the next scan: TDI and MASK hold where the command has none, MASK up to a new length.
pub(crate) fn next_held_bits<'a>(kept: HeldBits<'a>, scan: &'a Scan) -> HeldBits<'a>
    requires kept { AreHeldBits kept }
    requires fits { FitsAfter (last_length kept) (seen_scan scan.now) }
    ensures kept { seen_held result ≡ after_scan (seen_held kept.entry) (seen_scan scan.now) }
    ensures sound { AreHeldBits result }
    ensures last { last_length result ≡ Some scan.now.len }
{
    let mask = match part_if_given(&scan.mask) {
        Some(mask) => Some(mask),
        None => if kept.len == scan.len {
            kept.mask
        } else {
            None
        },
    };
    let tdi = match part_if_given(&scan.tdi) {
        Some(tdi) => Some(tdi),
        None => kept.tdi,
    };
    HeldBits {
        len: scan.len,
        tdi,
        mask,
    }
}

/// A clock that shifts nothing.
fn clock_without_shift(tms: bool) -> Pins
    ensures { result ≡ no_shift tms }
{
    Pins {
        tms,
        tdi: false,
        expect: None,
        scan: 0,
        bit: 0,
    }
}

/// The number of this many bits of one value.
fn same_bits(n: u32, value: bool) -> u64
    requires some { 1 ≤ n }
    requires few { n ≤ 64 }
    ensures { bits_of n result ≡ replicate n value }
{
    if value { u64::MAX >> (64 - n) } else { 0 }
}

impl<'a> Progress<'a> {
    /// Whether MASK compares a position of the scan at hand.
    fn is_compared(&self, k: u32) -> bool
        requires within { k < self.now.scan.len }
        requires sound { AreHeldBits self.now.scan }
        ensures { result
            ≡ get_or (unwrap_or (lent self.now.scan.mask) (replicate self.now.scan.len true)) k false }
    {
        match self.scan.mask {
            Some(mask) => mask.get(k),
            None => true,
        }
    }

    /// The bit that is expected at a position of the scan at hand, where it is compared.
    fn expects(&self, k: u32) -> Option<bool>
        requires within { k < self.now.scan.len }
        requires sound { IsUnderWay self.now }
        ensures { result ≡ get_or (scan_under_way self.now).expects k None }
    {
        let tdo = self.tdo?;
        if self.is_compared(k) {
            Some(tdo.get(k))
        } else {
            None
        }
    }

    /// The pins at a position of the scan at hand.
    fn shift_clock(&self, k: u32) -> Pins
        requires within { k < self.now.scan.len }
        requires sound { IsUnderWay self.now }
        ensures pins { Some result
            ≡ first_of (phase_pins self.now.scans (scan_under_way self.now) (Phase.Shift k)) }
        ensures short { result.bit + 1 < 2 ^ 32 }
    {
        let tdi = match self.scan.tdi {
            Some(tdi) => tdi.get(k),
            None => false,
        };
        let len = self.scan.len;
        let last = len - 1;
        Pins {
            tms: k == last,
            tdi,
            expect: self.expects(k),
            scan: self.scans,
            bit: k,
        }
    }

    /// The first of the pins that are left of the command at hand.
    fn first(&self) -> Option<Pins>
        requires { IsUnderWay self.now }
        ensures pins { result ≡ first_of (pins_at_hand self.now) }
        ensures short { IfSome result (λ p. p.bit + 1 < 2 ^ 32) }
    {
        match self.phase {
            Phase::Quiet { tms, left } => if left == 0 {
                None
            } else {
                Some(clock_without_shift(tms))
            },
            Phase::BeforeIr | Phase::BeforeDr | Phase::Exit => Some(clock_without_shift(true)),
            Phase::Select | Phase::Enter | Phase::Update => Some(clock_without_shift(false)),
            Phase::Shift(k) => Some(self.shift_clock(k)),
        }
    }

    /// The phase after the shift of a position.
    fn shift_after(&self, k: u32) -> Phase
        requires within { k < self.now.scan.len }
        requires sound { IsUnderWay self.now }
        ensures pins { phase_pins self.now.scans (scan_under_way self.now) result
            ≡ drop 1 (phase_pins self.now.scans (scan_under_way self.now) (Phase.Shift k)) }
        ensures within { IsWithin self.now.scan.len result }
    {
        let last = self.scan.len - 1;
        if k == last {
            Phase::Exit
        } else {
            Phase::Shift(k + 1)
        }
    }

    /// The phase after a clock.
    fn phase_after(&self) -> Phase
        requires { IsUnderWay self.now }
        ensures pins { phase_pins self.now.scans (scan_under_way self.now) result
            ≡ drop 1 (pins_at_hand self.now) }
        ensures within { IsWithin self.now.scan.len result }
    {
        match self.phase {
            Phase::Quiet { tms, left } => Phase::Quiet {
                tms,
                left: left.saturating_sub(1),
            },
            Phase::BeforeIr => Phase::BeforeDr,
            Phase::BeforeDr => Phase::Select,
            Phase::Select => Phase::Enter,
            Phase::Enter => Phase::Shift(0),
            Phase::Shift(k) => self.shift_after(k),
            Phase::Exit => Phase::Update,
            Phase::Update => Phase::Quiet {
                tms: false,
                left: 0,
            },
        }
    }

    /// The next command.
    fn command(&self) -> &'a Command
        requires { self.now.at < length self.now.commands.now }
        ensures { remaining_commands self.now
            ≡ seen_command result.now ∷ drop (self.now.at + 1) self.now.commands.now }
    {
        self.commands.get(self.at)
    }

    /// Makes this the scan at hand.
    fn begin_scan(&mut self, phase: Phase, scan: HeldBits<'a>, tdo: &'a ScanPart)
        requires more { self.old.at + 1 < 2 ^ 64 }
        requires few { self.old.scans + 1 < 2 ^ 32 }
        ensures tdo { lent self.new.tdo ≡ tdo.now }
        ensures others { self.new ≡ record self.old {
          phase = phase;
          scan = scan.entry;
          tdo = self.new.tdo;
          scans = self.old.scans + 1;
          at = self.old.at + 1;
        } }
    {
        self.phase = phase;
        self.scan = scan;
        self.tdo = part_if_given(tdo);
        self.scans += 1;
        self.at += 1;
    }

    /// Begins a scan of the instruction register.
    fn begin_sir(&mut self, scan: &'a Scan)
        requires sound { IsUnderWay self.old }
        requires idle { self.old.rests_in ≡ Stable.Idle }
        requires more { self.old.at < length self.old.commands.now }
        requires next { remaining_commands self.old
            ≡ SIR (seen_scan scan.now) ∷ drop (self.old.at + 1) self.old.commands.now }
        ensures pins { remaining_pins self.new ≡ later_pins self.old }
        ensures rests { rests_at_end self.new ≡ rests_at_end self.old }
        ensures sound { IsUnderWay self.new }
        ensures fewer { to_begin self.new < to_begin self.old }
    {
        self.ir = next_held_bits(self.ir, scan);
        self.begin_scan(Phase::BeforeIr, self.ir, &scan.tdo);
    }

    /// Begins a scan of the data register.
    fn begin_sdr(&mut self, scan: &'a Scan)
        requires sound { IsUnderWay self.old }
        requires idle { self.old.rests_in ≡ Stable.Idle }
        requires more { self.old.at < length self.old.commands.now }
        requires next { remaining_commands self.old
            ≡ SDR (seen_scan scan.now) ∷ drop (self.old.at + 1) self.old.commands.now }
        ensures pins { remaining_pins self.new ≡ later_pins self.old }
        ensures rests { rests_at_end self.new ≡ rests_at_end self.old }
        ensures sound { IsUnderWay self.new }
        ensures fewer { to_begin self.new < to_begin self.old }
    {
        self.dr = next_held_bits(self.dr, scan);
        self.begin_scan(Phase::BeforeDr, self.dr, &scan.tdo);
    }

    /// Begins this many clocks with one TMS, which leave the controller in a state.
    fn begin_constant_tms(&mut self, tms: bool, left: u32, from: Stable)
        ensures { self.new ≡ record self.old { phase = Phase.Quiet tms left; rests_in = from } }
    {
        self.phase = Phase::Quiet { tms, left };
        self.rests_in = from;
    }

    /// Begins the next command, or first leaves Test-Logic-Reset for one that begins in Run-Test/Idle.
    fn begin(&mut self)
        requires sound { IsUnderWay self.old }
        requires more { self.old.at < length self.old.commands.now }
        ensures pins { remaining_pins self.new ≡ later_pins self.old }
        ensures rests { rests_at_end self.new ≡ rests_at_end self.old }
        ensures sound { IsUnderWay self.new }
        ensures fewer { to_begin self.new < to_begin self.old }
    {
        match (self.command(), self.rests_in) {
            (Command::Reset, _) => {
                self.begin_constant_tms(true, 5, Stable::Reset);
                self.at += 1;
            },
            (_, Stable::Reset) => self.begin_constant_tms(false, 1, Stable::Idle),
            (Command::Sir(scan), _) => self.begin_sir(scan),
            (Command::Sdr(scan), _) => self.begin_sdr(scan),
            (Command::Idle, _) => {
                self.begin_constant_tms(false, 0, Stable::Idle);
                self.at += 1;
            },
            (Command::Run(cycles), _) => {
                self.begin_constant_tms(false, *cycles, Stable::Idle);
                self.at += 1;
            },
        }
    }

    /// The pins of the next clock, `None` where all were given.
    pub(crate) fn next(&mut self) -> Option<Pins>
        requires { IsUnderWay self.old }
        ensures pins { result ≡ first_of (remaining_pins self.old) }
        ensures short { IfSome result (λ p. p.bit + 1 < 2 ^ 32) }
        ensures others { remaining_pins self.new ≡ drop 1 (remaining_pins self.old) }
        ensures rests { rests_at_end self.new ≡ rests_at_end self.old }
        ensures sound { IsUnderWay self.new }
    {
        loop {
            match self.first() {
                Some(pins) => {
                    self.phase = self.phase_after();
                    return Some(pins);
                },
                None => if self.at < self.commands.len() {
                    self.begin();
                } else {
                    return None;
                },
            }
        }
    }

    /// The `n` bits of a part of the scan at hand from a position on; without the part, each of them is the
    /// given one.
    fn part_bits(&self, part: Option<&ScanPart>, k: u32, n: u32, value: bool) -> u64
        requires some { 1 ≤ n }
        requires few { n ≤ 64 }
        requires within { k + n ≤ self.now.scan.len }
        requires sound { HasLength self.now.scan.len (lent part) }
        ensures { bits_of n result
            ≡ slice_range (unwrap_or (lent part.entry) (replicate self.now.scan.len value)) k (k + n) }
    {
        match part {
            Some(part) => part.number(k, n),
            None => same_bits(n, value),
        }
    }

    /// At which of the `n` positions from `k` on TDO is compared.
    fn compared(&self, k: u32, n: u32) -> u64
        requires some { 1 ≤ n }
        requires few { n ≤ 64 }
        requires within { k + n ≤ self.now.scan.len }
        requires sound { IsUnderWay self.now }
        ensures { masked (slice_range (unwrap_or (lent self.now.tdo) (replicate self.now.scan.len false)) k
            (k + n)) (bits_of n result) ≡ slice_range (scan_under_way self.now).expects k (k + n) }
    {
        match self.tdo {
            Some(_) => self.part_bits(self.scan.mask, k, n, true),
            None => 0,
        }
    }

    /// The `n` shift clocks of the scan at hand from a position on.
    fn shifts_from(&self, k: u32, n: u32) -> Piece
        requires some { 1 ≤ n }
        requires few { n ≤ 64 }
        requires within { k + n ≤ self.now.scan.len }
        requires sound { IsUnderWay self.now }
        ensures pins { phase_pins self.now.scans (scan_under_way self.now) (Phase.Shift k) ≡ piece_pins result
            ++ phase_pins self.now.scans (scan_under_way self.now) (shifted_to self.now.scan.len (k + n)) }
        ensures count { result.count ≡ n }
        ensures bit { result.bit ≡ k }
    {
        let left = self.scan.len - k;
        Piece {
            count: n,
            tms: n == left,
            tdi: self.part_bits(self.scan.tdi, k, n, false),
            compared: self.compared(k, n),
            expected: self.part_bits(self.tdo, k, n, false),
            scan: self.scans,
            bit: k,
        }
    }

    /// The `n` shift clocks of the scan at hand from a position on; the play goes on after them.
    fn shift_many(&mut self, k: u32, n: u32) -> Piece
        requires some { 1 ≤ n }
        requires few { n ≤ 64 }
        requires within { k + n ≤ self.old.scan.len }
        requires phase { self.old.phase ≡ Phase.Shift k }
        requires sound { IsUnderWay self.old }
        ensures pins { remaining_pins self.old ≡ piece_pins result ++ remaining_pins self.new }
        ensures count { result.count ≡ n }
        ensures bit { result.bit ≡ k }
        ensures rests { rests_at_end self.new ≡ rests_at_end self.old }
        ensures sound { IsUnderWay self.new }
    {
        let piece = self.shifts_from(k, n);
        let left = self.scan.len - k;
        self.phase = if n == left {
            Phase::Exit
        } else {
            Phase::Shift(k + n)
        };
        piece
    }

    /// The next clock, as a piece.
    fn next_one(&mut self) -> Option<Piece>
        requires { IsUnderWay self.old }
        ensures pins { MatchOption result (remaining_pins self.old ≡ [])
            (λ p. remaining_pins self.old ≡ piece_pins p ++ remaining_pins self.new) }
        ensures end { IsNone result → remaining_pins self.new ≡ [] }
        ensures one { IfSome result (λ p. p.count ≡ 1) }
        ensures short { IfSome result (λ p. p.bit + p.count < 2 ^ 32) }
        ensures rests { rests_at_end self.new ≡ rests_at_end self.old }
        ensures sound { IsUnderWay self.new }
    {
        let pins = self.next()?;
        Some(Piece::one(&pins))
    }

    /// The next clocks: up to `most` and up to 64 at once where they shift one scan, else one; `None` where
    /// all were given.
    pub(crate) fn next_piece(&mut self, most: u32) -> Option<Piece>
        requires { IsUnderWay self.old }
        ensures pins { MatchOption result (remaining_pins self.old ≡ [])
            (λ p. remaining_pins self.old ≡ piece_pins p ++ remaining_pins self.new) }
        ensures end { IsNone result → remaining_pins self.new ≡ [] }
        ensures some { IfSome result (λ p. 1 ≤ p.count) }
        ensures few { IfSome result (λ p. p.count ≤ 64) }
        ensures most { IfSome result (λ p. 2 ≤ p.count → p.count ≤ most) }
        ensures short { IfSome result (λ p. p.bit + p.count < 2 ^ 32) }
        ensures rests { rests_at_end self.new ≡ rests_at_end self.old }
        ensures sound { IsUnderWay self.new }
    {
        if let Phase::Shift(k) = self.phase {
            let n = (self.scan.len - k).min(most).min(64);
            if n > 1 {
                return Some(self.shift_many(k, n));
            }
        }
        self.next_one()
    }
}
