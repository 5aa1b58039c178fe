// The text of the scans, marks and runs (Serial Vector Format, revision E: SDR, RUNTEST).

use crate::access::at;
use crate::chip::Chip;
use crate::segments::Segments;
use crate::stop::PlanStop;
use crate::stretch::{Item, Round, Stretch};
use ij_bits::Bits;
use ij_io::{Sink, SureSink, Word, put_words};
use net_graph::{Net, ReadBit};
use svf_writer::{put_apply_mark, put_bits_part, put_round_mark};

/// Writes the comment before a round.
fn put_comment(round: &Round, text: &mut SureSink) -> Result<(), PlanStop> {
    if round.round < 2 {
        put_apply_mark(round.apply, text)?;
    } else {
        put_round_mark(round.apply, round.round, text)?;
    }
    Ok(())
}

/// Writes a run.
fn put_cycles(cycles: u32, text: &mut SureSink) -> Result<(), PlanStop> {
    let words = [
        Word::Text(b"RUNTEST "),
        Word::Number(cycles as u64),
        Word::Text(b" TCK;\n"),
    ];
    put_words(text, &words)?;
    Ok(())
}

/// Writes the beginning of a scan, with what is shifted in.
fn put_shifted(tdi: &Bits, text: &mut SureSink) -> Result<(), PlanStop> {
    put_words(text, &[Word::Text(b"SDR "), Word::Number(tdi.len() as u64)])?;
    put_bits_part(b" TDI (", tdi, text)?;
    Ok(())
}

/// Writes what is expected of a scan, if anything is read.
fn put_compared(chip: &Chip, reads: &[ReadBit], text: &mut SureSink) -> Result<(), PlanStop> {
    if reads.is_empty() {
        return Ok(());
    }
    let mut tdo = chip.zeros()?;
    let mut mask = chip.zeros()?;
    for read in reads {
        chip.expect(read, &mut tdo, &mut mask)?;
    }
    put_bits_part(b" TDO (", &tdo, text)?;
    put_bits_part(b" MASK (", &mask, text)?;
    Ok(())
}

/// Writes the scan that is being made. It does this round, if any.
fn put_scan(chip: &mut Chip, round: Option<&Round>, text: &mut SureSink) -> Result<(), PlanStop> {
    if let Some(done) = round {
        put_comment(done, text)?;
        for write in done.group.writes.as_slice() {
            chip.write(write.bit, write.value)?;
        }
    }
    put_shifted(&chip.tdi, text)?;
    if let Some(done) = round {
        put_compared(chip, done.group.reads.as_slice(), text)?;
    }
    text.write(b";\n")?;
    Ok(())
}

impl Stretch {
    /// Writes the text of all items.
    pub fn put_text(
        &self,
        net: &Net,
        all: &Segments,
        chip: &mut Chip,
        text: &mut SureSink,
    ) -> Result<(), PlanStop> {
        for item in &self.items {
            match item {
                Item::Run(cycles) => put_cycles(*cycles, text)?,
                Item::Mark(round) => put_comment(at(&self.rounds, *round)?, text)?,
                Item::Scan(scan) => self.put_scan_text(net, all, *scan, chip, text)?,
            }
        }
        Ok(())
    }

    /// Writes the text of one scan.
    fn put_scan_text(
        &self,
        net: &Net,
        all: &Segments,
        number: usize,
        chip: &mut Chip,
        text: &mut SureSink,
    ) -> Result<(), PlanStop> {
        let scan = at(&self.scans, number)?;
        chip.begin_scan(net)?;
        for set in &scan.sets {
            chip.write_select(net, all, *set)?;
        }
        match scan.round {
            Some(round) => put_scan(chip, Some(at(&self.rounds, round)?), text),
            None => put_scan(chip, None, text),
        }
    }
}
