// The analog readout and the charge in percent: document 01, "Readout and percent". `readout` is 16 times the mean of the readings,
// rounded down once, plus the signed offset, clamped to 16 bits; it refuses with 15, then 16. `percent` rounds to the nearest, halves up,
// and is at most 100.
#![tactic(auto)]

ghost use Rattle.std.specs.Prelude.{◌≡◌, ◌≤◌, pos, ◌+ℤ◌, length};
ghost use Rattle.analog.specs.Analog.{readings_max, readout_max, any_over, sum_of, clamped, readout_from, readout_of, percent_of};

use refusal::{NONE, Refusal};

// The most readings that are averaged.
const READINGS_MAX: usize = 16;
// The largest reading of a 12-bit converter.
const READING_MAX: u16 = 4095;
// A 12-bit reading times this is a 16-bit readout.
const SCALE: usize = 16;
// The largest 16-bit readout.
const READOUT_MAX: u16 = 65535;
// The readout that would be the whole reference: one more than the largest.
const FULL_SCALE: u32 = 65536;

// What is told to C: the number of the refusal or 0, and the readout, 0 on a refusal.
#[repr(C)]
#[derive(Clone, Copy)]
pub struct ReadoutResult {
    pub refusal: u8,
    pub readout: u16,
}

impl From<Result<u16, Refusal>> for ReadoutResult {
    ghost from_gives = { λ read told. told ≡ readout_from read };

    fn from(read: Result<u16, Refusal>) -> ReadoutResult {
        match read {
            Ok(readout) => ReadoutResult {
                refusal: NONE,
                readout,
            },
            Err(refusal) => ReadoutResult {
                refusal: refusal.number(),
                readout: 0,
            },
        }
    }
}

// Whether a reading is over the largest that the converter has.
fn any_over(readings: &[u16]) -> bool
    ensures { result ≡ any_over readings.now }
{
    readings.iter().any(|reading| *reading > READING_MAX)
}

#[tactic(auto, using(crate::proofs::Readings::sum_of_sum))]
fn sum(readings: &[u16]) -> usize
    requires { length readings.now ≤ readings_max }
    ensures { result ≡ sum_of readings.now }
{
    readings.iter().map(|reading| *reading as usize).sum()
}

// base plus offset, clamped to 16 bits.
fn with_offset(base: usize, offset: i16) -> u16
    requires { base ≤ readout_max }
    ensures { result ≡ clamped (pos base +ℤ offset) }
{
    (base as i32 + offset as i32).clamp(0, READOUT_MAX as i32) as u16
}

// The readout of 1 to 16 readings: 16 times their mean, rounded down once, plus the offset, clamped to 16 bits.
pub fn readout(readings: &[u16], offset: i16) -> Result<u16, Refusal>
    ensures { readout_from result ≡ readout_of readings.now offset }
{
    if readings.is_empty() || readings.len() > READINGS_MAX {
        return Err(Refusal::ReadingCount);
    }
    if any_over(readings) {
        return Err(Refusal::ReadingOver);
    }
    let base = SCALE * sum(readings) / readings.len();
    Ok(with_offset(base, offset))
}

// A readout as whole percent of the reference, to the nearest, halves up. It refuses nothing.
pub fn percent(readout: u16) -> u8
    ensures { result ≡ percent_of readout }
{
    ((readout as u32 * 100 + FULL_SCALE / 2) / FULL_SCALE) as u8
}
