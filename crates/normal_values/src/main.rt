// Compares the normal kind with values of the standard normal distribution function that were computed elsewhere. Each line of the
// input has a standard uncertainty, an offset, and the true probability in units of 10^-12, rounded down and rounded up;
// tools/normal_values.py made it. The same answers are then asked for through three bias layers.
#![tactic(auto)]

ghost use Rattle.std.specs.Prelude.{◌≡◌, ◌*◌, ◌&&◌, pos, neg_ℤ, ◌≤ℤ◌, nat_le};
ghost use Rattle.normal.specs.Normal.{normal};

use anyhow::{Context, anyhow};
use bias::Biased;
use knowledge::{Knowledge, nearest_offset};
use normal::Normal;
use std::io::{BufRead, BufReader};
use std::str::FromStr;

// Units of the true probability in a millionth.
const UNITS: u64 = 1_000_000;

// One line of the input.
#[derive(Drop)]
struct Row {
    standard_uncertainty: i64,
    offset: i64,
    lower: u64,
    upper: u64,
}

// The row that a line spells.
impl FromStr for Row {
    type Err = anyhow::Error;

    fn from_str(line: &str) -> anyhow::Result<Self> {
        let mut fields = line.split(' ');
        let mut field = || fields.next().context("a line is not four numbers");
        Ok(Row {
            standard_uncertainty: field()?.parse()?,
            offset: field()?.parse()?,
            lower: field()?.parse()?,
            upper: field()?.parse()?,
        })
    }
}

// Whether the true probability lies from the floor to the ceiling.
fn brackets(floor: u32, ceiling: u32, row: &Row) -> bool
    ensures { result ≡ (nat_le (floor * 1000000) row.now.lower && nat_le row.now.upper (ceiling * 1000000)) }
{
    u64::from(floor) * UNITS <= row.lower && row.upper <= u64::from(ceiling) * UNITS
}

// Floor and ceiling by way of three bias layers, at the offset less their sum: one shift there and back.
fn through_layers(kind: Normal, offset: i64) -> (u32, u32)
    ensures { neg_ℤ (pos 1800000) ≤ℤ offset → offset ≤ℤ pos 1800000 → (result.0 ≡ (normal kind.standard_uncertainty).floor offset) × (result.1 ≡ (normal kind.standard_uncertainty).ceiling offset) }
{
    let layers = Biased::new(Biased::new(Biased::new(kind, 30), -7), 100_000);
    layers.at_most(nearest_offset(offset) - 100_023)
}

fn main(rt: HostRuntime) -> anyhow::Result<()> {
    let mut compared = 0u64;
    let mut outside = 0u64;
    let mut different = 0u64;
    for line in BufReader::new(rt.alloc(), rt.stdin())?.lines(rt.alloc()) {
        // The message alone, without its cause: what the program writes on standard error is one line.
        let Ok(row) = line?.parse::<Row>() else {
            return Err(anyhow!("a line is not four numbers"));
        };
        let Ok(kind) = Normal::new(row.standard_uncertainty) else {
            return Err(anyhow!("a standard uncertainty is out of range"));
        };
        let (floor, ceiling) = kind.at_most(row.offset);
        if !brackets(floor, ceiling, &row) {
            outside = outside.saturating_add(1);
        }
        if through_layers(kind, row.offset) != (floor, ceiling) {
            different = different.saturating_add(1);
        }
        compared = compared.saturating_add(1);
    }
    println!(rt;
        "{compared} values compared: {outside} outside floor and ceiling, {different} different through bias layers"
    )?;
    Ok(())
}
