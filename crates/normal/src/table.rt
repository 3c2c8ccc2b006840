// The table of the standard normal distribution function, and the chords between its values.
ghost use Rattle.std.specs.Prelude.{◌≡◌, ◌≤◌, MatchOption};
ghost use Rattle.normal.specs.Table.{value, ChordOver};

// The tenths of a standard uncertainty that the table spans.
const TENTHS: u64 = 40;

// The values at 0, 0.1, .. 4 standard uncertainties, in hundred-thousandths.
const TABLE: [u32; 41] = [
    50_000, 53_983, 57_926, 61_791, 65_542, 69_146, 72_575, 75_804, 78_814, 81_594, 84_134, 86_433,
    88_493, 90_320, 91_924, 93_319, 94_520, 95_543, 96_407, 97_128, 97_725, 98_214, 98_610, 98_928,
    99_180, 99_379, 99_534, 99_653, 99_744, 99_813, 99_865, 99_903, 99_931, 99_952, 99_966, 99_977,
    99_984, 99_989, 99_993, 99_995, 99_997,
];

// A chord of the table, over one tenth of a standard uncertainty, in hundred-thousandths.
#[derive(Clone, Copy)]
pub struct Chord {
    pub start: u32,
    pub rise: u32,
}

// The chord over the tenth of this number; none from the fortieth on, where the table ends.
#[tactic(auto, using(crate::specs::Values::next))]
pub fn chord_over(tenth: u64) -> Option<Chord>
    ensures { MatchOption result (40 ≤ tenth) (λ c. ChordOver tenth c.start c.rise) }
{
    if tenth >= TENTHS {
        return None;
    }
    let start = value_at(tenth);
    Some(Chord {
        start,
        rise: value_at(tenth + 1) - start,
    })
}

// The value at this many tenths.
fn value_at(tenth: u64) -> u32
    requires { tenth ≤ TENTHS }
    ensures { result ≡ value tenth }
{
    TABLE[tenth as usize]
}
