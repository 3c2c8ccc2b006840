// The table at the items of a lot, by number.
use crate::script::fill_empty_refill;
use judging::{Bracket, Judgement, Verdict};
use lot::Item;

fn item(number: u32, reading: i64) -> Item {
    Item {
        number,
        class: 1,
        characteristic: 2,
        reading,
        judgement: Judgement {
            verdict: Verdict::Pass,
            bracket: Bracket {
                floor: 975_000,
                ceiling: 980_000,
            },
        },
    }
}

// Items whose numbers ascend, all with this reading.
fn items(reading: i64) -> [Item; 7] {
    [
        item(1, reading),
        item(2, reading),
        item(9, reading),
        item(10, reading),
        item(255, reading),
        item(256, reading),
        item(1_000_000, reading),
    ]
}

#[test]
fn items_by_number(rt: HostRuntime) {
    fill_empty_refill(&rt, &mut [item(7, 0); 5], &items(-40), &items(70));
}
