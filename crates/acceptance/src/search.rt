// The search for the offset at which one side's risk comes within its share.
ghost use Rattle.std.specs.Prelude.{◌≡◌, true, ok_or};
ghost use Rattle.faults.specs.Faults.{direct};
ghost use Rattle.faults.specs.declared.Refusal.TheVariants.{NoOffset};
ghost use Rattle.requirement.specs.Limits.{limit_in_reach};
ghost use Rattle.acceptance.specs.Search.{offset_at, keeps_share, first_below};
ghost use Rattle.acceptance.specs.Acceptance.{share_limit};

use faults::{Fault, Refusal};
use knowledge::{FARTHEST, Knowledge, MILLION};

// A side of the tolerance interval.
#[derive(Clone, Copy, PartialEq, Eq, Debug)]
pub enum Side {
    Lower,
    Upper,
}

// The last of the offsets in the order of the search, counted from 0.
const LAST: u32 = 4_000_000;

impl Side {
    // The offsets in the order in which each side's risk falls: upwards for the upper side, downwards for the lower.
    fn offset_at(self, place: u32) -> i64
        ensures { result ≡ offset_at self place }
    {
        match self {
            Side::Lower => FARTHEST - i64::from(place),
            Side::Upper => i64::from(place) - FARTHEST,
        }
    }
}

// The share of the risk that one side may have, and what is known of the error.
#[derive(Drop)]
pub(crate) struct SideShare<'a, K> {
    pub(crate) side: Side,
    pub(crate) share: u32,
    pub(crate) knowledge: &'a K,
}

impl<'a, K: Knowledge> SideShare<'a, K> {
    // Whether the side's risk is within its share for every admitted distribution, with the limit at that offset.
    fn keeps(&self, place: u32) -> bool
        ensures { result ≡ keeps_share (K.answers self.now.knowledge.now) self.now.side self.now.share place }
    {
        let (floor, ceiling) = self.knowledge.at_most(self.side.offset_at(place));
        match self.side {
            Side::Lower => ceiling <= self.share,
            Side::Upper => MILLION.saturating_sub(self.share) <= floor,
        }
    }

    // The first place at which the side keeps its share, by bisection; the library searches slices only.
    fn first_place(&self) -> Option<u32>
        ensures { result ≡ first_below (keeps_share (K.answers self.now.knowledge.now) self.now.side self.now.share) 4000001 }
    {
        if !self.keeps(LAST) {
            return None;
        }
        let mut low = 0;
        let mut high = LAST;
        while low < high {
            let middle = low + (high - low) / 2;
            if self.keeps(middle) {
                high = middle;
            } else {
                low = middle + 1;
            }
        }
        Some(low)
    }

    // The side's acceptance limit, if its tolerance limit stands; refused if no offset keeps the share.
    pub(crate) fn acceptance_limit(&self, limit: Option<i64>) -> Result<Option<i64>, Fault>
        requires { limit_in_reach limit ≡ true }
        ensures { result ≡ ok_or (share_limit (K.answers self.now.knowledge.now) self.now.side limit self.now.share) (direct NoOffset) }
    {
        let Some(limit) = limit else {
            return Ok(None);
        };
        let place = self.first_place().ok_or(Fault::direct(Refusal::NoOffset))?;
        Ok(Some(limit - self.side.offset_at(place)))
    }
}
