//! What a draft says that can't be, set right.
ghost use Rattle.std.specs.Prelude.{◌≡◌, ◌-◌, ◌*◌, ◌≤◌};

use crate::draft::Draft;
use crate::text::{Part, add};
use crate::tiles::{last_tile, reddened, tile_count, without, without_all};
use riichi_hand::{JobName, Rules, Switch};

impl Draft {
    /// Sets right the job, the number of tiles and the circumstances of a win under these rules.
    pub(crate) fn mend(&mut self, rules: Rules) {
        let job = self.likely_job();
        self.job = Some(job);
        self.mend_hand();
        self.mend_reds();
        if job == JobName::Win {
            self.mend_on();
            self.mend_circumstances(rules);
        }
    }

    /// Fourteen tiles have no waits; who names a winning tile, a seat or how it was won asks for a win.
    fn likely_job(&self) -> JobName {
        let is_whole = tile_count(self.hand.as_slice()) % 3 == 2;
        match self.job {
            Some(JobName::Waits) | None => if self.job.is_none() && self.names_win() {
                JobName::Win
            } else if is_whole {
                JobName::Shape
            } else {
                JobName::Waits
            },
            Some(job) => job,
        }
    }

    fn names_win(&self) -> bool {
        !self.on.is_empty() || !self.by.is_empty() || !self.seat.is_empty()
    }

    pub(crate) fn wanted(&self) -> usize
        ensures { result ≤ 13 }
    {
        wanted_beside(usize::from(self.meld_count))
    }

    pub(crate) fn hand_count(&self) -> usize {
        tile_count(self.hand.as_slice())
    }

    /// Takes the tiles of the melds out of a hand that counted them all.
    fn mend_hand(&mut self) {
        if self.hand_count() > self.wanted() + 1 {
            let rest = without_all(self.hand.as_slice(), self.called.as_slice());
            let called = tile_count(self.called.as_slice());
            if tile_count(rest.as_slice()) + called == self.hand_count() {
                self.hand = rest;
            }
        }
    }

    /// Makes fives of the hand red ones. A hand with fewer fives is none.
    fn mend_reds(&mut self) {
        for suit in self.red_suits.as_slice() {
            self.hand = reddened(self.hand.as_slice(), *suit).unwrap_or(Part::new());
        }
        for _ in 0..self.reds {
            self.hand = reddened(self.hand.as_slice(), 0).unwrap_or(Part::new());
        }
    }

    /// Takes the winning tile out of a hand that counted it: its last tile, where none is named.
    fn mend_on(&mut self) {
        if self.hand_count() == self.wanted() + 1 {
            let named = last_tile(self.on.as_slice());
            if let Some(tile) = named.or(last_tile(self.hand.as_slice())) {
                self.hand = without(self.hand.as_slice(), tile);
                self.on.clear();
                add(&mut self.on, tile.digit);
                add(&mut self.on, tile.suit);
            }
        }
    }

    /// What a win must tell, and what its flags ask for.
    fn mend_circumstances(&mut self, rules: Rules) {
        let by_draw = self.flags.rinshan || self.flags.first && !self.is_blessed(rules);
        if self.by.is_empty() || self.flags.chankan {
            self.by = "ron";
        }
        if by_draw {
            self.by = "tsumo";
        }
        if self.seat.is_empty() {
            self.seat = "S";
        }
        if self.round.is_empty() {
            self.round = "E";
        }
        self.mend_riichi();
    }

    /// Whether these rules have the blessing of man, and the line says so: by ron of another seat than the dealer's.
    fn is_blessed(&self, rules: Rules) -> bool {
        rules.has(Switch::BlessingOfMan) && self.by == "ron" && self.seat != "E"
    }

    /// Ippatsu and ura dora are of riichi, which an open hand can't have.
    fn mend_riichi(&mut self) {
        if self.is_open {
            self.riichi = 0;
            self.flags.ippatsu = false;
            self.ura.clear();
        } else if self.riichi == 0 && (self.flags.ippatsu || !self.ura.is_empty()) {
            self.riichi = 1;
        }
    }
}

/// How many tiles stand in a hand beside so many melds, before the last is drawn.
pub(crate) fn wanted_beside(melds: usize) -> usize
    ensures value { result ≡ 13 - 3 * melds }
    ensures most { result ≤ 13 }
{
    13usize.saturating_sub(melds.saturating_mul(3))
}
