// The figures that document 01 gives.

use crate::cases::{Case, RowWord, Settled, Terms};
use figures::document::CURVE_11;
use figures::layout::{Point, Row};
use figures::print::figure;

// The terms of the listing.
pub const LISTING: Terms = Terms {
    net_cone: 30000,
    days: 365,
};

const NET_CONE_1: Terms = Terms {
    net_cone: 1,
    days: 365,
};

// An energy-only plant: its limits and its curve.
#[derive(Clone, Copy)]
pub struct Plant {
    pub maximum: u64,
    pub minimum: u64,
    pub curve: [Point; 2],
}

impl Plant {
    // Its scheduled kW: it gives more than it can be scheduled for, so that its bonus is the scheduled kW.
    pub fn scheduled(self, online: u64, lmp: u64) -> u64 {
        let (most, least) = (self.maximum, self.minimum);
        let row = [1, 4, 0, 0, 4000000, 0, 0, 0, most, least, online, lmp, 0, 2];
        Case::of(LISTING, &[row], &self.curve)
            .settled()
            .word(0, RowWord::Bonus)
    }
}

const ON_A: Plant = Plant {
    maximum: 110000,
    minimum: 20000,
    curve: CURVE_11,
};

// Prices of -300 and -293, in two's complement.
const BELOW_ZERO: Plant = Plant {
    maximum: 10,
    minimum: 0,
    curve: [[0x1_0000_0000 - 300, 0], [0x1_0000_0000 - 293, 10]],
};

const PRD: [Point; 2] = [[500, 0], [2000, 3000]];

// 1 if a PRD row that gives 1 kW is considered, else 0.
fn considered(lmp: u64) -> u64 {
    let row = [1, 3, 0, 0, 1, 0, 0, 0, 0, 0, 0, lmp, 0, 2];
    Case::of(LISTING, &[row], &PRD)
        .settled()
        .word(0, RowWord::Actual)
}

pub fn curves() {
    figure(b"01 A online, LMP 999: ", ON_A.scheduled(1, 999));
    figure(b"01 A online, LMP 3001: ", ON_A.scheduled(1, 3001));
    figure(b"01 A online, LMP 5000: ", ON_A.scheduled(1, 5000));
    figure(b"01 A online, LMP 5001: ", ON_A.scheduled(1, 5001));
    figure(b"01 A offline, LMP 999: ", ON_A.scheduled(0, 999));
    figure(
        b"01 points (-300, 0), (-293, 10), LMP -299: ",
        BELOW_ZERO.scheduled(1, 0x1_0000_0000 - 299),
    );
    figure(b"01 PRD, LMP 1999, considered: ", considered(1999));
    figure(b"01 PRD, LMP 2000, considered: ", considered(2000));
}

// A demand resource that gives nothing of what it is committed to, and so is short of all of it.
fn short(id: u64, committed: u64) -> Row {
    [id, 1, committed, 0, 0, 0, 0, 0, 0, 0, 0, 0, 0, 0]
}

// The charge for a shortfall, which no limit cuts.
pub fn charge(terms: Terms, kw: u64) -> u64 {
    Case::of(terms, &[short(1, kw)], &[])
        .settled()
        .word(0, RowWord::Charge)
}

// What is answered with a ledger whose plant 1 is charged so much on a commitment: 0 up to the limit.
pub fn answer_to_charged(terms: Terms, kw: u64, cents: u64) -> u64 {
    Case::of(terms, &[short(2, 0)], &[])
        .settled_into(terms.charged(kw, cents))
        .answer
}

pub fn charges() {
    figure(
        b"01 Net CONE 1, 365 days, 493 kW: ",
        charge(NET_CONE_1, 493),
    );
    figure(
        b"01 Net CONE 1, 365 days, 494 kW: ",
        charge(NET_CONE_1, 494),
    );
    figure(
        b"01 Net CONE 30000, 1 kW, 16425 charged: ",
        answer_to_charged(LISTING, 1, 16425),
    );
    figure(
        b"01 Net CONE 30000, 1 kW, 16426 charged: ",
        answer_to_charged(LISTING, 1, 16426),
    );
    figure(
        b"01 Net CONE 30000, 365 days, 1 kW uncut: ",
        charge(LISTING, 1),
    );
    let cut = Case::of(LISTING, &[short(1, 1)], &[]).settled_into(LISTING.charged(1, 16400));
    figure(
        b"01 Net CONE 30000, 365 days, 1 kW with 16400 charged: ",
        cut.word(0, RowWord::Charge),
    );
}

// Demand resources with bonuses of 30000 and 10001 kW.
const SHARING: [Row; 2] = [
    [1, 1, 0, 0, 30000, 0, 0, 0, 0, 0, 0, 0, 0, 0],
    [2, 1, 0, 0, 10001, 0, 0, 0, 0, 0, 0, 0, 0, 0],
];

// What they leave of a pool of 557628 cents.
fn shared() -> Settled {
    Case::of(LISTING, &SHARING, &[]).settled_into(LISTING.charged(50000, 557628))
}

pub fn shares() {
    figure(
        b"01 pool 557628, credit of bonus 30000: ",
        shared().word(0, RowWord::Credit),
    );
    figure(
        b"01 pool 557628, credit of bonus 10001: ",
        shared().word(1, RowWord::Credit),
    );
    figure(b"01 pool 557628, carried: ", shared().carried());
}
