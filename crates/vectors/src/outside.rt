// Figures of the trade's sources under document 01's rules: PJM's review of the October 2019 event,
// the settlement summary, and section 10A of the tariff. Charges are to the nearest cent, as published;
// a credit is rounded down.

use crate::cases::{Case, RowWord, Terms};
use crate::document::{LISTING, Plant, answer_to_charged, charge};
use figures::document::CURVE_12;
use figures::layout::{Point, Row};
use figures::print::figure;

// Table 6 of the review: the Net CONEs of the delivery year, which has 366 days.
const RTO: Terms = Terms {
    net_cone: 27955,
    days: 366,
};

const BGE: Terms = Terms {
    net_cone: 20139,
    days: 366,
};

const PEPCO: Terms = Terms {
    net_cone: 22811,
    days: 366,
};

const SWMAAC: Terms = Terms {
    net_cone: 21475,
    days: 366,
};

// Demand resources with a bonus of 1000 kW, and of 10853700 kW between them.
const BONUSES: [Row; 3] = [
    [1, 1, 0, 0, 1000, 0, 0, 0, 0, 0, 0, 0, 0, 0],
    [2, 1, 0, 0, 4000000, 4000000, 0, 0, 0, 0, 0, 0, 0, 0],
    [3, 1, 0, 0, 2853700, 0, 0, 0, 0, 0, 0, 0, 0, 0],
];

// Table 6: 1000 kW short. Table 9: the pool and the total bonus at 14:00.
pub fn rates() {
    figure(b"review, Table 6, RTO, Net CONE 27955: ", charge(RTO, 1000));
    figure(b"review, Table 6, BGE, Net CONE 20139: ", charge(BGE, 1000));
    figure(
        b"review, Table 6, PEPCO, Net CONE 22811: ",
        charge(PEPCO, 1000),
    );
    figure(
        b"review, Table 6, SWMAAC, Net CONE 21475: ",
        charge(SWMAAC, 1000),
    );
    let shared = Case::of(RTO, &BONUSES, &[]).settled_into(RTO.charged(1000000, 36909733));
    figure(
        b"review, Table 9, 14:00, credit of bonus 1000: ",
        shared.word(0, RowWord::Credit),
    );
}

// The limit of 1000 kW at those rates: charged in full, and a cent more.
pub fn limits() {
    figure(
        b"10A(f), RTO, 15347295 charged: ",
        answer_to_charged(RTO, 1000, 15347295),
    );
    figure(
        b"10A(f), RTO, 15347296 charged: ",
        answer_to_charged(RTO, 1000, 15347296),
    );
    figure(
        b"10A(f), BGE, 11056311 charged: ",
        answer_to_charged(BGE, 1000, 11056311),
    );
    figure(
        b"10A(f), BGE, 11056312 charged: ",
        answer_to_charged(BGE, 1000, 11056312),
    );
    figure(
        b"10A(f), PEPCO, 12523239 charged: ",
        answer_to_charged(PEPCO, 1000, 12523239),
    );
    figure(
        b"10A(f), PEPCO, 12523240 charged: ",
        answer_to_charged(PEPCO, 1000, 12523240),
    );
    figure(
        b"10A(f), SWMAAC, 11789775 charged: ",
        answer_to_charged(SWMAAC, 1000, 11789775),
    );
    figure(
        b"10A(f), SWMAAC, 11789776 charged: ",
        answer_to_charged(SWMAAC, 1000, 11789776),
    );
}

// A row that could run for 1000 MW and was scheduled below what it gave, and one that makes the ratio 700000.
const SCHEDULED_BELOW: [Row; 2] = [
    [
        1, 0, 1000000, 1000000, 550000, 0, 0, 0, 1000000, 0, 1, 3000, 0, 2,
    ],
    [2, 4, 0, 200000, 150000, 0, 0, 0, 200000, 0, 1, 3000, 2, 1],
];

const SCHEDULED_POINTS: [Point; 3] = [[1000, 0], [5000, 1000000], [0, 200000]];

// A solar row at night, and one that makes the ratio 1.
const SOLAR: [Row; 2] = [
    [1, 0, 5000, 5000, 0, 0, 0, 0, 0, 0, 0, 3000, 0, 1],
    [2, 4, 0, 5000, 5000, 0, 0, 0, 5000, 0, 1, 3000, 0, 1],
];

const SOLAR_POINT: [Point; 1] = [[0, 0]];

// A word of the row that was scheduled below what it gave.
fn below(word: RowWord) -> u64 {
    Case::of(LISTING, &SCHEDULED_BELOW, &SCHEDULED_POINTS)
        .settled()
        .word(0, word)
}

// A word of the solar row.
fn solar(word: RowWord) -> u64 {
    Case::of(LISTING, &SOLAR, &SOLAR_POINT)
        .settled()
        .word(0, word)
}

pub fn rows() {
    figure(
        b"summary, row scheduled below, economic: ",
        below(RowWord::Economic),
    );
    figure(
        b"summary, row scheduled below, shortfall: ",
        below(RowWord::Shortfall),
    );
    figure(b"summary, solar row, economic: ", solar(RowWord::Economic));
    figure(b"summary, solar row, charge: ", solar(RowWord::Charge));
}

// The curve of the listing's row 12, from 1000 to 6000 cents.
const ON_12: Plant = Plant {
    maximum: 25000,
    minimum: 10000,
    curve: CURVE_12,
};

pub fn curve_ends() {
    figure(
        b"summary, curve, online, LMP 999: ",
        ON_12.scheduled(1, 999),
    );
    figure(
        b"summary, curve, offline, LMP 999: ",
        ON_12.scheduled(0, 999),
    );
    figure(
        b"summary, curve, online, LMP 6001: ",
        ON_12.scheduled(1, 6001),
    );
}

// What is answered to a row at an interval and an LMP of a year of 366 days.
fn answer_to(interval: u64, lmp: u64) -> u64 {
    let row = [1, 0, 0, 0, 0, 0, 0, 0, 0, 0, 0, lmp, 0, 0];
    Case::of(RTO, &[row], &[])
        .at(interval)
        .settled_into(RTO.charged(0, 0))
        .answer
}

// The event of 2 October 2019, from 14:00 to 15:55, and LMPs of that day.
pub fn ranges() {
    figure(b"calendar, interval 35592: ", answer_to(35592, 0));
    figure(b"calendar, interval 35615: ", answer_to(35615, 0));
    figure(b"review, Figure 14, LMP 364416: ", answer_to(0, 364416));
    figure(
        b"review, Figure 16, LMP -2906: ",
        answer_to(0, 0x1_0000_0000 - 2906),
    );
}
