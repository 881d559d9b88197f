// Settles the figures of document 01 and of the trade's sources by the calls that C makes,
// and prints one line a figure.

#![tactic(auto)]

mod cases;
mod document;
mod outside;

fn main() {
    document::curves();
    document::charges();
    document::shares();
    outside::rates();
    outside::limits();
    outside::rows();
    outside::curve_ends();
    outside::ranges();
}
