// What was kept in tenths of a degree turned into hundredths (document 02): each temperature ten times as many, all else the same, and 25
// where it is not sound in tenths. No ring calls: a controller that was fitted before calls them once, when it is brought up to date.
#![tactic(auto)]

pub mod rings;
pub mod tables;
