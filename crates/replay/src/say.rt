// Counts of cases, and lines for a person. A piece of a line that can't be written is let pass, and the next one is tried.
use crate::kinds::{KINDS, Kind};
use std::io::Write;

// How many cases there were, and how many differed.
#[derive(Clone, Copy)]
struct Count {
    cases: u32,
    differing: u32,
}

// By the number of a kind.
#[derive(Clone, Copy)]
pub struct Tally {
    counts: [Count; 28],
}

impl Tally {
    pub fn new() -> Tally {
        Tally {
            counts: [Count {
                cases: 0,
                differing: 0,
            }; 28],
        }
    }

    // A case that differs is named by its number among those of its kind, from 0 on.
    pub fn count<W: Write>(&mut self, out: &mut W, kind: Kind, same: bool) {
        let count = &mut self.counts[kind as usize];
        if !same {
            count.differing = count.differing.saturating_add(1);
            let _ = write!(out, "{kind}");
            let _ = write!(out, ": case ");
            let _ = write!(out, "{}", count.cases);
            let _ = writeln!(out, " differs");
        }
        count.cases = count.cases.saturating_add(1);
    }

    pub fn report<W: Write>(&self, out: &mut W) {
        for kind in KINDS {
            let Count { cases, differing } = self.counts[kind as usize];
            if cases != 0 {
                let _ = write!(out, "{kind}");
                let _ = write!(out, " ");
                let _ = write!(out, "{cases}");
                let _ = write!(out, ", differing ");
                let _ = write!(out, "{differing}");
                let _ = writeln!(out);
            }
        }
    }
}

// Records go by their place in the file, from 0 on.
#[derive(Clone, Copy)]
pub enum BadInput {
    NoList,
    CutShort(u32),
    Unknown(u32),
    LeftOver,
}

fn bad_record<W: Write>(out: &mut W, record: u32, how: &str) {
    let _ = write!(out, "bad input: record ");
    let _ = write!(out, "{record}");
    let _ = write!(out, "{how}");
}

pub fn bad_input<W: Write>(out: &mut W, bad: BadInput) {
    match bad {
        BadInput::NoList => {
            let _ = writeln!(out, "bad input: it does not begin as a list of version 1");
        }
        BadInput::CutShort(record) => bad_record(out, record, " is cut short\n"),
        BadInput::Unknown(record) => bad_record(out, record, " is of no known form\n"),
        BadInput::LeftOver => {
            let _ = writeln!(out, "bad input: bytes follow the last record");
        }
    }
}
