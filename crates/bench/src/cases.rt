// What is timed: an operation on an input.
// The loops count events: a relation takes pairs, and hands out rows, by their numbers.
use relations::Relation;
use searches::{order, shortest_cycle};
use std::{array, fmt};

#[derive(Clone, Copy)]
pub enum Operation {
    Closure,
    Sequence,
    Cycle,
    Order,
}

// How many pairs the input has.
#[derive(Clone, Copy)]
pub enum Pairs {
    Dense,
    Sparse,
}

#[derive(Clone, Copy)]
pub struct Case {
    pub operation: Operation,
    pub pairs: Pairs,
    pub events: usize,
}

const OPERATIONS: [Operation; 4] = [
    Operation::Closure,
    Operation::Sequence,
    Operation::Cycle,
    Operation::Order,
];

const INPUTS: [(Pairs, usize); 4] = [
    (Pairs::Dense, 64),
    (Pairs::Sparse, 64),
    (Pairs::Dense, 10),
    (Pairs::Sparse, 10),
];

// The cases in their order: four inputs of each operation.
pub(crate) fn cases() -> [Case; 16] {
    array::from_fn(numbered)
}

fn numbered(number: usize) -> Case {
    let (pairs, events) = INPUTS[number % 4];
    Case {
        operation: OPERATIONS[number / 4 % 4],
        pairs,
        events,
    }
}

impl fmt::Display for Case {
    fn fmt<W: fmt::Write>(&self, f: &mut fmt::Formatter<W>) -> fmt::Result {
        let operation = match self.operation {
            Operation::Closure => "closure",
            Operation::Sequence => "sequence",
            Operation::Cycle => "cycle",
            Operation::Order => "order",
        };
        let pairs = match self.pairs {
            Pairs::Dense => "dense",
            Pairs::Sparse => "sparse",
        };
        write!(f, "{operation} {pairs} {}", self.events)
    }
}

// The input of a case: what has to have an order goes upwards only.
pub(crate) fn input(case: &Case) -> Relation {
    let upwards = matches!(case.operation, Operation::Order);
    match case.pairs {
        Pairs::Dense => random(case.events, upwards),
        Pairs::Sparse => line(case.events, upwards),
    }
}

// About half of all pairs, by a fixed random sequence; none of an event with itself. The numbers a and b are the events, and index nothing.
fn random(events: usize, upwards: bool) -> Relation {
    let mut x = Relation::empty(events);
    let mut state: u64 = 0x9e37_79b9_7f4a_7c15;
    for a in 0..events {
        for b in 0..events {
            state = state
                .wrapping_mul(6364136223846793005)
                .wrapping_add(1442695040888963407);
            let chosen = if upwards { a < b } else { a != b };
            if chosen && state >> 63 == 1 {
                x.add(a, b);
            }
        }
    }
    x
}

// Each event to the next, and unless it only goes upwards the last to the first.
fn line(events: usize, upwards: bool) -> Relation {
    let mut x = Relation::empty(events);
    for b in 1..events {
        x.add(b - 1, b);
    }
    if !upwards && events > 0 {
        x.add(events - 1, 0);
    }
    x
}

// Runs the operation once, and sums its result up in a number. An operation is an enum, and no closure, since it is printed too.
pub(crate) fn run(operation: Operation, x: &Relation) -> u64 {
    match operation {
        Operation::Closure => checksum(&x.plus()),
        Operation::Sequence => checksum(&x.seq(x)),
        Operation::Cycle => shortest_cycle(x).map_or(0, |c| spread(&c.events)),
        Operation::Order => order(x).map_or(0, |o| spread(&o.places)),
    }
}

fn checksum(x: &Relation) -> u64 {
    (0..x.events()).fold(0, |sum, a| mixed(sum, x.row(a)))
}

fn spread(bytes: &[u8]) -> u64 {
    bytes.iter().fold(0, |sum, b| mixed(sum, u64::from(*b)))
}

fn mixed(sum: u64, word: u64) -> u64 {
    (sum ^ word)
        .wrapping_mul(0x9e37_79b9_7f4a_7c15)
        .rotate_left(29)
}
