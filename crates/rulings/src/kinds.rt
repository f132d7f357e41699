// What a ruling says, and the rows of its sheet.

// The rules of the model, in the order in which a ruling names them.
#[derive(Clone, Copy, PartialEq, Eq, Debug)]
pub enum Rule {
    Scpv,
    At,
    Hb,
    Pb,
    Rcu,
}

impl Rule {
    // All of them, in their order.
    pub const ALL: [Rule; 5] = [Rule::Scpv, Rule::At, Rule::Hb, Rule::Pb, Rule::Rcu];
}

// What is reported of a rule.
#[derive(Clone, Copy, PartialEq, Eq, Debug)]
pub enum Report {
    Kept,
    Broken,
}

// A report of each rule.
#[derive(Clone, Copy, PartialEq, Eq, Debug)]
pub struct Reports {
    pub scpv: Report,
    pub at: Report,
    pub hb: Report,
    pub pb: Report,
    pub rcu: Report,
}

// The first broken rule, and how many steps its round has.
#[derive(Clone, Copy, PartialEq, Eq, Debug)]
pub struct Breach {
    pub rule: Rule,
    pub length: usize,
}

// Public under the names of the field, where Option<Breach> would leave the reader to know that none is allowed.
#[derive(Clone, Copy, PartialEq, Eq, Debug)]
pub enum Verdict {
    Allowed,
    Forbidden(Breach),
}

#[derive(Clone, Copy, PartialEq, Eq, Debug)]
pub struct Ruling {
    pub reports: Reports,
    pub verdict: Verdict,
}

// Row i of the sheet. The first four are 255 where there is none: numbers and no options or marks, since this is the published format.
#[derive(Clone, Copy, PartialEq, Eq, Debug)]
pub struct SheetRow {
    // The event at place i of the round, and the mark of the step from it: 1 period, 2 section, 0 for rules other than Rcu.
    pub event: u8,
    pub mark: u8,
    // The places of event i in the first and in the second order.
    pub first: u8,
    pub second: u8,
    // Where event i is the lock of a section, and Pb and Rcu are both kept: the periods that the section goes before, bit by bit. Else 0.
    pub word: u64,
}

impl SheetRow {
    // A row that shows nothing.
    pub const BLANK: SheetRow = SheetRow {
        event: 255,
        mark: 255,
        first: 255,
        second: 255,
        word: 0,
    };
}
