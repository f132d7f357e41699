// What the decision answers.

// For each lock a row of periods: those before which the section goes. The section comes after the other periods.
#[derive(Clone, Copy)]
pub struct FirstTable {
    pub rows: [u64; 64],
}
