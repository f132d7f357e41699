// Verdicts that are expected.
use rulings::{Breach, Rule, Verdict};

pub(crate) fn forbidden(rule: Rule, length: usize) -> Verdict {
    Verdict::Forbidden(Breach { rule, length })
}
