// The words for rules, reports and a breach; those for rules and reports also as texts, which callers hold longer than a printing.
ghost use Rattle.std.specs.Prelude.{◌≡◌, Some};
ghost use Rattle.rulings.specs.Names.{rule_name, report_name, breach_told};

use crate::kinds::{Breach, Report, Rule};
use std::fmt;

impl Rule {
    // The rule's name.
    pub fn name(self) -> &'static str
        ensures { result.now ≡ rule_name self }
    {
        match self {
            Rule::Scpv => "Scpv",
            Rule::At => "At",
            Rule::Hb => "Hb",
            Rule::Pb => "Pb",
            Rule::Rcu => "Rcu",
        }
    }
}

impl fmt::Display for Rule {
    ghost output = { λ rule. Some (rule_name rule) };

    fn fmt<W: fmt::Write>(&self, f: &mut fmt::Formatter<W>) -> fmt::Result {
        f.write_str(Rule::name(*self))
    }
}

impl Report {
    // What is printed of a rule.
    pub fn name(self) -> &'static str
        ensures { result.now ≡ report_name self }
    {
        match self {
            Report::Kept => "kept",
            Report::Broken => "broken",
        }
    }
}

impl fmt::Display for Report {
    ghost output = { λ report. Some (report_name report) };

    fn fmt<W: fmt::Write>(&self, f: &mut fmt::Formatter<W>) -> fmt::Result {
        f.write_str(Report::name(*self))
    }
}

impl fmt::Display for Breach {
    ghost output = { λ breach. Some (breach_told breach) };

    fn fmt<W: fmt::Write>(&self, f: &mut fmt::Formatter<W>) -> fmt::Result {
        write!(f, "{}, round of {}", self.rule, self.length)
    }
}
