// The reports of the rules.
ghost use Rattle.std.specs.Prelude.{◌≡◌, if◌then◌else◌, Decides};
ghost use Rattle.rulings.specs.declared.kinds.Report.TheVariants.{Kept as KeptReport, Broken as BrokenReport};
ghost use Rattle.lkmm.specs.Held.{held};
ghost use Rattle.lkmm.specs.Rules.{Rcu as KeepsRcu};
ghost use Rattle.rulings.specs.Rulings.{Reported, first_broken, report_of};

use crate::kinds::{Report, Reports, Rule};
use lkmm::Model;

impl Reports {
    // The report of a rule.
    pub fn of(&self, rule: Rule) -> Report
        ensures { result ≡ report_of self.now rule }
    {
        match rule {
            Rule::Scpv => self.scpv,
            Rule::At => self.at,
            Rule::Hb => self.hb,
            Rule::Pb => self.pb,
            Rule::Rcu => self.rcu,
        }
    }
}

// A report of each rule; Rcu is decided with the precedence table.
pub(crate) fn report_all(model: &Model, rcu: bool) -> Reports
    requires { Decides rcu (KeepsRcu (held model.now)) }
    ensures { Reported (held model.now) result }
{
    Reports {
        scpv: report(model.keeps_scpv()),
        at: report(model.split_rmw().is_none()),
        hb: report(model.keeps_hb()),
        pb: report(model.keeps_pb()),
        rcu: report(rcu),
    }
}

// A function and no From: `Report::from(true)` would not say what is true.
fn report(kept: bool) -> Report
    ensures { result ≡ (if kept then KeptReport else BrokenReport) }
{
    if kept { Report::Kept } else { Report::Broken }
}

// The first rule that is reported broken.
pub(crate) fn broken_first(reports: Reports) -> Option<Rule>
    ensures { result ≡ first_broken reports }
{
    Rule::ALL
        .iter()
        .copied()
        .find(|rule| reports.of(*rule) == Report::Broken)
}
