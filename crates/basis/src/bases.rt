// The basis of a case.
ghost use Rattle.std.specs.Prelude.{◌≡◌};
ghost use Rattle.relations.specs.View.{rel};
ghost use Rattle.sources.specs.Snapshot.{execution};
ghost use Rattle.basis.specs.Meaning.{basis};
ghost use Rattle.basis.specs.Sections.{HasSections};
ghost use Rattle.basis.specs.View.{basis_of};

use crate::groups::Grouped;
use crate::kinds::Base;
use crate::orders::ties;
use crate::sections::sections;
use executions::{Relation as Tie, Sort};
use sources::Snapshot;

impl Base {
    // The base relations and sets of a case. Computed, so `of` and no From, which would read as a change of form.
    pub fn of(case: &Snapshot) -> Base
        ensures same { basis_of result ≡ basis (execution case.now) }
        ensures in_words { HasSections (execution case.now) (rel result.crit) }
    {
        Grouped::of(case).base()
    }
}

impl<'a> Grouped<'a> {
    // The base relations and sets of the case.
    fn base(&self) -> Base
        ensures same { basis_of result ≡ basis (execution self.now.case.now) }
        ensures in_words { HasSections (execution self.now.case.now) (rel result.crit) }
    {
        Base {
            po: self.program_order(),
            int: self.internal(),
            loc: self.located(),
            rf: ties(self.case, Tie::Rf),
            co: ties(self.case, Tie::Co).plus(),
            addr: ties(self.case, Tie::Addr),
            data: ties(self.case, Tie::Data),
            ctrl: ties(self.case, Tie::Ctrl),
            rmw: ties(self.case, Tie::Rmw),
            crit: sections(self.case),
            reads: self.reads(),
            writes: self.writes(),
            acquires: self.sorted(Sort::ReadAcquire),
            releases: self.sorted(Sort::WriteRelease),
            rmbs: self.sorted(Sort::Rmb),
            wmbs: self.sorted(Sort::Wmb),
            mbs: self.sorted(Sort::Mb),
            rb_deps: self.sorted(Sort::RbDep),
            periods: self.sorted(Sort::SyncRcu),
        }
    }
}
