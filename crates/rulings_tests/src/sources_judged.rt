// Other sources than the tables: texts, and layers over them.
use crate::texts::{RCU_MP, SB_MBS};
use crate::verdicts::forbidden;
use executions::{Relation, Sort};
use rulings::{Rule, SheetRow, Verdict, judge};
use sources::{Cut, Lowered};
use std::test::Fail;
use textsource::TextSource;

#[test]
fn sb_is_allowed_once_a_fence_is_weaker(rt: HostRuntime) -> Result<(), Fail> {
    let mut sheet = [SheetRow::BLANK; 64];
    let whole = judge(&TextSource { text: SB_MBS }, &mut sheet)?;
    assert_eq!(rt; whole.verdict, forbidden(Rule::Pb, 2));
    let mut sorts = [0; 64];
    sorts[3] = Sort::Wmb.number();
    let layer = Lowered {
        below: TextSource { text: SB_MBS },
        sorts,
    };
    let weaker = judge(&layer, &mut sheet)?;
    assert_eq!(rt; weaker.verdict, Verdict::Allowed);
    Ok(())
}

#[test]
fn a_cut_of_no_tie_changes_nothing(rt: HostRuntime) -> Result<(), Fail> {
    let mut sheet = [SheetRow::BLANK; 64];
    let layer = Cut {
        below: TextSource { text: RCU_MP },
        relation: Relation::Ctrl.number() as u32,
        event: 3,
    };
    let ruling = judge(&layer, &mut sheet)?;
    assert_eq!(rt; ruling.verdict, forbidden(Rule::Rcu, 2));
    Ok(())
}
