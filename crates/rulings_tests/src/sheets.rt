// What stands on the sheet after a ruling. The expected rounds and tables are those of the worked examples.
use crate::texts::{NO_RF, RCU_MP, RCU_MP_NEW, RCU_MP_OLD, SPLIT_RMW};
use crate::verdicts::forbidden;
use executions::{Cause, Fault, Layer};
use rulings::{Report, Rule, Ruling, SheetRow, Verdict, judge};
use std::test::Fail;
use textsource::TextSource;

// A row that no ruling writes.
const OTHER: SheetRow = SheetRow {
    event: 7,
    mark: 7,
    first: 7,
    second: 7,
    word: 7,
};

fn ruled(text: &[u8], sheet: &mut [SheetRow]) -> Result<Ruling, Fault> {
    judge(&TextSource { text }, sheet)
}

// A row of a round with its published mark, in a case that has no orders to show.
fn step(event: u8, mark: u8) -> SheetRow {
    SheetRow {
        event,
        mark,
        first: 255,
        second: 255,
        word: 0,
    }
}

#[test]
fn a_round_of_rcu_with_its_marks(rt: HostRuntime) -> Result<(), Fail> {
    let mut sheet = [OTHER; 65];
    let ruling = ruled(RCU_MP, &mut sheet)?;
    assert_eq!(rt; ruling.verdict, forbidden(Rule::Rcu, 2));
    assert_eq!(rt; ruling.reports.pb, Report::Kept);
    assert!(rt; sheet.len() == 65);
    assert_eq!(rt; sheet[0], step(3, 2));
    assert_eq!(rt; sheet[1], step(6, 1));
    assert_eq!(rt; sheet[2], SheetRow::BLANK);
    assert_eq!(rt; sheet[63], SheetRow::BLANK);
    assert_eq!(rt; sheet[64], OTHER, "rows past the 64th stay");
    Ok(())
}

#[test]
fn a_round_of_at_from_its_read(rt: HostRuntime) -> Result<(), Fail> {
    let mut sheet = [OTHER; 64];
    let ruling = ruled(SPLIT_RMW, &mut sheet)?;
    assert_eq!(rt; ruling.verdict, forbidden(Rule::At, 3));
    assert!(rt; sheet.len() == 64);
    assert_eq!(rt; sheet[0].event, 2);
    assert_eq!(rt; sheet[1].event, 1);
    assert_eq!(rt; sheet[2].event, 3);
    assert_eq!(rt; sheet[2].mark, 0);
    assert_eq!(rt; sheet[3], SheetRow::BLANK);
    Ok(())
}

#[test]
fn the_word_of_a_section(rt: HostRuntime) -> Result<(), Fail> {
    let mut sheet = [OTHER; 64];
    let new = ruled(RCU_MP_NEW, &mut sheet)?;
    assert_eq!(rt; new.verdict, Verdict::Allowed);
    assert!(rt; sheet.len() == 64);
    assert_eq!(rt; sheet[2].word, 0, "the period goes first");
    let old = ruled(RCU_MP_OLD, &mut sheet)?;
    assert_eq!(rt; old.verdict, Verdict::Allowed);
    assert!(rt; sheet.len() == 64);
    assert_eq!(rt; sheet[2].word, 128, "the section goes before period 7");
    assert_eq!(rt; sheet[9], SheetRow::BLANK);
    Ok(())
}

#[test]
fn a_short_sheet_is_refused_first(rt: HostRuntime) {
    let mut sheet = [OTHER; 63];
    let refused = Fault {
        cause: Cause::TooShort,
        layer: Layer::Check,
        place: 0,
    };
    assert_eq!(rt; ruled(NO_RF, &mut sheet), Err(refused));
}

#[test]
fn a_case_that_is_not_well_formed_leaves_the_sheet(rt: HostRuntime) {
    let mut sheet = [OTHER; 64];
    let refused = Fault {
        cause: Cause::ReadWithoutRf,
        layer: Layer::Check,
        place: 1,
    };
    assert_eq!(rt; ruled(NO_RF, &mut sheet), Err(refused));
    assert!(rt; sheet.len() == 64);
    assert_eq!(rt; sheet[0], OTHER);
}
