// Whole printed texts, as docs/RULING.md and docs/CALLS.md have them.
use super::*;
use std::test::Fail;
use telling::Told;

// An initial write, and a thread that reads before its own write.
const OWN: &[u8] = b"events 3\nW 0 once 1\nR 1 once 1\nW 1 once 1\nties 2\nrf 0 1\nco 0 2\n";

const RCU_MP: &[u8] =
    b"events 9\nW 0 once 1\nW 0 once 2\nF 1 rcu-lock\nR 1 once 1\nR 1 once 2\nF 1 rcu-unlock\nW 2 once 2\nF 2 sync-rcu\nW 2 once 1\nties 4\nrf 1 4\nrf 8 3\nco 0 8\nco 1 6\n";

const RCU_MP_NEW: &[u8] =
    b"events 9\nW 0 once 1\nW 0 once 2\nF 1 rcu-lock\nR 1 once 1\nR 1 once 2\nF 1 rcu-unlock\nW 2 once 2\nF 2 sync-rcu\nW 2 once 1\nties 4\nrf 6 4\nrf 8 3\nco 0 8\nco 1 6\n";

const NO_RF: &[u8] = b"events 2\nW 0 once 1\nR 1 once 1\nties 0\n";

// What the program prints of a text.
fn printed(rt: &HostRuntime, text: &[u8]) -> Result<String, Fail> {
    let mut sheet = [SheetRow::BLANK; 64];
    match judge_text(text, &mut sheet) {
        Ok(judgment) => {
            let told = Told {
                judgment: &judgment,
                sheet: &sheet,
            };
            Ok(format!(in rt.alloc(); "{told}")?)
        }
        Err(refusal) => Ok(format!(in rt.alloc(); "{refusal}\n")?),
    }
}

#[test]
fn an_allowed_case(rt: HostRuntime) -> Result<(), Fail> {
    let text = printed(&rt, OWN)?;
    assert_eq!(rt;
        text.as_str(),
        "Scpv kept\nAt kept\nHb kept\nPb kept\nRcu kept\nallowed\nfirst 3 0 1 2\nsecond 3 0 1 2\nprecedence 0\n"
    );
    Ok(())
}

#[test]
fn a_period_before_a_section(rt: HostRuntime) -> Result<(), Fail> {
    let text = printed(&rt, RCU_MP_NEW)?;
    assert_eq!(rt;
        text.as_str(),
        "Scpv kept\nAt kept\nHb kept\nPb kept\nRcu kept\nallowed\nfirst 9 0 1 2 7 8 3 5 4 6\nsecond 9 0 1 3 8 4 5 2 6 7\nprecedence 1\n2 7 period\n"
    );
    Ok(())
}

#[test]
fn a_round_with_marks(rt: HostRuntime) -> Result<(), Fail> {
    let text = printed(&rt, RCU_MP)?;
    assert_eq!(rt;
        text.as_str(),
        "Scpv kept\nAt kept\nHb kept\nPb kept\nRcu broken\nforbidden Rcu\nround 2 3 6\nmarks 2 2 1\n"
    );
    Ok(())
}

// Event 1 is a read without rf, which is fault 9 and that of no line.
#[test]
fn a_refusal(rt: HostRuntime) -> Result<(), Fail> {
    let text = printed(&rt, NO_RF)?;
    assert_eq!(rt; text.as_str(), "refused 9 place 1 line 0\n");
    Ok(())
}
