// The cases that are judged here.
pub(crate) const RCU_MP: &[u8] =
    b"events 9\nW 0 once 1\nW 0 once 2\nF 1 rcu-lock\nR 1 once 1\nR 1 once 2\nF 1 rcu-unlock\nW 2 once 2\nF 2 sync-rcu\nW 2 once 1\nties 4\nrf 1 4\nrf 8 3\nco 0 8\nco 1 6\n";

pub(crate) const RCU_MP_NEW: &[u8] =
    b"events 9\nW 0 once 1\nW 0 once 2\nF 1 rcu-lock\nR 1 once 1\nR 1 once 2\nF 1 rcu-unlock\nW 2 once 2\nF 2 sync-rcu\nW 2 once 1\nties 4\nrf 6 4\nrf 8 3\nco 0 8\nco 1 6\n";

pub(crate) const RCU_MP_OLD: &[u8] =
    b"events 9\nW 0 once 1\nW 0 once 2\nF 1 rcu-lock\nR 1 once 1\nR 1 once 2\nF 1 rcu-unlock\nW 2 once 2\nF 2 sync-rcu\nW 2 once 1\nties 4\nrf 0 3\nrf 1 4\nco 0 8\nco 1 6\n";

pub(crate) const SB_MBS: &[u8] =
    b"events 8\nW 0 once 1\nW 0 once 2\nW 1 once 1\nF 1 mb\nR 1 once 2\nW 2 once 2\nF 2 mb\nR 2 once 1\nties 4\nrf 0 7\nrf 1 4\nco 0 2\nco 1 5\n";

pub(crate) const SPLIT_RMW: &[u8] =
    b"events 4\nW 0 once 1\nW 1 once 1\nR 2 once 1\nW 2 once 1\nties 4\nrf 0 2\nco 0 1\nco 1 3\nrmw 2 3\n";

// A read that takes its value from nowhere.
pub(crate) const NO_RF: &[u8] = b"events 2\nW 0 once 1\nR 1 once 1\nties 0\n";
