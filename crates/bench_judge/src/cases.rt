// The cases that are timed.

// RCU-MP: a reader sees the second write of an updater and not the first, with a grace period between the two. 9 events.
pub(crate) const RCU_MP: &[u8] =
    b"events 9\nW 0 once 1\nW 0 once 2\nF 1 rcu-lock\nR 1 once 1\nR 1 once 2\nF 1 rcu-unlock\nW 2 once 2\nF 2 sync-rcu\nW 2 once 1\nties 4\nrf 1 4\nrf 8 3\nco 0 8\nco 1 6\n";

// RCU-MP with both reads new: allowed, the period first.
pub(crate) const RCU_MP_NEW: &[u8] =
    b"events 9\nW 0 once 1\nW 0 once 2\nF 1 rcu-lock\nR 1 once 1\nR 1 once 2\nF 1 rcu-unlock\nW 2 once 2\nF 2 sync-rcu\nW 2 once 1\nties 4\nrf 6 4\nrf 8 3\nco 0 8\nco 1 6\n";

// 20 sections in four reader threads and 22 grace periods in two updater threads, so 440 pairs. 64 events.
pub(crate) const CROWD: &[u8] =
    b"events 64\nW 0 once 1\nW 0 once 2\nF 1 rcu-lock\nF 1 rcu-unlock\nF 1 rcu-lock\nF 1 rcu-unlock\nF 1 rcu-lock\nF 1 rcu-unlock\nF 1 rcu-lock\nF 1 rcu-unlock\nF 1 rcu-lock\nF 1 rcu-unlock\nF 2 rcu-lock\nF 2 rcu-unlock\nF 2 rcu-lock\nF 2 rcu-unlock\nF 2 rcu-lock\nF 2 rcu-unlock\nF 2 rcu-lock\nF 2 rcu-unlock\nF 2 rcu-lock\nF 2 rcu-unlock\nF 3 rcu-lock\nF 3 rcu-unlock\nF 3 rcu-lock\nF 3 rcu-unlock\nF 3 rcu-lock\nF 3 rcu-unlock\nF 3 rcu-lock\nF 3 rcu-unlock\nF 3 rcu-lock\nF 3 rcu-unlock\nF 4 rcu-lock\nF 4 rcu-unlock\nF 4 rcu-lock\nF 4 rcu-unlock\nF 4 rcu-lock\nF 4 rcu-unlock\nF 4 rcu-lock\nF 4 rcu-unlock\nF 4 rcu-lock\nF 4 rcu-unlock\nF 5 sync-rcu\nF 5 sync-rcu\nF 5 sync-rcu\nF 5 sync-rcu\nF 5 sync-rcu\nF 5 sync-rcu\nF 5 sync-rcu\nF 5 sync-rcu\nF 5 sync-rcu\nF 5 sync-rcu\nF 5 sync-rcu\nF 6 sync-rcu\nF 6 sync-rcu\nF 6 sync-rcu\nF 6 sync-rcu\nF 6 sync-rcu\nF 6 sync-rcu\nF 6 sync-rcu\nF 6 sync-rcu\nF 6 sync-rcu\nF 6 sync-rcu\nF 6 sync-rcu\nties 0\n";
