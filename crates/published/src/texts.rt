// The texts of the executions, byte for byte those of the files in cases/. Each constant has its file's name, in capitals and with _ for + and -.

pub(crate) const LB: &[u8] = b"events 6
W 0 once 1
W 0 once 2
R 1 once 1
W 1 once 2
R 2 once 2
W 2 once 1
ties 4
rf 3 4
rf 5 2
co 0 5
co 1 3
";

pub(crate) const LB_CTRL_MB: &[u8] = b"events 7
W 0 once 1
W 0 once 2
R 1 once 1
W 1 once 2
R 2 once 2
F 2 mb
W 2 once 1
ties 5
rf 3 4
rf 6 2
co 0 6
co 1 3
ctrl 2 3
";

pub(crate) const WRC: &[u8] = b"events 7
W 0 once 1
W 0 once 2
W 1 once 1
R 2 once 1
W 2 once 2
R 3 once 2
R 3 once 1
ties 5
rf 0 6
rf 2 3
rf 4 5
co 0 2
co 1 4
";

pub(crate) const WRC_WMB_ACQ: &[u8] = b"events 8
W 0 once 1
W 0 once 2
W 1 once 1
R 2 once 1
F 2 wmb
W 2 once 2
R 3 acquire 2
R 3 once 1
ties 5
rf 0 7
rf 2 3
rf 5 6
co 0 2
co 1 5
";

pub(crate) const WRC_PO_REL_RMB: &[u8] = b"events 8
W 0 once 1
W 0 once 2
W 1 once 1
R 2 once 1
W 2 release 2
R 3 once 2
F 3 rmb
R 3 once 1
ties 5
rf 0 7
rf 2 3
rf 4 5
co 0 2
co 1 4
";

pub(crate) const SB: &[u8] = b"events 6
W 0 once 1
W 0 once 2
W 1 once 1
R 1 once 2
W 2 once 2
R 2 once 1
ties 4
rf 0 5
rf 1 3
co 0 2
co 1 4
";

pub(crate) const SB_MBS: &[u8] = b"events 8
W 0 once 1
W 0 once 2
W 1 once 1
F 1 mb
R 1 once 2
W 2 once 2
F 2 mb
R 2 once 1
ties 4
rf 0 7
rf 1 4
co 0 2
co 1 5
";

pub(crate) const MP: &[u8] = b"events 6
W 0 once 1
W 0 once 2
W 1 once 1
W 1 once 2
R 2 once 2
R 2 once 1
ties 4
rf 0 5
rf 3 4
co 0 2
co 1 3
";

pub(crate) const MP_WMB_RMB: &[u8] = b"events 8
W 0 once 1
W 0 once 2
W 1 once 1
F 1 wmb
W 1 once 2
R 2 once 2
F 2 rmb
R 2 once 1
ties 4
rf 0 7
rf 4 5
co 0 2
co 1 4
";

pub(crate) const PETERZ_NO_SYNCHRO: &[u8] = b"events 9
W 0 once 1
W 0 once 2
W 0 once 3
W 1 once 1
R 1 once 2
W 2 once 2
W 2 once 3
R 3 once 3
R 3 once 1
ties 6
rf 0 8
rf 1 4
rf 6 7
co 0 3
co 1 5
co 2 6
";

pub(crate) const PETERZ: &[u8] = b"events 11
W 0 once 1
W 0 once 2
W 0 once 3
W 1 once 1
F 1 mb
R 1 once 2
W 2 once 2
W 2 release 3
R 3 once 3
F 3 mb
R 3 once 1
ties 6
rf 0 10
rf 1 5
rf 7 8
co 0 3
co 1 6
co 2 7
";

pub(crate) const RCU_DEFERRED_FREE: &[u8] = b"events 9
W 0 once 1
W 0 once 2
F 1 rcu-lock
R 1 once 1
R 1 once 2
F 1 rcu-unlock
W 2 once 1
F 2 sync-rcu
W 2 once 2
ties 4
rf 0 3
rf 8 4
co 0 6
co 1 8
";

pub(crate) const RCU_MP: &[u8] = b"events 9
W 0 once 1
W 0 once 2
F 1 rcu-lock
R 1 once 1
R 1 once 2
F 1 rcu-unlock
W 2 once 2
F 2 sync-rcu
W 2 once 1
ties 4
rf 1 4
rf 8 3
co 0 8
co 1 6
";

pub(crate) const RWC: &[u8] = b"events 7
W 0 once 1
W 0 once 2
W 1 once 1
R 2 once 1
R 2 once 2
W 3 once 2
R 3 once 1
ties 5
rf 0 6
rf 1 4
rf 2 3
co 0 2
co 1 5
";

pub(crate) const RWC_MBS: &[u8] = b"events 9
W 0 once 1
W 0 once 2
W 1 once 1
R 2 once 1
F 2 mb
R 2 once 2
W 3 once 2
F 3 mb
R 3 once 1
ties 5
rf 0 8
rf 1 5
rf 2 3
co 0 2
co 1 6
";

pub(crate) const BLANK: &[u8] = b"events 0
ties 0
";

pub(crate) const OWN_LATER_WRITE: &[u8] = b"events 3
W 0 once 1
R 1 once 1
W 1 once 1
ties 2
rf 2 1
co 0 2
";

pub(crate) const SPLIT_RMW: &[u8] = b"events 4
W 0 once 1
W 1 once 1
R 2 once 1
W 2 once 1
ties 4
rf 0 2
co 0 1
co 1 3
rmw 2 3
";

pub(crate) const RCU_MP_NEW: &[u8] = b"events 9
W 0 once 1
W 0 once 2
F 1 rcu-lock
R 1 once 1
R 1 once 2
F 1 rcu-unlock
W 2 once 2
F 2 sync-rcu
W 2 once 1
ties 4
rf 6 4
rf 8 3
co 0 8
co 1 6
";

pub(crate) const RCU_MP_OLD: &[u8] = b"events 9
W 0 once 1
W 0 once 2
F 1 rcu-lock
R 1 once 1
R 1 once 2
F 1 rcu-unlock
W 2 once 2
F 2 sync-rcu
W 2 once 1
ties 4
rf 0 3
rf 1 4
co 0 8
co 1 6
";
