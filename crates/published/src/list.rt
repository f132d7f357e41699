// The executions, in the order of the published table and then the further ones.
use crate::kinds::Outcome::{Allow, Forbid};
use crate::kinds::Published;
use crate::texts;

// The fifteen executions of the table of the paper's experiments, with its column for the model.
pub(crate) const TABLE: [Published; 15] = [
    ("LB", Allow, texts::LB),
    ("LB+ctrl+mb", Forbid, texts::LB_CTRL_MB),
    ("WRC", Allow, texts::WRC),
    ("WRC+wmb+acq", Allow, texts::WRC_WMB_ACQ),
    ("WRC+po-rel+rmb", Forbid, texts::WRC_PO_REL_RMB),
    ("SB", Allow, texts::SB),
    ("SB+mbs", Forbid, texts::SB_MBS),
    ("MP", Allow, texts::MP),
    ("MP+wmb+rmb", Forbid, texts::MP_WMB_RMB),
    ("PeterZ-No-Synchro", Allow, texts::PETERZ_NO_SYNCHRO),
    ("PeterZ", Forbid, texts::PETERZ),
    ("RCU-deferred-free", Forbid, texts::RCU_DEFERRED_FREE),
    ("RCU-MP", Forbid, texts::RCU_MP),
    ("RWC", Allow, texts::RWC),
    ("RWC+mbs", Forbid, texts::RWC_MBS),
];

// Executions beside the table: their verdicts follow from the definitions by hand.
pub(crate) const FURTHER: [Published; 5] = [
    ("blank", Allow, texts::BLANK),
    ("own-later-write", Forbid, texts::OWN_LATER_WRITE),
    ("split-rmw", Forbid, texts::SPLIT_RMW),
    ("RCU-MP-new", Allow, texts::RCU_MP_NEW),
    ("RCU-MP-old", Allow, texts::RCU_MP_OLD),
];
