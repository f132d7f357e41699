// The grace-period law: readers and grace periods, put in an order. Each function's contract is a theorem.
#![tactic(auto)]

ghost use Rattle.grace.specs.Law.{PrecedenceLaw};
ghost use Rattle.grace.specs.First.{FirstTableLaw, OnlyFirst};
ghost use Rattle.grace.specs.ByRow.{RowLaw};
ghost use Rattle.grace.specs.Rounds.{ShortRoundLaw};
ghost use Rattle.grace.specs.Deciding.{DecidingLaw};
ghost use Rattle.grace.specs.Joint.{JointOrderLaw};

// Pb and Rcu are both kept exactly when some table, naming for each section and period which goes first, leaves enlarged pb
// without a cycle.
pub fn precedence_law_stands() -> u8
    ensures { PrecedenceLaw }
{
    0
}

// The table that puts a section first exactly where Pb and Rcu are still kept with that, entry by entry, is the first.
pub fn first_table_law_stands() -> u8
    ensures { FirstTableLaw }
{
    0
}

// Two tables that are both the first agree on every section and period.
pub fn only_first_stands() -> u8
    ensures { OnlyFirst }
{
    0
}

// The table that puts a section before just those periods from which no way leads back to it, lock by lock, is the first.
pub fn row_law_stands() -> u8
    ensures { RowLaw }
{
    0
}

// Where Rcu has a round, it has one of at most as many steps as there are events.
pub fn short_round_law_stands() -> u8
    ensures { ShortRoundLaw }
{
    0
}

// Rcu is decided on a sheet of balances, one period and one section at a time, and the first table is read off that sheet.
pub fn deciding_law_stands() -> u8
    ensures { DecidingLaw }
{
    0
}

// Where neither hb nor pb has a cycle, the two together have none, whatever counts as a strong fence.
pub fn joint_order_law_stands() -> u8
    ensures { JointOrderLaw }
{
    0
}
