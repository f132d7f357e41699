// What the program says of itself.
pub(crate) const HELP: &str =
    "judge: rules whether the Linux-kernel memory model allows a candidate execution

  judge < CASE        reads a case text (its first 65,536 bytes) and prints the ruling

A case text names the events and the ties between them:

  events 3            how many events, then a line for each, numbered from 0
  W 0 once 1          letter R, W or F, thread (0 for initial writes), mark word, place
  R 1 once 1          marks: once, acquire (R), release (W)
  W 1 once 1          fences: rmb wmb mb rb-dep rcu-lock rcu-unlock sync-rcu blank, no place
  ties 2              how many ties, then a line for each, in rising order
  rf 2 1              relation rf, co, addr, data, ctrl or rmw, first event, second event
  co 0 2

The ruling has a line for each rule, kept or broken: Scpv, At, Hb, Pb, Rcu. Then

  forbidden RULE      the first broken rule
  round N E..         a shortest round of it: its length, and the first event of each step
  marks N M..         for Rcu: 1 where the step goes through a grace period, 2 through a section
or
  allowed
  first N P..         the place of each event in an order that keeps every place's history
  second N P..        the place of each event in an order of the whole execution
  precedence K        for each section (by its lock) and grace period which of the two goes first

A text that cannot be judged prints: refused N place P line L. docs/RULING.md explains each line,
docs/FORMAT.md the text, docs/CALLS.md the numbers.";
