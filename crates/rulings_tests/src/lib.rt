#![tactic(auto)]

// Examples of rulings: the sheet, what judge refuses, and other sources than the tables.
#[cfg(test)]
mod sheets;
#[cfg(test)]
mod sources_judged;
#[cfg(test)]
mod texts;
#[cfg(test)]
mod verdicts;
