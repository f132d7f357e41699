#![tactic(auto)]

// Examples for case sources, their layers, the check and sealing; and a source that answers by formula.
#[cfg(test)]
mod desk;
#[cfg(test)]
mod faults;
#[cfg(test)]
mod layers;
pub mod repeated;
