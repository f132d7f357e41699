#![tactic(auto)]

// Texts that are read and texts that are refused.
#[cfg(test)]
mod damaged;
#[cfg(test)]
mod seen;
#[cfg(test)]
mod whole;
#[cfg(test)]
mod written;
