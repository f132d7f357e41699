// Case sources: where a candidate execution comes from, and layers that show another one in its place.
#![tactic(auto)]

pub mod asked;
pub mod cut;
pub mod kinds;
pub mod lowered;
pub mod snapshot;

pub use asked::CaseSource;
pub use cut::Cut;
pub use kinds::Snapshot;
pub use lowered::Lowered;
