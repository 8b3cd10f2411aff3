//! Who makes the steps of a run.

/// Who makes the steps of each context, and who does its operators on other contexts.
#[derive(Drop)]
pub struct Makers<S: Drop, D: Drop> {
    pub steps: S,
    pub operators: D,
}
