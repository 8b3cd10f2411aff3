//! What a run reads and writes beside what the program prints.

/// The files, and the output for faults and counts.
#[derive(Drop)]
pub struct Outside<F, X> {
    pub files: F,
    pub err: X,
}
