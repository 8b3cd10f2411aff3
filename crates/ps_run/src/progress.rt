//! Who is shown how far many runs are, beside all that is told.

/// Shows how far many runs are, while they are made. What it shows is no part of what the program
/// tells (`Telling`), so no clause speaks of it.
pub trait Progress {
    /// Shows how many of the runs were made, and how many of these had an ending of their own.
    fn show(&mut self, made: u32, runs: u32, endings: usize);

    /// Shows how many runs were made of a search of all orders, how many endings they had, and how
    /// many cuts the last one's order has.
    fn show_orders(&mut self, runs: u64, endings: usize, cuts: u32);

    /// Shows how many worlds a search told apart, how many of them were followed, and how many endings
    /// they had.
    fn show_worlds(&mut self, worlds: usize, followed: usize, endings: usize);

    /// Takes away what it shows.
    fn clear(&mut self);
}

/// Nobody is shown anything.
#[derive(Clone, Copy, Drop)]
pub struct NoProgress;

impl Progress for NoProgress {
    fn show(&mut self, _made: u32, _runs: u32, _endings: usize) {}

    fn show_orders(&mut self, _runs: u64, _endings: usize, _cuts: u32) {}

    fn show_worlds(&mut self, _worlds: usize, _followed: usize, _endings: usize) {}

    fn clear(&mut self) {}
}
