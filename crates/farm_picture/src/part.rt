//! Which steps of a run are drawn.

use farm_world::Step;

/// The most steps that a picture has.
const MOST: usize = 64;

/// The steps from one on and up to another one, counted from 1; of these the first 64 are drawn.
#[derive(Clone, Copy)]
pub struct Part {
    pub from: usize,
    pub to: usize,
}

impl Part {
    /// The steps before those that are drawn, those, and the steps behind them.
    pub fn split<'a>(&self, steps: &'a [Step]) -> (&'a [Step], &'a [Step], &'a [Step]) {
        let (before, rest) = steps.split_at(self.from.saturating_sub(1).min(steps.len()));
        let most = self.to.saturating_sub(before.len()).min(MOST);
        let (drawn, behind) = rest.split_at(rest.len().min(most));
        (before, drawn, behind)
    }
}
