// An order, as it is held.
ghost use Rattle.std.specs.Prelude.{◌≡◌, take};

use book::limits::MAX_SUBGOALS;

// An order of the subgoals of a body: the first n places of the array, and beside each the pattern that its subgoal has in its turn. They stand in two arrays,
// since a plan writes the places alone.
#[derive(Clone, Copy)]
pub struct Order {
    pub n: u8,
    pub places: [u8; MAX_SUBGOALS],
    pub patterns: [u8; MAX_SUBGOALS],
}

impl Order {
    // The places of its subgoals.
    pub fn places(&self) -> &[u8]
        ensures { result.now ≡ take self.now.n self.now.places }
    {
        &self.places[..(self.n as usize).min(MAX_SUBGOALS)]
    }
}
