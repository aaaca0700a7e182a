// Books of which some predicates or clauses are gone, the others numbered anew in the old order: definitions in `specs/`, and in `proofs/Laws` that such a
// book has what is left of the other's plan. There is no code here.
#![tactic(auto)]
