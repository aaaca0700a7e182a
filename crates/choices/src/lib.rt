// Choices of orders, what they reach, and the plan: definitions in `specs/` and what is known of them in `proofs/Laws`. The code that works a plan out
// is in the crates `reach` and `plan`.
#![tactic(auto)]
