// The file to open first is specs/Demands.antt: what this repository promises as a whole. There is no code here; the operations are in the crates `masks`,
// `reading`, `needs`, `plan` and `closing`.
#![tactic(auto)]
