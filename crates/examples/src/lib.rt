//! How the worked examples of the crates are written: what a definition computes, beside what it is
//! by the rules. Definitions alone, no code.
#![tactic(auto)]
