// The theory of unification: terms at places, substitutions, sequences of bindings and most general unifiers.
// It has definitions and proofs, and no code.
#![tactic(auto)]
