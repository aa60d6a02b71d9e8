//! Numbers at bits and places that alignments allow, computed. Each lemma in `proofs/` states what one or many come to,
//! and holds by computing the definition that the contracts of `uint`, `sint`, `up` and `Align::up` name, which leave
//! no other answer.
#![tactic(auto)]
