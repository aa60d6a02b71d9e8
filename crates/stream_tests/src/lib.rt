//! What small streams of bytes mean, computed. Each lemma in `proofs/` states the items of one stream and
//! how it ends, and holds by computing the definition in `ctf_packet`. So the definition is tried on
//! examples before any code is proved against it.
#![tactic(auto)]
