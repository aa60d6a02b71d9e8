//! What small metadata texts mean, computed. Each lemma in `proofs/` states the faults of one text, of which one is
//! reported, or the whole trace class that it denotes, and holds by computing the definition in `ctf_meaning`. So the
//! definition is tried on examples before any code is proved against it.
#![tactic(auto)]
