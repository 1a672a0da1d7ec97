// No code: what the full reading of an area is. Crate `reading_walk` reads an area so, one item at a time.
#![tactic(auto)]
