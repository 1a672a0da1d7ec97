// No code: where the full reading and the calls on a whole area both speak, they say the same.
#![tactic(auto)]
