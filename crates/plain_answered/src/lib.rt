// No code: of a plain area no call on the whole area refuses what it lists.
#![tactic(auto)]
