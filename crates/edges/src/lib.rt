// No code: the scope's edges and numbers, about the definitions of the crates below. Their statements are in specs/.
#![tactic(auto)]
