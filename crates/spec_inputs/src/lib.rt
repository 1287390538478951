// What every operation reads beside its body or text: definitions of a sheet with its strings, and of their refusals.
#![tactic(auto)]
