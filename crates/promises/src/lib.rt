// No code: what holds over any calls on lent words, from the contracts of the calls alone (specs/, proofs/).
#![tactic(auto)]
