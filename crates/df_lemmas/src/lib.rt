//! Laws of truths, options, lists and numbers that std doesn't have and that more than one crate cites.
//! There is no code here: the laws stand in `proofs/`.
#![tactic(auto)]
