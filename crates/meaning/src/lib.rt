// The meaning of document 01: definitions in specs/, laws and worked cases in proofs/. No function stands here.
#![tactic(auto)]
