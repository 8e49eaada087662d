// The ledger of both writers. No functions.
#![tactic(auto)]
