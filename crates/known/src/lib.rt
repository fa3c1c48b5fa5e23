// The known results of docs/LAW.md: a table in specs/, proved in proofs/. There is no code.
#![tactic(auto)]
