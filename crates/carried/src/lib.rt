// Every answer of the record with a map is the one that the record with a number held gave. Theorems only: the old record's definitions and the statements in specs/, proved in proofs/.
#![tactic(auto)]
