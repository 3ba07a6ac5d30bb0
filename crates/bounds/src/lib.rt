// Demand 3: how far LRU and FIFO can stand above any plan; and Check accepts what Write a plan leaves. Theorems only: stated in specs/, proved in proofs/.
#![tactic(auto)]
