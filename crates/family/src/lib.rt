// Theory only: families, costs, least paths, ties and the read-out. The definitions are in specs/, the theorems in proofs/.
#![tactic(auto)]
