// Theory only: squares and parts of whole numbers, and signed values of the machine. Definitions are in specs/, laws in proofs/.
#![tactic(auto)]
