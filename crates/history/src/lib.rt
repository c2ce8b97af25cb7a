// Theory only: any sequence of calls on a trace. specs/ has the definitions, proofs/ the theorems.
#![tactic(auto)]
