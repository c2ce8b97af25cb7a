// Theory only: the starred cases of the requirements, one table in specs/ and one proof in proofs/.
#![tactic(auto)]
