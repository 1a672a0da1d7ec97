// What is demanded of the writer: specs/Demand.antt; that it holds: proofs/DemandHolds.antt. There is no code here.
#![tactic(auto)]
