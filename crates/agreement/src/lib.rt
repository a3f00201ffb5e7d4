// Running a job and planning it agree. specs/Agreement.antt says what is claimed of `run`,
// `translate`, `row` and `rows`, functions of three other crates, and proofs/Demand.antt proves it. The
// rules by which a run drops and obeys commands are those of the canvas operations:
// specs/Canvas.antt, proofs/Canvas.antt and proofs/Operations.antt. There is no code here.
#![tactic(auto)]
