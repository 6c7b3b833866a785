// Document 01 as definitions: specs/ holds them, by the sections of the document; proofs/ holds their laws and the theorems of demand 3.
// There is no code here.
#![tactic(auto)]
