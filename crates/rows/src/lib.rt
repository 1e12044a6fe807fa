#![tactic(auto)]

// Document 01's table "Bits written out": the rows that are proved, in specs/Rows.antt and proofs/Table.antt. There is no code here.
