// Document 01's starred samples: the table stands in specs/Table.antt.
#![tactic(auto)]
