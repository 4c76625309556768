// Worked cases, those that document 01 marks P among them: tables of rows in specs/, and their one check in specs/Cases.antt.
#![tactic(auto)]
