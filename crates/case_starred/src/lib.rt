// The rules' starred cases, sequences and layouts, as one table under one statement, proved by computing the definitions. There is no code here.
#![tactic(auto)]
