// Theorems over the definitions, for one stream and for a template and a session, and the worked examples that are proved. No code.
#![tactic(auto)]
