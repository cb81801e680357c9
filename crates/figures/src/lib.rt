// No code: tables of cases on both sides of every bound of the definitions, computed.
#![tactic(auto)]
