// No code: that the station as it runs obeys document 01 along any list of events, over the methods' contracts as the checker reads them.
#![tactic(auto)]
