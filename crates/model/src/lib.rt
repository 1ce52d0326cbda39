// The two ends as definitions over lists, and what is proved of them. There is no code here: what runs stands in the
// crates client and server, whose contracts cite these definitions.
#![tactic(auto)]
