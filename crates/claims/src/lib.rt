// No code: the customer's demands (specs/Demands, specs/RoundTrip), proved of the public calls (specs/Exported).
#![tactic(auto)]
