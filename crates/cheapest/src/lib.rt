// No code: the theory of cheapest layouts over any price of a line. `q l i j` is what the line of the
// fragments i up to, not including, j costs as line number l. Nothing here knows what a fragment is.
#![tactic(auto)]
