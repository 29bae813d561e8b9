#![tactic(auto)]

// Laws of the form, and nothing else: see proofs/.
