// Laws of stores one after another into a lent list, for the crates that fill buffers and lists. They stand in specs/.
#![tactic(auto)]
