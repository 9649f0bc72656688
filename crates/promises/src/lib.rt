// What the order demands of the tag and the dock, as theorems over the definitions that the other crates' contracts cite. There is no
// code here: the theorems stand in specs/.
#![tactic(auto)]
