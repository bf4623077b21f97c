// What is written as a property list is read back as the font: theorems alone, over the definitions of property_lists.
#![tactic(auto)]
