// Sizes in points as bytes: what TeX prints for a scaled number, 65,536 to the point, and the decimals that are read as
// one. Definitions and theorems; the functions are crates point_print and point_scan.
#![tactic(auto)]
