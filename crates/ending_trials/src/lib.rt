// Small endings, run and compared with chances reckoned by tools/reference_endings.py.
#![tactic(auto)]

#[cfg(test)]
mod both_kinds;
#[cfg(test)]
mod refused;
#[cfg(test)]
mod small_table;
