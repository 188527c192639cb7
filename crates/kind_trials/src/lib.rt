// Both kinds of chance number, tried by running them.
#![tactic(auto)]

#[cfg(test)]
mod answers;
#[cfg(test)]
mod every_kind;
#[cfg(test)]
mod exact_numbers;
#[cfg(test)]
mod fixed_ranges;
