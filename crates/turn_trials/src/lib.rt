// Worked cases of the rules, run.
#![tactic(auto)]

#[cfg(test)]
mod bearing_off;
#[cfg(test)]
mod boards;
#[cfg(test)]
mod entering;
#[cfg(test)]
mod forced;
#[cfg(test)]
mod listings;
#[cfg(test)]
mod refused;
#[cfg(test)]
mod scenes;
