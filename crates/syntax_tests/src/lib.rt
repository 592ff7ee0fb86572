// Tables of texts at every edge of the rules.
#![tactic(auto)]

#[cfg(test)]
mod census;
#[cfg(test)]
mod faults;
#[cfg(test)]
mod positions;
