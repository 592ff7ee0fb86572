// Lines of scripts and answers, at every edge of the rules.
#![tactic(auto)]

#[cfg(test)]
mod answers;
#[cfg(test)]
mod lines;
