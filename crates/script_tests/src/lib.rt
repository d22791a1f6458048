// Lines with their answers, and scripts with what they print.
#![tactic(auto)]

#[cfg(test)]
mod answers;
#[cfg(test)]
mod heap_faults;
#[cfg(test)]
mod listing;
#[cfg(test)]
mod scripts;
#[cfg(test)]
mod text_faults;
