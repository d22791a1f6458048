// Files of saved heaps: their faults with their places, and what is shown of them.
#![tactic(auto)]

#[cfg(test)]
mod faults;
#[cfg(test)]
mod files;
#[cfg(test)]
mod grading;
#[cfg(test)]
mod largest;
#[cfg(test)]
mod shown;
