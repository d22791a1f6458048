// The heap's calls and questions, the schemes and grading, each called directly.
#![tactic(auto)]

#[cfg(test)]
mod calls;
#[cfg(test)]
mod grades;
#[cfg(test)]
mod grading;
