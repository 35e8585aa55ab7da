// Tests of the kinds of C, on tables of cases. They stand apart from what they test, so that it is proved once.
#![tactic(auto)]

#[cfg(test)]
mod kinds;
