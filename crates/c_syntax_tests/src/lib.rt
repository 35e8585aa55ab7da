// Tests of the tokens of C and of what is printed, on tables of texts. They stand apart from what they test, so that the lexer and the printer are
// proved once and not again with their tests.
#![tactic(auto)]

#[cfg(test)]
mod spelling;
#[cfg(test)]
mod tokens;
#[cfg(test)]
mod units;
#[cfg(test)]
mod values;
