// Tests of the rules, tokens, texts, sorts and names of Vala files, on tables of texts. They stand apart from what they test, so that those
// crates are proved once and not again with their tests.
#![tactic(auto)]

#[cfg(test)]
mod cursor;
#[cfg(test)]
mod denoted;
#[cfg(test)]
mod file_names;
#[cfg(test)]
mod rules;
#[cfg(test)]
mod sorts;
#[cfg(test)]
mod tokens;
