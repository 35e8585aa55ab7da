// Tests of the parsers and of the nodes that they make, on tables of texts. They stand apart from what they test, so that the parsers are proved
// once and not again with their tests.
#![tactic(auto)]

#[cfg(test)]
mod expressions;
#[cfg(test)]
mod files;
#[cfg(test)]
mod limits;
#[cfg(test)]
mod names;
#[cfg(test)]
mod nodes;
#[cfg(test)]
mod shapes;
#[cfg(test)]
mod statements;
