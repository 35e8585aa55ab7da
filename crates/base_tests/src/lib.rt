// Tests of folders, sinks, small texts, the types of Vala, tables of names and heaps of cells. They stand apart from what they test, so that
// those crates are proved once and not again with their tests.
#![tactic(auto)]

#[cfg(test)]
mod cell_heaps;
#[cfg(test)]
mod memory;
#[cfg(test)]
mod names;
#[cfg(test)]
mod small;
#[cfg(test)]
mod types;
