// Tests of what texts of the C dialect answer, on tables. They stand apart from the reader, so that it is proved once and not again with its tests.
#![tactic(auto)]

#[cfg(test)]
mod answers;
#[cfg(test)]
mod causes;
#[cfg(test)]
mod hostile;
#[cfg(test)]
mod places;
#[cfg(test)]
mod printed;
#[cfg(test)]
mod productions;
#[cfg(test)]
mod stops;
