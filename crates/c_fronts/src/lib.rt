// What is known of the front of a text of the C dialect hangs on the front alone: two texts that begin alike have the
// same faults up to there, as far as one can know them.
#![tactic(auto)]

mod laws;

pub use laws::{
    fronts_are_known, fronts_are_refused, reader_stops_where_texts_do, stopped_texts_are_refused,
};
