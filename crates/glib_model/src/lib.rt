// The library's functions of blocks, texts, arrays, errors and printing, each as its row of the meaning says.
#![tactic(auto)]

mod arguments;
mod blocks;
mod ends;
mod errors;
mod found;
mod kinds;
mod making;
mod numbers;
mod outside;
mod parts;
mod prints;
mod propagation;
mod quarks;
#[cfg(test)]
mod tests;
mod texts;

pub use blocks::{g_free, g_new0, g_renew, g_slice_free, g_slice_new0};
pub use ends::{CallList, Cells, LibCall, LibCalls, LibEnd, LibWhat, Note, Notes};
pub use errors::{g_error_copy, g_error_free, g_error_matches, g_error_new};
pub use kinds::{Kinds, Mark};
pub use outside::{g_error, g_quark_from_static_string, vala_rt_read_line};
pub use prints::{g_print, g_printerr, g_strdup_printf};
pub use propagation::g_propagate_error;
pub use quarks::Quarks;
pub use texts::{
    g_ascii_strtoll, g_str_has_prefix, g_str_has_suffix, g_strcmp0, g_strconcat, g_strdup,
    g_strndup, g_strstr_len, strlen,
};
