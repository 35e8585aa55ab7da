// The functions of the library, as a call of one has to be.

ghost use Rattle.std.specs.Prelude.{◌≡◌, map};
ghost use Rattle.std.specs.Option.{option_map};
ghost use Rattle.c_tree.specs.Library.{present_rows, row_at};
ghost use Rattle.c_body_checker.specs.Rows.{row_seen};

use c_lexer::Constant;
use c_tree::Kind;
use c_value_checker::{GPOINTER, INT, LONG, Literal, UINT, ULONG, VOID};
use sqlite_items::at;

/// What an argument of a function of the library is.
#[derive(Clone, Copy)]
pub enum RowParameter {
    /// An integer, which is converted to that kind.
    Number(Kind),
    /// Any pointer or function.
    Pointer,
    Exactly(Literal),
    /// Any number of integers, pointers and functions, none among them.
    Any,
    /// Any number of pairs of a name and a value, none among them, and then the word `NULL`.
    Pairs,
}

/// A function of the library. Some take a type before their values.
#[derive(Clone, Copy)]
pub struct LibraryRow {
    pub name: &'static [u8],
    pub takes_type: bool,
    pub parameters: &'static [RowParameter],
    pub result: Kind,
}

// What the machine has, in the order of the numbers.
const ROWS: [LibraryRow; 25] = [
    LibraryRow {
        name: b"g_print",
        takes_type: false,
        parameters: &[RowParameter::Pointer, RowParameter::Any],
        result: VOID,
    },
    LibraryRow {
        name: b"g_slice_new0",
        takes_type: true,
        parameters: &[],
        result: GPOINTER,
    },
    LibraryRow {
        name: b"g_slice_free",
        takes_type: true,
        parameters: &[RowParameter::Pointer],
        result: VOID,
    },
    LibraryRow {
        name: b"g_new0",
        takes_type: true,
        parameters: &[RowParameter::Number(ULONG)],
        result: GPOINTER,
    },
    LibraryRow {
        name: b"g_renew",
        takes_type: true,
        parameters: &[RowParameter::Pointer, RowParameter::Number(ULONG)],
        result: GPOINTER,
    },
    LibraryRow {
        name: b"g_free",
        takes_type: false,
        parameters: &[RowParameter::Pointer],
        result: VOID,
    },
    LibraryRow {
        name: b"g_strdup",
        takes_type: false,
        parameters: &[RowParameter::Pointer],
        result: GPOINTER,
    },
    LibraryRow {
        name: b"g_strndup",
        takes_type: false,
        parameters: &[RowParameter::Pointer, RowParameter::Number(ULONG)],
        result: GPOINTER,
    },
    LibraryRow {
        name: b"g_strconcat",
        takes_type: false,
        parameters: &[
            RowParameter::Pointer,
            RowParameter::Pointer,
            RowParameter::Exactly(Literal::Word(Constant::Null)),
        ],
        result: GPOINTER,
    },
    LibraryRow {
        name: b"g_strdup_printf",
        takes_type: false,
        parameters: &[RowParameter::Pointer, RowParameter::Any],
        result: GPOINTER,
    },
    LibraryRow {
        name: b"g_strcmp0",
        takes_type: false,
        parameters: &[RowParameter::Pointer, RowParameter::Pointer],
        result: INT,
    },
    LibraryRow {
        name: b"strlen",
        takes_type: false,
        parameters: &[RowParameter::Pointer],
        result: ULONG,
    },
    LibraryRow {
        name: b"g_str_has_prefix",
        takes_type: false,
        parameters: &[RowParameter::Pointer, RowParameter::Pointer],
        result: INT,
    },
    LibraryRow {
        name: b"g_str_has_suffix",
        takes_type: false,
        parameters: &[RowParameter::Pointer, RowParameter::Pointer],
        result: INT,
    },
    LibraryRow {
        name: b"g_strstr_len",
        takes_type: false,
        parameters: &[
            RowParameter::Pointer,
            RowParameter::Exactly(Literal::Figure(true, 1)),
            RowParameter::Pointer,
        ],
        result: GPOINTER,
    },
    LibraryRow {
        name: b"g_ascii_strtoll",
        takes_type: false,
        parameters: &[
            RowParameter::Pointer,
            RowParameter::Exactly(Literal::Word(Constant::Null)),
            RowParameter::Exactly(Literal::Figure(false, 10)),
        ],
        result: LONG,
    },
    LibraryRow {
        name: b"g_printerr",
        takes_type: false,
        parameters: &[RowParameter::Pointer, RowParameter::Any],
        result: VOID,
    },
    LibraryRow {
        name: b"g_error",
        takes_type: false,
        parameters: &[RowParameter::Pointer],
        result: VOID,
    },
    LibraryRow {
        name: b"vala_rt_read_line",
        takes_type: false,
        parameters: &[],
        result: GPOINTER,
    },
    LibraryRow {
        name: b"g_quark_from_static_string",
        takes_type: false,
        parameters: &[RowParameter::Pointer],
        result: UINT,
    },
    LibraryRow {
        name: b"g_error_new",
        takes_type: false,
        parameters: &[
            RowParameter::Number(UINT),
            RowParameter::Number(INT),
            RowParameter::Pointer,
            RowParameter::Any,
        ],
        result: GPOINTER,
    },
    LibraryRow {
        name: b"g_error_copy",
        takes_type: false,
        parameters: &[RowParameter::Pointer],
        result: GPOINTER,
    },
    LibraryRow {
        name: b"g_error_free",
        takes_type: false,
        parameters: &[RowParameter::Pointer],
        result: VOID,
    },
    LibraryRow {
        name: b"g_propagate_error",
        takes_type: false,
        parameters: &[RowParameter::Pointer, RowParameter::Pointer],
        result: VOID,
    },
    LibraryRow {
        name: b"g_error_matches",
        takes_type: false,
        parameters: &[
            RowParameter::Pointer,
            RowParameter::Number(UINT),
            RowParameter::Number(INT),
        ],
        result: INT,
    },
];

/// The functions that the machine has.
pub fn present_rows() -> &'static [LibraryRow]
    ensures { map row_seen result.now ≡ present_rows }
{
    &ROWS
}

/// The function with a number.
#[tactic(auto, using(crate::proofs::NumberLemmas::row_nowhere))]
pub fn present_row(number: u32) -> Option<LibraryRow>
    ensures { option_map row_seen result ≡ row_at present_rows number }
{
    match at(present_rows(), number as usize) {
        None => None,
        Some(row) => Some(*row),
    }
}
