// The functions of the library that have code.

ghost use Rattle.std.specs.Prelude.{◌≡◌, map, MatchOption, None, Some};
ghost use Rattle.c_body_checker.specs.Rows.{parameter_seen};
ghost use Rattle.c_code.specs.Statements.{function_named, functions};
ghost use Rattle.c_resolver.specs.Library.{declared_all, declared_parameters, known_seen, parameters_all};

use c_body_checker::RowParameter;
use c_code::LibraryFunction;
use c_lexer::Constant;
use c_value_checker::{INT, Literal, UINT, ULONG};

/// A function of the library that has code: its name, and what its arguments are.
pub struct LibraryCode {
    pub name: &'static [u8],
    pub function: LibraryFunction,
    pub parameters: &'static [RowParameter],
}

/// All of them.
pub fn library_codes() -> &'static [LibraryCode]
    ensures functions { map known_seen result.now ≡ functions }
    ensures parameters { declared_all result.now ≡ parameters_all result.now }
{
    &[
        LibraryCode {
            name: b"g_print",
            function: LibraryFunction::Print,
            parameters: &[RowParameter::Pointer, RowParameter::Any],
        },
        LibraryCode {
            name: b"g_printerr",
            function: LibraryFunction::PrintErr,
            parameters: &[RowParameter::Pointer, RowParameter::Any],
        },
        LibraryCode {
            name: b"g_slice_new0",
            function: LibraryFunction::SliceNew,
            parameters: &[],
        },
        LibraryCode {
            name: b"g_slice_free",
            function: LibraryFunction::SliceFree,
            parameters: &[RowParameter::Pointer],
        },
        LibraryCode {
            name: b"g_new0",
            function: LibraryFunction::New,
            parameters: &[RowParameter::Number(ULONG)],
        },
        LibraryCode {
            name: b"g_renew",
            function: LibraryFunction::Renew,
            parameters: &[RowParameter::Pointer, RowParameter::Number(ULONG)],
        },
        LibraryCode {
            name: b"g_free",
            function: LibraryFunction::Free,
            parameters: &[RowParameter::Pointer],
        },
        LibraryCode {
            name: b"g_strdup",
            function: LibraryFunction::Duplicate,
            parameters: &[RowParameter::Pointer],
        },
        LibraryCode {
            name: b"g_strndup",
            function: LibraryFunction::DuplicateFront,
            parameters: &[RowParameter::Pointer, RowParameter::Number(ULONG)],
        },
        LibraryCode {
            name: b"g_strconcat",
            function: LibraryFunction::Concatenate,
            parameters: &[
                RowParameter::Pointer,
                RowParameter::Pointer,
                RowParameter::Exactly(Literal::Word(Constant::Null)),
            ],
        },
        LibraryCode {
            name: b"g_strdup_printf",
            function: LibraryFunction::Format,
            parameters: &[RowParameter::Pointer, RowParameter::Any],
        },
        LibraryCode {
            name: b"g_strcmp0",
            function: LibraryFunction::Compare,
            parameters: &[RowParameter::Pointer, RowParameter::Pointer],
        },
        LibraryCode {
            name: b"strlen",
            function: LibraryFunction::Length,
            parameters: &[RowParameter::Pointer],
        },
        LibraryCode {
            name: b"g_str_has_prefix",
            function: LibraryFunction::HasPrefix,
            parameters: &[RowParameter::Pointer, RowParameter::Pointer],
        },
        LibraryCode {
            name: b"g_str_has_suffix",
            function: LibraryFunction::HasSuffix,
            parameters: &[RowParameter::Pointer, RowParameter::Pointer],
        },
        LibraryCode {
            name: b"g_strstr_len",
            function: LibraryFunction::Find,
            parameters: &[
                RowParameter::Pointer,
                RowParameter::Exactly(Literal::Figure(true, 1)),
                RowParameter::Pointer,
            ],
        },
        LibraryCode {
            name: b"g_ascii_strtoll",
            function: LibraryFunction::ReadNumber,
            parameters: &[
                RowParameter::Pointer,
                RowParameter::Exactly(Literal::Word(Constant::Null)),
                RowParameter::Exactly(Literal::Figure(false, 10)),
            ],
        },
        LibraryCode {
            name: b"g_error",
            function: LibraryFunction::Abort,
            parameters: &[RowParameter::Pointer],
        },
        LibraryCode {
            name: b"vala_rt_read_line",
            function: LibraryFunction::ReadLine,
            parameters: &[],
        },
        LibraryCode {
            name: b"g_quark_from_static_string",
            function: LibraryFunction::Quark,
            parameters: &[RowParameter::Pointer],
        },
        LibraryCode {
            name: b"g_error_new",
            function: LibraryFunction::ErrorNew,
            parameters: &[
                RowParameter::Number(UINT),
                RowParameter::Number(INT),
                RowParameter::Pointer,
                RowParameter::Any,
            ],
        },
        LibraryCode {
            name: b"g_error_copy",
            function: LibraryFunction::ErrorCopy,
            parameters: &[RowParameter::Pointer],
        },
        LibraryCode {
            name: b"g_error_free",
            function: LibraryFunction::ErrorFree,
            parameters: &[RowParameter::Pointer],
        },
        LibraryCode {
            name: b"g_propagate_error",
            function: LibraryFunction::ErrorPropagate,
            parameters: &[RowParameter::Pointer, RowParameter::Pointer],
        },
        LibraryCode {
            name: b"g_error_matches",
            function: LibraryFunction::ErrorMatches,
            parameters: &[
                RowParameter::Pointer,
                RowParameter::Number(UINT),
                RowParameter::Number(INT),
            ],
        },
    ]
}

/// The function of a name, where it has code.
pub fn library_code(name: &[u8]) -> Option<&'static LibraryCode>
    ensures { MatchOption result (function_named name.now ≡ None) (λ found. (function_named name.now ≡ Some found.now.function) × (declared_parameters name.now ≡ Some (map parameter_seen found.now.parameters.now))) }
{
    let codes = library_codes();
    for code in codes {
        if code.name == name {
            return Some(code);
        }
    }
    None
}
