// The names of the library.

use crate::names::Declared;
use c_nodes::{Meaning, Role};

/// What is in scope in front of a unit.
pub const LIBRARY: [Declared<'static>; 62] = [
    Declared {
        name: b"g_error_matches",
        role: Role::Row(false),
    },
    Declared {
        name: b"g_propagate_error",
        role: Role::Row(false),
    },
    Declared {
        name: b"g_error_free",
        role: Role::Row(false),
    },
    Declared {
        name: b"g_error_copy",
        role: Role::Row(false),
    },
    Declared {
        name: b"g_error_new",
        role: Role::Row(false),
    },
    Declared {
        name: b"g_quark_from_static_string",
        role: Role::Row(false),
    },
    Declared {
        name: b"vala_rt_read_line",
        role: Role::Row(false),
    },
    Declared {
        name: b"g_error",
        role: Role::Row(false),
    },
    Declared {
        name: b"g_printerr",
        role: Role::Row(false),
    },
    Declared {
        name: b"g_ascii_strtoll",
        role: Role::Row(false),
    },
    Declared {
        name: b"g_strstr_len",
        role: Role::Row(false),
    },
    Declared {
        name: b"g_str_has_suffix",
        role: Role::Row(false),
    },
    Declared {
        name: b"g_str_has_prefix",
        role: Role::Row(false),
    },
    Declared {
        name: b"strlen",
        role: Role::Row(false),
    },
    Declared {
        name: b"g_strcmp0",
        role: Role::Row(false),
    },
    Declared {
        name: b"g_strdup_printf",
        role: Role::Row(false),
    },
    Declared {
        name: b"g_strconcat",
        role: Role::Row(false),
    },
    Declared {
        name: b"g_strndup",
        role: Role::Row(false),
    },
    Declared {
        name: b"g_strdup",
        role: Role::Row(false),
    },
    Declared {
        name: b"g_free",
        role: Role::Row(false),
    },
    Declared {
        name: b"g_renew",
        role: Role::Row(true),
    },
    Declared {
        name: b"g_new0",
        role: Role::Row(true),
    },
    Declared {
        name: b"g_slice_free",
        role: Role::Row(true),
    },
    Declared {
        name: b"g_slice_new0",
        role: Role::Row(true),
    },
    Declared {
        name: b"g_print",
        role: Role::Row(false),
    },
    Declared {
        name: b"GInterfaceInfo",
        role: Role::Type(Meaning::Another),
    },
    Declared {
        name: b"GAsyncResult",
        role: Role::Type(Meaning::Another),
    },
    Declared {
        name: b"GMainLoop",
        role: Role::Type(Meaning::Another),
    },
    Declared {
        name: b"GValue",
        role: Role::Type(Meaning::Another),
    },
    Declared {
        name: b"GObjectClass",
        role: Role::Type(Meaning::Another),
    },
    Declared {
        name: b"GParamSpec",
        role: Role::Type(Meaning::Another),
    },
    Declared {
        name: b"GError",
        role: Role::Type(Meaning::Another),
    },
    Declared {
        name: b"GObject",
        role: Role::Type(Meaning::Another),
    },
    Declared {
        name: b"GTypeInterface",
        role: Role::Type(Meaning::Another),
    },
    Declared {
        name: b"GTypeInstance",
        role: Role::Type(Meaning::Another),
    },
    Declared {
        name: b"GTypeClass",
        role: Role::Type(Meaning::Another),
    },
    Declared {
        name: b"GAsyncReadyCallback",
        role: Role::Type(Meaning::Another),
    },
    Declared {
        name: b"GCallback",
        role: Role::Type(Meaning::Another),
    },
    Declared {
        name: b"GInterfaceInitFunc",
        role: Role::Type(Meaning::Another),
    },
    Declared {
        name: b"GDestroyNotify",
        role: Role::Type(Meaning::Another),
    },
    Declared {
        name: b"GSourceFunc",
        role: Role::Type(Meaning::Another),
    },
    Declared {
        name: b"GQuark",
        role: Role::Type(Meaning::Another),
    },
    Declared {
        name: b"GType",
        role: Role::Type(Meaning::Another),
    },
    Declared {
        name: b"gpointer",
        role: Role::Type(Meaning::Another),
    },
    Declared {
        name: b"gboolean",
        role: Role::Type(Meaning::Int),
    },
    Declared {
        name: b"gsize",
        role: Role::Type(Meaning::Another),
    },
    Declared {
        name: b"gulong",
        role: Role::Type(Meaning::Another),
    },
    Declared {
        name: b"glong",
        role: Role::Type(Meaning::Another),
    },
    Declared {
        name: b"guchar",
        role: Role::Type(Meaning::Another),
    },
    Declared {
        name: b"gchar",
        role: Role::Type(Meaning::Char),
    },
    Declared {
        name: b"gushort",
        role: Role::Type(Meaning::Another),
    },
    Declared {
        name: b"gshort",
        role: Role::Type(Meaning::Another),
    },
    Declared {
        name: b"guint",
        role: Role::Type(Meaning::Another),
    },
    Declared {
        name: b"gint",
        role: Role::Type(Meaning::Int),
    },
    Declared {
        name: b"guint64",
        role: Role::Type(Meaning::Another),
    },
    Declared {
        name: b"gint64",
        role: Role::Type(Meaning::Another),
    },
    Declared {
        name: b"guint32",
        role: Role::Type(Meaning::Another),
    },
    Declared {
        name: b"gint32",
        role: Role::Type(Meaning::Int),
    },
    Declared {
        name: b"guint16",
        role: Role::Type(Meaning::Another),
    },
    Declared {
        name: b"gint16",
        role: Role::Type(Meaning::Another),
    },
    Declared {
        name: b"guint8",
        role: Role::Type(Meaning::Another),
    },
    Declared {
        name: b"gint8",
        role: Role::Type(Meaning::Char),
    },
];
