// The types, structs and signatures of the library.

ghost use Rattle.std.specs.Prelude.{◌≡◌, map};
ghost use Rattle.c_tree.specs.Library as library;
ghost use Rattle.c_checker.specs.Tables.{named_seen, signature_seen, struct_seen};

use c_tree::KindBase::{self, Function, Integer, Struct, Void};
use c_tree::Width::{Eight, Sixteen, SixtyFour, ThirtyTwo};

/// A name, and a kind by its base and how many `*` it has.
#[derive(Clone, Copy)]
pub struct NamedKind(pub &'static [u8], pub KindBase, pub u32);

/// A kind by its base and how many `*` it has.
#[derive(Clone, Copy)]
pub struct KindRow(pub KindBase, pub u32);

/// A struct: its name, how many cells it takes, and its fields.
#[derive(Clone, Copy)]
pub struct StructRow(pub &'static [u8], pub u64, pub &'static [NamedKind]);

/// What a function gives and takes.
#[derive(Clone, Copy)]
pub struct SignatureRow(pub KindRow, pub &'static [KindRow]);

/// The numbers, and `gpointer`.
pub fn integer_types() -> &'static [NamedKind]
    ensures { map named_seen result.now ≡ library.integer_types }
{
    &[
        NamedKind(b"gint8", Integer(Eight, true), 0),
        NamedKind(b"guint8", Integer(Eight, false), 0),
        NamedKind(b"gint16", Integer(Sixteen, true), 0),
        NamedKind(b"guint16", Integer(Sixteen, false), 0),
        NamedKind(b"gint32", Integer(ThirtyTwo, true), 0),
        NamedKind(b"guint32", Integer(ThirtyTwo, false), 0),
        NamedKind(b"gint64", Integer(SixtyFour, true), 0),
        NamedKind(b"guint64", Integer(SixtyFour, false), 0),
        NamedKind(b"gint", Integer(ThirtyTwo, true), 0),
        NamedKind(b"guint", Integer(ThirtyTwo, false), 0),
        NamedKind(b"gshort", Integer(Sixteen, true), 0),
        NamedKind(b"gushort", Integer(Sixteen, false), 0),
        NamedKind(b"gchar", Integer(Eight, true), 0),
        NamedKind(b"guchar", Integer(Eight, false), 0),
        NamedKind(b"glong", Integer(SixtyFour, true), 0),
        NamedKind(b"gulong", Integer(SixtyFour, false), 0),
        NamedKind(b"gsize", Integer(SixtyFour, false), 0),
        NamedKind(b"gboolean", Integer(ThirtyTwo, true), 0),
        NamedKind(b"gpointer", Void, 1),
        NamedKind(b"GType", Integer(SixtyFour, false), 0),
        NamedKind(b"GQuark", Integer(ThirtyTwo, false), 0),
    ]
}

/// The function types.
pub fn function_types() -> &'static [NamedKind]
    ensures { map named_seen result.now ≡ library.function_types }
{
    &[
        NamedKind(b"GSourceFunc", Function(0), 0),
        NamedKind(b"GDestroyNotify", Function(1), 0),
        NamedKind(b"GInterfaceInitFunc", Function(1), 0),
        NamedKind(b"GCallback", Function(2), 0),
        NamedKind(b"GAsyncReadyCallback", Function(3), 0),
    ]
}

/// The structs, as types.
pub fn struct_types() -> &'static [NamedKind]
    ensures { map named_seen result.now ≡ library.struct_types 0 library.library_structs }
{
    &[
        NamedKind(b"GTypeClass", Struct(0), 0),
        NamedKind(b"GTypeInstance", Struct(1), 0),
        NamedKind(b"GTypeInterface", Struct(2), 0),
        NamedKind(b"GObject", Struct(3), 0),
        NamedKind(b"GError", Struct(4), 0),
        NamedKind(b"GParamSpec", Struct(5), 0),
        NamedKind(b"GObjectClass", Struct(6), 0),
        NamedKind(b"GValue", Struct(7), 0),
        NamedKind(b"GMainLoop", Struct(8), 0),
        NamedKind(b"GAsyncResult", Struct(9), 0),
        NamedKind(b"GInterfaceInfo", Struct(10), 0),
    ]
}

/// The structs.
pub fn structs() -> &'static [StructRow]
    ensures { map struct_seen result.now ≡ library.library_structs }
{
    &[
        StructRow(
            b"GTypeClass",
            1,
            &[NamedKind(b"g_type", Integer(SixtyFour, false), 0)],
        ),
        StructRow(b"GTypeInstance", 1, &[NamedKind(b"g_class", Struct(0), 1)]),
        StructRow(
            b"GTypeInterface",
            2,
            &[
                NamedKind(b"g_type", Integer(SixtyFour, false), 0),
                NamedKind(b"g_instance_type", Integer(SixtyFour, false), 0),
            ],
        ),
        StructRow(
            b"GObject",
            2,
            &[
                NamedKind(b"g_type_instance", Struct(1), 0),
                NamedKind(b"ref_count", Integer(SixtyFour, false), 0),
            ],
        ),
        StructRow(
            b"GError",
            3,
            &[
                NamedKind(b"domain", Integer(ThirtyTwo, false), 0),
                NamedKind(b"code", Integer(ThirtyTwo, true), 0),
                NamedKind(b"message", Integer(Eight, true), 1),
            ],
        ),
        StructRow(
            b"GParamSpec",
            1,
            &[NamedKind(b"name", Integer(Eight, true), 1)],
        ),
        StructRow(
            b"GObjectClass",
            5,
            &[
                NamedKind(b"g_type_class", Struct(0), 0),
                NamedKind(b"constructed", Function(4), 0),
                NamedKind(b"set_property", Function(5), 0),
                NamedKind(b"get_property", Function(5), 0),
                NamedKind(b"finalize", Function(4), 0),
            ],
        ),
        StructRow(b"GValue", 2, &[]),
        StructRow(
            b"GMainLoop",
            2,
            &[NamedKind(b"ref_count", Integer(SixtyFour, false), 0)],
        ),
        StructRow(b"GAsyncResult", 0, &[]),
        StructRow(b"GInterfaceInfo", 3, &[]),
    ]
}

/// The signatures.
pub fn signatures() -> &'static [SignatureRow]
    ensures { map signature_seen result.now ≡ library.library_signatures }
{
    &[
        SignatureRow(KindRow(Integer(ThirtyTwo, true), 0), &[KindRow(Void, 1)]),
        SignatureRow(KindRow(Void, 0), &[KindRow(Void, 1)]),
        SignatureRow(KindRow(Void, 0), &[]),
        SignatureRow(
            KindRow(Void, 0),
            &[
                KindRow(Struct(3), 1),
                KindRow(Struct(9), 1),
                KindRow(Void, 1),
            ],
        ),
        SignatureRow(KindRow(Void, 0), &[KindRow(Struct(3), 1)]),
        SignatureRow(
            KindRow(Void, 0),
            &[
                KindRow(Struct(3), 1),
                KindRow(Integer(ThirtyTwo, false), 0),
                KindRow(Struct(7), 1),
                KindRow(Struct(5), 1),
            ],
        ),
    ]
}
