// Parts of items.

ghost use Rattle.std.specs.Prelude.{◌≡◌, IfOk};
ghost use Rattle.c_grammar.specs.Trees as tree;
ghost use Rattle.c_nodes.specs.Seen.{seen};

use crate::names::{at, bytes, name};
use crate::token::{IncludedFile, Terminal, Token};
use c_tree::{CType, Include, Name, Parameter, Signature, Span};
use sqlite_items::Items;
use std::alloc::{AllocError, Global};

/// The file that a token names.
pub fn included(alloc: Global, token: Token<'_>) -> Result<Include, AllocError>
    ensures { IfOk result (λ f. f ≡ tree.file_in (seen token.entry).terminal) }
{
    let Terminal::File(file) = token.terminal else {
        return Ok(Include::Glib);
    };
    match file {
        IncludedFile::Glib => Ok(Include::Glib),
        IncludedFile::GlibObject => Ok(Include::GlibObject),
        IncludedFile::Gio => Ok(Include::Gio),
        IncludedFile::String => Ok(Include::String),
        IncludedFile::Stdlib => Ok(Include::Stdlib),
        IncludedFile::Own => Ok(Include::Own(Items::from_slice(alloc, token.text)?)),
    }
}

/// A parameter with a name.
pub fn named_parameter(
    alloc: Global,
    declared: CType,
    token: Token<'_>,
) -> Result<Parameter, AllocError>
    ensures { IfOk result (λ p. p ≡ tree.named_parameter declared (seen token.entry)) }
{
    Ok(Parameter {
        declared,
        name: Some(name(alloc, token)?),
    })
}

/// A parameter without a name.
pub fn unnamed_parameter(declared: CType) -> Parameter
    ensures { result ≡ tree.unnamed_parameter declared }
{
    Parameter {
        declared,
        name: None,
    }
}

/// What a function takes and gives, from a place up to `)`.
pub fn signature(
    alloc: Global,
    is_static: bool,
    result_type: CType,
    token: Token<'_>,
    parameters: Items<Parameter>,
    start: u32,
    close: Token<'_>,
) -> Result<Signature, AllocError>
    ensures { IfOk result (λ s. s ≡ tree.signature is_static result_type (seen token.entry) parameters start (seen close.entry)) }
{
    Ok(Signature {
        is_static,
        result: result_type,
        name: name(alloc, token)?,
        parameters,
        span: Span {
            start,
            end: close.end,
        },
    })
}

/// The name of a struct, by its tag: without the first letter.
pub fn struct_name(alloc: Global, tag: Token<'_>) -> Result<Name, AllocError>
    ensures { IfOk result (λ n. n ≡ tree.struct_name (seen tag.entry)) }
{
    let mut text = bytes(alloc, tag)?;
    if !text.is_empty() {
        text.remove(0);
    }
    Ok(Name {
        text,
        span: at(tag),
    })
}
