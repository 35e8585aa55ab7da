// Namespaces and types.

ghost use Rattle.std.specs.Prelude.{◌≡◌, IfOk};
ghost use Rattle.vala_declaration_nodes.specs.Views.{closed_of, declared_of};
ghost use Rattle.vala_file_grammar.specs.Trees as tree;
ghost use Rattle.vala_nodes.specs.Seen.{seen};

use crate::parts::{Closed, Declared, spanning};
use sqlite_items::{Boxed, Items};
use std::alloc::{AllocError, Global};
use vala_lexer::Token;
use vala_nodes::names::{identifier, join};
use vala_tree::{
    Class, Declaration, EnumMember, Enumeration, ErrorDomain, Expr, Identifier, Member, NameTree,
    TypeTree,
};

pub fn namespace(token: Token<'_>, name: NameTree, members: Closed<Member>) -> Declared
    ensures { declared_of result ≡ tree.namespace (seen token.entry) name (closed_of members) }
{
    let declaration = Declaration::Namespace(name, members.list);
    spanning(declaration, token.span, members.close)
}

pub fn class(
    token: Token<'_>,
    name: NameTree,
    bases: Items<TypeTree>,
    members: Closed<Member>,
) -> Declared
    ensures { declared_of result ≡ tree.class (seen token.entry) name bases (closed_of members) }
{
    let declaration = Declaration::Class(Class {
        name,
        bases,
        parts: members.list,
    });
    spanning(declaration, token.span, members.close)
}

pub fn interface(
    token: Token<'_>,
    name: NameTree,
    bases: Items<TypeTree>,
    members: Closed<Member>,
) -> Declared
    ensures { declared_of result ≡ tree.interface (seen token.entry) name bases (closed_of members) }
{
    let declaration = Declaration::Interface(Class {
        name,
        bases,
        parts: members.list,
    });
    spanning(declaration, token.span, members.close)
}

pub fn structure(token: Token<'_>, name: NameTree, members: Closed<Member>) -> Declared
    ensures { declared_of result ≡ tree.structure (seen token.entry) name (closed_of members) }
{
    let declaration = Declaration::Struct(name, members.list);
    spanning(declaration, token.span, members.close)
}

pub fn enumeration(token: Token<'_>, name: NameTree, members: Closed<EnumMember>) -> Declared
    ensures { declared_of result ≡ tree.enumeration (seen token.entry) name (closed_of members) }
{
    let declaration = Declaration::Enum(Enumeration {
        name,
        members: members.list,
    });
    spanning(declaration, token.span, members.close)
}

pub fn enum_member(alloc: Global, token: Token<'_>) -> Result<EnumMember, AllocError>
    ensures { IfOk result (λ x. x ≡ tree.enum_member (seen token.entry)) }
{
    Ok(EnumMember {
        name: identifier(alloc, token)?,
        value: None,
        span: token.span,
    })
}

/// A member of an enumeration with its value.
pub fn enum_member_with(
    alloc: Global,
    token: Token<'_>,
    value: Boxed<Expr>,
) -> Result<EnumMember, AllocError>
    ensures { IfOk result (λ x. x ≡ tree.enum_member_with (seen token.entry) value) }
{
    let span = join(token.span, value.get().span());
    let name = identifier(alloc, token)?;
    Ok(EnumMember {
        name,
        value: Some(value.into_inner()),
        span,
    })
}

pub fn error_domain(token: Token<'_>, name: NameTree, codes: Closed<Identifier>) -> Declared
    ensures { declared_of result ≡ tree.error_domain (seen token.entry) name (closed_of codes) }
{
    let declaration = Declaration::Errors(ErrorDomain {
        name,
        codes: codes.list,
    });
    spanning(declaration, token.span, codes.close)
}
