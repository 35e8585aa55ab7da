// Items.

ghost use Rattle.std.specs.Prelude.{◌≡◌, ◌<◌, ◌≤◌, ◌+◌, false, IfOk, OnOk, Some};
ghost use Rattle.c_grammar.specs.Parts as part;
ghost use Rattle.c_nodes.specs.Seen.{seen};
ghost use Rattle.std.specs.Prelude.{true};
ghost use Rattle.c_tree.specs.Items as c_items;
ghost use Rattle.c_grammar.specs.Trees as tree;
ghost use Rattle.c_tree.specs.Names as names;
ghost use Rattle.c_tree.specs.Names.{with_item};
ghost use Rattle.c_cursor.specs.Steps.{is_base_token};
ghost use Rattle.c_cursor.specs.Gives.{reads, state};
ghost use Rattle.c_parser.specs.Pieces as piece;
ghost use Rattle.c_parser.specs.Rows as rows;
ghost use Rattle.c_tree.specs.Words as words;
ghost use Rattle.c_cursor.specs.Scopes.{names_of};
ghost use Rattle.c_cursor.specs.State.{bad};

use crate::declarations::typed_end;
use crate::statics::static_rest;
use crate::typedefs::{struct_rest, typedef_rest};
use crate::types::{consts, type_rest};
use c_cursor::{NoMemory, Parser, Set};
use c_lexer::Keyword;
use c_nodes::Token;
use c_nodes::items::included;
use c_nodes::names::{at, join};
use c_tree::{CType, Item, Span};
use sqlite_items::Items;

// Whether a type of this base means `int`.
#[tactic(auto, using(crate::proofs::EndLaws::int_laws))]
fn means_int<'t>(parser: &Parser<'t>, base: Token<'t>, declared: &CType) -> bool
    requires base { is_base_token (seen base).terminal ≡ true }
    requires of { declared.now.base ≡ tree.base_of (seen base) }
    ensures { result ≡ names.is_int (names_of parser.now.names) declared.now }
{
    if declared.stars != 0 {
        return false;
    }
    parser.names.contain(Set::IntBase, base)
}

// The type of an item without `static`, from its base on.
#[tactic(auto, unfolding(crate::specs::Pieces::typed_item))]
fn typed_item<'t>(
    parser: &mut Parser<'t>,
    level: u32,
    before: Option<Span>,
    base: Token<'t>,
) -> Result<Item, NoMemory>
    requires top { level ≡ 0 }
    requires base { is_base_token (seen base).terminal ≡ true }
    ensures tree { IfOk result (λ i. piece.typed_item parser.old.end (names_of parser.old.names) before (seen base.entry) level (state parser.old) ≡ Some (i, state parser.new)) }
    ensures names { IfOk result (λ i. names_of parser.new.names ≡ with_item (names_of parser.old.names) i) }
    ensures ends { parser.new.end ≡ parser.old.end }
    ensures stop { bad parser.new.cursor ≡ bad parser.old.cursor }
{
    let declared = type_rest(parser, level, before, base, false)?;
    let is_int = means_int(parser, base, &declared);
    typed_end(parser, level, declared, is_int)
}

// Where this `const` and those behind it stand.
fn row_from(first: Token<'_>, others: Option<Span>) -> Span
    ensures { Some result ≡ rows.joined (Some (words.at (seen first.entry))) others }
{
    match others {
        Some(others) => join(at(first), others),
        None => at(first),
    }
}

/// `ItemOf`: an item, whose first token must begin a line or not.
#[tactic(auto, using(crate::proofs::ItemLaws::item_law))]
fn item(parser: &mut Parser<'_>, level: u32, line: bool) -> Result<Item, NoMemory>
    requires top { level ≡ 0 }
    ensures tree { IfOk result (λ i. reads (part.ItemOf line) level parser.old ≡ Some (i, state parser.new)) }
    ensures names { IfOk result (λ i. names_of parser.new.names ≡ with_item (names_of parser.old.names) i) }
    ensures ends { parser.new.end ≡ parser.old.end }
    ensures stop { bad parser.new.cursor ≡ bad parser.old.cursor }
{
    if let Some(_) = parser.accept(Set::Hash, level) {
        parser.expect(Set::IncludeWord, level);
        let file = parser.expect(Set::File, level);
        return Ok(Item::Include(included(parser.alloc, file)?));
    }
    if let Some(word) = parser.accept(Set::WordOnLine(line, Keyword::Typedef), level) {
        return typedef_rest(parser, level, word);
    }
    if let Some(_) = parser.accept(Set::WordOnLine(line, Keyword::Struct), level) {
        return struct_rest(parser, level);
    }
    if let Some(word) = parser.accept(Set::WordOnLine(line, Keyword::Static), level) {
        return static_rest(parser, level, word);
    }
    if let Some(first) = parser.accept(Set::WordOnLine(line, Keyword::Const), level) {
        let before = row_from(first, consts(parser, level));
        let base = parser.expect(Set::Base(true), level);
        return typed_item(parser, level, Some(before), base);
    }
    let base = parser.expect(Set::BaseOnLine(line), level);
    typed_item(parser, level, None, base)
}

fn is_include(item: &Item) -> bool
    ensures { result ≡ c_items.is_include item.now }
{
    matches!(item, Item::Include(_))
}

/// `ItemsOf`: items, each in the scope of those before it. What stands behind an include line must begin a line.
#[tactic(auto, using(crate::proofs::ListLaws::items_step, crate::proofs::ListLaws::items_stop, crate::proofs::Thens::behind_start, crate::proofs::Progress::item_moves))]
pub fn items(parser: &mut Parser<'_>, level: u32) -> Result<Items<Item>, NoMemory>
    requires top { level ≡ 0 }
    ensures tree { IfOk result (λ is. reads (part.ItemsOf false) level parser.old ≡ Some (is, state parser.new)) }
    ensures ends { parser.new.end ≡ parser.old.end }
    ensures stop { bad parser.new.cursor ≡ bad parser.old.cursor }
{
    let mut items = Items::new(parser.alloc);
    let mut line = false;
    'items: while parser.next_in(Set::Item(line)) {
        let next = item(parser, level, line)?;
        line = is_include(&next);
        items.push(next)?;
    }
    Ok(items)
}
