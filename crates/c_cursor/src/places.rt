// Where what is made up stands.

ghost use Rattle.std.specs.Prelude.{◌≡◌, ◌<◌, ◌^◌};
ghost use Rattle.c_cursor.specs.Places.{moved_option, place_of};
ghost use Rattle.c_cursor.specs.State.{seen_option};

use c_nodes::Token;

/// The place behind that where the text stops, which is that of this token or the end.
pub fn made_place(next: Option<Token<'_>>, end: u32) -> u32
    requires { place_of end (seen_option next) < 2 ^ 32 }
    ensures { result ≡ place_of end (seen_option next.entry) }
{
    match next {
        Some(token) => token.start + 1,
        None => end + 1,
    }
}

/// The same token at another place.
pub fn moved<'t>(token: Option<Token<'t>>, place: u32) -> Option<Token<'t>>
    ensures { seen_option result ≡ moved_option place (seen_option token.entry) }
{
    match token {
        Some(token) => Some(Token {
            terminal: token.terminal,
            text: token.text,
            start: place,
            end: place,
            begins_line: token.begins_line,
        }),
        None => None,
    }
}
