// Arguments by their number.

ghost use Rattle.std.specs.Prelude.{◌≡◌};
ghost use Rattle.glib_model.specs.Arguments.{one_of, three_of, two_of};

use c_meaning::Cell;

/// The one argument, if there is just one.
pub fn one(args: &[Cell]) -> Option<Cell>
    ensures { result ≡ one_of args.now }
{
    if args.len() == 1 { Some(args[0]) } else { None }
}

/// The two arguments, if there are just two.
pub fn two(args: &[Cell]) -> Option<(Cell, Cell)>
    ensures { result ≡ two_of args.now }
{
    if args.len() == 2 {
        Some((args[0], args[1]))
    } else {
        None
    }
}

/// The three arguments, if there are just three.
pub fn three(args: &[Cell]) -> Option<(Cell, Cell, Cell)>
    ensures { result ≡ three_of args.now }
{
    if args.len() == 3 {
        Some((args[0], args[1], args[2]))
    } else {
        None
    }
}
