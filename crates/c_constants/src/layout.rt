// Values that are read off what is declared: sizes, places of fields and members.

ghost use Rattle.std.specs.Prelude.{◌≡◌, IfOk};
ghost use Rattle.c_tree.specs.Env.{fields_of, found};
ghost use Rattle.c_tree.specs.Checks as checks;
ghost use Rattle.c_constants.specs.Told.{number_told};
ghost use Rattle.c_value_checker.specs.Seen.{seen};

use crate::numbers::NumberWorth;
use c_tree::{Kind, KindBase, Name, Sort};
use c_value_checker::Environment;
use vg_base::Memory;

/// A number of cells.
pub fn size_worth(environment: &Environment, kind: Option<Kind>) -> NumberWorth
    ensures { number_told result ≡ checks.size_worth (seen environment.now) kind }
{
    match kind {
        None => NumberWorth::Untold,
        Some(kind) => NumberWorth::Is(environment.cells_of(kind) as i128),
    }
}

fn place_in(environment: &Environment, number: u32, name: &Name) -> Result<NumberWorth, Memory>
    ensures { IfOk result (λ worth. number_told worth ≡ checks.offset_in (seen environment.now) (fields_of (seen environment.now) number) name.now) }
{
    match environment.fields(number) {
        None => Ok(NumberWorth::Untold),
        Some(fields) => {
            let cells = environment.cells_before(fields, name)?;
            Ok(NumberWorth::Is(cells as i128))
        }
    }
}

/// The place of a field in a struct.
pub fn place_worth(
    environment: &Environment,
    kind: Option<Kind>,
    name: &Name,
) -> Result<NumberWorth, Memory>
    ensures { IfOk result (λ worth. number_told worth ≡ checks.offset_worth (seen environment.now) kind name.now) }
{
    match kind {
        None => Ok(NumberWorth::Untold),
        Some(kind) => match kind.base {
            KindBase::Struct(number) => place_in(environment, number, name),
            _ => Ok(NumberWorth::Untold),
        },
    }
}

/// The value of a member.
pub fn member_worth(environment: &Environment, name: &Name) -> NumberWorth
    ensures { number_told result ≡ checks.member_worth (found (seen environment.now).scopes name.now.text) }
{
    match environment.find(name) {
        Some(Sort::Member(number)) => NumberWorth::Is(number as i128),
        _ => NumberWorth::Untold,
    }
}
