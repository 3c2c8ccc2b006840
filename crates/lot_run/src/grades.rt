// What is entered of a grade.
ghost use Rattle.std.specs.Prelude.{◌≡◌};
ghost use Rattle.lot_run.specs.Grades.{grade};

use lot::ItemFields;

// What is entered of a grade.
pub(crate) fn grade(number: i64, reading: i64) -> ItemFields
    ensures { result ≡ grade number reading }
{
    ItemFields {
        number,
        class: 1,
        characteristic: 1,
        expanded: 0,
        reading,
    }
}
