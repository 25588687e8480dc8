// Places in answers: where in a program a refusal or a stop lies.
ghost use Rattle.std.specs.Prelude.{◌≡◌, ◌<◌};
ghost use Rattle.language.specs.Programs.{row_place, max_functions};

// "A row as a place is 2,048 times the function's number plus the row."
const FUNCTION_PLACES: usize = 2048;

// A row of function i, as a place.
pub fn row_place(i: usize, row: usize) -> usize
    requires { (i < max_functions) × (row < 65536) }
    ensures { result ≡ row_place i row }
{
    FUNCTION_PLACES * i + row
}
