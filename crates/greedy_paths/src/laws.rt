//! Laws on booked paths: each function has an empty body, and its contract is the law.

ghost use Rattle.greedy_paths.specs.Laws.{BookedPathsAreOneList, BuiltOnBookedIsFirst};

/// Runs book one list of paths.
pub fn booked_paths_are_one_list()
    ensures { BookedPathsAreOneList }
{}

/// What is built on the booked paths has the fewest entries of all first answers.
pub fn built_on_booked_is_first()
    ensures { BuiltOnBookedIsFirst }
{}
