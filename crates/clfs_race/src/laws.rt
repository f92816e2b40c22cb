// What follows from the definition of the language alone.
ghost use Rattle.std.specs.Prelude.{◌≡◌, ◌≤◌, ℕ, List, true, length};
ghost use Rattle.clfs_model.specs.Run.{is_no_reopening};
ghost use Rattle.clfs_model.specs.Script.{Language, calls_alone, request_in};
ghost use Rattle.clfs_race.specs.Meets.{Meets};

/// What a line asks for meets the condition of its call: a name and data are no longer than the line, and numbers are within their words' ranges.
/// In the language of calls alone no line asks to open the log again.
pub fn lines_meet_their_conditions()
    ensures meets { (language : Language) (line : List ℕ) → length line ≤ 4294967295 → Meets (request_in language line) }
    ensures calls { (line : List ℕ) → is_no_reopening (request_in calls_alone line) ≡ true }
{}
