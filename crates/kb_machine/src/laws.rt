//! The laws of courses. They do nothing when they run.

ghost use Rattle.std.specs.Prelude.{ℕ};
ghost use Rattle.kb_machine.specs.Course.{Course, IsCourse, IsSound};
ghost use Rattle.kb_machine.specs.Letters.{AreOver, IsStateOver};

/// Whatever the order of the events is, and whoever enters overlaps: along every course the live
/// rules and the pending pairs generate the congruence of the relations, the log is justified, each
/// left side has a live one as a factor, and a halt has its limit and a pair that waits.
pub fn courses_are_sound()
    ensures { (course : Course) → IsCourse course → IsSound course.problem course.state }
{}

/// No course brings new letters: where the relations are over n letters, so are the lines, the pending pairs and the
/// pair of a halt.
pub fn courses_bring_no_letters()
    ensures { (n : ℕ) (course : Course) → AreOver n course.problem.relations → IsCourse course
        → IsStateOver n course.problem course.state }
{}
