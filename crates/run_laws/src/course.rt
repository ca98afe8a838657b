//! The law of place independence: under a calm journal every whole run follows the course.
#![tactic(auto)]

ghost use Rattle.run_laws.specs.Course.{OneCourse, AllAlike, CourseExists, OneCourseFromStart};

/// The law of place independence: where no two entries come after the same number of instructions and each arrives in a
/// settled state, every whole run has the moves of the course but for where entries were presented, its ending and its texts.
#[tactic(auto, using(crate::proofs::CourseLemmas::one_course))]
pub fn one_course()
    ensures { OneCourse }
{}

/// Any two whole runs under a calm journal have the same moves but for where entries were presented, the same ending and the
/// same texts.
#[tactic(auto, using(crate::proofs::CourseLemmas::all_alike))]
pub fn all_alike()
    ensures { AllAlike }
{}

/// From a good state within the budget there is one course, and it is a whole run.
#[tactic(auto, using(crate::proofs::CourseRuns::course_exists))]
pub fn course_exists()
    ensures { CourseExists }
{}

/// From the machine's start, where entries are apart, there is one course, and where its entries arrive in settled states
/// every whole run follows it.
#[tactic(auto, using(crate::proofs::CourseRuns::one_course_from_start))]
pub fn one_course_from_start()
    ensures { OneCourseFromStart }
{}
