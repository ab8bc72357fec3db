// Which of the page's rows to mark, by a question asked of each.
ghost use Rattle.std.specs.Prelude.{◌≡◌, ℕ, Bool, ◌&&◌, ◌<◌, ◌≤◌};
ghost use Rattle.page.specs.Asked.{AnswersAs};
ghost use Rattle.page.specs.Marks.{marked_too};
ghost use Rattle.marking.specs.HowMarked.{in_group};

use std::ops::Range;

// Marks those of the given rows of which the question is answered yes. A row that is marked already is not asked. The
// marks are changed in place: as an array by value they would be taken apart. (A loop over numbers, since a row's number is
// what is asked.)
pub fn mark_where<F: Fn(u8) -> bool>(marks: &mut [bool; 25], rows: Range<usize>, question: F)
    requires { (rows.start ≤ rows.end) × (rows.end ≤ 25) × ((r : ℕ) → r < 25 → F.pre question r) }
    ensures { (test : ℕ → Bool) → AnswersAs (F.post question) test 25
        → marks.new ≡ marked_too (λ r. in_group rows.start rows.end r && test r) marks.old }
{
    for r in rows.start..rows.end {
        marks[r] = marks[r] || question(r as u8);
    }
}
