//! Laws of the grammar.
ghost use Rattle.std.specs.Prelude.{◌≡◌, ◌<◌, ℕ, List, Ok, Some, decimal, true, [], ◌∷◌, ◌++◌, length, ◌≤◌};
ghost use Rattle.std.specs.List.{flat_map};
ghost use Rattle.mss_base.specs.Decimal.{number_of};
ghost use Rattle.job_text.specs.Words.{is_number, number_word};
ghost use Rattle.job_text.specs.Lines.{LineData, line_of};
ghost use Rattle.job_text.specs.Grammar.{SoFar, TEXT_LIMIT, nothing, after_line, line_after, is_after, job, job_of};
ghost use Rattle.job_text.specs.Jobs.{JobData, IsJob, AreRunnableScripts};
ghost use Rattle.job_text.specs.Canonical.{job_text, IsLine, IsAllowed, keyword_of, words_said, line_bytes, line_text, LeadsTo};

/// Each number is read back from its decimal digits, which are its only spelling.
pub fn one_spelling()
    ensures back { (n : ℕ) → n < 100000 → number_word (decimal n) ≡ Some n }
    ensures only { (word : List ℕ) → is_number word ≡ true → decimal (number_of word) ≡ word }
{}

/// Each line is read back from its canonical words.
pub fn line_back()
    ensures { (line : LineData) → IsLine line
        → line_of (keyword_of line) (words_said line) ≡ Ok line }
{}

/// A line's canonical text, where its keyword may stand, is judged as what it says.
pub fn text_back()
    ensures { (s : SoFar) (line : LineData) → IsLine line → IsAllowed s.place (keyword_of line)
        → line_after s (line_bytes line) ≡ after_line s line }
{}

/// Each job that is read keeps what jobs keep.
pub fn jobs_are_whole()
    ensures { (text : List ℕ) (j : JobData) → job_of text ≡ Ok j → IsJob j }
{}

/// The programs of a job can be run: each has 1 to 256 words.
pub fn programs_can_be_run()
    ensures job { (j : JobData) → IsJob j → AreRunnableScripts j.hosts }
    ensures read { (text : List ℕ) (j : JobData) → job_of text ≡ Ok j → AreRunnableScripts j.hosts }
{}

/// A job that keeps what jobs keep is read back from its canonical text, with the last line feed or without it.
pub fn job_back()
    ensures fed { (j : JobData) → IsJob j → length (job_text j) ≤ TEXT_LIMIT
        → job_of (job_text j) ≡ Ok j }
    ensures unfed { (j : JobData) (text : List ℕ) → IsJob j → job_text j ≡ text ++ 10 ∷ []
        → length text ≤ TEXT_LIMIT → job_of text ≡ Ok j }
{}

/// The canonical texts of lines, each of which stands where it may and is good, are read as the job that they say.
pub fn lines_back()
    ensures { (lines : List LineData) (t : SoFar) → LeadsTo nothing lines t
        → is_after t.place ≡ true
        → length (flat_map line_text lines) ≤ TEXT_LIMIT
        → job_of (flat_map line_text lines) ≡ Ok (job t) }
{}
