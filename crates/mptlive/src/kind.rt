//! The words of the command line.
ghost use Rattle.std.specs.Prelude.{◌≡◌, drop, map, string_bytes};
ghost use Rattle.mptlive.specs.Kind.{kind_of};

/// What is printed of a session.
#[derive(Clone, Copy, Debug, PartialEq, Eq)]
pub enum ReportKind {
    /// No word: every entry of the trace, and the summary.
    Whole,
    /// `show`: the same without inputs, puts and takes.
    Short,
}

impl ReportKind {
    /// What the words ask for, or none where they are none of the listed forms.
    pub fn from_words(words: &[String]) -> Option<ReportKind>
        ensures { result ≡ kind_of (map string_bytes words.now) }
    {
        match words {
            [] => Some(ReportKind::Whole),
            [word] if word.as_str() == "show" => Some(ReportKind::Short),
            _ => None,
        }
    }
}

/// The words after the program's name, which is the first argument. No argument, no words.
pub fn words_of(arguments: &[String]) -> &[String]
    ensures { result.now ≡ drop 1 arguments.now }
{
    match arguments {
        [] => arguments,
        [_, words @ ..] => words,
    }
}
