// The words that a line can begin with.
ghost use Rattle.scenario.specs.Keywords.{keyword_of, spelling};
ghost use Rattle.std.specs.Prelude.{◌≡◌, IfSome};

#[derive(Clone, Copy, PartialEq, Eq, Debug)]
pub enum Keyword {
    Brake,
    Blur,
    Controllers,
    Train,
    Tick,
    Mark,
    Report,
    Hear,
    Tell,
    Grant,
    Take,
    Restart,
}

impl Keyword {
    // The keyword that a word is, if it is one.
    pub fn of(word: &str) -> Option<Keyword>
        ensures is { result ≡ keyword_of word.now }
        ensures spelled { IfSome result (λ found. word.now ≡ spelling found) }
    {
        Some(match word {
            "brake" => Keyword::Brake,
            "blur" => Keyword::Blur,
            "controllers" => Keyword::Controllers,
            "train" => Keyword::Train,
            "tick" => Keyword::Tick,
            "mark" => Keyword::Mark,
            "report" => Keyword::Report,
            "hear" => Keyword::Hear,
            "tell" => Keyword::Tell,
            "grant" => Keyword::Grant,
            "take" => Keyword::Take,
            "restart" => Keyword::Restart,
            _ => return None,
        })
    }
}
