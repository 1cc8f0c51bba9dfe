ghost use Rattle.std.specs.Prelude.{◌≡◌, ◌≢◌, IfSome, IfNone};
ghost use Rattle.m17_words.specs.declared.first.FirstWord.{FirstWord};
ghost use Rattle.m17_words.specs.First.{text_of_first};

// The first word of a command.
#[derive(Clone, Copy)]
pub(crate) enum FirstWord {
    Judge,
    Show,
    Replay,
    Make,
    Check,
    Migrate,
    Talk,
    Serve,
    Bridge,
}

// Which command's first word a text is, byte for byte.
pub(crate) fn first_word(text: &str) -> Option<FirstWord>
    ensures is_word { IfSome result (λ word. text.now ≡ text_of_first word) }
    ensures no_word { IfNone result ((word : FirstWord) → text.now ≢ text_of_first word) }
{
    match text {
        "judge" => Some(FirstWord::Judge),
        "show" => Some(FirstWord::Show),
        "replay" => Some(FirstWord::Replay),
        "make" => Some(FirstWord::Make),
        "check" => Some(FirstWord::Check),
        "migrate" => Some(FirstWord::Migrate),
        "talk" => Some(FirstWord::Talk),
        "serve" => Some(FirstWord::Serve),
        "bridge" => Some(FirstWord::Bridge),
        _ => None,
    }
}
