//! The keywords (C11 6.4.1): those of the language, and those of C that it leaves out. No name is one of either.
ghost use Rattle.std.specs.Prelude.{◌≡◌};
ghost use Rattle.oss_grammar.specs.Words.{is_keyword, is_left_out_keyword, is_used_keyword};

/// Whether a word is a keyword, one that is left out too: a keyword of C (C11 6.4.1), or `printf`, which is a
/// keyword of this language and not of C.
#[tactic(auto, unfolding(oss_grammar::specs::Words::is_keyword))]
pub(crate) fn is_reserved(word: &[u8]) -> bool
    ensures { result ≡ is_keyword word.now }
{
    is_used(word) || is_left_out(word)
}

/// Whether a word is a keyword for which the grammar has a place.
#[tactic(auto, unfolding(oss_grammar::specs::Words::is_used_keyword))]
fn is_used(word: &[u8]) -> bool
    ensures { result ≡ is_used_keyword word.now }
{
    word == b"int".as_slice()
        || word == b"long".as_slice()
        || word == b"unsigned".as_slice()
        || word == b"void".as_slice()
        || word == b"if".as_slice()
        || word == b"else".as_slice()
        || word == b"while".as_slice()
        || word == b"for".as_slice()
        || word == b"return".as_slice()
        || word == b"break".as_slice()
        || word == b"continue".as_slice()
        || word == b"printf".as_slice()
}

/// Whether a word is a keyword of C that has no place in the grammar. It stays reserved, so that it is refused
/// and never taken as a name.
#[tactic(auto, unfolding(oss_grammar::specs::Words::is_left_out_keyword))]
fn is_left_out(word: &[u8]) -> bool
    ensures { result ≡ is_left_out_keyword word.now }
{
    word == b"auto".as_slice()
        || word == b"case".as_slice()
        || word == b"char".as_slice()
        || word == b"const".as_slice()
        || word == b"default".as_slice()
        || word == b"do".as_slice()
        || word == b"double".as_slice()
        || word == b"enum".as_slice()
        || word == b"extern".as_slice()
        || word == b"float".as_slice()
        || word == b"goto".as_slice()
        || word == b"inline".as_slice()
        || word == b"register".as_slice()
        || word == b"restrict".as_slice()
        || word == b"short".as_slice()
        || word == b"signed".as_slice()
        || word == b"sizeof".as_slice()
        || word == b"static".as_slice()
        || word == b"struct".as_slice()
        || word == b"switch".as_slice()
        || word == b"typedef".as_slice()
        || word == b"union".as_slice()
        || word == b"volatile".as_slice()
}
