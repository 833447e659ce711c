//! The values of options.

ghost use Rattle.std.specs.Prelude.{◌≡◌, map, option_map};
ghost use Rattle.std.specs.String.{string_bytes};
ghost use Rattle.oss_command.specs.Commands.{behind as behind_in, standing, values_of};
ghost use Rattle.oss_command.specs.Values.{stands};

/// How an option stands among words.
#[derive(Clone, Copy)]
pub(crate) enum Stands<'w> {
    /// It does not.
    Absent,
    /// Once, with this value.
    Once(&'w [u8]),
    /// More than once.
    Again,
}

/// What stands behind this front of a word, where it begins so.
pub(crate) fn behind<'w>(front: &[u8], word: &'w [u8]) -> Option<&'w [u8]>
    ensures { option_map (λ value. value.now) result ≡ behind_in front.now word.now }
{
    if front.len() > word.len() {
        return None;
    }
    let (head, rest) = word.split_at(front.len());
    if head == front { Some(rest) } else { None }
}

/// How the option with this name stands among the words.
pub(crate) fn value_of<'w>(name: &[u8], words: &'w [String]) -> Stands<'w>
    ensures { stands result ≡ standing (values_of name.now (map string_bytes words.now)) }
{
    let mut found = Stands::Absent;
    for word in words {
        if let Some(value) = behind(name, word.as_bytes()) {
            found = match found {
                Stands::Absent => Stands::Once(value),
                Stands::Once(_) => Stands::Again,
                Stands::Again => Stands::Again,
            };
        }
    }
    found
}
