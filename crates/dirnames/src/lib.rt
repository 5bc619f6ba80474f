// The names that a directory call is given, before anything else of it is judged.
#![tactic(auto)]

ghost use Rattle.std.specs.Prelude.{◌≡◌};
ghost use Rattle.dirnames.specs.Names.{plain, legal, special, taken, short};

fn is_plain(b: u8) -> bool
    ensures { result ≡ plain b }
{
    !((b == b'/') | (b == 0))
}

// Every byte is looked at, whatever the length: a bad name is told before a long one.
fn is_legal(name: &[u8]) -> bool
    ensures { result ≡ legal name.now }
{
    name.iter().all(|b| is_plain(*b)) && !name.is_empty()
}

fn is_special(name: &[u8]) -> bool
    ensures { result ≡ special name.now }
{
    if name.len() == 1 {
        return name[0] == b'.';
    }
    if name.len() == 2 {
        return (name[0] == b'.') & (name[1] == b'.');
    }
    false
}

// Whether a call takes the name, or one that it makes, renames or removes a directory by.
pub fn is_taken(name: &[u8], made: bool) -> bool
    ensures { result ≡ taken made name.now }
{
    is_legal(name) & !(made & is_special(name))
}

pub fn is_short(name: &[u8]) -> bool
    ensures { result ≡ short name.now }
{
    name.len() <= 255
}
