// dir.rs: dir_lookup, the public call.
#![tactic(auto)]

ghost use Rattle.std.specs.Prelude.{◌≡◌};
ghost use Rattle.frame.specs.Frame.{Frame};
ghost use Rattle.dirlookup.specs.Lookup.{lookup_for, dir_lookup, lookup_of};

use refusal::Refusal;
use volume::{Geometry, InodeNum};

// The lookup on a sound volume, its image lent: mknod asks the same.
pub fn lookup_in(img: &[u8], geo: Geometry, dinr: InodeNum, name: &[u8]) -> Result<u32, Refusal>
    requires { Frame geo img.now }
    ensures { result ≡ lookup_of (lookup_for img.now dinr.0 name.now geo) }
{
    if !dirnames::is_taken(name, false) {
        return Err(Refusal::Invalid);
    }
    if !dirnames::is_short(name) {
        return Err(Refusal::NameTooLong);
    }
    let s = dirfile::find_dir(img, geo, dinr)?;
    let shape = s.shape;
    // Not a `?`, so that a must-fail edit can change what is answered here.
    let Ok(found) = dirwalk::lookup_dir(img, geo, s.at, shape.size, name) else {
        return Err(Refusal::Damaged); // what is behind it may have the name
    };
    match found {
        Some(i) => Ok(i),
        None => Err(Refusal::NoEntry),
    }
}

// dir_lookup: the inode of the first listed record of that name.
pub fn dir_lookup(img: &[u8], dinr: InodeNum, name: &[u8]) -> Result<u32, Refusal>
    ensures { result ≡ lookup_of (dir_lookup img.now dinr.0 name.now) }
{
    // Not a `?`, so that a must-fail edit can change what is answered here.
    let Ok(geo) = sound::take_volume(img) else {
        return Err(Refusal::Damaged); // an unsound volume
    };
    lookup_in(img, geo, dinr, name)
}
