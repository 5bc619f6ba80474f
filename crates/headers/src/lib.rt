// FreeBSD's fs.h, dinode.h, dir.h and extattr.h as definitions (specs/): what the codecs of the other rooms are held to. No code stands here.
#![tactic(auto)]
